// The first round: references of unmarked cells come off their targets' counts. Each of them is counted, so that no count is met at zero.
// `as` widens here: From says no more, and each use of it is a further step for the proof.
ghost use Rattle.std.specs.Prelude.{◌+◌, ◌*◌, ◌≤◌, ◌<◌, [], ◌∷◌, ◌≡◌, length};
ghost use Rattle.rules.specs.Tables.{lent, SameTables};
ghost use Rattle.rules.specs.Words.{bits_of};
ghost use Rattle.rules.specs.Collect.{unlink_all};
ghost use Rattle.laws.specs.Sound.But.{PlainSlots};
ghost use Rattle.laws.specs.Collect.Unlinking.{Covered, SlotsCovered};
ghost use Rattle.sweep.specs.Phases.{garbage_of, Searchable, TakenOff};

use numbers::Cell;
use rules::tables::TablesMut;
use words::search::open_cells;

// A reference comes off its target's count, with no queueing and no cascade.
fn lower(count: &mut [u16], reference: u16)
    requires { Covered count.old (reference ∷ []) }
    ensures { TakenOff count.old (reference ∷ []) count.new }
{
    if reference == 0 {
        return;
    }
    count[reference as usize - 1] -= 1;
}

// The eight slots of a cell come off their targets' counts.
fn unlink_cell(tables: &mut TablesMut, cell: Cell)
    requires cell_in_bounds { cell.0 < length tables.old.kind.now }
    requires cell_in_bounds_2 { 8 * cell.0 + 8 ≤ length tables.old.slots.now }
    requires plain_slots { PlainSlots tables.old.kind.now tables.old.slots.now }
    requires slots_covered { SlotsCovered tables.old.slots.now tables.old.count.now (cell.0 ∷ []) }
    ensures same { SameTables tables.old tables.new }
    ensures unlinked { lent tables.new ≡ unlink_all (lent tables.old) (cell.0 ∷ []) }
{
    let c = cell.index();
    // A string or buffer, a cell of kind 2 or 3, has nothing in its slots; `freeing::is_plain`, which asks for these two, takes two instructions more a cell:
    // with them COLLECT that frees 896 strings misses its bar, 0.90 of C.
    if 1 < tables.kind[c] {
        return;
    }
    // not over the slots themselves: the borrow checker doesn't cover that `tables.count` is lent in a loop over `tables.slots`
    for k in 0..8 {
        let reference = tables.slots[8 * c + k];
        lower(tables.count, reference);
    }
}

// The slots of all garbage come off.
pub fn unlink_unmarked(tables: &mut TablesMut, used: &[u64], marked: &[u64])
    requires searchable { Searchable tables.old.kind.now used.now marked.now × (length tables.old.slots.now ≡ 8 * length tables.old.kind.now) }
    requires plain_slots { PlainSlots tables.old.kind.now tables.old.slots.now }
    requires slots_covered { SlotsCovered tables.old.slots.now tables.old.count.now
        (garbage_of tables.old.kind.now (bits_of (length tables.old.kind.now) marked.now)) }
    ensures same { SameTables tables.old tables.new }
    ensures unlinked { lent tables.new
        ≡ unlink_all (lent tables.old) (garbage_of tables.old.kind.now (bits_of (length tables.old.kind.now) marked.now)) }
{
    let cells = tables.kind.len();
    for cell in open_cells(used, marked, cells) {
        unlink_cell(tables, cell);
    }
}
