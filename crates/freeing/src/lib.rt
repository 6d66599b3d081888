// The freeing step, which the cascade and the sweep share: a cell becomes free.
#![tactic(auto)]

ghost use Rattle.std.specs.Prelude.{◌≡◌, ◌+◌, ◌*◌, ◌≤◌, length};
ghost use Rattle.rules.specs.Heap.{plain, wiped_slots, wipe};
ghost use Rattle.rules.specs.Tables.{lent, SameTables};
ghost use Rattle.freeing.specs.Freeing.{CellInTables};

use numbers::Cell;
use rules::tables::TablesMut;

// Whether this is the kind of a string or buffer.
pub fn is_plain(kind: u16) -> bool
    ensures { result ≡ plain kind }
{
    if kind == 2 {
        return true;
    }
    if kind == 3 {
        return true;
    }
    false
}

// The eight slots of a cell of this kind become empty; those of a string or buffer are not written, whatever stands there.
fn empty_slots(slots: &mut [u16], cell: Cell, kind: u16)
    requires { 8 * cell.0 + 8 ≤ length slots.old }
    ensures { slots.new ≡ wiped_slots kind slots.old cell.0 }
{
    if is_plain(kind) {
        return;
    }
    // one by one: the proof of a `fill` of these eight did not close
    for k in 0..8 {
        slots[8 * cell.index() + k] = 0;
    }
}

// A cell becomes free: its kind, flags and count become 0, and its slots too, unless it was a string or buffer.
pub fn free_cell(tables: &mut TablesMut, cell: Cell)
    requires { CellInTables (lent tables.old) cell.0 }
    ensures same { SameTables tables.old tables.new }
    ensures freed { lent tables.new ≡ wipe (lent tables.old) cell.0 }
{
    let c = cell.index();
    // before the kind is 0, since it tells whether the slots are written
    let old_kind = tables.kind[c];
    tables.kind[c] = 0;
    tables.flags[c] = 0;
    tables.count[c] = 0;
    empty_slots(tables.slots, cell, old_kind);
}
