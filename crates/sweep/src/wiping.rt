// The second round: unmarked cells become free, and are listed.
// `as` narrows here what is known to fit: a TryFrom would leave a way out that is never taken.
ghost use Rattle.std.specs.Prelude.{◌+◌, ◌≤◌, ◌<◌, true, [], ◌∷◌, ◌≡◌, length, set};
ghost use Rattle.rules.specs.Tables.{lent, SameTables};
ghost use Rattle.rules.specs.Words.{bits_of};
ghost use Rattle.sweep.specs.Phases.{garbage_of, Searchable, Same, Lists, Freed};

use freeing::free_cell;
use numbers::Cell;
use rules::tables::TablesMut;
use words::search::open_cells;

// Whether the cells are listed: whoever asks for no list lends a table without room for every cell.
fn has_room(cells: usize, freed: &[u16]) -> bool
    ensures { Lists result cells freed.now }
{
    cells <= freed.len()
}

// The reference of a cell joins the list, which ends at `end`, if cells are listed.
fn list_cell(freed: &mut [u16], listed: bool, end: usize, cell: Cell)
    requires cell_bound { cell.0 < 1024 }
    requires end_in_bounds { listed ≡ true → end < length freed.old }
    ensures { listed ≡ true → freed.new ≡ set freed.old end (cell.0 + 1) }
{
    if !listed {
        return;
    }
    freed[end] = cell.reference();
}

// A cell becomes free and joins the list, which ends at `end`; answers the list's new end.
fn wipe_cell(
    tables: &mut TablesMut,
    freed: &mut [u16],
    listed: bool,
    end: usize,
    cell: Cell,
) -> usize
    requires sizes { Same (lent tables.old) }
    requires cell_in_bounds { cell.0 < length tables.old.kind.now }
    requires end_le_cell { (end ≤ cell.0) × (length tables.old.kind.now ≤ 1024) }
    requires lists { Lists listed (length tables.old.kind.now) freed.old }
    ensures same { SameTables tables.old tables.new }
    ensures freed { Freed (lent tables.old) (cell.0 ∷ []) (lent tables.new) freed.old end freed.new result }
{
    list_cell(freed, listed, end, cell);
    free_cell(tables, cell);
    end + 1
}

// All garbage becomes free, and is listed in order of cell number; answers how many cells.
pub fn wipe_unmarked(tables: &mut TablesMut, used: &[u64], marked: &[u64], freed: &mut [u16]) -> u16
    requires sizes { Same (lent tables.old) }
    requires searchable { Searchable tables.old.kind.now used.now marked.now × (length tables.old.kind.now ≤ 1024) }
    ensures same { SameTables tables.old tables.new }
    ensures freed { Freed (lent tables.old) (garbage_of tables.old.kind.now (bits_of (length tables.old.kind.now) marked.now))
        (lent tables.new) freed.old 0 freed.new result }
{
    let cells = tables.kind.len();
    // Asked once, since it is the same for every cell: asked of the table at each, it takes three instructions more a cell,
    // and COLLECT that frees 896 strings misses its bar, 0.90 of C.
    let listed = has_room(cells, freed);
    let mut end = 0;
    for cell in open_cells(used, marked, cells) {
        end = wipe_cell(tables, freed, listed, end, cell);
    }
    end as u16
}
