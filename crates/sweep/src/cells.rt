// Which cells COLLECT queues and rescues: a cell's kind, flags and mark tell.
ghost use Rattle.std.specs.Prelude.{◌*◌, ◌<◌, ◌≡◌, length};
ghost use Rattle.rules.specs.Words.{bits_of};
ghost use Rattle.sweep.specs.Phases.{is_finalizable, is_rescued};

use numbers::Cell;
use rules::tables::TablesMut;
use words::has_bit;

// An object whose finalizer is still to run.
pub fn is_finalizable(tables: &TablesMut, cell: Cell) -> bool
    requires cell_in_bounds { cell.0 < length tables.now.kind.now }
    requires cell_in_bounds_2 { cell.0 < length tables.now.flags.now }
    ensures { result ≡ is_finalizable tables.now.kind.now tables.now.flags.now cell.0 }
{
    tables.kind[cell.index()] == 1 && tables.flags[cell.index()] == 1
}

// A marked cell whose finalizer has run: it may run again.
pub fn is_rescued(flags: &[u16], marked: &[u64], cell: Cell) -> bool
    requires cell_in_bounds { cell.0 < length flags.now }
    requires cell_bound { cell.0 < 64 * length marked.now }
    ensures { result ≡ is_rescued flags.now (bits_of (length flags.now) marked.now) cell.0 }
{
    flags[cell.index()] == 3 && has_bit(marked, cell)
}
