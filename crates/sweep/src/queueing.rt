// Unmarked objects with a finalizer to run join the queue.
// `as` widens here: From says no more, and each use of it is a further step for the proof.
ghost use Rattle.std.specs.Prelude.{◌<◌, length};
ghost use Rattle.rules.specs.Tables.{lent, SameTables};
ghost use Rattle.rules.specs.Words.{bits_of};
ghost use Rattle.sweep.specs.Phases.{is_finalizable, due_of, only, Searchable, QueueRoom, Queued};

use crate::cells::is_finalizable;
use numbers::Cell;
use rules::tables::TablesMut;
use words::search::open_cells;

// A cell joins the end of the queue if its finalizer is still to run, its count rising by 1; answers how many joined, 0 or 1.
fn queue_cell(tables: &mut TablesMut, cell: Cell) -> u16
    requires cell_in_bounds { cell.0 < length tables.old.kind.now }
    requires queue_room { QueueRoom (lent tables.old) (only (is_finalizable tables.old.kind.now tables.old.flags.now cell.0) cell.0) }
    ensures same { SameTables tables.old tables.new }
    ensures queued { Queued (lent tables.old) (only (is_finalizable tables.old.kind.now tables.old.flags.now cell.0) cell.0)
        (lent tables.new) result }
{
    if !is_finalizable(tables, cell) {
        return 0;
    }
    let end = tables.control[0];
    tables.queue[end as usize] = cell.reference();
    tables.control[0] = end + 1;
    tables.count[cell.index()] += 1;
    1
}

// Every unmarked cell whose finalizer is still to run joins the queue, in order of cell number; answers how many.
pub fn queue_unmarked(tables: &mut TablesMut, used: &[u64], marked: &[u64]) -> u16
    requires searchable { Searchable tables.old.kind.now used.now marked.now }
    requires queue_room { QueueRoom (lent tables.old)
        (due_of tables.old.kind.now tables.old.flags.now (bits_of (length tables.old.kind.now) marked.now)) }
    ensures same { SameTables tables.old tables.new }
    ensures queued { Queued (lent tables.old)
        (due_of tables.old.kind.now tables.old.flags.now (bits_of (length tables.old.kind.now) marked.now)) (lent tables.new) result }
{
    let cells = tables.kind.len();
    let mut queued = 0;
    for cell in open_cells(used, marked, cells) {
        queued += queue_cell(tables, cell);
    }
    queued
}
