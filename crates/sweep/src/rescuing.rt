// Marked cells that were finalised get their finalizer back, unless the queue held any cells when COLLECT began.
ghost use Rattle.std.specs.Prelude.{◌*◌, ◌≤◌, ◌<◌, length};
ghost use Rattle.rules.specs.Words.{bits_of};
ghost use Rattle.sweep.specs.Phases.{is_rescued, only, Restored, Decided};

use crate::cells::is_rescued;
use numbers::Cell;

// A cell gets flags 1 again, if it is rescued.
fn rescue_cell(flags: &mut [u16], marked: &[u64], cell: Cell)
    requires { (cell.0 < length flags.old) × (length flags.old ≤ 64 * length marked.now) }
    ensures { Restored flags.old (only (is_rescued flags.old (bits_of (length flags.old) marked.now) cell.0) cell.0) flags.new }
{
    if !is_rescued(flags, marked, cell) {
        return;
    }
    flags[cell.index()] = 1;
}

// All rescued cells get flags 1 again, if no cells were waiting when COLLECT began: what these reach is marked as well, and need not have been rescued.
pub fn rescue_marked(flags: &mut [u16], marked: &[u64], waiting: u16)
    requires { length flags.old ≤ 64 * length marked.now }
    ensures { Decided waiting flags.old (bits_of (length flags.old) marked.now) flags.new }
{
    if waiting != 0 {
        return;
    }
    // by the cell's number, which is what is handed on
    for c in 0..flags.len() {
        let Some(cell) = Cell::of(c, flags.len()) else {
            return;
        };
        rescue_cell(flags, marked, cell);
    }
}
