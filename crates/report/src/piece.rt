// The lines of a heap a piece at a time, so that a small buffer is enough for any number of cells.
ghost use Rattle.std.specs.Prelude.{◌+◌, ◌≤◌, ◌<◌};
ghost use Rattle.report.specs.Pieces.{PieceWritten, TotalsWritten};

use crate::lines::{CELL_LINE, TOTALS_LINE, cell_lines, heap_line, totals_line};
use rules::audit::Row;

// So many cells are written at once, and the room that their lines take.
const CELLS: usize = 64;

pub const PIECE: usize = CELLS * CELL_LINE;

// How many bytes were written, as a read answers how many it read, and the cell that the next piece begins with: all lines are written when it is beyond
// the heap's own line, which stands for the cell behind the last. The latter is a number, no Option: the caller compares it with the number of cells, as for the piece before, and any number may be asked for.
#[derive(Clone, Copy)]
pub struct Piece {
    pub written: usize,
    pub next: usize,
}

// Where a piece ends that begins with a cell.
fn piece_end(first: usize, cells: usize) -> usize
    requires { first < cells }
    ensures { (first < result) × (result ≤ cells) × (result ≤ first + 64) }
{
    if cells - first < CELLS {
        return cells;
    }
    first + CELLS
}

// The next lines of a heap: of its cells, or after these its own. A heap refused SIZE has no differences, and so only the latter. Nothing is written where
// there is no room for a piece, or no line is left.
pub fn write_piece(out: &mut [u8], heap: u64, row: Row, differences: &[i32], first: usize) -> Piece
    ensures { PieceWritten heap row differences.now first out.old out.new result }
{
    let cells = differences.len();
    if out.len() < PIECE || cells < first {
        return Piece {
            written: 0,
            next: first,
        };
    }
    if first == cells {
        return Piece {
            written: heap_line(out, heap, row),
            next: cells + 1,
        };
    }
    let end = piece_end(first, cells);
    Piece {
        written: cell_lines(out, heap, differences, first, end),
        next: end,
    }
}

// The last line; nothing where there is no room for the longest.
pub fn write_totals(out: &mut [u8], row: Row) -> usize
    ensures { TotalsWritten row out.old out.new result }
{
    if out.len() < TOTALS_LINE {
        return 0;
    }
    totals_line(out, row)
}
