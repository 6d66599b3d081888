// The lines of a report, put into a buffer one after another. The room is required, not checked: a line that is cut short would be a wrong line.
// `as` widens here: From says no more, and each use of it is a further step for the proof.
ghost use Rattle.std.specs.Prelude.{◌+◌, ◌*◌, ◌-◌, ◌≤◌, [], ◌∷◌, ◌++◌, length};
ghost use Rattle.csv_text.specs.Written.{Wrote};
ghost use Rattle.rules.specs.AuditReport.{columns, cell_line, heap_line, totals_line, cell_lines};
ghost use Rattle.report.specs.Room.{Room, entry};

use crate::cell::put_cell;
use crate::columns::put_columns;
use csv_text::COMMA;
use csv_text::number::put_byte;
use csv_text::render::put_field;
use rules::audit::Row;
use signed::wide;

// The most bytes of a cell's line, and of the totals.
pub const CELL_LINE: usize = 65;

pub const TOTALS_LINE: usize = 129;

// A cell's line.
fn cell_line(out: &mut [u8], at: usize, heap: u64, cell: u64, difference: i32) -> usize
    requires { at + 65 ≤ length out.old }
    ensures wrote { Wrote out.old at (cell_line heap cell difference) out.new result }
    ensures upper_bound { result ≤ at + 65 }
{
    let a = put_field(out, at, heap);
    let b = put_field(out, a, cell);
    put_cell(out, b, wide(difference))
}

// The lines of the cells from `first` on, up to but not with `end`.
pub fn cell_lines(out: &mut [u8], heap: u64, differences: &[i32], first: usize, end: usize) -> usize
    requires { (first ≤ end) × (end ≤ length differences.now) × (65 * (end - first) ≤ length out.old) }
    ensures wrote { Wrote out.old 0 (cell_lines heap (entry differences.now) first (end - first)) out.new result }
    ensures upper_bound { result ≤ 65 * (end - first) }
{
    let mut at = 0;
    // by the cell's number, which the line says
    for c in first..end {
        at = cell_line(out, at, heap, c as u64, differences[c]);
    }
    at
}

// An empty cell, and the row.
fn put_row(out: &mut [u8], at: usize, row: Row) -> usize
    requires { Room out.old at ((44 ∷ []) ++ columns row) }
    ensures { Wrote out.old at ((44 ∷ []) ++ columns row) out.new result }
{
    let a = put_byte(out, at, COMMA);
    put_columns(out, a, row)
}

// A heap's own line: "cell empty".
pub fn heap_line(out: &mut [u8], heap: u64, row: Row) -> usize
    requires { 149 ≤ length out.old }
    ensures wrote { Wrote out.old 0 (heap_line heap row) out.new result }
    ensures upper_bound { result ≤ 149 }
{
    let a = put_field(out, 0, heap);
    put_row(out, a, row)
}

// The last line: "the totals, heap empty too".
pub fn totals_line(out: &mut [u8], row: Row) -> usize
    requires { 129 ≤ length out.old }
    ensures wrote { Wrote out.old 0 (totals_line row) out.new result }
    ensures upper_bound { result ≤ 129 }
{
    let a = put_byte(out, 0, COMMA);
    put_row(out, a, row)
}
