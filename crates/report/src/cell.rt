// The columns of one cell: by the side of zero that its difference is on, all but that number is known.
ghost use Rattle.std.specs.Prelude.{[], ◌∷◌, ◌+◌, ◌≤◌, length};
ghost use Rattle.csv_text.specs.Written.{Wrote};
ghost use Rattle.rules.specs.Audit.{cell_row};
ghost use Rattle.rules.specs.AuditReport.{columns};
ghost use Rattle.report.specs.Room.{Room, side_text};

use crate::columns::put_signed;
use csv_text::number::put_byte;
use signed::negative;

// Six bytes, which the compiler writes as two words: a byte string is copied in a loop, with a quarter more instructions for each line of a report.
fn put_six(out: &mut [u8], at: usize, a: u8, b: u8, c: u8, d: u8, e: u8, f: u8) -> usize
    requires { at + 6 ≤ length out.old }
    ensures { Wrote out.old at (a ∷ b ∷ c ∷ d ∷ e ∷ f ∷ []) out.new result }
{
    let one = put_byte(out, at, a);
    let two = put_byte(out, one, b);
    let three = put_byte(out, two, c);
    let four = put_byte(out, three, d);
    let five = put_byte(out, four, e);
    put_byte(out, five, f)
}

// The columns below, at and above. A match on the order of x and zero takes a tenth more instructions for each line than these tests.
fn put_side(out: &mut [u8], at: usize, x: i64) -> usize
    requires { at + 6 ≤ length out.old }
    ensures { Wrote out.old at (side_text x) out.new result }
{
    if negative(x) {
        return put_six(out, at, b'1', b',', b'0', b',', b'0', b',');
    }
    if x == 0 {
        return put_six(out, at, b'0', b',', b'1', b',', b'0', b',');
    }
    put_six(out, at, b'0', b',', b'0', b',', b'1', b',')
}

// All six, and the line's end.
pub fn put_cell(out: &mut [u8], at: usize, x: i64) -> usize
    requires { Room out.old at (columns (cell_row x)) }
    ensures { Wrote out.old at (columns (cell_row x)) out.new result }
{
    let a = put_side(out, at, x);
    let b = put_signed(out, a, x);
    put_six(out, b, b',', b'0', b',', b'0', b'\r', b'\n')
}
