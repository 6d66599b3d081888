// Output lines, put into a buffer one after another.
ghost use Rattle.std.specs.Prelude.{◌+◌, ◌≤◌, length};
ghost use Rattle.csv_text.specs.Decimal.{field_text, last_text, rendered};
ghost use Rattle.csv_text.specs.Written.{Wrote};

use crate::COMMA;
use crate::number::{put_byte, put_number};

// A number and a comma.
pub fn put_field(out: &mut [u8], at: usize, n: u64) -> usize
    requires { at + length (field_text n) ≤ length out.old }
    ensures { Wrote out.old at (field_text n) out.new result }
{
    let last = put_number(out, at, n);
    put_byte(out, last, COMMA)
}

// A number, CR and LF. One function over what stands behind the number would copy a slice of any length for these one or two bytes.
pub fn put_last(out: &mut [u8], at: usize, n: u64) -> usize
    requires { at + length (last_text n) ≤ length out.old }
    ensures { Wrote out.old at (last_text n) out.new result }
{
    let last = put_number(out, at, n);
    let half = put_byte(out, last, b'\r');
    put_byte(out, half, b'\n')
}

// An output line at `at`, and the place after it. It takes at most 31 bytes: five numbers of five digits, four commas, CR and LF.
// The room is required, not checked: a line that is cut short would be a wrong line. Five numbers and no `Answer`, which `rules` has: that rests on this crate.
pub fn render(
    out: &mut [u8],
    at: usize,
    op: u16,
    refused: u16,
    freed: u16,
    queued: u16,
    cell: u16,
) -> usize
    requires { at + 31 ≤ length out.old }
    ensures wrote { Wrote out.old at (rendered op refused freed queued cell) out.new result }
    ensures upper_bound { result ≤ at + 31 }
{
    let a = put_field(out, at, u64::from(op));
    let b = put_field(out, a, u64::from(refused));
    let c = put_field(out, b, u64::from(freed));
    let d = put_field(out, c, u64::from(queued));
    put_last(out, d, u64::from(cell))
}
