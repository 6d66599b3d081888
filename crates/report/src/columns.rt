// The columns that a line ends with, each a number and what stands after it.
// The buffer and the place in it stay two parameters: in one struct each clause would still name both, before the call and after it.
ghost use Rattle.csv_text.specs.Written.{Wrote};
ghost use Rattle.rules.specs.AuditReport.{signed_of, signed_field, columns};
ghost use Rattle.report.specs.Room.{Room};

use csv_text::COMMA;
use csv_text::number::{put_byte, put_number};
use csv_text::render::{put_field, put_last};
use rules::audit::Row;
use signed::{down, negative, up};

const MINUS: u8 = b'-';

// A number below zero has a minus sign.
pub fn put_signed(out: &mut [u8], at: usize, x: i64) -> usize
    requires { Room out.old at (signed_of x) }
    ensures { Wrote out.old at (signed_of x) out.new result }
{
    if negative(x) {
        let sign = put_byte(out, at, MINUS);
        return put_number(out, sign, down(x));
    }
    put_number(out, at, up(x))
}

// A sum and a comma.
fn put_sum(out: &mut [u8], at: usize, x: i64) -> usize
    requires { Room out.old at (signed_field x) }
    ensures { Wrote out.old at (signed_field x) out.new result }
{
    let digits = put_signed(out, at, x);
    put_byte(out, digits, COMMA)
}

// The six columns of a row, and the line's end.
pub fn put_columns(out: &mut [u8], at: usize, row: Row) -> usize
    requires { Room out.old at (columns row) }
    ensures { Wrote out.old at (columns row) out.new result }
{
    let a = put_field(out, at, row.below);
    let b = put_field(out, a, row.at);
    let c = put_field(out, b, row.above);
    let d = put_sum(out, c, row.sum);
    let e = put_field(out, d, row.lost);
    put_last(out, e, row.size)
}
