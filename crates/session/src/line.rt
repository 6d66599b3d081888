// A line of the input, obeyed and answered.
ghost use Rattle.std.specs.Prelude.{◌≡◌, cond, ◌+◌, ◌≤◌, eqb, length};
ghost use Rattle.csv_text.specs.Written.{Wrote};
ghost use Rattle.laws.specs.Calls.Admission.{admission};
ghost use Rattle.rules.specs.Asked.{call_of, Obeyed};
ghost use Rattle.rules.specs.Refused.{refused};
ghost use Rattle.rules.specs.Tables.{lent, SameTables};
ghost use Rattle.session.specs.Session.{line_of, line_for, after_line};

use answers::refuse;
use csv_text::reader::{Malformed, Numbers, Record};
use csv_text::render::render;
use rules::Answer;
use rules::refusal::Refusal;
use rules::tables::TablesMut;
use steps::{names_call, step};

// The most bytes that an output line takes.
pub const ANSWER_LEN: usize = 31;

// The call's number in an output line: a line that is refused LINE has 0 as its call.
fn number_of(op: u16, refused: u16) -> u16
    ensures { result ≡ cond (eqb refused 11) 0 op }
{
    if refused == u16::from(Refusal::Line) {
        0
    } else {
        op
    }
}

// The output line of call `op`, written at `at`; the place after it.
fn write_answer(out: &mut [u8], at: usize, op: u16, a: Answer) -> usize
    requires { at + 31 ≤ length out.old }
    ensures wrote { Wrote out.old at (line_of op a) out.new result }
    ensures upper_bound { result ≤ at + 31 }
{
    render(
        out,
        at,
        number_of(op, a.refused),
        a.refused,
        a.freed,
        a.queued,
        a.cell,
    )
}

// What a line asks for is done, or refused. `admitted` is what `admit` says of the tables: a line that names a call is refused by that.
fn obey(
    tables: &mut TablesMut,
    admitted: Result<(), Refusal>,
    op: u16,
    x: usize,
    y: usize,
    z: usize,
) -> Answer
    requires { refused admitted ≡ admission (lent tables.old) }
    ensures same { SameTables tables.old tables.new }
    ensures obeyed { Obeyed (call_of op x y z) (lent tables.old) (lent tables.new) result }
{
    if let Err(why) = admitted {
        if names_call(op, x, y, z) {
            return refuse(why);
        }
        return refuse(Refusal::Line);
    }
    // An answer's line names no cells, so that no list of them is asked for.
    let mut unlisted = [0u16; 0];
    step(tables, &mut unlisted, op, x, y, z)
}

// Obeys a line and writes its answer at `at`; the place after it.
pub fn answer(
    tables: &mut TablesMut,
    admitted: Result<(), Refusal>,
    said: Record,
    out: &mut [u8],
    at: usize,
) -> usize
    requires admitted { refused admitted ≡ admission (lent tables.old) }
    requires at_in_bounds { at + 31 ≤ length out.old }
    ensures same { SameTables tables.old tables.new }
    ensures after { lent tables.new ≡ after_line (lent tables.old) said }
    ensures wrote { Wrote out.old at (line_for (lent tables.old) said) out.new result }
    ensures upper_bound { result ≤ at + 31 }
{
    match said {
        Ok(Numbers(op, x, y, z)) => {
            let a = obey(
                tables,
                admitted,
                op,
                usize::from(x),
                usize::from(y),
                usize::from(z),
            );
            write_answer(out, at, op, a)
        }
        Err(Malformed) => write_answer(out, at, 0, refuse(Refusal::Line)),
    }
}
