// The table that a call is lent for the cells that it frees.
// `as` widens here: From says no more, and each use of it is a further step for the proof.
ghost use Rattle.std.specs.Prelude.{◌≡◌, ◌≤◌, length};
ghost use Rattle.rules.specs.Refused.{refused};
ghost use Rattle.rules.specs.Tables.{lent};
ghost use Rattle.laws.specs.Calls.Outer.{admission_lent, Ended};

use allocation::zero;
use rules::refusal::Refusal;
use rules::tables::TablesMut;
use rules::{Answer, DONE};
use soundness::admit;

// What every call but FRESH asks first: SIZE where that table has not N entries, else what the heap's tables say.
pub(crate) fn admit_lent(tables: &TablesMut, freed: &[u16]) -> Result<(), Refusal>
    ensures { refused result ≡ admission_lent (lent tables.now) freed.now }
{
    if freed.len() != tables.kind.len() {
        return Err(Refusal::Size);
    }
    admit(tables)
}

// The rest of the table becomes 0 behind the list of a call done. A refused call leaves the table as it was.
pub(crate) fn end_list(freed: &mut [u16], answer: Answer)
    requires { answer.freed ≤ length freed.old }
    ensures { Ended answer.refused answer.freed freed.old freed.new }
{
    if answer.refused != DONE {
        return;
    }
    zero(&mut freed[answer.freed as usize..]);
}
