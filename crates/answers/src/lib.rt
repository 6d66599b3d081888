// The answers of calls: of a refusal, and of a call that is done. NEW and COLLECT make their own.
// `as` narrows here what is known to fit: a TryFrom would leave a way out that is never taken.
#![tactic(auto)]

ghost use Rattle.std.specs.Prelude.{◌≡◌, ◌<◌};
ghost use Rattle.rules.specs.Calls.{answers};
ghost use Rattle.rules.specs.Refused.{answer_of};

use rules::refusal::Refusal;
use rules::{Answer, DONE};

// Nothing freed, nothing queued, no cell made.
fn bare_answer(refused: u16) -> Answer
    ensures { result ≡ answers refused 0 0 0 }
{
    Answer {
        refused,
        freed: 0,
        queued: 0,
        cell: 0,
    }
}

// The answer of a call that is refused, by the number or by the reason.
pub fn refuse<N: Into<u16>>(why: N) -> Answer
    ensures { (N.converts why result.refused) × (result ≡ answers result.refused 0 0 0) }
{
    bare_answer(why.into())
}

// The answer of a call that was done, or refused.
pub fn answered(call: Result<Answer, Refusal>) -> Answer
    ensures { result ≡ answer_of call }
{
    call.unwrap_or_else(refuse)
}

// The answer of a call that is done, and has freed, queued and made nothing.
pub fn done() -> Answer
    ensures { result ≡ answers 0 0 0 0 }
{
    bare_answer(DONE)
}

// The answer of a call that is done, and has freed and queued so many cells.
pub fn finished(freed: usize, queued: u16) -> Answer
    requires { freed < 65536 }
    ensures { result ≡ answers 0 freed queued 0 }
{
    Answer {
        refused: DONE,
        freed: freed as u16,
        queued,
        cell: 0,
    }
}
