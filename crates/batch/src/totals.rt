// Running totals, raised by an answer.
ghost use Rattle.std.specs.Prelude.{◌≡◌};
ghost use Rattle.rules.specs.Batch.{raised_by};
ghost use Rattle.batch.specs.Room.{CanRaise};

use rules::batch::Totals;
use rules::{Answer, DONE};

// The totals with one answer more.
fn added(t: Totals, a: Answer) -> Totals
    requires { CanRaise t a }
    ensures { result ≡ raised_by t a }
{
    let freed = t.freed + u64::from(a.freed);
    let queued = t.queued + u64::from(a.queued);
    if a.refused == DONE {
        return Totals {
            done: t.done + 1,
            freed,
            queued,
            ..t
        };
    }
    Totals {
        refused: t.refused + 1,
        freed,
        queued,
        ..t
    }
}

// The totals raised in place.
pub(crate) fn raise(t: &mut Totals, a: Answer)
    requires { CanRaise t.old a }
    ensures { t.new ≡ raised_by t.old a }
{
    *t = added(*t, a);
}
