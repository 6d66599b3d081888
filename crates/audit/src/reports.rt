// A report takes a heap's row or refuses the heap.
ghost use Rattle.std.specs.Prelude.{◌≡◌, ◌+ℤ◌};
ghost use Rattle.std.specs.Int.{w64};
ghost use Rattle.std.proofs.Common.{SFits};
ghost use Rattle.rules.specs.Audit.{none, plus, refusal_of, with};
ghost use Rattle.rules.specs.Refused.{number_of, refused};
ghost use Rattle.audit.specs.Bounds.{Small};

use crate::possible;
use rules::audit::{Audited, HEAPS_MAX, Report, Row};
use rules::refusal::Refusal;

// MANY or TOTAL where a report takes no other heap.
pub fn refusal(report: Report) -> Result<(), Refusal>
    ensures { refused result ≡ refusal_of report }
{
    if HEAPS_MAX <= report.heaps {
        return Err(Refusal::Many);
    }
    if !possible::possible(report) {
        return Err(Refusal::Total);
    }
    Ok(())
}

// The answer where the report refuses the heap, which adds nothing.
pub fn refuse(why: Refusal, report: Report) -> Audited
    ensures { result ≡ record { refused = number_of why; heap = none; report = report } }
{
    Audited {
        refused: why.into(),
        heap: Row::default(),
        report,
    }
}

// A function of its own, so that one proof alone speaks of its bits.
fn sum(a: i64, b: i64) -> i64
    requires { SFits w64 (a +ℤ b) }
    ensures { result ≡ a +ℤ b }
{
    a + b
}

// Two rows, added column by column.
fn plus(a: Row, b: Row) -> Row
    requires { Small a × Small b }
    ensures { result ≡ plus a b }
{
    let sum = sum(a.sum, b.sum);
    Row {
        below: a.below + b.below,
        at: a.at + b.at,
        above: a.above + b.above,
        sum: sum,
        lost: a.lost + b.lost,
        size: a.size + b.size,
    }
}

// The answer where the report takes the heap, DONE or SIZE.
pub fn take(refused: u16, row: Row, report: Report) -> Audited
    requires { (refusal_of report ≡ 0) × Small row }
    ensures { result ≡ record { refused = refused; heap = row; report = with report row } }
{
    let totals = plus(report.totals, row);
    let next = Report {
        heaps: report.heaps + 1,
        totals: totals,
    };
    Audited {
        refused: refused,
        heap: row,
        report: next,
    }
}
