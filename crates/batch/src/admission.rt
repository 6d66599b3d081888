// What a batch asks first.
// `as` widens here: From says no more, and each use of it is a further step for the proof.
ghost use Rattle.std.specs.Prelude.{◌≡◌, ◌≤◌};
ghost use Rattle.rules.specs.Refused.{refused};
ghost use Rattle.rules.specs.Batch.{lists_fit, some_ends, batch_refusal};

use rules::CELLS_MAX;
use rules::batch::{RECORDS_MAX, Totals};
use rules::refusal::Refusal;
use rules::tables::Readable;
use soundness::admit;

// Whether the lists have one length, and one that a batch may have.
fn lists_fit(records: usize, answers: usize) -> bool
    ensures { result ≡ lists_fit records answers }
{
    records == answers && records <= RECORDS_MAX
}

// Whether one of the totals could pass its end. A call frees and queues at most as many cells as a heap has.
fn some_ends(records: usize, t: Totals) -> bool
    requires { records ≤ 4096 }
    ensures { result ≡ some_ends records t }
{
    let most = u64::MAX - (CELLS_MAX * records) as u64;
    most < t.done.max(t.refused).max(t.freed).max(t.queued)
}

// SIZE where the tables or the lists don't fit, else DAMAGED where the heap is not sound, else TOTAL where a total could pass its end.
pub fn admit_batch<T: Readable>(
    tables: &T,
    records: usize,
    answers: usize,
    totals: Totals,
) -> Result<(), Refusal>
    ensures { refused result ≡ batch_refusal (T.heap tables.now) records answers totals }
{
    if !lists_fit(records, answers) {
        return Err(Refusal::Size);
    }
    admit(tables)?;
    if some_ends(records, totals) {
        return Err(Refusal::Total);
    }
    Ok(())
}
