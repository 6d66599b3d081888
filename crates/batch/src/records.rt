// The records of a batch, one after another.
ghost use Rattle.rules.specs.Tables.{lent, SameTables};
ghost use Rattle.rules.specs.Sound.{Ready};
ghost use Rattle.rules.specs.Asked.{Obeyed};
ghost use Rattle.rules.specs.Batch.{asked_by};
ghost use Rattle.batch.specs.Run.{CanRun, AllRan};

use crate::totals::raise;
use rules::Answer;
use rules::batch::{CallRecord, Totals};
use rules::tables::TablesMut;
use steps::step;

// What one record asks for, on a sound heap.
fn obey(tables: &mut TablesMut, r: CallRecord) -> Answer
    requires { Ready (lent tables.old) }
    ensures same { SameTables tables.old tables.new }
    ensures obeyed { Obeyed (asked_by r) (lent tables.old) (lent tables.new) result }
{
    // An answer names no cells, so that no list of them is asked for.
    let mut unlisted = [0u16; 0];
    step(
        tables,
        &mut unlisted,
        r.call,
        usize::from(r.first),
        usize::from(r.second),
        usize::from(r.third),
    )
}

// Every record in order: its answer goes to the same place of `answers`, and raises the totals.
pub fn run(
    tables: &mut TablesMut,
    records: &[CallRecord],
    answers: &mut [Answer],
    totals: &mut Totals,
)
    requires { CanRun (record { records = records.now; answers = answers.old; totals = totals.old }) (lent tables.old) }
    ensures same { SameTables tables.old tables.new }
    ensures all_ran { AllRan (record { records = records.now; answers = answers.old; totals = totals.old })
        (lent tables.old) (lent tables.new) answers.new totals.new }
{
    for (i, &r) in records.iter().enumerate() {
        let a = obey(tables, r);
        answers[i] = a;
        raise(totals, a);
    }
}
