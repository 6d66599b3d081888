// A whole basket in one call, under its C name.
ghost use Rattle.rules.specs.Heap.{tables};
ghost use Rattle.rules.specs.Batch.{Batched};

use answers::{done, refuse};
use batch::{admit_batch, run};
use rules::Answer;
use rules::batch::{CallRecord, Totals};
use rules::tables::TablesMut;

#[unsafe(no_mangle)]
pub extern "C" fn vek_batch(
    kind: &mut [u16],
    flags: &mut [u16],
    count: &mut [u16],
    slots: &mut [u16],
    roots: &mut [u16],
    queue: &mut [u16],
    control: &mut [u16],
    records: &[CallRecord],
    answers: &mut [Answer],
    totals: &mut Totals,
) -> Answer
    ensures { Batched (record { records = records.now; answers = answers.old; totals = totals.old })
        (tables kind.old flags.old count.old slots.old roots.old queue.old control.old)
        (tables kind.new flags.new count.new slots.new roots.new queue.new control.new)
        answers.new totals.new result }
{
    let mut tables = TablesMut {
        kind,
        flags,
        count,
        slots,
        roots,
        queue,
        control,
    };
    if let Err(why) = admit_batch(&tables, records.len(), answers.len(), *totals) {
        return refuse(why);
    }
    run(&mut tables, records, answers, totals);
    done()
}
