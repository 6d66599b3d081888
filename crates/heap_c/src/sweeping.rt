// COLLECT under its C name.
ghost use Rattle.rules.specs.Heap.{tables};
ghost use Rattle.rules.specs.Calls.{Did};
ghost use Rattle.rules.specs.Refusals.Call.{COLLECT};

use crate::freed::{admit_lent, end_list};
use answers::refuse;
use rules::Answer;
use rules::tables::TablesMut;
use sweep::collect;

#[unsafe(no_mangle)]
pub extern "C" fn vek_collect(
    kind: &mut [u16],
    flags: &mut [u16],
    count: &mut [u16],
    slots: &mut [u16],
    roots: &mut [u16],
    queue: &mut [u16],
    control: &mut [u16],
    freed: &mut [u16],
) -> Answer
    ensures { Did COLLECT
        (tables kind.old flags.old count.old slots.old roots.old queue.old control.old) freed.old
        (tables kind.new flags.new count.new slots.new roots.new queue.new control.new) freed.new result }
{
    let mut tables = TablesMut {
        kind,
        flags,
        count,
        slots,
        roots,
        queue,
        control,
    };
    if let Err(why) = admit_lent(&tables, freed) {
        return refuse(why);
    }
    let answer = collect(&mut tables, freed);
    end_list(freed, answer);
    answer
}
