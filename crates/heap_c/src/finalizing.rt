// Finalizers run one at a time: START and FINISH under their C names.
ghost use Rattle.rules.specs.Heap.{tables};
ghost use Rattle.rules.specs.Calls.{Did};
ghost use Rattle.rules.specs.Refusals.Call.{START, FINISH};

use crate::freed::{admit_lent, end_list};
use answers::{answered, refuse};
use finalizers::{finish, start};
use rules::Answer;
use rules::tables::TablesMut;

#[unsafe(no_mangle)]
pub extern "C" fn vek_start(
    kind: &mut [u16],
    flags: &mut [u16],
    count: &mut [u16],
    slots: &mut [u16],
    roots: &mut [u16],
    queue: &mut [u16],
    control: &mut [u16],
    freed: &mut [u16],
    root: usize,
) -> Answer
    ensures { Did (START root)
        (tables kind.old flags.old count.old slots.old roots.old queue.old control.old) freed.old
        (tables kind.new flags.new count.new slots.new roots.new queue.new control.new) freed.new result }
{
    let mut tables = TablesMut {
        kind,
        flags,
        count,
        slots,
        roots,
        queue,
        control,
    };
    if let Err(why) = admit_lent(&tables, freed) {
        return refuse(why);
    }
    let answer = answered(start(&mut tables, root));
    end_list(freed, answer);
    answer
}

#[unsafe(no_mangle)]
pub extern "C" fn vek_finish(
    kind: &mut [u16],
    flags: &mut [u16],
    count: &mut [u16],
    slots: &mut [u16],
    roots: &mut [u16],
    queue: &mut [u16],
    control: &mut [u16],
    freed: &mut [u16],
) -> Answer
    ensures { Did FINISH
        (tables kind.old flags.old count.old slots.old roots.old queue.old control.old) freed.old
        (tables kind.new flags.new count.new slots.new roots.new queue.new control.new) freed.new result }
{
    let mut tables = TablesMut {
        kind,
        flags,
        count,
        slots,
        roots,
        queue,
        control,
    };
    if let Err(why) = admit_lent(&tables, freed) {
        return refuse(why);
    }
    let answer = answered(finish(&mut tables, freed));
    end_list(freed, answer);
    answer
}
