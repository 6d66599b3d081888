// The calls that write a reference, under their C names.
ghost use Rattle.rules.specs.Heap.{tables};
ghost use Rattle.rules.specs.Calls.{Did};
ghost use Rattle.rules.specs.Refusals.Call.{CLEAR, COPY, LOAD, STORE};

use crate::freed::{admit_lent, end_list};
use answers::{answered, refuse};
use rules::Answer;
use rules::tables::TablesMut;
use writes::{clear, copy, load, store};

#[unsafe(no_mangle)]
pub extern "C" fn vek_clear(
    kind: &mut [u16],
    flags: &mut [u16],
    count: &mut [u16],
    slots: &mut [u16],
    roots: &mut [u16],
    queue: &mut [u16],
    control: &mut [u16],
    freed: &mut [u16],
    root: usize,
) -> Answer
    ensures { Did (CLEAR root)
        (tables kind.old flags.old count.old slots.old roots.old queue.old control.old) freed.old
        (tables kind.new flags.new count.new slots.new roots.new queue.new control.new) freed.new result }
{
    let mut tables = TablesMut {
        kind,
        flags,
        count,
        slots,
        roots,
        queue,
        control,
    };
    if let Err(why) = admit_lent(&tables, freed) {
        return refuse(why);
    }
    let answer = answered(clear(&mut tables, freed, root));
    end_list(freed, answer);
    answer
}

#[unsafe(no_mangle)]
pub extern "C" fn vek_copy(
    kind: &mut [u16],
    flags: &mut [u16],
    count: &mut [u16],
    slots: &mut [u16],
    roots: &mut [u16],
    queue: &mut [u16],
    control: &mut [u16],
    freed: &mut [u16],
    to: usize,
    from: usize,
) -> Answer
    ensures { Did (COPY to from)
        (tables kind.old flags.old count.old slots.old roots.old queue.old control.old) freed.old
        (tables kind.new flags.new count.new slots.new roots.new queue.new control.new) freed.new result }
{
    let mut tables = TablesMut {
        kind,
        flags,
        count,
        slots,
        roots,
        queue,
        control,
    };
    if let Err(why) = admit_lent(&tables, freed) {
        return refuse(why);
    }
    let answer = answered(copy(&mut tables, freed, to, from));
    end_list(freed, answer);
    answer
}

#[unsafe(no_mangle)]
pub extern "C" fn vek_load(
    kind: &mut [u16],
    flags: &mut [u16],
    count: &mut [u16],
    slots: &mut [u16],
    roots: &mut [u16],
    queue: &mut [u16],
    control: &mut [u16],
    freed: &mut [u16],
    to: usize,
    object: usize,
    slot: usize,
) -> Answer
    ensures { Did (LOAD to object slot)
        (tables kind.old flags.old count.old slots.old roots.old queue.old control.old) freed.old
        (tables kind.new flags.new count.new slots.new roots.new queue.new control.new) freed.new result }
{
    let mut tables = TablesMut {
        kind,
        flags,
        count,
        slots,
        roots,
        queue,
        control,
    };
    if let Err(why) = admit_lent(&tables, freed) {
        return refuse(why);
    }
    let answer = answered(load(&mut tables, freed, to, object, slot));
    end_list(freed, answer);
    answer
}

#[unsafe(no_mangle)]
pub extern "C" fn vek_store(
    kind: &mut [u16],
    flags: &mut [u16],
    count: &mut [u16],
    slots: &mut [u16],
    roots: &mut [u16],
    queue: &mut [u16],
    control: &mut [u16],
    freed: &mut [u16],
    object: usize,
    slot: usize,
    from: usize,
) -> Answer
    ensures { Did (STORE object slot from)
        (tables kind.old flags.old count.old slots.old roots.old queue.old control.old) freed.old
        (tables kind.new flags.new count.new slots.new roots.new queue.new control.new) freed.new result }
{
    let mut tables = TablesMut {
        kind,
        flags,
        count,
        slots,
        roots,
        queue,
        control,
    };
    if let Err(why) = admit_lent(&tables, freed) {
        return refuse(why);
    }
    let answer = answered(store(&mut tables, freed, object, slot, from));
    end_list(freed, answer);
    answer
}
