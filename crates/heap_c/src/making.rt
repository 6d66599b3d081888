// Heaps and cells come into being, under their C names.
ghost use Rattle.std.specs.Prelude.{[]};
ghost use Rattle.rules.specs.Heap.{tables};
ghost use Rattle.rules.specs.Calls.{Did};
ghost use Rattle.rules.specs.Refusals.Call.{FRESH, NEW};

use crate::freed::{admit_lent, end_list};
use allocation::{fresh, new};
use answers::{answered, refuse};
use rules::Answer;
use rules::refusal::Refusal;
use rules::tables::TablesMut;
use soundness::fits;

#[unsafe(no_mangle)]
pub extern "C" fn vek_fresh(
    kind: &mut [u16],
    flags: &mut [u16],
    count: &mut [u16],
    slots: &mut [u16],
    roots: &mut [u16],
    queue: &mut [u16],
    control: &mut [u16],
) -> Answer
    ensures { Did FRESH
        (tables kind.old flags.old count.old slots.old roots.old queue.old control.old) []
        (tables kind.new flags.new count.new slots.new roots.new queue.new control.new) [] result }
{
    let mut tables = TablesMut {
        kind,
        flags,
        count,
        slots,
        roots,
        queue,
        control,
    };
    if !fits(tables.shared()) {
        return refuse(Refusal::Size);
    }
    fresh(&mut tables)
}

#[unsafe(no_mangle)]
pub extern "C" fn vek_new(
    kind: &mut [u16],
    flags: &mut [u16],
    count: &mut [u16],
    slots: &mut [u16],
    roots: &mut [u16],
    queue: &mut [u16],
    control: &mut [u16],
    freed: &mut [u16],
    root: usize,
    wanted: usize,
    finalizer: usize,
) -> Answer
    ensures { Did (NEW root wanted finalizer)
        (tables kind.old flags.old count.old slots.old roots.old queue.old control.old) freed.old
        (tables kind.new flags.new count.new slots.new roots.new queue.new control.new) freed.new result }
{
    let mut tables = TablesMut {
        kind,
        flags,
        count,
        slots,
        roots,
        queue,
        control,
    };
    if let Err(why) = admit_lent(&tables, freed) {
        return refuse(why);
    }
    let answer = answered(new(&mut tables, root, wanted, finalizer));
    end_list(freed, answer);
    answer
}
