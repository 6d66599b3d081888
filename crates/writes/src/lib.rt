// The calls that write a reference, each on a sound heap. The cells that a call frees it lists in `freed`, if that has room for every cell.
#![tactic(auto)]

mod loading;
mod objects;
mod roots;
mod storing;

ghost use Rattle.rules.specs.Heap.{tables};
ghost use Rattle.rules.specs.Sound.{Ready};
ghost use Rattle.rules.specs.Refusals.Call.{STORE};
ghost use Rattle.rules.specs.Refused.{answer_of};
ghost use Rattle.laws.specs.Calls.Inner.{Ran};

pub use loading::load;
pub use roots::{clear, copy};
use rules::Answer;
use rules::refusal::Refusal;
use rules::tables::TablesMut;
pub use storing::store;

// STORE where the roots, which it only reads, are lent to be read: `store` is lent a copy of them. A heap has 64 roots.
pub fn store_shared(
    kind: &mut [u16],
    flags: &mut [u16],
    count: &mut [u16],
    slots: &mut [u16],
    roots: &[u16],
    queue: &mut [u16],
    control: &mut [u16],
    freed: &mut [u16],
    object: usize,
    slot: usize,
    from: usize,
) -> Result<Answer, Refusal>
    requires { Ready (tables kind.old flags.old count.old slots.old roots.now queue.old control.old) }
    ensures { Ran (STORE object slot from)
        (tables kind.old flags.old count.old slots.old roots.now queue.old control.old) freed.old
        (tables kind.new flags.new count.new slots.new roots.now queue.new control.new) freed.new (answer_of result) }
{
    let mut held = [0u16; 64];
    held.copy_from_slice(roots);
    let mut tables = TablesMut {
        kind,
        flags,
        count,
        slots,
        roots: &mut held,
        queue,
        control,
    };
    store(&mut tables, freed, object, slot, from)
}
