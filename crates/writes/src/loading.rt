// LOAD: a root is written with what a slot holds.
ghost use Rattle.rules.specs.Tables.{lent, SameTables};
ghost use Rattle.rules.specs.Sound.{Ready};
ghost use Rattle.rules.specs.Refusals.Call.{LOAD};
ghost use Rattle.rules.specs.Refused.{answer_of};
ghost use Rattle.laws.specs.Calls.Inner.{Ran};

use crate::objects::object_of;
use numbers::{Root, Slot};
use release::write_root;
use rules::Answer;
use rules::refusal::Refusal;
use rules::tables::TablesMut;

// LOAD on a sound heap: a root takes what a slot of the object in another root holds, which may be nothing.
pub fn load(
    tables: &mut TablesMut,
    freed: &mut [u16],
    to: usize,
    object: usize,
    slot: usize,
) -> Result<Answer, Refusal>
    requires { Ready (lent tables.old) }
    ensures same { SameTables tables.old tables.new }
    ensures ran { Ran (LOAD to object slot) (lent tables.old) freed.old (lent tables.new) freed.new (answer_of result) }
{
    let target = Root::of(to).ok_or(Refusal::Number)?;
    let holder = Root::of(object).ok_or(Refusal::Number)?;
    let at = Slot::of(slot).ok_or(Refusal::Number)?;
    let cell = object_of(tables, holder)?;
    let r = tables.slots[8 * cell.index() + at.index()];
    Ok(write_root(tables, freed, target, r))
}
