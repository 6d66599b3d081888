// STORE: a slot is written with what a root holds.
ghost use Rattle.std.specs.Prelude.{◌≡◌};
ghost use Rattle.rules.specs.Tables.{lent, SameTables};
ghost use Rattle.rules.specs.Sound.{Ready};
ghost use Rattle.rules.specs.Refusals.Call.{STORE};
ghost use Rattle.rules.specs.Refused.{answer_of};
ghost use Rattle.laws.specs.Calls.Inner.{Ran};

use crate::objects::object_of;
use numbers::{Root, Slot};
use release::write_slot;
use rules::Answer;
use rules::refusal::Refusal;
use rules::tables::TablesMut;

// STORE on a sound heap: a slot of the object in a root takes what another root holds, which may be nothing.
pub fn store(
    tables: &mut TablesMut,
    freed: &mut [u16],
    object: usize,
    slot: usize,
    from: usize,
) -> Result<Answer, Refusal>
    requires { Ready (lent tables.old) }
    ensures same { SameTables tables.old tables.new }
    ensures roots_stay { tables.new.roots.now ≡ tables.old.roots.now }
    ensures ran { Ran (STORE object slot from) (lent tables.old) freed.old (lent tables.new) freed.new (answer_of result) }
{
    let holder = Root::of(object).ok_or(Refusal::Number)?;
    let at = Slot::of(slot).ok_or(Refusal::Number)?;
    let source = Root::of(from).ok_or(Refusal::Number)?;
    let cell = object_of(tables, holder)?;
    let r = tables.roots[source.index()];
    Ok(write_slot(tables, freed, cell, at, r))
}
