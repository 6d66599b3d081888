// CLEAR and COPY: a root is written, with nothing or with what another root holds.
ghost use Rattle.rules.specs.Tables.{lent, SameTables};
ghost use Rattle.rules.specs.Sound.{Ready};
ghost use Rattle.rules.specs.Refusals.Call.{CLEAR, COPY};
ghost use Rattle.rules.specs.Refused.{answer_of};
ghost use Rattle.laws.specs.Calls.Inner.{Ran};

use numbers::Root;
use release::write_root;
use rules::Answer;
use rules::refusal::Refusal;
use rules::tables::TablesMut;

// CLEAR on a sound heap: the root is emptied. An empty root is no error.
pub fn clear(tables: &mut TablesMut, freed: &mut [u16], root: usize) -> Result<Answer, Refusal>
    requires { Ready (lent tables.old) }
    ensures same { SameTables tables.old tables.new }
    ensures ran { Ran (CLEAR root) (lent tables.old) freed.old (lent tables.new) freed.new (answer_of result) }
{
    let to = Root::of(root).ok_or(Refusal::Number)?;
    Ok(write_root(tables, freed, to, 0))
}

// COPY on a sound heap: one root takes what another holds. The source may be empty; so may the two be one.
pub fn copy(
    tables: &mut TablesMut,
    freed: &mut [u16],
    to: usize,
    from: usize,
) -> Result<Answer, Refusal>
    requires { Ready (lent tables.old) }
    ensures same { SameTables tables.old tables.new }
    ensures ran { Ran (COPY to from) (lent tables.old) freed.old (lent tables.new) freed.new (answer_of result) }
{
    let target = Root::of(to).ok_or(Refusal::Number)?;
    let source = Root::of(from).ok_or(Refusal::Number)?;
    let r = tables.roots[source.index()];
    Ok(write_root(tables, freed, target, r))
}
