// The object that a root holds.
// `as` widens here: From says no more, and each use of it is a further step for the proof.
ghost use Rattle.rules.specs.Tables.{lent};
ghost use Rattle.writes.specs.Objects.{Holding, AsObject};

use numbers::{Cell, Root};
use rules::refusal::Refusal;
use rules::tables::TablesMut;

// An object's cell, or why there is none.
pub fn object_of(tables: &TablesMut, holder: Root) -> Result<Cell, Refusal>
    requires { Holding (lent tables.now) holder.0 }
    ensures { AsObject (lent tables.now) holder.0 result }
{
    // The tables are C's: a reference is a number, empty at 0, and a kind too, an object's at 1.
    let r = tables.roots[holder.index()];
    if r == 0 {
        return Err(Refusal::Empty);
    }
    let c = r as usize - 1;
    // What a root holds is one of the cells, so that the check always passes.
    let cell = Cell::of(c, tables.kind.len()).ok_or(Refusal::Kind)?;
    if tables.kind[c] != 1 {
        return Err(Refusal::Kind);
    }
    Ok(cell)
}
