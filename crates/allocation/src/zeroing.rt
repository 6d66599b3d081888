// FRESH: every entry of every table becomes 0.
ghost use Rattle.std.specs.Prelude.{[], ◌≡◌, length, replicate};
ghost use Rattle.rules.specs.Tables.{lent, SameTables};
ghost use Rattle.rules.specs.Sound.{Sized};
ghost use Rattle.rules.specs.Calls.{Did};
ghost use Rattle.rules.specs.Refusals.Call.{FRESH};

use answers::done;
use rules::Answer;
use rules::tables::TablesMut;

// Every entry becomes 0.
pub fn zero(s: &mut [u16])
    ensures { s.new ≡ replicate (length s.old) 0 }
{
    s.fill(0);
}

// FRESH on tables that fit: every entry becomes 0, whatever stood there.
pub fn fresh(tables: &mut TablesMut) -> Answer
    requires { Sized (lent tables.old) }
    ensures same { SameTables tables.old tables.new }
    ensures did { Did FRESH (lent tables.old) [] (lent tables.new) [] result }
{
    zero(tables.kind);
    zero(tables.flags);
    zero(tables.count);
    zero(tables.slots);
    zero(tables.roots);
    zero(tables.queue);
    zero(tables.control);
    done()
}
