// The call that four numbers name, on a sound heap.
#![tactic(auto)]

pub mod call;

ghost use Rattle.std.specs.Prelude.{◌≡◌};
ghost use Rattle.rules.specs.Sound.{Ready};
ghost use Rattle.rules.specs.Asked.{call_of, is_call, Obeyed};
ghost use Rattle.rules.specs.Refused.{answer_of};
ghost use Rattle.rules.specs.Tables.{lent, SameTables};
ghost use Rattle.steps.specs.Call.{asked};

use allocation::new;
use answers::{answered, refuse};
use call::Call;
use finalizers::{finish, start};
use rules::Answer;
use rules::refusal::Refusal;
use rules::tables::TablesMut;
use sweep::collect;
use writes::{clear, copy, load, store};

// Whether four numbers name a call. It is asked where no call can be done, since the tables don't fit or are damaged: LINE is told from the calls there too.
pub fn names_call(op: u16, x: usize, y: usize, z: usize) -> bool
    ensures { result ≡ is_call (call_of op x y z) }
{
    Call::of(op, x, y, z).is_some()
}

// A call. What it frees it lists in `freed`, if that has room for every cell. The tables are one value here, to be written; who is lent some of them
// only to be read has `allocation::new_shared`, `finalizers::start_shared`, `writes::store_shared` and `sweep::collect_shared`.
fn obey(tables: &mut TablesMut, freed: &mut [u16], call: Call) -> Result<Answer, Refusal>
    requires { Ready (lent tables.old) }
    ensures same { SameTables tables.old tables.new }
    ensures obeyed { Obeyed (asked (Some call)) (lent tables.old) (lent tables.new) (answer_of result) }
{
    match call {
        Call::New(root, wanted, finalizer) => new(tables, root, wanted, finalizer),
        Call::Clear(root) => clear(tables, freed, root),
        Call::Copy(to, from) => copy(tables, freed, to, from),
        Call::Load(to, object, slot) => load(tables, freed, to, object, slot),
        Call::Store(object, slot, from) => store(tables, freed, object, slot, from),
        Call::Collect => Ok(collect(tables, freed)),
        Call::Start(root) => start(tables, root),
        Call::Finish => finish(tables, freed),
    }
}

// One step: the call that four numbers name, or LINE. Four parameters: `CallRecord` is narrower than the numbers that are taken here.
pub fn step(
    tables: &mut TablesMut,
    freed: &mut [u16],
    op: u16,
    x: usize,
    y: usize,
    z: usize,
) -> Answer
    requires { Ready (lent tables.old) }
    ensures same { SameTables tables.old tables.new }
    ensures obeyed { Obeyed (call_of op x y z) (lent tables.old) (lent tables.new) result }
{
    let Some(call) = Call::of(op, x, y, z) else {
        return refuse(Refusal::Line);
    };
    answered(obey(tables, freed, call))
}
