// START: the queue's head is placed in a root for its finalizer.
// `as` narrows here what is known to fit: a TryFrom would leave a way out that is never taken.
ghost use Rattle.std.specs.Prelude.{List, ℕ, ◌≡◌, ◌<◌, length, IfOk};
ghost use Rattle.rules.specs.Heap.{Heap, tables};
ghost use Rattle.rules.specs.Tables.{lent, SameTables};
ghost use Rattle.rules.specs.Sound.{Ready};
ghost use Rattle.rules.specs.Refused.{answer_of};
ghost use Rattle.rules.specs.Refusals.Call.{START};
ghost use Rattle.laws.specs.Calls.Inner.{Ran};
ghost use Rattle.finalizers.specs.Start.{Chosen};

use answers::done;
use numbers::Root;
use release::incref;
use rules::Answer;
use rules::refusal::Refusal;
use rules::tables::TablesMut;

// What START decides before anything is written: the root that is to run. It reads two tables alone, so that it decides for tables that are one value
// and for a list of them.
fn choose(roots: &[u16], control: &[u16], root: usize) -> Result<Root, Refusal>
    requires roots { length roots.now ≡ 64 }
    requires control { length control.now ≡ 2 }
    ensures small { IfOk result (λ to. to.0 < 64) }
    ensures chosen { (h : Heap) → h.roots ≡ roots.now → h.control ≡ control.now → Chosen h root result }
{
    let to = Root::of(root).ok_or(Refusal::Number)?;
    let at = to.index();
    if roots[at] != 0 {
        return Err(Refusal::Taken);
    }
    if control[1] != 0 {
        return Err(Refusal::Busy);
    }
    if control[0] == 0 {
        return Err(Refusal::None);
    }
    Ok(to)
}

// START on a sound heap: the queue's head is placed in an empty root, which becomes the running root. The queue stays. No cell is freed.
pub fn start(tables: &mut TablesMut, root: usize) -> Result<Answer, Refusal>
    requires { Ready (lent tables.old) }
    ensures same { SameTables tables.old tables.new }
    ensures ran { (room : List ℕ) → Ran (START root) (lent tables.old) room (lent tables.new) room (answer_of result) }
{
    let now = tables.shared();
    let at = choose(now.roots, now.control, root)?.index();
    let head = tables.queue[0];
    incref(tables.count, head);
    tables.roots[at] = head;
    tables.control[1] = at as u16 + 1;
    Ok(done())
}

// START where the tables that it only reads are shared: it writes no kind, flags, slots or queue.
pub fn start_shared(
    kind: &[u16],
    flags: &[u16],
    count: &mut [u16],
    slots: &[u16],
    roots: &mut [u16],
    queue: &[u16],
    control: &mut [u16],
    root: usize,
) -> Result<Answer, Refusal>
    requires { Ready (tables kind.now flags.now count.old slots.now roots.old queue.now control.old) }
    ensures { (room : List ℕ) → Ran (START root)
        (tables kind.now flags.now count.old slots.now roots.old queue.now control.old) room
        (tables kind.now flags.now count.new slots.now roots.new queue.now control.new) room (answer_of result) }
{
    let at = choose(roots, control, root)?.index();
    let head = queue[0];
    incref(count, head);
    roots[at] = head;
    control[1] = at as u16 + 1;
    Ok(done())
}
