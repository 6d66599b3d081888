// FINISH: the queue's head has had its finalizer run.
// `as` widens here: From says no more, and each use of it is a further step for the proof.
ghost use Rattle.std.specs.Prelude.{◌≡◌, length};
ghost use Rattle.rules.specs.Heap.{cells, running};
ghost use Rattle.rules.specs.Tables.{lent, SameTables};
ghost use Rattle.rules.specs.Sound.{Ready};
ghost use Rattle.rules.specs.Release.{start, release};
ghost use Rattle.rules.specs.Calls.{leave_queue};
ghost use Rattle.rules.specs.Refused.{answer_of};
ghost use Rattle.rules.specs.Refusals.Call.{FINISH};
ghost use Rattle.laws.specs.Calls.Inner.{Ran};
ghost use Rattle.release.specs.Write.{WorkFinished};
ghost use Rattle.finalizers.specs.Finish.{AsRunning, Waits, Popped, Leaves, BothReleasable};

use answers::finished;
use numbers::{Cell, Root};
use release::{release, release_unlisted};
use rules::Answer;
use rules::refusal::Refusal;
use rules::tables::TablesMut;

// The running root, if there is one.
fn running_root(tables: &TablesMut) -> Option<Root>
    requires { length tables.now.control.now ≡ 2 }
    ensures { AsRunning (running (lent tables.now)) result }
{
    let running = tables.control[1];
    if running == 0 {
        return None;
    }
    Root::of(running as usize - 1)
}

// The head leaves the queue, which closes up behind it.
fn dequeue(tables: &mut TablesMut)
    requires { Waits (lent tables.old) }
    ensures same { SameTables tables.old tables.new }
    ensures popped { Popped (lent tables.old) (lent tables.new) }
{
    let length = tables.control[0];
    let end = usize::from(length);
    tables.queue.copy_within(1..end, 0);
    tables.queue[end - 1] = 0;
    tables.control[0] = length - 1;
}

// The head leaves the queue and is finalised, flags 3; no root is running any more, and the one that was is emptied.
fn leave(tables: &mut TablesMut, head: Cell, running: Root)
    requires { Leaves (lent tables.old) head.0 running.0 }
    ensures same { SameTables tables.old tables.new }
    ensures left { lent tables.new ≡ leave_queue (lent tables.old) }
{
    dequeue(tables);
    tables.flags[head.index()] = 3;
    tables.control[1] = 0;
    tables.roots[running.index()] = 0;
}

// Two full take-offs that end a call, one after the other: the second lists the cells that it frees behind those of the first. The answer says what
// both freed and, by how the queue grew, what both queued.
fn take_off_both(tables: &mut TablesMut, freed: &mut [u16], first: u16, second: u16) -> Answer
    requires { BothReleasable (lent tables.old) first second }
    ensures same { SameTables tables.old tables.new }
    ensures finished { WorkFinished (cells (lent tables.old)) (release (release (start (lent tables.old)) first) second)
        (lent tables.new) freed.old freed.new result }
{
    let before = tables.control[0];
    if freed.len() < tables.kind.len() {
        let many = release_unlisted(tables, first);
        let more = release_unlisted(tables, second);
        return finished(many + more, tables.control[0] - before);
    }
    let middle = release(tables, freed, 0, first);
    let end = release(tables, freed, middle, second);
    finished(end, tables.control[0] - before)
}

// FINISH on a sound heap: the queue's head leaves it, finalised; the running root is emptied and no longer running, and the queue's own reference comes off.
pub fn finish(tables: &mut TablesMut, freed: &mut [u16]) -> Result<Answer, Refusal>
    requires { Ready (lent tables.old) }
    ensures same { SameTables tables.old tables.new }
    ensures ran { Ran FINISH (lent tables.old) freed.old (lent tables.new) freed.new (answer_of result) }
{
    let running = running_root(tables).ok_or(Refusal::Idle)?;
    // While a root is running the queue's head names a cell, so that the check always passes.
    let bump = tables.queue[0];
    let head = Cell::of(bump as usize - 1, tables.flags.len()).ok_or(Refusal::Idle)?;
    let held = tables.roots[running.index()];
    leave(tables, head, running);
    Ok(take_off_both(tables, freed, held, bump))
}
