// Reference counting: a count rises, a reference comes off with all that follows from it, and the writes that do both.
// A take-off keeps a work list of the cells whose count fell to zero. Each of them is freed, in the order in which they joined: the lent table
// `freed`, which says which cells went, is that list, as references. Behind the list's end it may hold anything.
// `as` widens here: From says no more, and each use of it is a further step for the proof.
#![tactic(auto)]

ghost use Rattle.std.specs.Prelude.{◌≡◌, List, [], ◌∷◌, ◌++◌, map, ℕ, suc, ◌-◌, ◌≤◌, length, take};
ghost use Rattle.rules.specs.Heap.{cells, slots_of};
ghost use Rattle.rules.specs.Tables.{lent, SameTables};
ghost use Rattle.rules.specs.Release.{start, raise, finalizable, refzero, decref, decrefs, drain, release};
ghost use Rattle.rules.specs.Calls.{write_root, write_slot};
ghost use Rattle.release.specs.Release.{Raisable, Releasable, WorkListed, WorkCounted};
ghost use Rattle.release.specs.Steps.{working, OthersStay, Named, SharedOff, ToComeOff, SlotsToComeOff, LastToComeOff, CameOff, Drainable};
ghost use Rattle.release.specs.Write.{Writable, with_roots, SlotWritable, WorkFinished};

use answers::{done, finished};
use freeing::{free_cell, is_plain};
use numbers::{Cell, Root, Slot};
use rules::Answer;
use rules::tables::TablesMut;

// The last reference to a cell comes off. An object with a finalizer to run joins the queue, whose entry is a reference,
// so that its count stays 1; any other cell joins the work list.
fn refzero(tables: &mut TablesMut, freed: &mut [u16], tail: usize, r: u16) -> usize
    requires { LastToComeOff (lent tables.old) freed.old tail r }
    ensures same { SameTables tables.old tables.new }
    ensures others_stay { OthersStay (lent tables.old) (lent tables.new) }
    ensures came_off { CameOff (refzero (finalizable (lent tables.old) (r - 1)) (working (lent tables.old) []) (r - 1))
        (lent tables.new) freed.old tail freed.new result }
{
    let c = r as usize - 1;
    if tables.flags[c] == 1 {
        if tables.kind[c] == 1 {
            let length = tables.control[0];
            tables.queue[length as usize] = r;
            tables.control[0] = length + 1;
            return tail;
        }
    }
    tables.count[c] = 0;
    freed[tail] = r;
    tail + 1
}

// A reference to a cell that others name too comes off; an empty one takes nothing off. False if it is the last one: then nothing has changed.
fn decref_shared(count: &mut [u16], r: u16) -> bool
    requires { Named count.old r }
    ensures { SharedOff count.old r count.new result }
{
    if r == 0 {
        return true;
    }
    let c = r as usize - 1;
    let n = count[c];
    if 1 < n {
        count[c] = n - 1;
        return true;
    }
    false
}

// One reference comes off what it names, if anything. Returns the work list's new end.
fn decref(tables: &mut TablesMut, freed: &mut [u16], tail: usize, r: u16) -> usize
    requires { ToComeOff (lent tables.old) freed.old tail (r ∷ []) }
    ensures same { SameTables tables.old tables.new }
    ensures others_stay { OthersStay (lent tables.old) (lent tables.new) }
    ensures came_off { CameOff (decref (working (lent tables.old) []) r) (lent tables.new) freed.old tail freed.new result }
{
    if decref_shared(tables.count, r) {
        return tail;
    }
    refzero(tables, freed, tail, r)
}

// The references in the eight slots of a cell come off, from slot 0 to 7.
fn decref_slots(tables: &mut TablesMut, freed: &mut [u16], tail: usize, cell: Cell) -> usize
    requires { SlotsToComeOff (lent tables.old) freed.old tail cell.0 }
    ensures same { SameTables tables.old tables.new }
    ensures others_stay { OthersStay (lent tables.old) (lent tables.new) }
    ensures came_off { CameOff (decrefs (working (lent tables.old) []) (slots_of tables.old.slots.now cell.0))
        (lent tables.new) freed.old tail freed.new result }
{
    let c = cell.index();
    // a string or buffer has nothing in its slots
    if is_plain(tables.kind[c]) {
        return tail;
    }
    let mut t = tail;
    // by number: the borrow checker doesn't cover that the tables are lent in a loop over one of them
    for k in 0..8 {
        let r = tables.slots[8 * c + k];
        t = decref(tables, freed, t, r);
    }
    t
}

// Serves the work list, which stands in `freed` from `from` to `tail`, oldest first, until none waits. Returns its end.
fn drain(tables: &mut TablesMut, freed: &mut [u16], from: usize, tail: usize) -> usize
    requires { Drainable (lent tables.old) freed.old from tail }
    ensures same { SameTables tables.old tables.new }
    ensures roots_stay { tables.new.roots.now ≡ tables.old.roots.now }
    ensures drained { (pending : List ℕ) → take tail freed.old ≡ take from freed.old ++ map suc pending
        → WorkListed (drain (cells (lent tables.old)) (working (lent tables.old) pending)) (lent tables.new) freed.old from freed.new result }
{
    let mut t = tail;
    let mut head = from;
    // not a `for`: the end moves on, since the cells that are served add others to the list
    while head < t {
        // The entry names one of the cells, so that the check always passes.
        let Some(cell) = Cell::of(freed[head] as usize - 1, tables.kind.len()) else {
            return head;
        };
        t = decref_slots(tables, freed, t, cell);
        free_cell(tables, cell);
        head += 1;
    }
    head
}

// A full take-off of the reference r. The cells that it frees are listed in `freed`, which has room for every cell, from `from` on, behind those that the
// call has freed before. Returns the list's end.
pub fn release(tables: &mut TablesMut, freed: &mut [u16], from: usize, r: u16) -> usize
    requires releasable { Releasable (lent tables.old) from r }
    requires kind_in_bounds { length tables.old.kind.now ≤ length freed.old }
    ensures same { SameTables tables.old tables.new }
    ensures roots_stay { tables.new.roots.now ≡ tables.old.roots.now }
    ensures listed { WorkListed (release (start (lent tables.old)) r) (lent tables.new) freed.old from freed.new result }
{
    let tail = decref(tables, freed, from, r);
    drain(tables, freed, from, tail)
}

// The same for a caller that asks for no list: it is made in room of its own. Returns the number of cells freed. The room stands in this function's frame
// alone, so that no call pays for it that doesn't come here (tests/stack.c).
pub fn release_unlisted(tables: &mut TablesMut, r: u16) -> usize
    requires { Releasable (lent tables.old) 0 r }
    ensures same { SameTables tables.old tables.new }
    ensures roots_stay { tables.new.roots.now ≡ tables.old.roots.now }
    ensures counted { WorkCounted (release (start (lent tables.old)) r) (lent tables.new) result }
{
    if decref_shared(tables.count, r) {
        return 0;
    }
    // Two rooms for the compiler's sake: a function with one it makes a part of its callers.
    if tables.kind.len() <= 64 {
        let mut room = [0u16; 64];
        let end = refzero(tables, &mut room, 0, r);
        return drain(tables, &mut room, 0, end);
    }
    let mut room = [0u16; 1024];
    let end = refzero(tables, &mut room, 0, r);
    drain(tables, &mut room, 0, end)
}

// The count of what r names rises by 1.
pub fn incref(count: &mut [u16], r: u16)
    requires { Raisable count.old r }
    ensures { count.new ≡ raise count.old r }
{
    if r == 0 {
        return;
    }
    let c = r as usize - 1;
    count[c] += 1;
}

// A full take-off of r that ends a call: the answer says what it freed and, by how the queue grew, what it queued. A table without room for every cell
// asks for no list.
#[inline(never)]
fn take_off(tables: &mut TablesMut, freed: &mut [u16], r: u16) -> Answer
    requires { Releasable (lent tables.old) 0 r }
    ensures same { SameTables tables.old tables.new }
    ensures roots_stay { tables.new.roots.now ≡ tables.old.roots.now }
    ensures taken_off { WorkFinished (cells (lent tables.old)) (release (start (lent tables.old)) r) (lent tables.new) freed.old freed.new result }
{
    let before = tables.control[0];
    if freed.len() < tables.kind.len() {
        let many = release_unlisted(tables, r);
        let after = tables.control[0];
        return finished(many, after - before);
    }
    let end = release(tables, freed, 0, r);
    let after = tables.control[0];
    finished(end, after - before)
}

// A root is written. The new target's count rises first: where only the old target holds it, or it is the old target, it must not fall to zero.
pub fn write_root(tables: &mut TablesMut, freed: &mut [u16], to: Root, r: u16) -> Answer
    requires { Writable (lent tables.old) to.0 r }
    ensures same { SameTables tables.old tables.new }
    ensures written { WorkFinished (cells (lent tables.old)) (write_root (lent tables.old) to.0 r) (lent tables.new) freed.old freed.new result }
{
    let i = to.index();
    let old_root = tables.roots[i];
    incref(tables.count, r);
    tables.roots[i] = r;
    // Most references are not the last: they come off here, without a further call.
    if decref_shared(tables.count, old_root) {
        return done();
    }
    take_off(tables, freed, old_root)
}

// A slot of an object is written, in the same order. The roots are not read and stay: whoever has them elsewhere lends none, and knows it of those.
pub fn write_slot(
    tables: &mut TablesMut,
    freed: &mut [u16],
    cell: Cell,
    slot: Slot,
    r: u16,
) -> Answer
    requires { SlotWritable (lent tables.old) cell.0 slot.0 r }
    ensures same { SameTables tables.old tables.new }
    ensures roots_stay { tables.new.roots.now ≡ tables.old.roots.now }
    ensures written { WorkFinished (cells (lent tables.old)) (write_slot (lent tables.old) cell.0 slot.0 r) (lent tables.new) freed.old freed.new result }
    ensures any_roots { (roots : List ℕ) → WorkFinished (cells (lent tables.old)) (write_slot (with_roots (lent tables.old) roots) cell.0 slot.0 r)
        (with_roots (lent tables.new) roots) freed.old freed.new result }
{
    let i = 8 * cell.index() + slot.index();
    let old_slot = tables.slots[i];
    incref(tables.count, r);
    tables.slots[i] = r;
    if decref_shared(tables.count, old_slot) {
        return done();
    }
    take_off(tables, freed, old_slot)
}
