// COLLECT: two markings with a queueing between them, two rounds of sweeping, and the rescued.
// `as` widens here: From says no more, and each use of it is a further step for the proof.
#![tactic(auto)]

mod cells;
mod queueing;
mod rescuing;
mod unlinking;
mod wiping;

ghost use Rattle.std.specs.Prelude.{◌≡◌, ◌≤◌, [], length, replicate};
ghost use Rattle.rules.specs.Heap.{tables};
ghost use Rattle.rules.specs.Tables.{lent, SameTables};
ghost use Rattle.rules.specs.Sound.{Ready};
ghost use Rattle.rules.specs.Refusals.Call.{COLLECT};
ghost use Rattle.rules.specs.Words.{marked_of, bits_of};
ghost use Rattle.laws.specs.Calls.Inner.{Ran};
ghost use Rattle.laws.specs.Sound.But.{PlainSlots, SoundBut};
ghost use Rattle.laws.specs.Collect.Unlinking.{SlotsCovered};
ghost use Rattle.laws.specs.Words.Marks.{HasMarks};
ghost use Rattle.sweep.specs.Phases.{garbage_of, Searchable, MarkedUsed, Scratch, Same, MarkedQueued, Swept, Collected};

use crate::queueing::queue_unmarked;
use crate::rescuing::rescue_marked;
use crate::unlinking::unlink_unmarked;
use crate::wiping::wipe_unmarked;
use marking::{mark_all, mark_from, unmarked};
use rules::tables::TablesMut;
use rules::{Answer, DONE};
use words::counting::count_bits;
use words::used::write_used;

// Marks what roots and queue reach; what is left and wants its finalizer joins the queue; marks from there. Answers how many joined.
fn mark_and_queue(tables: &mut TablesMut, used: &[u64], marks: &mut [u64]) -> u16
    requires sound_but { SoundBut (lent tables.old) [] }
    requires searchable { Searchable tables.old.kind.now used.now (marked_of marks.old) }
    requires has_marks { HasMarks (length tables.old.kind.now) marks.old (replicate (length tables.old.kind.now) 0) }
    ensures same { SameTables tables.old tables.new }
    ensures queued { MarkedQueued (lent tables.old) (lent tables.new) marks.new result }
{
    let before = tables.shared();
    let waiting = before.control[0] as usize;
    mark_all(before.slots, marks, before.roots, &before.queue[..waiting]);
    let half = marks.len() / 2;
    let queued = queue_unmarked(tables, used, &marks[..half]);
    let all = waiting + queued as usize;
    let after = tables.shared();
    mark_from(after.slots, marks, &after.queue[waiting..all]);
    queued
}

// The references of all unmarked cells come off, then all of them become free and are listed. Answers how many became free.
fn sweep_unmarked(tables: &mut TablesMut, used: &[u64], marked: &[u64], freed: &mut [u16]) -> u16
    requires sizes { Same (lent tables.old) }
    requires searchable { Searchable tables.old.kind.now used.now marked.now × (length tables.old.kind.now ≤ 1024) }
    requires marked_used { MarkedUsed tables.old.kind.now marked.now }
    requires plain_slots { PlainSlots tables.old.kind.now tables.old.slots.now }
    requires slots_covered { SlotsCovered tables.old.slots.now tables.old.count.now
        (garbage_of tables.old.kind.now (bits_of (length tables.old.kind.now) marked.now)) }
    ensures same { SameTables tables.old tables.new }
    ensures swept { Swept (lent tables.old) (bits_of (length tables.old.kind.now) marked.now) (lent tables.new) freed.old freed.new result }
{
    // where every used cell is marked there is nothing to sweep
    if count_bits(marked) == count_bits(used) {
        return 0;
    }
    unlink_unmarked(tables, used, marked);
    wipe_unmarked(tables, used, marked, freed)
}

// COLLECT with words for the used cells, and marks that are all unmarked.
fn mark_and_sweep(
    tables: &mut TablesMut,
    used: &mut [u64],
    marks: &mut [u64],
    freed: &mut [u16],
) -> Answer
    requires sound_but { SoundBut (lent tables.old) [] }
    requires scratch { Scratch (length tables.old.kind.now) used.old marks.old }
    ensures same { SameTables tables.old tables.new }
    ensures collected { Collected (lent tables.old) freed.old (lent tables.new) freed.new result }
{
    // before mark_and_queue, since what this COLLECT queues does not count
    let waiting = tables.control[0];
    write_used(tables.shared().kind, used);
    let queued = mark_and_queue(tables, used, marks);
    let half = marks.len() / 2;
    let many = sweep_unmarked(tables, used, &marks[..half], freed);
    rescue_marked(tables.flags, &marks[..half], waiting);
    Answer {
        refused: DONE,
        freed: many,
        queued,
        cell: 0,
    }
}

// COLLECT on a sound heap: what roots and queue do not reach is queued for its finalizer, or freed and listed in order of cell number.
pub fn collect(tables: &mut TablesMut, freed: &mut [u16]) -> Answer
    requires { Ready (lent tables.old) }
    ensures same { SameTables tables.old tables.new }
    ensures roots_stay { tables.new.roots.now ≡ tables.old.roots.now }
    ensures ran { Ran COLLECT (lent tables.old) freed.old (lent tables.new) freed.new result }
{
    // sixteen words, for the most cells that a heap has; every one is written before it is read
    let mut used = [0; 16];
    let mut marks = unmarked();
    mark_and_sweep(tables, &mut used, &mut marks, freed)
}

// COLLECT where the roots, which it only reads, are lent to be read: `collect` is lent a copy of them. A heap has 64 roots.
pub fn collect_shared(
    kind: &mut [u16],
    flags: &mut [u16],
    count: &mut [u16],
    slots: &mut [u16],
    roots: &[u16],
    queue: &mut [u16],
    control: &mut [u16],
    freed: &mut [u16],
) -> Answer
    requires { Ready (tables kind.old flags.old count.old slots.old roots.now queue.old control.old) }
    ensures { Ran COLLECT
        (tables kind.old flags.old count.old slots.old roots.now queue.old control.old) freed.old
        (tables kind.new flags.new count.new slots.new roots.now queue.new control.new) freed.new result }
{
    let mut held = [0u16; 64];
    held.copy_from_slice(roots);
    let mut tables = TablesMut {
        kind,
        flags,
        count,
        slots,
        roots: &mut held,
        queue,
        control,
    };
    collect(&mut tables, freed)
}
