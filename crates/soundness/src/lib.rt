// Whether the seven lent tables fit N cells, and whether the heap in them is sound.
// Queue, roots and slots are read once, and the references in them tallied, so that no test has to search.
#![tactic(auto)]

mod admission;

ghost use Rattle.std.specs.Prelude.{◌≡◌, true, ◌&&◌, ℕ, ◌+◌, ◌*◌, ◌<◌, ◌≤◌, eqb, length, get_or};
ghost use Rattle.rules.specs.Lists.{all, below, distinct};
ghost use Rattle.rules.specs.Tables.{heap_of};
ghost use Rattle.rules.specs.Sound.{Sized};
ghost use Rattle.rules.specs.Check.{running_ok, fits, sound};
ghost use Rattle.laws.specs.Sound.Tally.{counters, Tallied, TallyRoom};
ghost use Rattle.soundness.specs.Tests.{names, shape_ok, count_matches, CellTallied, shape_at, slots_at, count_at, tally_ok, Scratch};

pub use admission::admit;
use rules::tables::Tables;
use rules::{CELLS_MAX, ROOTS, SLOTS};
use tally::{TALLY_MAX, tally_all};

const OBJECT: u16 = 1;

// Tallies the queue's entries in use, into a tally of zeros: does each name a cell, and none twice?
fn tally_queue(tally: &mut [u16], entries: &[u16]) -> bool
    requires { (x : ℕ) → get_or tally.old x 0 ≡ 0 }
    ensures { (result ≡ (distinct entries.now && all (names (counters tally.old)) entries.now)) × (result ≡ true → Tallied tally.old entries.now tally.new) }
{
    for &r in entries {
        let r = usize::from(r);
        if r == 0 {
            return false;
        }
        if tally.len() <= r {
            return false;
        }
        if tally[r] != 0 {
            return false;
        }
        tally[r] = 1;
    }
    true
}

// Are all entries 0? Joined by `|`, as all are looked at: with one way out the compiler takes sixteen entries a turn.
fn all_zero(table: &[u16]) -> bool
    ensures { result ≡ all (eqb 0) table.now }
{
    table.iter().fold(0, |joined, entry| joined | *entry) == 0
}

// Tallies the slots of a cell of this kind; answers how many faults there are, with the `wrong` of before: an object's lost references, or 1 where the slots of another cell are not empty.
fn tally_cell(tally: &mut [u16], kind: u16, slots: &[u16; SLOTS], wrong: usize) -> usize
    requires { TallyRoom tally.old 8 × (wrong + 8 < 65536) }
    ensures { CellTallied tally.old tally.new kind slots.now wrong result }
{
    if kind == OBJECT {
        return tally_all(tally, slots, wrong);
    }
    if all_zero(slots) {
        return wrong;
    }
    wrong + 1
}

// Tallies the slots of all cells: is each as it may be? By the cell's number: a zip with `cells` asks for the end of both, and takes 13,352 instructions instead of 11,307 where 1,024 cells are free.
fn tally_slots(tally: &mut [u16], kind: &[u16], slots: &[u16]) -> bool
    requires { (length kind.now ≤ 1024) × (length slots.now ≡ 8 * length kind.now) × TallyRoom tally.old (length slots.now) }
    ensures { (result ≡ below (length kind.now) (slots_at (counters tally.old) kind.now slots.now)) × (result ≡ true → Tallied tally.old slots.now tally.new) }
{
    let (cells, _) = slots.as_chunks::<SLOTS>();
    let mut wrong = 0;
    for (c, &k) in kind.iter().enumerate() {
        wrong = tally_cell(tally, k, &cells[c], wrong);
    }
    wrong == 0
}

// May a cell of this kind have these flags, and be queued so often? `&` and `|` look at both sides, so that there is no branch: see `all_zero`.
fn shape_ok(kind: u16, flags: u16, queued: u16) -> bool
    ensures { result ≡ shape_ok kind flags queued }
{
    let object = kind == OBJECT;
    let finalizer = object & (flags == 1);
    let unflagged = (flags == 0) & (kind <= 3);
    let finalised = object & (flags == 3);
    (finalizer | unflagged | finalised) & ((queued == 0) | finalizer)
}

// Has each cell a kind and flags that go together, and is each queued one an object with flags 1? So far the tally has only the queue. All are looked at, by their numbers: a zip of the three slices has three ways out, and 1,024 cells take 28,700 instructions instead of 2,944.
fn shapes_ok(kind: &[u16], flags: &[u16], queued: &[u16]) -> bool
    requires { (length flags.now ≡ length kind.now) × (length queued.now ≡ length kind.now) }
    ensures { result ≡ below (length kind.now) (shape_at kind.now flags.now queued.now) }
{
    (0..kind.len()).fold(
        true,
        |right, c| right & shape_ok(kind[c], flags[c], queued[c]),
    )
}

// Is a cell's count what was tallied, and 0 exactly if the cell is free?
fn count_ok(kind: u16, count: u16, tallied: u16) -> bool
    ensures { result ≡ count_matches kind count tallied }
{
    (count == tallied) & ((kind == 0) == (count == 0))
}

// Is each cell's count right? By now the tally has every reference. By the cells' numbers, as `shapes_ok`.
fn counts_ok(kind: &[u16], count: &[u16], tally: &[u16]) -> bool
    requires { (length count.now ≡ length kind.now) × (length tally.now ≡ length kind.now) }
    ensures { result ≡ below (length kind.now) (count_at kind.now count.now tally.now) }
{
    (0..kind.len()).fold(
        true,
        |right, c| right & count_ok(kind[c], count[c], tally[c]),
    )
}

// The running root is none, or one of the 64 while something is queued.
fn running_ok(running: u16, queued: u16) -> bool
    ensures { result ≡ running_ok running queued }
{
    if running == 0 {
        return true;
    }
    if ROOTS < usize::from(running) {
        return false;
    }
    0 < queued
}

// Are queue, roots, slots, flags and counts as they must be together? `tally` is scratch room, all 0; behind its entry 0 it has an entry for each cell.
fn tally_ok(tally: &mut [u16], tables: Tables, entries: &[u16]) -> bool
    requires { Scratch tally.old tables.kind.now tables.flags.now tables.count.now tables.slots.now tables.roots.now entries.now }
    ensures { result ≡ tally_ok tables.entry.kind.now tables.entry.flags.now tables.entry.count.now tables.entry.slots.now
        tables.entry.roots.now entries.now }
{
    if !tally_queue(tally, entries) {
        return false;
    }
    if !shapes_ok(tables.kind, tables.flags, &tally[1..]) {
        return false;
    }
    if tally_all(tally, tables.roots, 0) != 0 {
        return false;
    }
    if !tally_slots(tally, tables.kind, tables.slots) {
        return false;
    }
    counts_ok(tables.kind, tables.count, &tally[1..])
}

// Do the tables' lengths fit N cells, 1 to 1,024?
#[tactic(auto, unfolding(rules::specs::Check::fits, rules::specs::Lists::every))]
pub fn fits(tables: Tables) -> bool
    ensures { result ≡ fits (heap_of tables.entry) }
{
    let n = tables.kind.len();
    if n < 1 {
        return false;
    }
    if CELLS_MAX < n {
        return false;
    }
    tables.flags.len() == n
        && tables.count.len() == n
        && tables.slots.len() == SLOTS * n
        && tables.roots.len() == ROOTS
        && tables.queue.len() == n
        && tables.control.len() == 2
}

// Is the heap in these tables, whose lengths fit, sound? One test after another: each lets the next take its slices.
pub fn sound(tables: Tables) -> bool
    requires { Sized (heap_of tables) }
    ensures { result ≡ sound (heap_of tables.entry) }
{
    let n = tables.kind.len();
    let queued = usize::from(tables.control[0]);
    if n < queued {
        return false;
    }
    if !running_ok(tables.control[1], tables.control[0]) {
        return false;
    }
    if !all_zero(&tables.queue[queued..]) {
        return false;
    }
    let entries = &tables.queue[..queued];
    let mut tally = [0u16; TALLY_MAX];
    tally_ok(&mut tally[..=n], tables, entries)
}
