// The cells of a heap whose tables fit: their references are tallied, and each stored count is compared.
// `as` widens here: From says no more, and each use of it is a further step for the proof.
ghost use Rattle.std.specs.Prelude.{◌≡◌, ◌+◌, ◌-◌, ◌<◌, ◌≤◌, pos, ◌+ℤ◌, ◌-ℤ◌, ℕ, length, get_or};
ghost use Rattle.std.specs.Int.{w32};
ghost use Rattle.std.proofs.Common.{SFits};
ghost use Rattle.rules.specs.Audit.{up, down, cell_row, listed, row_to, references};
ghost use Rattle.rules.specs.Tables.{heap_of};
ghost use Rattle.laws.specs.Sound.Tally.{TallyRoom};
ghost use Rattle.tally.specs.Tallies.{Tallies, Clear};
ghost use Rattle.audit.specs.Cells.{minus, lower, sides_of, sides_plus, Lengths, CellsAudited};

use rules::audit::Row;
use rules::tables::Tables;
use tally::{TALLY_MAX, tally_all};

// What the loop over cells adds up. A heap has 1,024 cells at most: 16 bits hold how many there are, 32 bits their sum, so that the compiler can take eight cells a turn.
#[derive(Clone, Copy, Default)]
struct Sides {
    below: u16,
    above: u16,
    sum: i32,
}

// One more where the first number is the lower one.
fn one_if_lower(n: u16, a: u16, b: u16) -> u16
    requires { n < 1024 }
    ensures { result ≡ n + lower a b }
{
    if a < b {
        return n + 1;
    }
    n
}

// A function of its own, so that one proof alone speaks of its bits; `reports` has one over 64 bits, and one for both could promise nothing of the sum.
fn sum(a: i32, b: i32) -> i32
    requires { SFits w32 (a +ℤ b) }
    ensures { result ≡ a +ℤ b }
{
    a + b
}

// One more cell, on its side of zero.
fn add_cell(sides: Sides, count: u16, counted: u16) -> Sides
    requires { (sides.below < 1024) × (sides.above < 1024) × (up sides.sum ≤ 67107840) × (down sides.sum ≤ 67107840) }
    ensures { result ≡ sides_plus sides (cell_row (pos count -ℤ pos counted)) }
{
    let sum = sum(sides.sum, signed::difference(count, counted));
    Sides {
        below: one_if_lower(sides.below, count, counted),
        above: one_if_lower(sides.above, counted, count),
        sum: sum,
    }
}

// Writes each cell's difference, and answers what the cells add up to.
fn compare(differences: &mut [i32], count: &[u16], counted: &[u16]) -> Sides
    requires { (length differences.old ≡ length count.now) × (length counted.now ≡ length count.now) × (length count.now ≤ 1024) }
    ensures table { differences.new ≡ listed (minus count.now counted.now) (length count.now) }
    ensures sides { result ≡ sides_of (row_to (minus count.now counted.now) (length count.now)) }
    ensures sixteen { (c : ℕ) → get_or count.now c 0 < 65536 }
{
    let mut sides = Sides::default();
    // by the cell's number: behind an iter_mut nothing would be known of the differences
    for c in 0..count.len() {
        let stored = count[c];
        let references = counted[c];
        differences[c] = signed::difference(stored, references);
        sides = add_cell(sides, stored, references);
    }
    sides
}

// The row of a heap: the cells that are on neither side are at zero.
fn row_of(sides: Sides, cells: usize, lost: usize) -> Row
    requires { (sides.below + sides.above ≤ cells) × (cells ≤ 1024) }
    ensures { result ≡ record {
      below = sides.below;
      at = cells - (sides.below + sides.above);
      above = sides.above;
      sum = sides.sum;
      lost = lost;
      size = 0;
    } }
{
    let sum = signed::wide(sides.sum);
    let below = sides.below as u64;
    let above = sides.above as u64;
    Row {
        below: below,
        at: cells as u64 - (below + above),
        above: above,
        sum: sum,
        lost: lost as u64,
        size: 0,
    }
}

// Every entry of roots, slots and queue counts. Answers how many are lost.
fn tally_three(tally: &mut [u16], tables: Tables) -> usize
    requires { TallyRoom tally.old (length tables.roots.now + (length tables.slots.now + length tables.queue.now))
        × (length tables.roots.now + (length tables.slots.now + length tables.queue.now) < 65536) }
    ensures { Tallies tally.old (references (heap_of tables.entry)) tally.new 0 result }
{
    let a = tally_all(tally, tables.roots, 0);
    let b = tally_all(tally, tables.slots, a);
    tally_all(tally, tables.queue, b)
}

// Writes each cell's difference, and answers the heap's row. `tally` is scratch room, all 0; behind its entry 0 it has an entry for each cell.
fn audit_with(tally: &mut [u16], differences: &mut [i32], tables: Tables) -> Row
    requires { Lengths differences.old (heap_of tables) × Clear tally.old (length tables.count.now) }
    ensures { CellsAudited (heap_of tables.entry) differences.new result }
{
    let lost = tally_three(tally, tables);
    let sides = compare(differences, tables.count, &tally[1..]);
    row_of(sides, tables.count.len(), lost)
}

// The same, with scratch room of its own.
pub fn audit_cells(differences: &mut [i32], tables: Tables) -> Row
    requires { Lengths differences.old (heap_of tables) }
    ensures { CellsAudited (heap_of tables.entry) differences.new result }
{
    let mut tally = [0u16; TALLY_MAX];
    audit_with(&mut tally[..=tables.count.len()], differences, tables)
}
