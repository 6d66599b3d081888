// How often each cell is referred to: entry r of a tally has how often the reference r was met so far, which names cell r - 1. Entry 0 takes the empty references, so that they need no test of their own; what it has says nothing.
#![tactic(auto)]

ghost use Rattle.std.specs.Prelude.{◌≡◌, [], ◌∷◌, ◌+◌, ◌<◌, eqb, length};
ghost use Rattle.rules.specs.Lists.{all};
ghost use Rattle.laws.specs.Sound.Tally.{TallyRoom};
ghost use Rattle.tally.specs.Tallies.{Tallies};

use rules::CELLS_MAX;

// The most entries of a tally: one for each cell, and entry 0.
pub const TALLY_MAX: usize = CELLS_MAX + 1;

// Tallies one reference. One above N has no entry, names no cell and is lost: answers how many are, with the `lost` of before, which spares the loops around it a sum.
fn tally_one(tally: &mut [u16], reference: u16, lost: usize) -> usize
    requires { TallyRoom tally.old 1 × (lost + 1 < 65536) }
    ensures { Tallies tally.old (reference ∷ []) tally.new lost result }
{
    let r = usize::from(reference);
    if tally.len() <= r {
        return lost + 1;
    }
    tally[r] += 1;
    lost
}

// Tallies references one by one.
fn tally_each(tally: &mut [u16], references: &[u16], before: usize) -> usize
    requires { TallyRoom tally.old (length references.now) × (before + length references.now < 65536) }
    ensures { Tallies tally.old references.now tally.new before result }
{
    let mut lost = before;
    for &reference in references {
        lost = tally_one(tally, reference, lost);
    }
    lost
}

// Are four references empty? The first has a test of its own, which mostly tells a used four: the others are then loaded where they are tallied, and not before.
fn four_empty(four: &[u16; 4]) -> bool
    ensures { result ≡ all (eqb 0) four.now }
{
    if four[0] != 0 {
        return false;
    }
    (four[1] | four[2] | four[3]) == 0
}

// Tallies four references; where all are empty, as most slots are, they are skipped.
fn tally_four(tally: &mut [u16], four: &[u16; 4], before: usize) -> usize
    requires { TallyRoom tally.old 4 × (before + 4 < 65536) }
    ensures { Tallies tally.old four.now tally.new before result }
{
    if four_empty(four) {
        return before;
    }
    tally_each(tally, four, before)
}

// Tallies the references of a table, four at a time, and the up to three behind the last four one by one; answers how many are lost, with the `before` of other tables.
pub fn tally_all(tally: &mut [u16], references: &[u16], before: usize) -> usize
    requires { TallyRoom tally.old (length references.now) × (before + length references.now < 65536) }
    ensures { Tallies tally.old references.now tally.new before result }
{
    let (fours, rest) = references.as_chunks::<4>();
    let mut lost = before;
    for four in fours {
        lost = tally_four(tally, four, lost);
    }
    tally_each(tally, rest, lost)
}
