// Marking: cells and slots mark each other, nested at most DEPTH deep; a cell met at that depth is noted, and served by a later scan.
// Marks are bits: the first half of the words has the marked cells, the second the noted ones.
// Only `unmarked`, `set_marked`, `to_mark`, `note` and the searches for noted cells know how marks are kept; the sweep knows the first half.
// `slots` and `marks` stay two slices: `mark_from` and `mark_all` promise what they do of any two that fit, and a struct with that as its invariant would ask for more.
// `as` widens here: From says no more, and each use of it is a further step for the proof.
#![tactic(auto)]

ghost use Rattle.std.specs.Prelude.{◌+◌, ◌-◌, ◌*◌, ◌/◌, ◌^◌, ◌≤◌, ◌<◌, ◌++◌, ◌≡◌, length, get_or, replicate};
ghost use Rattle.rules.specs.Marking.{mark_from};
ghost use Rattle.rules.specs.Depth.{mark_cell, mark_slot, mark_table, noted_between, next_noted, scan_all};
ghost use Rattle.rules.specs.Words.{marks_of};
ghost use Rattle.laws.specs.Marking.Marks.{Within, Slots, ClosedMarks};
ghost use Rattle.laws.specs.Words.Marks.{WordsFor, HasMarks};
ghost use Rattle.numbers.specs.Numbers.{AsCell};
ghost use Rattle.marking.specs.Steps.{cells_of, Unmarked, ToMark, CellMarked, CellNoted};

use numbers::{Cell, Slot};
use words::search::{open_cells, open_from};

// How deep cells nest.
const DEPTH: usize = 16;

// Marks for the most cells that a heap has: every one is unmarked.
pub fn unmarked() -> [u64; 32]
    ensures value { result ≡ replicate 32 0 }
    ensures unmarked { Unmarked result }
{
    [0; 32]
}

// A cell is marked.
fn set_marked(marks: &mut [u64], cell: Cell)
    requires { cell.0 < 64 * (length marks.old / 2) }
    ensures { CellMarked marks.old cell.0 marks.new }
{
    let c = cell.index();
    marks[c / 64] |= 1 << (c % 64);
}

// Does a reference name a cell that is not marked? A noted cell is not: met with depth left it is marked at once.
fn to_mark(marks: &[u64], reference: u16) -> bool
    requires { reference ≤ 64 * (length marks.now / 2) }
    ensures { ToMark marks.now reference result }
{
    if reference == 0 {
        return false;
    }
    let c = reference as usize - 1;
    (marks[c / 64] >> (c % 64)) % 2 == 0
}

// Notes the cell that a reference names. It takes the reference, which spares a range check for each noted cell.
fn note(marks: &mut [u64], reference: u16)
    requires { (0 < reference) × (reference ≤ 64 * (length marks.old / 2)) }
    ensures { CellNoted marks.old (reference - 1) marks.new }
{
    let c = reference as usize - 1;
    let half = marks.len() / 2;
    marks[half + c / 64] |= 1 << (c % 64);
}

// Marks a cell, and from its slots, `depth` deep.
#[cycle(mark_cell_mark_slot)]
fn mark_cell(slots: &[u16], marks: &mut [u64], cell: Cell, depth: usize)
    requires slots { Slots slots.now (cells_of slots.now) }
    requires words_for { WordsFor (cells_of slots.now) marks.old }
    requires cell_bound { (cell.0 < cells_of slots.now) × (0 < depth) }
    ensures { HasMarks (cells_of slots.now) marks.new (mark_cell depth slots.now (marks_of (cells_of slots.now) marks.old) cell.0) }
{
    set_marked(marks, cell);
    // by the slot's number, which is what is handed on
    for k in 0..8 {
        let Some(slot) = Slot::of(k) else {
            return;
        };
        mark_slot(slots, marks, cell, slot, depth - 1);
    }
}

// Marks the cell that a slot names, if it is not marked; with no depth left it is noted, here and not in `mark_cell`, which spares a call for each noted cell.
#[cycle(mark_cell_mark_slot)]
fn mark_slot(slots: &[u16], marks: &mut [u64], cell: Cell, slot: Slot, depth: usize)
    requires slots { Slots slots.now (cells_of slots.now) }
    requires words_for { WordsFor (cells_of slots.now) marks.old }
    requires cell_bound { (cell.0 < cells_of slots.now) × (slot.0 < 8) }
    ensures { HasMarks (cells_of slots.now) marks.new
        (mark_slot depth slots.now (marks_of (cells_of slots.now) marks.old) (get_or slots.now (8 * cell.0 + slot.0) 0)) }
{
    let reference = slots[8 * cell.index() + slot.index()];
    if to_mark(marks, reference) {
        if depth == 0 {
            note(marks, reference);
            return;
        }
        let Some(named) = Cell::of(reference as usize - 1, slots.len() / 8) else {
            return;
        };
        mark_cell(slots, marks, named, depth);
    }
}

// The first noted cell, of so many.
fn first_noted(marks: &[u64], cells: usize) -> Option<Cell>
    requires { WordsFor cells marks.now × (cells < 2 ^ 63) }
    ensures { AsCell (noted_between (marks_of cells marks.now) 0 cells) cells result }
{
    let (marked, noted) = marks.split_at(marks.len() / 2);
    open_cells(noted, marked, cells).next()
}

// The next noted cell, from `from` on and round to `from` again.
fn next_noted(marks: &[u64], cells: usize, from: Cell) -> Option<Cell>
    requires words_for { WordsFor cells marks.now × (cells < 2 ^ 63) }
    requires from_lt_cells { from.0 < cells }
    ensures { AsCell (next_noted (marks_of cells marks.now) from.0) cells result }
{
    let (marked, noted) = marks.split_at(marks.len() / 2);
    if let Some(cell) = open_from(noted, marked, cells, from).next() {
        return Some(cell);
    }
    first_noted(marks, cells)
}

// Serves every noted cell: marks it, and from it, until none is noted.
fn mark_noted(slots: &[u16], marks: &mut [u64])
    requires slots { Slots slots.now (cells_of slots.now) }
    requires words_for { WordsFor (cells_of slots.now) marks.old }
    ensures { HasMarks (cells_of slots.now) marks.new (scan_all 16 slots.now (marks_of (cells_of slots.now) marks.old)) }
{
    let cells = slots.len() / 8;
    // no `for` over an iterator, which would borrow the marks (the borrow checker): each turn writes them
    let mut next = first_noted(marks, cells);
    while let Some(cell) = next {
        mark_cell(slots, marks, cell, DEPTH);
        next = next_noted(marks, cells, cell);
    }
}

// Marks the cell that a root or a queue entry names, if it is not marked.
fn mark_reference(slots: &[u16], marks: &mut [u64], reference: u16)
    requires slots { Slots slots.now (cells_of slots.now) }
    requires words_for { WordsFor (cells_of slots.now) marks.old }
    requires reference_bound { reference ≤ cells_of slots.now }
    ensures { HasMarks (cells_of slots.now) marks.new (mark_slot 16 slots.now (marks_of (cells_of slots.now) marks.old) reference) }
{
    if to_mark(marks, reference) {
        let Some(cell) = Cell::of(reference as usize - 1, slots.len() / 8) else {
            return;
        };
        mark_cell(slots, marks, cell, DEPTH);
    }
}

// Marks or notes the cells that a table of references names, and from them.
fn mark_table(slots: &[u16], marks: &mut [u64], table: &[u16])
    requires slots { Slots slots.now (cells_of slots.now) }
    requires words_for { WordsFor (cells_of slots.now) marks.old }
    requires within { Within (cells_of slots.now) table.now }
    ensures { HasMarks (cells_of slots.now) marks.new (mark_table 16 slots.now (marks_of (cells_of slots.now) marks.old) table.now) }
{
    for &reference in table {
        mark_reference(slots, marks, reference);
    }
}

// Marks all that a table of references reaches, besides what is marked already.
pub fn mark_from(slots: &[u16], marks: &mut [u64], table: &[u16])
    requires slots { Slots slots.now (cells_of slots.now) }
    requires words_for { WordsFor (cells_of slots.now) marks.old }
    requires within { Within (cells_of slots.now) table.now }
    requires closed_marks { ClosedMarks slots.now (marks_of (cells_of slots.now) marks.old) }
    ensures { HasMarks (cells_of slots.now) marks.new (mark_from slots.now (marks_of (cells_of slots.now) marks.old) table.now) }
{
    mark_table(slots, marks, table);
    mark_noted(slots, marks);
}

// Marks all that roots and queue reach, besides what is marked already; one scan serves both.
pub fn mark_all(slots: &[u16], marks: &mut [u64], roots: &[u16], queue: &[u16])
    requires slots { Slots slots.now (cells_of slots.now) }
    requires words_for { WordsFor (cells_of slots.now) marks.old }
    requires within { Within (cells_of slots.now) roots.now }
    requires within_2 { Within (cells_of slots.now) queue.now }
    requires closed_marks { ClosedMarks slots.now (marks_of (cells_of slots.now) marks.old) }
    ensures { HasMarks (cells_of slots.now) marks.new
        (mark_from slots.now (marks_of (cells_of slots.now) marks.old) (roots.now ++ queue.now)) }
{
    mark_table(slots, marks, roots);
    mark_table(slots, marks, queue);
    mark_noted(slots, marks);
}
