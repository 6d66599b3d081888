// The cells that have a bit in these words and none in the marks, by the processor's count of trailing zeros. Such cells are called open.
// A search goes through a word by clearing its lowest bit, so that the open cells of a word are worked out once.
// `as` widens here: From says no more, and each use of it is a further step for the proof.
ghost use Rattle.std.specs.Prelude.{ℕ, ◌*◌, ◌/◌, ◌^◌, ◌≤◌, ◌<◌, ◌≡◌, length};
ghost use Rattle.words.specs.Search.{OpenWord, Left, AllFrom, FoundIn, open_between, left_of};

use numbers::Cell;
use std::marker::Model;

// What is left of a search: in the word that begins at cell `base` the cells that have a bit in `bits`, and the open cells of the words after it.
#[derive(Clone, Copy)]
pub struct Rest {
    base: usize,
    bits: u64,
}

// The open cells of word j.
fn open_bits(words: &[u64], marks: &[u64], j: usize) -> u64
    requires { (j < length words.now) × (j < length marks.now) }
    ensures { OpenWord words.now marks.now j result }
{
    words[j] & !marks[j]
}

// All open cells are left.
pub fn from_first(words: &[u64], marks: &[u64]) -> Rest
    requires { (0 < length words.now) × (0 < length marks.now) }
    ensures { AllFrom words.now marks.now 0 result }
{
    Rest {
        base: 0,
        bits: open_bits(words, marks, 0),
    }
}

// The open cells from a given one on are left.
pub fn from_cell(words: &[u64], marks: &[u64], cell: Cell) -> Rest
    requires { (cell.0 < 64 * length words.now) × (cell.0 < 64 * length marks.now) }
    ensures { AllFrom words.now marks.now cell.0 result }
{
    let c = cell.index();
    let open = open_bits(words, marks, c / 64);
    Rest {
        base: 64 * (c / 64),
        bits: (open >> (c % 64)) << (c % 64),
    }
}

// The lowest cell of those that are left, of so many cells, and what is left after it.
pub fn next_open(words: &[u64], marks: &[u64], cells: usize, rest: Rest) -> Option<(Cell, Rest)>
    requires cells_bound { (cells ≤ 64 * length words.now) × (cells ≤ 64 * length marks.now) }
    requires base_lt_cells { (rest.base < cells) × (cells < 2 ^ 63) }
    ensures { FoundIn words.now marks.now cells rest result }
{
    let Rest { mut base, mut bits } = rest;
    // not a `for`: of the first word the bits are handed in
    while bits == 0 {
        base += 64;
        if cells <= base {
            return None;
        }
        bits = open_bits(words, marks, base / 64);
    }
    let cell = Cell::of(base + u64::trailing_zeros(bits) as usize, cells)?;
    let rest = Rest {
        base,
        bits: bits & (bits - 1),
    };
    Some((cell, rest))
}

// A search of so many cells, seen as the list of the open ones that are left, lowest first.
#[derive(Clone, Drop)]
pub struct Open<'a> {
    words: &'a [u64],
    marks: &'a [u64],
    cells: usize,
    rest: Rest,
}

impl<'a> Model for Open<'a> {
    ghost use Rattle.std.specs.Prelude.{ℕ, ◌*◌, ◌^◌, ◌≤◌, ◌<◌, List, length};
    ghost use Rattle.words.specs.Search.{Left, left_of};

    ghost Value = { List ℕ };

    ghost view = { λ s. left_of s.words.now s.marks.now s.cells s.rest.base s.rest.bits };

    ghost invariant = { λ s. (s.cells ≤ 64 * length s.words.now) × (s.cells ≤ 64 * length s.marks.now)
        × (s.cells < 2 ^ 63) × ((from : ℕ) × Left s.words.now s.marks.now s.cells from s.rest) };
}

// The open cells that are left, of so many.
fn open_left<'a>(words: &'a [u64], marks: &'a [u64], cells: usize, rest: Rest) -> Open<'a>
    requires cells_bound { (cells ≤ 64 * length words.now) × (cells ≤ 64 * length marks.now) × (cells < 2 ^ 63) }
    requires some_from { (from : ℕ) × Left words.now marks.now cells from rest }
    ensures { result ≡ left_of words.now marks.now cells rest.base rest.bits }
{
    Open {
        words,
        marks,
        cells,
        rest,
    }
}

// All open cells, of so many.
pub fn open_cells<'a>(words: &'a [u64], marks: &'a [u64], cells: usize) -> Open<'a>
    requires cells_bound { (cells ≤ 64 * length words.now) × (cells ≤ 64 * length marks.now) }
    requires some_cells { (0 < cells) × (cells < 2 ^ 63) }
    ensures { result ≡ open_between words.now marks.now 0 cells }
{
    open_left(words, marks, cells, from_first(words, marks))
}

// The open cells from a given one on, of so many. Of the word that the cell stands in some cell is one of these; the cell itself may lie behind them.
pub fn open_from<'a>(words: &'a [u64], marks: &'a [u64], cells: usize, cell: Cell) -> Open<'a>
    requires cells_bound { (cells ≤ 64 * length words.now) × (cells ≤ 64 * length marks.now) }
    requires word_in_cells { (64 * (cell.0 / 64) < cells) × (cells < 2 ^ 63) }
    ensures { result ≡ open_between words.now marks.now cell.0 cells }
{
    open_left(words, marks, cells, from_cell(words, marks, cell))
}

impl<'a> Iterator for Open<'a> {
    ghost use Rattle.std.specs.Iterator.{YieldsFirstBy, item_count};

    type Item = Cell;

    ghost next_gives = { YieldsFirstBy (λ cell. cell.0) (λ rest. rest) };

    ghost remaining = { item_count (λ rest. rest) };

    fn next(&mut self) -> Option<Cell> {
        let (cell, rest) = next_open(self.words, self.marks, self.cells, self.rest)?;
        self.rest = rest;
        Some(cell)
    }
}
