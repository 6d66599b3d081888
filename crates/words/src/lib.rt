// Cells as bits of 64-bit words: cell c has bit c % 64 of word c / 64.
#![tactic(auto)]

pub mod counting;
pub mod search;
pub mod used;

ghost use Rattle.std.specs.Prelude.{◌*◌, ◌<◌, ◌≡◌, eqb, length};
ghost use Rattle.rules.specs.Words.{bit_of};

use numbers::Cell;

// Whether a cell has its bit.
pub fn has_bit(words: &[u64], cell: Cell) -> bool
    requires { cell.0 < 64 * length words.now }
    ensures { result ≡ eqb (bit_of words.now cell.0) 1 }
{
    let c = cell.index();
    (words[c / 64] >> (c % 64)) % 2 == 1
}
