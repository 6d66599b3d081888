// How many cells have a bit, by the processor's count of ones.
// `as` widens here: From says no more, and each use of it is a further step for the proof.
ghost use Rattle.std.specs.Prelude.{◌*◌, ◌^◌, ◌<◌, ◌≡◌, length};
ghost use Rattle.rules.specs.Lists.{occ};
ghost use Rattle.rules.specs.Words.{bits_of};

// The number of cells that have a bit, the words taken whole.
pub fn count_bits(words: &[u64]) -> usize
    requires { 64 * length words.now < 2 ^ 63 }
    ensures { result ≡ occ 1 (bits_of (64 * length words.now) words.now) }
{
    let mut count = 0;
    for &word in words {
        count += word.count_ones() as usize;
    }
    count
}
