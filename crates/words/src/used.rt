// The used cells as bits.
ghost use Rattle.std.specs.Prelude.{◌*◌, ◌^◌, ◌≤◌, ◌<◌, length};
ghost use Rattle.rules.specs.Words.{UsedBits};
ghost use Rattle.words.specs.Used.{UsedWord};

// The bits of the used cells of word j.
fn used_word(kind: &[u16], j: usize) -> u64
    requires { 64 * j < 2 ^ 63 }
    ensures { UsedWord kind.now (64 * j) result }
{
    let start = 64 * j;
    let end = (start + 64).min(kind.len());
    let mut word = 0;
    // from the last cell down: each turn makes room for a lower bit
    for c in (start..end).rev() {
        word = 2 * word + u64::from(kind[c] != 0);
    }
    word
}

// Writes the bits of the used cells; every word is written.
pub fn write_used(kind: &[u16], words: &mut [u64])
    requires { (length kind.now ≤ 64 * length words.old) × (64 * length words.old < 2 ^ 63) }
    ensures { UsedBits kind.now words.new }
{
    // by the word's number: behind an iter_mut nothing would be known of the words
    for j in 0..words.len() {
        words[j] = used_word(kind, j);
    }
}
