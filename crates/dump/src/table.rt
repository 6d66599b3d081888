// The tables of a complete heap, read off the arrays.
ghost use Rattle.std.specs.Prelude.{◌≡◌, ◌-◌, ◌≤◌, ◌<◌, length, take, drop};
ghost use Rattle.dump.specs.Holding.{Complete, Inside, Gives, edge};

use crate::reader::Reader;

// Table i, 0 to 6. Of a heap that can fit no N every table is empty, which fits no N either.
pub fn table<'a>(reader: Reader, entries: &'a [u16], ends: &[usize], i: usize) -> &'a [u16]
    requires complete { Complete reader entries.now ends.now }
    requires i_bound { i < 7 }
    ensures { Gives reader entries.now ends.now i result.now }
{
    if reader.spoilt {
        return &entries[0..0];
    }
    let from = start_of(ends, i);
    let to = ends[i];
    between(entries, from, to)
}

// Where table i begins: where the one before it ends.
fn start_of(ends: &[usize], i: usize) -> usize
    requires { i ≤ length ends.now }
    ensures { result ≡ edge ends.now i }
{
    if i == 0 {
        return 0;
    }
    ends[i - 1]
}

// The entries of one table.
fn between(entries: &[u16], from: usize, to: usize) -> &[u16]
    requires { Inside from to entries.now }
    ensures { result.now ≡ take (to - from) (drop from entries.now) }
{
    &entries[from..to]
}
