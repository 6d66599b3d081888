// What every call but FRESH asks first.
ghost use Rattle.std.specs.Prelude.{◌≡◌};
ghost use Rattle.rules.specs.Refused.{refused};
ghost use Rattle.laws.specs.Calls.Admission.{admission};

use crate::{fits, sound};
use rules::refusal::Refusal;
use rules::tables::Readable;

// SIZE where the tables don't fit N cells, else DAMAGED where the heap is not sound.
pub fn admit<T: Readable>(tables: &T) -> Result<(), Refusal>
    ensures { refused result ≡ admission (T.heap tables.now) }
{
    // as they stand, and not handed on by every caller: a value of seven slices would stand in each caller's frame while the heap is checked
    let tables = tables.read();
    if !fits(tables) {
        return Err(Refusal::Size);
    }
    if !sound(tables) {
        return Err(Refusal::Damaged);
    }
    Ok(())
}
