// What a new cell is to be.
// `as` narrows here what is known to fit: a TryFrom would leave a way out that is never taken.
ghost use Rattle.std.specs.Prelude.{◌≡◌};
ghost use Rattle.rules.specs.Refusals.{new_ok};
ghost use Rattle.allocation.specs.Shapes.{AsShape};

// A kind, and flags that say whether a finalizer is wanted. The fields are private, so that only the check makes one, and the two cannot change places.
// The kind stays a number: the tables of the C interface hold it as one, and NEW asks nothing of it but its range.
#[derive(Clone, Copy)]
pub struct Shape {
    kind: u16,
    flags: u16,
}

// Can NEW make such a cell: a kind from 1 to 3, a wish of 0 or 1, and a finalizer for an object only?
fn makes(kind: usize, finalizer: usize) -> bool
    ensures { result ≡ new_ok kind finalizer }
{
    match kind {
        0 => false,
        1 => finalizer < 2,
        _ => kind < 4 && finalizer == 0,
    }
}

impl Shape {
    pub fn of(kind: usize, finalizer: usize) -> Option<Shape>
        ensures { AsShape kind finalizer result }
    {
        if !makes(kind, finalizer) {
            return None;
        }
        Some(Shape {
            kind: kind as u16,
            flags: finalizer as u16,
        })
    }

    pub fn kind(self) -> u16
        ensures { result ≡ self.kind }
    {
        self.kind
    }

    pub fn flags(self) -> u16
        ensures { result ≡ self.flags }
    {
        self.flags
    }
}
