// A number below a fixed limit: its limit is in its type.
ghost use Rattle.std.specs.Prelude.{◌≡◌};
ghost use Rattle.numbers.specs.Numbers.{AsBelow};

#[derive(Clone, Copy)]
pub struct Below<const N: usize>(usize);

impl<const N: usize> Below<N> {
    // An Option and no TryFrom, whose error would say nothing: who asks says why a call is refused.
    pub fn of(x: usize) -> Option<Below<N>>
        ensures { AsBelow x N result }
    {
        if x < N { Some(Below(x)) } else { None }
    }

    pub fn index(self) -> usize
        ensures { result ≡ self.entry.0 }
    {
        self.0
    }
}
