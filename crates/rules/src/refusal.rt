// Why a call is refused. The rules are in specs/Refusals.
ghost use Rattle.std.specs.Prelude.{◌≡◌};
ghost use Rattle.rules.specs.Refused.{number_of};

// The refusal numbers of document 01, in its order, and of document 02. A call that is done has the number DONE.
#[derive(Clone, Copy)]
pub enum Refusal {
    Size = 1,
    Damaged = 2,
    Number = 3,
    Empty = 4,
    Kind = 5,
    Taken = 6,
    Full = 7,
    Busy = 8,
    None = 9,
    Idle = 10,
    Line = 11,
    Total = 12,
    Many = 14,
}

impl From<Refusal> for u16 {
    ghost from_gives = { λ why n. n ≡ number_of why };

    fn from(why: Refusal) -> u16 {
        why as u16
    }
}
