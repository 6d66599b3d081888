// Signed numbers: a cell's difference, and the two sides of zero, each operation a function of its own. Above these no proof speaks of bits.
// `as` narrows here what is known to fit: a TryFrom would leave a way out that is never taken.
#![tactic(auto)]

ghost use Rattle.std.specs.Prelude.{◌≡◌, ◌≤◌, pos, ◌-ℤ◌};
ghost use Rattle.std.specs.Int.Signed.{lt_z};
ghost use Rattle.rules.specs.Audit.{up, down};

// A cell's stored count minus its counted references: below zero when the stored count is too low.
pub fn difference(count: u16, counted: u16) -> i32
    ensures { result ≡ pos count -ℤ pos counted }
{
    i32::from(count) - i32::from(counted)
}

pub fn wide(x: i32) -> i64
    ensures { result ≡ x }
{
    i64::from(x)
}

pub fn negative(x: i64) -> bool
    ensures { result ≡ lt_z x (pos 0) }
{
    x < 0
}

// How far a number is above zero.
pub fn up(x: i64) -> u64
    ensures { (result ≡ up x) × (result ≤ 9223372036854775808) }
{
    if negative(x) {
        return 0;
    }
    x as u64
}

// How far a number is below zero. One is added before the turn, so that the least number has its distance too.
pub fn down(x: i64) -> u64
    ensures { (result ≡ down x) × (result ≤ 9223372036854775808) }
{
    if negative(x) {
        return (-(x + 1)) as u64 + 1;
    }
    0
}
