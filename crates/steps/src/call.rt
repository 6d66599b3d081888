// The call that four numbers name: its own number, and three arguments.
ghost use Rattle.std.specs.Prelude.{◌≡◌};
ghost use Rattle.rules.specs.Asked.{call_numbered, call_of, uses, used_or_zero, unused_zero};
ghost use Rattle.steps.specs.Call.{asked};

// A call with its arguments, in the paper's order.
#[derive(Clone, Copy)]
pub enum Call {
    New(usize, usize, usize),
    Clear(usize),
    Copy(usize, usize),
    Load(usize, usize, usize),
    Store(usize, usize, usize),
    Collect,
    Start(usize),
    Finish,
}

// How many of the three arguments a call uses; a number that names no call leaves none unused. By the number, since that may name none.
fn arguments(op: u16) -> u16
    ensures { result ≡ uses op }
{
    match op {
        6 | 8 => 0,
        2 | 7 => 1,
        3 => 2,
        _ => 3,
    }
}

// Whether argument number i is among the first `used`, or 0.
fn used_or_zero(used: u16, i: u16, x: usize) -> bool
    ensures { result ≡ used_or_zero used i x }
{
    i <= used || x == 0
}

// Whether the arguments after the first `used` are 0.
fn unused_zero(used: u16, x: usize, y: usize, z: usize) -> bool
    ensures { result ≡ unused_zero used x y z }
{
    let first = used_or_zero(used, 1, x);
    let second = used_or_zero(used, 2, y);
    let third = used_or_zero(used, 3, z);
    first & second & third
}

// The call with this number, and its arguments as they are. The number is matched on as one, which is document 01's form for it.
fn numbered(op: u16, x: usize, y: usize, z: usize) -> Option<Call>
    ensures { asked result ≡ call_numbered op x y z }
{
    match op {
        1 => Some(Call::New(x, y, z)),
        2 => Some(Call::Clear(x)),
        3 => Some(Call::Copy(x, y)),
        4 => Some(Call::Load(x, y, z)),
        5 => Some(Call::Store(x, y, z)),
        6 => Some(Call::Collect),
        7 => Some(Call::Start(x)),
        8 => Some(Call::Finish),
        0 | 9..=65535 => None,
    }
}

impl Call {
    // None where the number names no call, or an argument that it does not use is not 0.
    pub fn of(op: u16, x: usize, y: usize, z: usize) -> Option<Call>
        ensures { asked result ≡ call_of op x y z }
    {
        if !unused_zero(arguments(op), x, y, z) {
            return None;
        }
        numbered(op, x, y, z)
    }
}
