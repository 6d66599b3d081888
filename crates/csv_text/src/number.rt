// A number with no leading zeros, put into a buffer. Up to three digits are written straight, since most numbers have no more. Not by Display: its text
// is a String, and there is no heap; and `Wrote` promises the place behind the number.
// `out` and `at` stay two parameters: with a struct that lends the buffer each contract would also say that its field keeps its ghost name.
// `as` narrows here what is known to fit: a TryFrom would leave a way out that is never taken.
ghost use Rattle.std.specs.Prelude.{◌+◌, ◌%◌, ◌≤◌, ◌<◌, [], ◌∷◌, length};
ghost use Rattle.csv_text.specs.Decimal.{decimal_of};
ghost use Rattle.csv_text.specs.Written.{Wrote};

pub fn put_byte(out: &mut [u8], at: usize, byte: u8) -> usize
    requires { at < length out.old }
    ensures { Wrote out.old at (byte ∷ []) out.new result }
{
    out[at] = byte;
    at + 1
}

pub fn put_number(out: &mut [u8], at: usize, n: u64) -> usize
    requires { at + length (decimal_of n) ≤ length out.old }
    ensures { Wrote out.old at (decimal_of n) out.new result }
{
    if n < 10 {
        return put_last_digit(out, at, n);
    }
    if n < 100 {
        return put_two_digits(out, at, n);
    }
    if n < 1000 {
        return put_three_digits(out, at, n);
    }
    put_digits(out, at, n)
}

fn put_last_digit(out: &mut [u8], at: usize, n: u64) -> usize
    requires { at < length out.old }
    ensures { Wrote out.old at ((48 + n % 10) ∷ []) out.new result }
{
    put_byte(out, at, b'0' + (n % 10) as u8)
}

// Two and three digits stay two functions: one over a const parameter N would call itself at N - 1, and a const argument may be a parameter's name alone.
fn put_two_digits(out: &mut [u8], at: usize, n: u64) -> usize
    requires { (10 ≤ n) × (n < 100) × (at + length (decimal_of n) ≤ length out.old) }
    ensures { Wrote out.old at (decimal_of n) out.new result }
{
    let last = put_last_digit(out, at, n / 10);
    put_last_digit(out, last, n)
}

fn put_three_digits(out: &mut [u8], at: usize, n: u64) -> usize
    requires { (100 ≤ n) × (n < 1000) × (at + length (decimal_of n) ≤ length out.old) }
    ensures { Wrote out.old at (decimal_of n) out.new result }
{
    let last = put_two_digits(out, at, n / 10);
    put_last_digit(out, last, n)
}

// From four digits on.
fn put_digits(out: &mut [u8], at: usize, n: u64) -> usize
    requires { (1000 ≤ n) × (at + length (decimal_of n) ≤ length out.old) }
    ensures { Wrote out.old at (decimal_of n) out.new result }
{
    if n < 10000 {
        let last = put_three_digits(out, at, n / 10);
        put_last_digit(out, last, n)
    } else {
        let last = put_digits(out, at, n / 10);
        put_last_digit(out, last, n)
    }
}
