// Reading lines of four numbers, a byte at a time. What is kept is seven numbers, however long a line is.
ghost use Rattle.std.specs.Prelude.{◌≡◌, ◌≤◌};
ghost use Rattle.csv_text.specs.Reading.{reader_start, skipping, comma as after_comma, digit as after_digit, in_line, plain, record_so_far, fed, closed};

use crate::COMMA;

// The numbers of a line, in their order.
#[derive(Clone, Copy)]
pub struct Numbers(pub u16, pub u16, pub u16, pub u16);

// A line that is not four numbers.
#[derive(Clone, Copy)]
pub struct Malformed;

// What a line says.
pub type Record = Result<Numbers, Malformed>;

// The line so far: the fields that are finished, then the digits and the value of the next one. The last four values are kept, d the latest.
// A CR is not part of the line until the next byte is known: cr is 0 if none is held back, a number, since C carries the reader.
#[repr(C)]
#[derive(Clone, Copy, Default)]
pub struct Reader {
    pub cr: u16,
    pub field: u16,
    pub digits: u16,
    pub a: u16,
    pub b: u16,
    pub c: u16,
    pub d: u16,
}

// Before any input.
pub fn start() -> Reader
    ensures { result ≡ reader_start }
{
    Reader::default()
}

// The next byte of the input: the reader to go on with, and what the line says that the byte ends, if it ends one.
pub fn feed(s: Reader, byte: u8) -> (Reader, Option<Record>)
    ensures { result ≡ fed s byte }
{
    if s.cr == 0 {
        return (next(s, byte), None);
    }
    if byte == b'\n' {
        return (start(), Some(said(s)));
    }
    (next(skip(), byte), None)
}

// The end of the input closes an unfinished line; a CR at its end is part of it.
pub fn end(s: Reader) -> Option<Record>
    ensures { result ≡ closed s }
{
    if s.cr != 0 {
        return Some(Err(Malformed));
    }
    if s.field == 0 && s.digits == 0 {
        return None;
    }
    Some(said(s))
}

// What the line says if it ends here.
fn said(s: Reader) -> Record
    ensures { result ≡ record_so_far s }
{
    if s.field != 3 || s.digits == 0 {
        return Err(Malformed);
    }
    Ok(Numbers(s.a, s.b, s.c, s.d))
}

// A line that no further byte can mend: it is skipped to its end, and nothing more of it is kept.
// Neither a comma nor a digit finds room in it, so that no byte asks whether a line is skipped.
fn skip() -> Reader
    ensures { result ≡ skipping }
{
    Reader {
        field: 4,
        digits: 5,
        ..start()
    }
}

// A byte with no CR before it.
fn next(s: Reader, byte: u8) -> Reader
    ensures { result ≡ plain s byte }
{
    if byte == b'\r' {
        // a field of a copy is written: a reader made anew with `..s` takes every byte a third more instructions
        let mut held = s;
        held.cr = 1;
        return held;
    }
    in_line(s, byte)
}

// A byte of a line.
fn in_line(s: Reader, byte: u8) -> Reader
    ensures { result ≡ in_line s byte }
{
    if byte == COMMA {
        return comma(s);
    }
    if byte.is_ascii_digit() {
        return digit(s, byte);
    }
    skip()
}

// A comma ends a field: at most the third, and none that is empty.
fn comma(s: Reader) -> Reader
    ensures { result ≡ after_comma s }
{
    if s.field >= 3 || s.digits == 0 {
        return skip();
    }
    Reader {
        field: s.field + 1,
        a: s.b,
        b: s.c,
        c: s.d,
        ..start()
    }
}

// A digit: at most the fifth of its field, with a value of at most 65,535.
fn digit(s: Reader, byte: u8) -> Reader
    requires { (48 ≤ byte) × (byte ≤ 57) }
    ensures { result ≡ after_digit s byte }
{
    if s.digits >= 5 {
        return skip();
    }
    let value = u32::from(s.d) * 10 + u32::from(byte - b'0');
    let Ok(d) = u16::try_from(value) else {
        return skip();
    };
    Reader {
        cr: 0,
        digits: s.digits + 1,
        d,
        ..s
    }
}
