// The fields of a line: the digits of a number, and its place among the entries.
ghost use Rattle.std.specs.Prelude.{◌≡◌, ◌≤◌, length};
ghost use Rattle.dump.specs.Reading.{spoil as spoiltReader, digit as afterDigit, entered};
ghost use Rattle.dump.specs.Holding.{Goes};

use crate::reader::{ENTRIES_MAX, Reader};

// The longest field.
const DIGITS_MAX: u16 = 5;

// The heap can fit no N: from here on its lines are counted, and nothing is stored.
pub fn spoil(reader: Reader) -> Reader
    ensures { result ≡ spoiltReader reader }
{
    Reader {
        begun: true,
        cr: false,
        spoilt: true,
        ..reader
    }
}

// A digit: at most the fifth of its field, with a value of at most 65,535.
// csv_text's reader asks the same of its own: one function would answer an Option, which each reader tests again to go on in its own way.
pub fn digit(reader: Reader, byte: u8) -> Reader
    requires { (48 ≤ byte) × (byte ≤ 57) }
    ensures { result ≡ afterDigit reader byte }
{
    let digits = reader.digits;
    if digits >= DIGITS_MAX {
        return spoil(reader);
    }
    let value = u32::from(reader.value) * 10 + u32::from(byte - b'0');
    let Ok(value) = u16::try_from(value) else {
        return spoil(reader);
    };
    Reader {
        digits: digits + 1,
        value,
        begun: true,
        ..reader
    }
}

// A field ends: it has a digit, and its entry has room.
pub fn store(reader: Reader, entries: &mut [u16]) -> Reader
    requires { length entries.old ≡ 12354 }
    ensures { Goes entered reader entries.old result entries.new }
{
    if reader.digits == 0 {
        return spoil(reader);
    }
    let place = reader.end;
    if place >= ENTRIES_MAX {
        return spoil(reader);
    }
    let after = place + 1;
    entries[place] = reader.value;
    Reader {
        end: after,
        digits: 0,
        value: 0,
        begun: true,
        ..reader
    }
}
