// The lines of a heap: what a byte makes of a line, and where a table ends.
ghost use Rattle.std.specs.Prelude.{◌≡◌, ◌<◌, length};
ghost use Rattle.dump.specs.Reading.{in_line, plain, last_field, line_end};
ghost use Rattle.dump.specs.Holding.{Ready, Goes, Marks, Steps};

use crate::field::{digit, spoil, store};
use crate::reader::Reader;
use csv_text::COMMA;

// A byte with no CR before it.
pub fn next(reader: Reader, byte: u8, entries: &mut [u16]) -> Reader
    requires { length entries.old ≡ 12354 }
    ensures { Goes (λ s. plain s byte) reader entries.old result entries.new }
{
    if byte == b'\r' {
        return Reader { cr: true, ..reader };
    }
    in_line(reader, byte, entries)
}

// A byte of a line: a comma ends a field.
fn in_line(reader: Reader, byte: u8, entries: &mut [u16]) -> Reader
    requires { length entries.old ≡ 12354 }
    ensures { Goes (λ s. in_line s byte) reader entries.old result entries.new }
{
    if reader.spoilt {
        return spoil(reader);
    }
    if byte == COMMA {
        return store(reader, entries);
    }
    if byte.is_ascii_digit() {
        return digit(reader, byte);
    }
    spoil(reader)
}

// The line ends, and its table with it.
pub fn end_line(reader: Reader, entries: &mut [u16], ends: &mut [usize]) -> Reader
    requires { Ready reader entries.old ends.old }
    ensures { Steps line_end reader entries.old ends.old result entries.new ends.new }
{
    let whole = last_field(reader, entries);
    mark(whole, ends)
}

// The last field of a line ends with it; an empty line has none.
fn last_field(reader: Reader, entries: &mut [u16]) -> Reader
    requires { length entries.old ≡ 12354 }
    ensures { Goes last_field reader entries.old result entries.new }
{
    if reader.spoilt {
        return reader;
    }
    if !reader.begun {
        return reader;
    }
    store(reader, entries)
}

// Where the table ends is noted, and the next line begins.
fn mark(reader: Reader, ends: &mut [usize]) -> Reader
    requires { (length ends.old ≡ 7) × (reader.tables < 7) }
    ensures { Marks reader ends.old result ends.new }
{
    let tables = reader.tables;
    ends[tables] = reader.end;
    Reader {
        tables: tables + 1,
        end: reader.end,
        spoilt: reader.spoilt,
        ..Reader::default()
    }
}
