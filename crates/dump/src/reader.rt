// Reading heaps, a byte at a time: seven lines of decimal numbers each, one for each table.
ghost use Rattle.std.specs.Prelude.{◌≤◌};
ghost use Rattle.dump.specs.Reading.{fed, last_line, whole, closed};
ghost use Rattle.dump.specs.Holding.{Ready, Starts, Fills, Steps};

use crate::field::spoil;
use crate::line::{end_line, next};

// The tables of a heap, and the entries of the largest heap in all of them: 12 for each of 1,024 cells, 64 roots and 2 of control.
pub const TABLES: usize = 7;

pub const ENTRIES_MAX: usize = 12354;

// The heap so far: its finished tables and stored entries, then the digits and the value of the unfinished field. `begun` says whether the line has a byte.
// The flags are three facts, each of which may be so or not whatever the other two are: an enum would have a variant for every set of them.
// A CR is not part of the line until the next byte is known: `cr` says whether one is held back. A heap that is `spoilt` can fit no N, whatever follows.
#[derive(Clone, Copy, Default)]
pub struct Reader {
    pub tables: usize,
    pub end: usize,
    pub digits: u16,
    pub value: u16,
    pub begun: bool,
    pub cr: bool,
    pub spoilt: bool,
}

// Before any input, and after each heap.
pub fn start() -> Reader
    ensures { Starts result }
{
    Reader::default()
}

// The next byte of the input. With all seven tables the heap is complete, and the next byte goes to a reader at its start.
pub fn feed(reader: Reader, byte: u8, entries: &mut [u16], ends: &mut [usize]) -> Reader
    requires { Ready reader entries.old ends.old }
    ensures { Steps (λ s. fed s byte) reader entries.old ends.old result entries.new ends.new }
{
    if !reader.cr {
        return next(reader, byte, entries);
    }
    if byte == b'\n' {
        return end_line(reader, entries, ends);
    }
    next(spoil(reader), byte, entries)
}

// The end of the input: an unfinished line ends too, and lines that are missing make a heap that can fit no N. A heap with no line is none.
pub fn end(reader: Reader, entries: &mut [u16], ends: &mut [usize]) -> Reader
    requires { Ready reader entries.old ends.old }
    ensures { Steps closed reader entries.old ends.old result entries.new ends.new }
{
    fill(last_line(reader, entries, ends))
}

// An unfinished line ends; a CR at its end is a lone one.
fn last_line(reader: Reader, entries: &mut [u16], ends: &mut [usize]) -> Reader
    requires { Ready reader entries.old ends.old }
    ensures { Steps last_line reader entries.old ends.old result entries.new ends.new }
{
    if reader.cr {
        return end_line(spoil(reader), entries, ends);
    }
    if reader.begun {
        return end_line(reader, entries, ends);
    }
    reader
}

// Lines that are missing fit no N.
fn fill(reader: Reader) -> Reader
    requires { reader.tables ≤ 7 }
    ensures { Fills whole reader result }
{
    if reader.tables == 0 {
        return reader;
    }
    if reader.tables == TABLES {
        return reader;
    }
    Reader {
        tables: TABLES,
        spoilt: true,
        ..reader
    }
}
