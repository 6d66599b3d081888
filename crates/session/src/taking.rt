// Bytes as they come: however they are cut, what is written for them in all is the same.
ghost use Rattle.std.specs.Prelude.{◌≡◌, ◌+◌, ◌*◌, ◌≤◌, ◌<◌, length};
ghost use Rattle.csv_text.specs.Reading.{fed};
ghost use Rattle.laws.specs.Calls.Admission.{admission};
ghost use Rattle.rules.specs.Refused.{refused};
ghost use Rattle.rules.specs.Tables.{lent, SameTables};
ghost use Rattle.session.specs.Taking.{ByteTaken, BytesTaken};

use crate::line::{ANSWER_LEN, answer};
use csv_text::reader::{Reader, feed};
use rules::refusal::Refusal;
use rules::tables::TablesMut;
use soundness::admit;

// The reader to go on with, how many bytes were taken, and how many were written.
#[repr(C)]
#[derive(Clone, Copy, Default)]
pub struct Progress {
    pub reader: Reader,
    pub taken: usize,
    pub written: usize,
}

// One byte more, behind what `p` says; if it ends a line, that is answered.
fn take_byte(
    tables: &mut TablesMut,
    admitted: Result<(), Refusal>,
    p: Progress,
    byte: u8,
    out: &mut [u8],
) -> Progress
    requires admitted { refused admitted ≡ admission (lent tables.old) }
    requires taken_bound { p.taken < usize.MAX }
    requires written_in_bounds { p.written + 31 ≤ length out.old }
    ensures same { SameTables tables.old tables.new }
    ensures byte_taken { ByteTaken (fed p.reader byte) (p.taken + 1) out.old p.written (lent tables.old) (lent tables.new) out.new result }
{
    let (reader, ended) = feed(p.reader, byte);
    let read = Progress {
        reader,
        taken: p.taken + 1,
        ..p
    };
    match ended {
        Some(said) => Progress {
            written: answer(tables, admitted, said, out, p.written),
            ..read
        },
        None => read,
    }
}

// Takes bytes while an answer has room in `out`, and answers each line that ends. The heap is checked once: lines leave a sound heap sound, and others as they are.
pub fn take(tables: &mut TablesMut, reader: Reader, bytes: &[u8], out: &mut [u8]) -> Progress
    ensures same { SameTables tables.old tables.new }
    ensures bytes_taken { BytesTaken reader (lent tables.old) bytes.now out.old (lent tables.new) out.new result }
    ensures written_bound { result.written ≤ 31 * result.taken }
{
    let admitted = admit(tables);
    let mut p = Progress {
        reader,
        taken: 0,
        written: 0,
    };
    for &byte in bytes {
        if out.len() - p.written < ANSWER_LEN {
            return p;
        }
        p = take_byte(tables, admitted, p, byte, out);
    }
    p
}
