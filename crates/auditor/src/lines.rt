// What is written: a heap's lines to standard output, a piece at a time, and the rest of what is to be said.
ghost use Rattle.std.specs.Prelude.{◌≤◌, length, OnOk};
ghost use Rattle.std.specs.Io.KnownBytes.{Appends};
ghost use Rattle.report.specs.Pieces.{text_from};
ghost use Rattle.auditor.specs.Written.{lines_of};

use report::write_piece;
use rules::audit::{Audited, Row};
use rules::refusal::Refusal;
use std::io;
use std::io::Write;
use streams::write;

// Says once that the report takes no more heaps. Answers whether that was said by now. `refused` is a number, as the audit answers it to C.
pub fn tell(rt: &impl Eprint, refused: u16, said: bool) -> bool {
    let many = refused == u16::from(Refusal::Many);
    if many && !said {
        let _ = rt.eprintln(
            "MANY: the report has a thousand heaps; those that follow have no line",
        );
    }
    said || many
}

// The lines of a heap with these differences, piece by piece.
fn print_lines<W: Write>(
    heap: u64,
    row: Row,
    differences: &[i32],
    out: &mut [u8],
    output: &mut W,
) -> io::Result<()>
    requires { 4160 ≤ length out.old }
    ensures { OnOk result (Appends (W.contents output.old) (W.contents output.new) (text_from heap row differences.now 0)) }
{
    // Each piece says where the next begins, so no range is known before.
    let mut first = 0;
    while first <= differences.len() {
        let piece = write_piece(out, heap, row, differences, first);
        let written = piece.written;
        write(output, &out[..written])?;
        first = piece.next;
    }
    Ok(())
}

// The lines of a heap that the report took, by what its audit answered: one refused SIZE has only its own. One that the report refused has none.
pub fn print<W: Write>(
    answer: Audited,
    differences: &[i32],
    out: &mut [u8],
    output: &mut W,
) -> io::Result<()>
    requires { 4160 ≤ length out.old }
    ensures { OnOk result (Appends (W.contents output.old) (W.contents output.new) (lines_of answer differences.now)) }
{
    let report = answer.report;
    let row = answer.heap;
    let size = u16::from(Refusal::Size);
    if size < answer.refused {
        return Ok(());
    }
    if answer.refused == size {
        return print_lines(report.heaps, row, &differences[..0], out, output);
    }
    print_lines(report.heaps, row, differences, out, output)
}
