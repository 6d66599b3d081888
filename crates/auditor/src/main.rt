// Audits the heaps on standard input and writes the report to standard output.
// A heap's lines go out before more is read, a piece at a time, so that a thousand heaps take no more memory than one.
//
// A read or a write that fails ends the run, and no line is written after it. That is reported on standard error, with exit status 1. Once, it is also said
// there that the report takes no more heaps.
#![tactic(auto)]

ghost use Rattle.std.specs.Prelude.{◌<◌, ◌≡◌, [], ◌∷◌, length, map, IfOk, IfSome, OnOk};
ghost use Rattle.std.specs.Io.KnownBytes.{Appends};
ghost use Rattle.rules.specs.AuditReport.{report_text};
ghost use Rattle.dump.specs.Dumps.{heaps_of};
ghost use Rattle.dump.specs.Holding.{Complete};
ghost use Rattle.dump.specs.Reading.{given, start_state};
ghost use Rattle.auditor.specs.Output.{whole};
ghost use Rattle.auditor.specs.Taking.{Held, Begun, Advanced, TakenSome, Ended};
ghost use Rattle.auditor.specs.Written.{HeapTold, LastTold, LeftTold, StepTold, Told, text_for};

mod heap;
mod lines;

use dump::reader::{ENTRIES_MAX, Reader, TABLES, end, feed, start};
use heap::{audit_heap, cells};
use lines::{print, tell};
use report::{PIECE, header, write_totals};
use rules::CELLS_MAX;
use rules::audit::Report;
use std::io;
use std::io::{Read, Write};
use streams::{read_buffer, write};

// Between two bytes: the reader to go on with, the report so far, and whether it was said that it takes no more heaps. The report does not show that:
// it is the same before and after the first heap that it refuses.
#[derive(Clone, Copy)]
struct Progress {
    reader: Reader,
    report: Report,
    many: bool,
}

// The program's memory, made once: the tables of the heap that is read, the differences of its cells, and the lines that go out next.
#[derive(Drop)]
struct Room {
    entries: [u16; ENTRIES_MAX],
    ends: [usize; TABLES],
    differences: [i32; CELLS_MAX],
    out: [u8; PIECE],
}

// The heap is complete: it is audited, and its lines are written.
fn serve<W: Write>(
    rt: &impl Eprint,
    p: Progress,
    room: &mut Room,
    output: &mut W,
) -> io::Result<Progress>
    requires complete { Complete p.reader room.old.entries room.old.ends }
    ensures taken { IfOk result (Begun p room.old) }
    ensures told { OnOk result (HeapTold p room.old (W.contents output.old) (W.contents output.new)) }
    ensures kept { (room.new.entries ≡ room.old.entries) × (room.new.ends ≡ room.old.ends) }
{
    let reader = p.reader;
    let answer = audit_heap(
        reader,
        &room.entries,
        &room.ends,
        &mut room.differences,
        p.report,
    );
    let n = cells(reader, &room.entries, &room.ends);
    print(answer, &room.differences[..n], &mut room.out, output)?;
    let many = tell(rt, answer.refused, p.many);
    let report = answer.report;
    Ok(Progress {
        reader: start(),
        report,
        many,
    })
}

// One byte of the input.
fn take_byte<W: Write>(
    rt: &impl Eprint,
    p: Progress,
    byte: u8,
    room: &mut Room,
    output: &mut W,
) -> io::Result<Progress>
    requires held { Held p.reader room.old }
    ensures taken { IfOk result (λ q. Advanced p room.old (byte ∷ []) q room.new) }
    ensures told { IfOk result (λ q. Told p room.old (byte ∷ []) q room.new
        (W.contents output.old) (W.contents output.new)) }
{
    let reader = feed(p.reader, byte, &mut room.entries, &mut room.ends);
    let next = Progress { reader, ..p };
    if reader.tables < TABLES {
        return Ok(next);
    }
    serve(rt, next, room, output)
}

// Bytes of the input, one by one.
fn take<W: Write>(
    rt: &impl Eprint,
    first: Progress,
    bytes: &[u8],
    room: &mut Room,
    output: &mut W,
) -> io::Result<Progress>
    requires held { Held first.reader room.old }
    ensures taken { IfOk result (λ q. Advanced first room.old bytes.now q room.new) }
    ensures told { IfOk result (λ q. Told first room.old bytes.now q room.new
        (W.contents output.old) (W.contents output.new)) }
{
    let mut p = first;
    for &byte in bytes {
        p = take_byte(rt, p, byte, room, output)?;
    }
    Ok(p)
}

// The end of the input: a heap that lacks lines is one too.
fn finish<W: Write>(
    rt: &impl Eprint,
    p: Progress,
    room: &mut Room,
    output: &mut W,
) -> io::Result<Progress>
    requires held { Held p.reader room.old }
    ensures taken { IfOk result (Ended p room.old) }
    ensures told { OnOk result (LeftTold p room.old (W.contents output.old) (W.contents output.new)) }
{
    let reader = end(p.reader, &mut room.entries, &mut room.ends);
    let last = Progress { reader, ..p };
    if reader.tables < TABLES {
        return Ok(last);
    }
    serve(rt, last, room, output)
}

// The last line.
fn close<W: Write>(rt: &impl Eprint, p: Progress, room: &mut Room, output: &mut W) -> io::Result<()>
    requires held { Held p.reader room.old }
    ensures { OnOk result (LastTold p room.old (W.contents output.old) (W.contents output.new)) }
{
    let last = finish(rt, p, room, output)?;
    let report = last.report;
    let totals = report.totals;
    let written = write_totals(&mut room.out, totals);
    write(output, &room.out[..written])
}

// Reads once, and takes what has come. At the end of the input there is nothing to go on with.
fn step<R: Read, W: Write>(
    rt: &impl Eprint,
    p: Progress,
    room: &mut Room,
    input: &mut R,
    output: &mut W,
) -> io::Result<Option<Progress>>
    requires held { Held p.reader room.old }
    ensures taken { IfOk result (λ next. TakenSome p room.old next room.new) }
    ensures told { IfOk result (λ next. StepTold p room.old next room.new
        (R.remaining input.old) (R.remaining input.new)
        (W.contents output.old) (W.contents output.new)) }
{
    let mut bytes = read_buffer();
    let n = input.read(&mut bytes)?;
    if n == 0 {
        close(rt, p, room, output)?;
        return Ok(None);
    }
    let next = take(rt, p, &bytes[..n], room, output)?;
    Ok(Some(next))
}

// A proved loop has to end, and nothing says that the input does: it ends after a number of reads that no run makes.
fn run<R: Read, W: Write>(rt: &impl Eprint, input: &mut R, output: &mut W) -> io::Result<()>
    ensures { OnOk result (IfSome (R.remaining input.old) (λ bytes. length bytes < u64.MAX →
        Appends (W.contents output.old) (W.contents output.new) (text_for (given start_state bytes)))) }
{
    let mut room = Room {
        entries: [0; ENTRIES_MAX],
        ends: [0; TABLES],
        differences: [0; CELLS_MAX],
        out: [0; PIECE],
    };
    let mut p = Progress {
        reader: start(),
        report: Report::default(),
        many: false,
    };
    for _ in 0..u64::MAX {
        match step(rt, p, &mut room, input, output)? {
            Some(next) => p = next,
            None => return Ok(()),
        }
    }
    Ok(())
}

// The header, the lines and the totals: of a run without an error what is written is the report over the heaps of what there is to read, where that is known.
fn program<R: Read, W: Write>(rt: &impl Eprint, input: &mut R, output: &mut W) -> io::Result<()>
    ensures { OnOk result (IfSome (R.remaining input.old) (λ bytes. length bytes < u64.MAX →
        Appends (W.contents output.old) (W.contents output.new) (report_text (map whole (heaps_of bytes))))) }
{
    write(output, &header())?;
    run(rt, input, output)
}

fn main(rt: HostRuntime) -> io::Result<()> {
    program(&rt, &mut rt.stdin(), &mut rt.stdout())
}
