// Runs one heap of 256 cells from standard input: a call on each line, and a line of answer for each on standard output.
// It reads what has come, takes it, and writes the answers before it reads again, so that each goes out as soon as its line has ended.
//
// A read that fails ends the run: the lines before it are answered by then, and the unfinished one is not. A write that fails ends it as well.
// Either is reported on standard error, with exit status 1.
#![tactic(auto)]

ghost use Rattle.std.specs.Prelude.{◌≤◌, ◌<◌, length, IfOk, IfSome, OnOk};
ghost use Rattle.std.specs.Io.KnownBytes.{Appends};
ghost use Rattle.csv_text.specs.Lines.{records_of};
ghost use Rattle.rules.specs.Tables.{lent};
ghost use Rattle.session.specs.Program.{at_start, output as output_for};
ghost use Rattle.session.specs.Session.{session};
ghost use Rattle.session.specs.Deliveries.{Took};
ghost use Rattle.counter.specs.Served.{AnsweredSome};
ghost use Rattle.counter.specs.Written.{ServedTold, Told, ToldLast};

use csv_text::reader::{Reader, start};
use rules::tables::TablesMut;
use session::{end, header, take};
use std::io;
use std::io::{Read, Write};
use streams::{read_buffer, write};

// Writes the answers to the lines that end in these bytes, in one go.
fn answer<W: Write>(
    tables: &mut TablesMut,
    reader: Reader,
    bytes: &[u8],
    out: &mut [u8],
    output: &mut W,
) -> io::Result<Reader>
    requires bytes_len_bound { length bytes.now ≤ 2048 }
    requires in_bounds { 65536 ≤ length out.old }
    ensures taken { IfOk result (λ next. Took reader (lent tables.old) bytes.now next (lent tables.new)) }
    ensures told { IfOk result (λ next. Told reader (lent tables.old) bytes.now next (lent tables.new)
        (W.contents output.old) (W.contents output.new)) }
{
    let p = take(tables, reader, bytes, out);
    write(output, &out[..p.written])?;
    Ok(p.reader)
}

// The end of the input: an unfinished line is answered.
fn close<W: Write>(
    tables: &mut TablesMut,
    reader: Reader,
    out: &mut [u8],
    output: &mut W,
) -> io::Result<()>
    ensures { 31 ≤ length out.old → OnOk result (ToldLast reader (lent tables.old) (lent tables.new)
        (W.contents output.old) (W.contents output.new)) }
{
    let p = end(tables, reader, out);
    write(output, &out[..p.written])
}

// Reads once, and answers; the reader to go on with, or none where the run is over. Each byte of a read ends at most one line, so the answers, at most 31 bytes each, fit the 65,536 bytes of `out`.
fn serve<R: Read, W: Write>(
    tables: &mut TablesMut,
    reader: Reader,
    out: &mut [u8],
    input: &mut R,
    output: &mut W,
) -> io::Result<Option<Reader>>
    requires { 65536 ≤ length out.old }
    ensures taken { IfOk result (λ served. AnsweredSome reader (lent tables.old) (lent tables.new) served) }
    ensures told { IfOk result (λ served. ServedTold reader (lent tables.old) (lent tables.new)
        (R.remaining input.old) (R.remaining input.new)
        (W.contents output.old) (W.contents output.new) served) }
{
    let mut bytes = read_buffer();
    let n = input.read(&mut bytes)?;
    if n == 0 {
        close(tables, reader, out, output)?;
        return Ok(None);
    }
    let next = answer(tables, reader, &bytes[..n], out, output)?;
    Ok(Some(next))
}

// A fresh heap has 0 in every entry. `out` is made once: 65,536 zeros for each read would cost half as much again as its lines.
// A proved loop has to end, and nothing says that the input does: it ends after a number of reads that no run makes.
fn run<R: Read, W: Write>(input: &mut R, output: &mut W) -> io::Result<()>
    ensures { OnOk result (IfSome (R.remaining input.old) (λ bytes. length bytes < u64.MAX →
        Appends (W.contents output.old) (W.contents output.new) (session at_start (records_of bytes)))) }
{
    let mut tables = TablesMut {
        kind: &mut [0; 256],
        flags: &mut [0; 256],
        count: &mut [0; 256],
        slots: &mut [0; 2048],
        roots: &mut [0; 64],
        queue: &mut [0; 256],
        control: &mut [0; 2],
    };
    let mut out = [0u8; 65536];
    let mut reader = start();
    for _ in 0..u64::MAX {
        let Some(next) = serve(&mut tables, reader, &mut out, input, output)? else {
            return Ok(());
        };
        reader = next;
    }
    Ok(())
}

// The header, and then the answers to all that is read: of a run without an error it is known what is written, where it is known what there is to read.
fn program<R: Read, W: Write>(input: &mut R, output: &mut W) -> io::Result<()>
    ensures { OnOk result (IfSome (R.remaining input.old) (λ bytes. length bytes < u64.MAX →
        Appends (W.contents output.old) (W.contents output.new) (output_for bytes))) }
{
    write(output, &header())?;
    run(input, output)
}

fn main(rt: HostRuntime) -> io::Result<()> {
    program(&mut rt.stdin(), &mut rt.stdout())
}
