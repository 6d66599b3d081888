// Lines of calls, in the bits in which they arrive, under their C names: any tables, any numbers in the reader, and any room are answered.
ghost use Rattle.std.specs.Prelude.{◌*◌, ◌≤◌};
ghost use Rattle.rules.specs.Heap.{tables};
ghost use Rattle.session.specs.Taking.{BytesTaken, InputEnded};

use csv_text::reader::Reader;
use rules::tables::TablesMut;
use session::{Progress, end, take};

#[unsafe(no_mangle)]
pub extern "C" fn vek_take(
    kind: &mut [u16],
    flags: &mut [u16],
    count: &mut [u16],
    slots: &mut [u16],
    roots: &mut [u16],
    queue: &mut [u16],
    control: &mut [u16],
    reader: Reader,
    bytes: &[u8],
    out: &mut [u8],
) -> Progress
    ensures bytes_taken { BytesTaken reader
        (tables kind.old flags.old count.old slots.old roots.old queue.old control.old)
        bytes.now out.old
        (tables kind.new flags.new count.new slots.new roots.new queue.new control.new)
        out.new result }
    ensures written_bound { result.written ≤ 31 * result.taken }
{
    let mut tables = TablesMut {
        kind,
        flags,
        count,
        slots,
        roots,
        queue,
        control,
    };
    take(&mut tables, reader, bytes, out)
}

#[unsafe(no_mangle)]
pub extern "C" fn vek_end(
    kind: &mut [u16],
    flags: &mut [u16],
    count: &mut [u16],
    slots: &mut [u16],
    roots: &mut [u16],
    queue: &mut [u16],
    control: &mut [u16],
    reader: Reader,
    out: &mut [u8],
) -> Progress
    ensures { InputEnded reader
        (tables kind.old flags.old count.old slots.old roots.old queue.old control.old)
        out.old
        (tables kind.new flags.new count.new slots.new roots.new queue.new control.new)
        out.new result }
{
    let mut tables = TablesMut {
        kind,
        flags,
        count,
        slots,
        roots,
        queue,
        control,
    };
    end(&mut tables, reader, out)
}
