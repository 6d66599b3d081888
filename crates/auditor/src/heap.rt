// The audit of a heap that was read.
ghost use Rattle.std.specs.Prelude.{◌≡◌, length};
ghost use Rattle.dump.specs.Holding.{Complete};
ghost use Rattle.auditor.specs.Taking.{CellsOf, HeapAudited};
ghost use Rattle.auditor.specs.Written.{DifferencesOf};

use dump::reader::Reader;
use dump::table::table;
use rules::CELLS_MAX;
use rules::audit::{Audited, Report};
use rules::tables::Tables;

// How many differences the complete heap has, one for each cell. One with more cells than there is room for is SIZE anyhow.
pub(crate) fn cells(reader: Reader, entries: &[u16], ends: &[usize]) -> usize
    requires { Complete reader entries.now ends.now }
    ensures { CellsOf reader entries.now ends.now result }
{
    let kind = table(reader, entries, ends, 0);
    if kind.len() <= CELLS_MAX {
        return kind.len();
    }
    CELLS_MAX
}

// Audits the complete heap as a report's next.
pub(crate) fn audit_heap(
    reader: Reader,
    entries: &[u16],
    ends: &[usize],
    differences: &mut [i32],
    report: Report,
) -> Audited
    requires complete { Complete reader entries.now ends.now }
    requires differences_len { length differences.old ≡ 1024 }
    ensures taken { HeapAudited reader entries.now ends.now report result }
    ensures differences { DifferencesOf reader entries.now ends.now result differences.new }
{
    let n = cells(reader, entries, ends);
    let tables = Tables {
        kind: table(reader, entries, ends, 0),
        flags: table(reader, entries, ends, 1),
        count: table(reader, entries, ends, 2),
        slots: table(reader, entries, ends, 3),
        roots: table(reader, entries, ends, 4),
        queue: table(reader, entries, ends, 5),
        control: table(reader, entries, ends, 6),
    };
    audit::audit(tables, &mut differences[..n], report)
}
