// The audit of heaps, sound or not, under its C name: any tables and any numbers in the report are answered.
ghost use Rattle.std.specs.Prelude.{◌≡◌, length};
ghost use Rattle.rules.specs.Heap.{tables};
ghost use Rattle.rules.specs.Audit.{audited, differences_after};

use audit::audit;
use rules::audit::{Audited, Report};
use rules::tables::Tables;

#[unsafe(no_mangle)]
pub extern "C" fn vek_audit(
    kind: &[u16],
    flags: &[u16],
    count: &[u16],
    slots: &[u16],
    roots: &[u16],
    queue: &[u16],
    control: &[u16],
    differences: &mut [i32],
    report: Report,
) -> Audited
    ensures value { result ≡ audited report (record {
      heap = tables kind.now flags.now count.now slots.now roots.now queue.now control.now;
      room = length differences.old;
    }) }
    ensures differences_after { differences.new ≡ differences_after report
        (tables kind.now flags.now count.now slots.now roots.now queue.now control.now)
        differences.old }
{
    let tables = Tables {
        kind,
        flags,
        count,
        slots,
        roots,
        queue,
        control,
    };
    audit(tables, differences, report)
}
