// The audit of heaps, sound or not (document 02, Q-4): how far each stored count is from the references that are there, and a report over heaps.
#![tactic(auto)]

mod cells;
mod possible;
mod reports;

ghost use Rattle.std.specs.Prelude.{◌≡◌, length};
ghost use Rattle.rules.specs.Tables.{heap_of};
ghost use Rattle.rules.specs.Audit.{size_row, admitted, audited, differences_after};

use rules::DONE;
use rules::audit::{Audited, Report, Row};
use rules::refusal::Refusal;
use rules::tables::Tables;

// Do the tables fit, and is the table of differences as long as the heap's own? That comes first: the other way round `vek_audit` passes its bar of stack.
fn admitted(tables: Tables, room: usize) -> bool
    ensures { result ≡ admitted (record {
      heap = heap_of tables.entry;
      room = room;
    }) }
{
    room == tables.kind.len() && soundness::fits(tables)
}

// The row of a heap that is refused SIZE: it is counted apart, and adds nothing else.
fn size_row() -> Row
    ensures { result ≡ size_row }
{
    Row {
        size: 1,
        ..Row::default()
    }
}

// Audits a report's next heap: writes each cell's difference, and answers the heap's row and the report with it. MANY and TOTAL come before SIZE, and change nothing.
pub fn audit(tables: Tables, differences: &mut [i32], report: Report) -> Audited
    ensures value { result ≡ audited report (record {
      heap = heap_of tables.entry;
      room = length differences.old;
    }) }
    ensures differences_after { differences.new ≡ differences_after report (heap_of tables.entry) differences.old }
{
    if let Err(why) = reports::refusal(report) {
        return reports::refuse(why, report);
    }
    if !admitted(tables, differences.len()) {
        return reports::take(Refusal::Size.into(), size_row(), report);
    }
    let row = cells::audit_cells(differences, tables);
    reports::take(DONE, row, report)
}
