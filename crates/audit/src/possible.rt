// Does a list of heaps lead to a report? Every number may stand in one, so each test keeps the sums of the next from passing their end.
ghost use Rattle.std.specs.Prelude.{◌≡◌, ◌≤◌, ◌<◌};
ghost use Rattle.rules.specs.Audit.{row_cells, possible_for, possible};
ghost use Rattle.audit.specs.Clauses.{cells_fit, lost_fits, sum_fits};

use rules::audit::{Report, Row};

// Can k heaps have so many cells? `k` stands apart from the row: heaps refused SIZE are not among them. The tests of the three columns keep their sum from passing its end.
fn cells_fit(k: u64, row: Row) -> bool
    requires { k ≤ 1000 }
    ensures { result ≡ cells_fit k row }
{
    let most = 1024 * k;
    if most < row.below {
        return false;
    }
    if most < row.at {
        return false;
    }
    if most < row.above {
        return false;
    }
    let cells = row.below + row.at + row.above;
    if cells < k {
        return false;
    }
    if most < cells {
        return false;
    }
    true
}

// Are there references for those that are lost, and one that each cell below zero lacks?
fn lost_fits(references: u64, row: Row) -> bool
    requires { (references ≤ 10000000) × (row.below ≤ 1024000) }
    ensures { result ≡ lost_fits references row }
{
    if references < row.lost {
        return false;
    }
    if references < row.lost + row.below {
        return false;
    }
    true
}

// Can the sum be that of such cells? It is what is too much in the cells above, less what is missing in those below. Each test has its reason above it.
fn sum_fits(k: u64, references: u64, row: Row) -> bool
    requires { (k ≤ 1000) × (references ≤ 10000000) × (row_cells row ≤ 1024000) × (row.lost ≤ 10000000) }
    ensures { result ≡ sum_fits k references row }
{
    let up = signed::up(row.sum);
    let down = signed::down(row.sum);
    // A cell above has 65,535 too much at most, and a cell below lacks 1 at least.
    if 65535 * row.above + down < up + row.below {
        return false;
    }
    // A cell above has 1 too much at least, so what is missing is at least `least` less `up`. As many references are not lost.
    let least = row.above + down;
    if up + references < least + row.lost {
        return false;
    }
    // Nor are they more than as many heaps have as there are cells below,
    if up + 9280 * row.below < least {
        return false;
    }
    // or than these have where each other heap has a cell.
    let cells = row.below + row.at + row.above;
    if up + 73 * row.below + 9 * cells < least + 9 * k {
        return false;
    }
    true
}

// Can the rows of k heaps that fit add up to this one?
fn possible_for(k: u64, row: Row) -> bool
    requires { k ≤ 1000 }
    ensures { result ≡ possible_for k row }
{
    if !cells_fit(k, row) {
        return false;
    }
    let references = 64 * k + 9 * (row.below + row.at + row.above);
    if !lost_fits(references, row) {
        return false;
    }
    sum_fits(k, references, row)
}

// Heaps refused SIZE are among those taken, and have no part in the other columns.
pub fn possible(report: Report) -> bool
    requires { report.heaps < 1000 }
    ensures { result ≡ possible report }
{
    let totals = report.totals;
    if report.heaps < totals.size {
        return false;
    }
    possible_for(report.heaps - totals.size, totals)
}
