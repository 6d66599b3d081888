// What the audit answers (document 02, Q-4). The rules are in specs/Audit.

// A report takes a thousand heaps.
pub const HEAPS_MAX: u64 = 1000;

// The columns of a report, for a cell, a heap or all heaps: cells below, at and above zero, the sum of their differences, lost references, and heaps refused SIZE.
#[repr(C)]
#[derive(Clone, Copy, Default)]
pub struct Row {
    pub below: u64,
    pub at: u64,
    pub above: u64,
    pub sum: i64,
    pub lost: u64,
    pub size: u64,
}

// How many heaps a report has taken, and their rows added up.
#[repr(C)]
#[derive(Clone, Copy, Default)]
pub struct Report {
    pub heaps: u64,
    pub totals: Row,
}

// DONE or why the heap was refused, a number, as C reads it; its row, and the report with the heap in it.
#[repr(C)]
#[derive(Clone, Copy)]
pub struct Audited {
    pub refused: u16,
    pub heap: Row,
    pub report: Report,
}
