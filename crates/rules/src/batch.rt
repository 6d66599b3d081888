// What a batch is lent (document 02, Q-7). The rules are in specs/Batch.

// The most records of a batch.
pub const RECORDS_MAX: usize = 4096;

// The numbers of a call, as C lends them: its own, 1 to 8, and its arguments, unused ones 0. `steps::call::Call` is the call that they name.
#[repr(C)]
#[derive(Clone, Copy)]
pub struct CallRecord {
    pub call: u16,
    pub first: u16,
    pub second: u16,
    pub third: u16,
}

// Running totals: calls done, calls refused, cells freed, cells queued.
#[repr(C)]
#[derive(Clone, Copy)]
pub struct Totals {
    pub done: u64,
    pub refused: u64,
    pub freed: u64,
    pub queued: u64,
}
