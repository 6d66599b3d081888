// What every crate of the heap shares: the limits, the lent tables, why a call is refused, and the answers. The rules are in specs/.
#![tactic(auto)]

pub mod audit;
pub mod batch;
pub mod refusal;
pub mod tables;

// The most cells of a heap, its roots, and the slots of a cell.
pub const CELLS_MAX: usize = 1024;

pub const ROOTS: usize = 64;

pub const SLOTS: usize = 8;

// The number of a call that is done; those of refusals are in `refusal`.
pub const DONE: u16 = 0;

// What a call answers: DONE or why it was refused, how many cells it freed and queued, and the cell that NEW made. `refused` is a number, as C reads it:
// between functions that C doesn't call it is a Result with a `Refusal`.
#[repr(C)]
#[derive(Clone, Copy)]
pub struct Answer {
    pub refused: u16,
    pub freed: u16,
    pub queued: u16,
    pub cell: u16,
}
