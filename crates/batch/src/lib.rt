// A whole basket in one call: the records of a batch, one after another, on a heap that is checked once.
#![tactic(auto)]

mod admission;
mod records;
mod totals;

pub use admission::admit_batch;
pub use records::run;
