// Finalizers run one at a time, oldest first: START and FINISH, each on a sound heap.
#![tactic(auto)]

mod finishing;
mod starting;

pub use finishing::finish;
pub use starting::{start, start_shared};
