// Lines that arrive in bits: bytes in, answers out, on one heap.
#![tactic(auto)]

mod ending;
mod first;
mod line;
mod taking;

pub use ending::end;
pub use first::header;
pub use taking::{Progress, take};
