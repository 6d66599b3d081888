// Heaps and cells come into being: FRESH, and NEW on a sound heap.
#![tactic(auto)]

mod placing;
mod shape;
mod zeroing;

pub use placing::{new, new_shared};
pub use zeroing::{fresh, zero};
