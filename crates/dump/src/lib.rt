// Heaps that come as text, read a byte at a time.
#![tactic(auto)]

mod field;
mod line;
pub mod reader;
pub mod table;
