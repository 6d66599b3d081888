// CSV input lines of four numbers, read a byte at a time, and output lines.
#![tactic(auto)]

pub mod number;
pub mod reader;
pub mod render;

// What parts the fields of a line.
pub const COMMA: u8 = b',';
