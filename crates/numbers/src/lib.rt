// Numbers of three kinds, each with a type of its own: "A cell number can't stand where a root number is wanted, nor a slot number."
// Their fields are private, so that only the range checks make one.
#![tactic(auto)]

mod below;
mod cell;

pub use below::Below;
pub use cell::Cell;

// A root's number, 0 to 63.
pub type Root = Below<64>;

// A slot's number within its cell, 0 to 7.
pub type Slot = Below<8>;
