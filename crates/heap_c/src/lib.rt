// The C engine's door: each call under its C name, on lent tables and plain numbers, whatever they are. A slice is a pointer and a length in C.
// The entries are alike but for their calls: each is a C name, with the tables and numbers that C lends it.
// A call is refused SIZE or DAMAGED here; what else it may be refused for, its own function tells on a heap that is sound by then.
#![tactic(auto)]

mod audits;
mod batches;
mod finalizing;
mod freed;
mod lines;
mod making;
mod sweeping;
mod writing;
