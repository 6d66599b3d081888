// The lines of an audit's report: the header, a heap's lines a piece at a time, and the totals. Any room is answered: where it is too small nothing is written.
#![tactic(auto)]

ghost use Rattle.std.specs.Prelude.{◌≡◌};
ghost use Rattle.rules.specs.AuditReport.{header as headerText};

mod cell;
mod columns;
mod lines;
mod piece;

pub use piece::{PIECE, write_piece, write_totals};

// A function and no constant, since its contract says that this is the rules' text.
pub fn header() -> [u8; 40]
    ensures { result ≡ headerText }
{
    *b"heap,cell,below,at,above,sum,lost,size\r\n"
}
