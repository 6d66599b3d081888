// Standard input and output, as the programs use them.
#![tactic(auto)]

ghost use Rattle.std.specs.Prelude.{◌≡◌, length, OnOk};
ghost use Rattle.std.specs.Io.KnownBytes.{Appends};

use std::io;
use std::io::Write;

// For one read.
pub fn read_buffer() -> [u8; 2048]
    ensures { 2048 ≡ length result }
{
    [0; 2048]
}

// Writes all of it, or fails.
pub fn write<W: Write>(output: &mut W, text: &[u8]) -> io::Result<()>
    ensures { OnOk result (Appends (W.contents output.old) (W.contents output.new) text.now) }
{
    output.write_all(text)
}
