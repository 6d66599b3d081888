// The first output line.
ghost use Rattle.std.specs.Prelude.{◌≡◌};
ghost use Rattle.session.specs.Program.{header as headerText};

// A function and no constant, since its contract says that this is the rules' text.
pub fn header() -> [u8; 30]
    ensures { result ≡ headerText }
{
    *b"op,refused,freed,queued,cell\r\n"
}
