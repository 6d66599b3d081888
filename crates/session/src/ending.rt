// The end of the input.
ghost use Rattle.rules.specs.Tables.{lent, SameTables};
ghost use Rattle.session.specs.Taking.{InputEnded};

use crate::line::{ANSWER_LEN, answer};
use crate::taking::Progress;
use csv_text::reader::{Reader, start};
use rules::tables::TablesMut;
use soundness::admit;

// Answers an unfinished line, after which nothing is held. Without room for its answer nothing is done, and the reader is handed back as it was.
pub fn end(tables: &mut TablesMut, reader: Reader, out: &mut [u8]) -> Progress
    ensures same { SameTables tables.old tables.new }
    ensures ended { InputEnded reader (lent tables.old) out.old (lent tables.new) out.new result }
{
    let Some(said) = csv_text::reader::end(reader) else {
        return Progress::default();
    };
    if out.len() < ANSWER_LEN {
        return Progress {
            reader,
            taken: 0,
            written: 0,
        };
    }
    let admitted = admit(tables);
    let written = answer(tables, admitted, said, out, 0);
    Progress {
        reader: start(),
        taken: 0,
        written,
    }
}
