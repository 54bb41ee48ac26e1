//! What is noted of one line.
ghost use Rattle.std.specs.Prelude.{◌≡◌, false};
ghost use Rattle.cm_io.specs.Noting.{Noted};
ghost use Rattle.cm_shards_query.specs.Texts.{note_without, unknown_note};

use cm_io::{Notes, Sink};
use cm_shards_words::PROGRAM;
use itoa::Buffer;

/// Notes of the key of a line that it is unknown, if it has no number.
pub(crate) fn note_key<E: Sink>(err: &mut E, notes: &mut Notes, line: u64, number: Option<u64>)
    ensures noted { Noted notes.old notes.new (E.state err.old) (E.state err.new) (note_without line number) }
    ensures sent { (notes.old ≡ false → (E.state err.old).waits ≡ 0) → notes.new ≡ false → (E.state err.new).waits ≡ 0 }
{
    if number.is_none() {
        note_unknown(err, notes, line);
    }
}

/// Notes that the key of a line is unknown.
fn note_unknown<E: Sink>(err: &mut E, notes: &mut Notes, line: u64)
    ensures noted { Noted notes.old notes.new (E.state err.old) (E.state err.new) (unknown_note line) }
    ensures sent { notes.new ≡ false → (E.state err.new).waits ≡ 0 }
{
    let mut buffer = Buffer::new();
    let digits = buffer.format(line).as_bytes();
    notes.note_pieces(
        err,
        &[
            PROGRAM.as_bytes(),
            b": line ",
            digits,
            b": key is unknown\n",
        ],
    );
}
