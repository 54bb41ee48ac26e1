//! What a query writes of one key.
ghost use Rattle.std.specs.Prelude.{◌≡◌, ◌+◌, ◌++◌, ◌≤◌, ◌∷◌, [], Option, Some, OnOk, false, true, codes, decimal, length};
ghost use Rattle.cm_io.specs.Causes.{HasCause};
ghost use Rattle.cm_io.specs.Noting.{Noted};
ghost use Rattle.cm_io.specs.Writing.{Writes, joined};
ghost use Rattle.cm_query.specs.Texts.{line_of, note_of, repeated_note, unknown_note};
ghost use Rattle.cm_query.specs.declared.writing.TheConstants.{SHORT_KEY};

use arrayvec::ArrayVec;
use cm_io::{Failed, Notes, Sink, write_pieces};
use itoa::Buffer;

/// The length of the longest line that is written as one piece.
const SHORT_LINE: usize = 256;

/// The length of the longest key of such a line.
const SHORT_KEY: usize = 231;

/// Appends a part for which there is room.
fn append<const N: usize>(line: &mut ArrayVec<u8, N>, part: &[u8])
    requires room { length line.old.items + length part.now ≤ N }
    ensures all { line.new.items ≡ line.old.items ++ part.now }
{
    if line.try_extend_from_slice(part).is_err() {
        unreachable!();
    }
}

/// Appends what follows a key in its line: an arrow, the number in decimal, and the byte that ends the line.
fn append_tail<const N: usize>(
    line: &mut ArrayVec<u8, N>,
    number: u64,
    end: u8,
    buffer: &mut Buffer,
)
    requires room { length line.old.items + 25 ≤ N }
    ensures tail { line.new.items ≡ line.old.items ++ joined (codes " -> " ∷ decimal number ∷ (end ∷ []) ∷ []) }
{
    let digits = buffer.format(number).as_bytes();
    append(line, b" -> ");
    append(line, digits);
    line.push(end);
}

/// Writes the line of a short key and its number as one piece.
fn write_short<O: Sink>(
    out: &mut O,
    key: &[u8],
    number: u64,
    end: u8,
    buffer: &mut Buffer,
) -> Result<(), Failed>
    requires short { length key.now ≤ SHORT_KEY }
    ensures line { Writes (O.state out.old).written (O.state out.new).written (line_of end key.now (Some number)) result }
    ensures cause { HasCause (O.state out.old).faults (O.state out.new).faults result }
{
    let mut line = ArrayVec::<u8, SHORT_LINE>::new();
    append(&mut line, key);
    append_tail(&mut line, number, end, buffer);
    out.write(line.as_slice())
}

/// Writes the line of a key, if it has a number: the key, an arrow, the number in decimal, and the byte `end`. Then flushes the sink, if
/// `sends`. Fails exactly if the sink does, which has then taken a prefix of the line. `buffer` is room for the digits.
pub fn write_line<O: Sink>(
    out: &mut O,
    key: &[u8],
    number: Option<u64>,
    end: u8,
    sends: bool,
    buffer: &mut Buffer,
) -> Result<(), Failed>
    ensures line { Writes (O.state out.old).written (O.state out.new).written (line_of end key.now number) result }
    ensures sent { OnOk result (sends ≡ true → (O.state out.new).waits ≡ 0) }
    ensures cause { HasCause (O.state out.old).faults (O.state out.new).faults result }
{
    put_line(out, key, number, end, buffer)?;
    if sends {
        return out.write(&[]);
    }
    Ok(())
}

/// Writes the line of a key, if it has a number.
fn put_line<O: Sink>(
    out: &mut O,
    key: &[u8],
    number: Option<u64>,
    end: u8,
    buffer: &mut Buffer,
) -> Result<(), Failed>
    ensures line { Writes (O.state out.old).written (O.state out.new).written (line_of end key.now number) result }
    ensures cause { HasCause (O.state out.old).faults (O.state out.new).faults result }
{
    let Some(number) = number else {
        return Ok(());
    };
    if key.len() <= SHORT_KEY {
        return write_short(out, key, number, end, buffer);
    }
    let mut tail = ArrayVec::<u8, 25>::new();
    append_tail(&mut tail, number, end, buffer);
    write_pieces(out, &[key, tail.as_slice()])
}

/// Notes of a key that it has no answer, or that its answer is repeated.
pub(crate) fn note_key<E: Sink>(
    err: &mut E,
    notes: &mut Notes,
    line: u32,
    answer: Option<u32>,
    repeated: bool,
)
    ensures noted { Noted notes.old notes.new (E.state err.old) (E.state err.new) (note_of line answer repeated) }
    ensures sent { (notes.old ≡ false → (E.state err.old).waits ≡ 0) → notes.new ≡ false → (E.state err.new).waits ≡ 0 }
{
    match answer {
        None => note_unknown(err, notes, line),
        Some(number) => {
            if repeated {
                note_repeated(err, notes, line, number);
            }
        }
    }
}

/// Notes that the key of a line has no answer.
fn note_unknown<E: Sink>(err: &mut E, notes: &mut Notes, line: u32)
    ensures noted { Noted notes.old notes.new (E.state err.old) (E.state err.new) (unknown_note line) }
    ensures sent { notes.new ≡ false → (E.state err.new).waits ≡ 0 }
{
    let mut buffer = Buffer::new();
    let line_digits = buffer.format(line).as_bytes();
    notes.note_pieces(err, &[b"cmph: line ", line_digits, b": key is unknown\n"]);
}

/// Notes that the answer of the key of a line is repeated.
fn note_repeated<E: Sink>(err: &mut E, notes: &mut Notes, line: u32, number: u32)
    ensures noted { Noted notes.old notes.new (E.state err.old) (E.state err.new) (repeated_note line number) }
    ensures sent { notes.new ≡ false → (E.state err.new).waits ≡ 0 }
{
    let mut line_buffer = Buffer::new();
    let line_digits = line_buffer.format(line).as_bytes();
    let mut buffer = Buffer::new();
    let digits = buffer.format(number).as_bytes();
    notes.note_pieces(
        err,
        &[
            b"cmph: line ",
            line_digits,
            b": value ",
            digits,
            b" is repeated\n",
        ],
    );
}
