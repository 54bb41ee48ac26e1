//! What is written of one key.
ghost use Rattle.std.specs.Prelude.{◌≡◌, ◌+◌, ◌++◌, ◌≤◌, OnOk, false, length, true};
ghost use Rattle.std.specs.Option.{option_map};
ghost use Rattle.cm_io.specs.Causes.{HasCause};
ghost use Rattle.cm_io.specs.Noting.{Noted};
ghost use Rattle.cm_io.specs.Writing.{Writes};
ghost use Rattle.cm_store_values.specs.Written.{line_with, note_without, unknown_note};

use crate::program::PROGRAM;
use arrayvec::ArrayVec;
use cm_io::{Failed, Notes, Sink, write_pieces};
use cm_store_records::TAB;
use itoa::Buffer;

/// The length of the longest line that is written as one piece.
const SHORT_LINE: usize = 512;

/// Appends a part for which there is room.
fn append<const N: usize>(line: &mut ArrayVec<u8, N>, part: &[u8])
    requires room { length line.old.items + length part.now ≤ N }
    ensures all { line.new.items ≡ line.old.items ++ part.now }
{
    if line.try_extend_from_slice(part).is_err() {
        unreachable!();
    }
}

/// Writes the line of a key, if it has a value, and then flushes the sink, if `sends`. Fails exactly if the sink does, which has then taken
/// a prefix of the line.
pub(crate) fn write_line<O: Sink>(
    out: &mut O,
    key: &[u8],
    value: Option<&[u8]>,
    end: u8,
    sends: bool,
) -> Result<(), Failed>
    ensures line { Writes (O.state out.old).written (O.state out.new).written (line_with end key.now (option_map (λ bytes. bytes.now) value.entry)) result }
    ensures sent { OnOk result (sends ≡ true → (O.state out.new).waits ≡ 0) }
    ensures cause { HasCause (O.state out.old).faults (O.state out.new).faults result }
{
    put_line(out, key, value, end)?;
    if sends {
        return out.write(&[]);
    }
    Ok(())
}

/// Writes the line of a key, if it has a value: as one piece, if it is short.
fn put_line<O: Sink>(out: &mut O, key: &[u8], value: Option<&[u8]>, end: u8) -> Result<(), Failed>
    ensures line { Writes (O.state out.old).written (O.state out.new).written (line_with end key.now (option_map (λ bytes. bytes.now) value.entry)) result }
    ensures cause { HasCause (O.state out.old).faults (O.state out.new).faults result }
{
    let Some(value) = value else {
        return Ok(());
    };
    // The tab and the byte that ends the line are the other two.
    if key.len() + value.len() > SHORT_LINE - 2 {
        return write_pieces(out, &[key, &[TAB], value, &[end]]);
    }
    let mut line = ArrayVec::<u8, SHORT_LINE>::new();
    append(&mut line, key);
    line.push(TAB);
    append(&mut line, value);
    line.push(end);
    out.write(line.as_slice())
}

/// Notes of the key of a line that it is unknown, if it has no value.
pub(crate) fn note_key<E: Sink>(err: &mut E, notes: &mut Notes, line: u32, value: Option<&[u8]>)
    ensures noted { Noted notes.old notes.new (E.state err.old) (E.state err.new) (note_without line (option_map (λ bytes. bytes.now) value.entry)) }
    ensures sent { (notes.old ≡ false → (E.state err.old).waits ≡ 0) → notes.new ≡ false → (E.state err.new).waits ≡ 0 }
{
    if value.is_none() {
        note_unknown(err, notes, line);
    }
}

/// Notes that the key of a line is unknown.
fn note_unknown<E: Sink>(err: &mut E, notes: &mut Notes, line: u32)
    ensures noted { Noted notes.old notes.new (E.state err.old) (E.state err.new) (unknown_note line) }
    ensures sent { notes.new ≡ false → (E.state err.new).waits ≡ 0 }
{
    let mut buffer = Buffer::new();
    let digits = buffer.format(line).as_bytes();
    notes.note_pieces(
        err,
        &[
            PROGRAM.as_bytes(),
            b": line ",
            digits,
            b": key is unknown\n",
        ],
    );
}
