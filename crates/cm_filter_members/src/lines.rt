//! What is written of one key.
ghost use Rattle.std.specs.Prelude.{◌≡◌, OnOk, true};
ghost use Rattle.cm_filter_members.specs.Written.{line_if};
ghost use Rattle.cm_io.specs.Causes.{HasCause};
ghost use Rattle.cm_io.specs.Writing.{Writes};

use arrayvec::ArrayVec;
use cm_io::{Failed, Sink, write_pieces};

/// The length of the longest line that is written as one piece.
const SHORT_LINE: usize = 256;

/// Writes the line of a key, if it holds, and then flushes the sink, if `sends`. Fails exactly if the sink does, which has then taken a
/// prefix of the line.
pub(crate) fn write_line<O: Sink>(
    out: &mut O,
    key: &[u8],
    holds: bool,
    end: u8,
    sends: bool,
) -> Result<(), Failed>
    ensures line { Writes (O.state out.old).written (O.state out.new).written (line_if holds end key.now) result }
    ensures sent { OnOk result (sends ≡ true → (O.state out.new).waits ≡ 0) }
    ensures cause { HasCause (O.state out.old).faults (O.state out.new).faults result }
{
    put_line(out, key, holds, end)?;
    if sends {
        return out.write(&[]);
    }
    Ok(())
}

/// Writes the line of a key, if it holds: as one piece, if it is short.
fn put_line<O: Sink>(out: &mut O, key: &[u8], holds: bool, end: u8) -> Result<(), Failed>
    ensures line { Writes (O.state out.old).written (O.state out.new).written (line_if holds end key.now) result }
    ensures cause { HasCause (O.state out.old).faults (O.state out.new).faults result }
{
    if !holds {
        return Ok(());
    }
    if key.len() >= SHORT_LINE {
        return write_pieces(out, &[key, &[end]]);
    }
    let mut line = ArrayVec::<u8, SHORT_LINE>::new();
    if line.try_extend_from_slice(key).is_err() {
        unreachable!();
    }
    line.push(end);
    out.write(line.as_slice())
}
