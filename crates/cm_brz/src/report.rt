//! The report on an overfull bucket as text.
ghost use Rattle.cm_io.specs.Causes.{HasCause};
ghost use Rattle.cm_io.specs.Writing.{Writes};
ghost use Rattle.cm_witness_gather.specs.Reports.{overfull_head, overfull_text};

use arrayvec::ArrayVec;
use cm_io::{Failed, Sink};
use cm_witness_gather::{Pair, append, append_number, write_pairs};
use itoa::Buffer;

/// Room for any first line.
const HEAD_ROOM: usize = 64;

/// Writes the first line as one piece.
fn write_head<O: Sink>(
    seed: u32,
    bucket: u32,
    count: u32,
    out: &mut O,
    buffer: &mut Buffer,
) -> Result<(), Failed>
    ensures line { Writes (O.state out.old).written (O.state out.new).written (overfull_head seed bucket count) result }
    ensures cause { HasCause (O.state out.old).faults (O.state out.new).faults result }
{
    let mut line = ArrayVec::<u8, HEAD_ROOM>::new();
    append_number(&mut line, b"overfull brz seed ", seed, buffer);
    append_number(&mut line, b" bucket ", bucket, buffer);
    append_number(&mut line, b" keys ", count, buffer);
    append(&mut line, b"\n");
    out.write(line.as_slice())
}

/// Writes the report on an overfull bucket: the seed of the split, the bucket, from 0, and its number of keys, and then each pair of
/// equal keys, each in a line of its own. Takes no memory. Fails exactly if the sink does, which has then taken a prefix of the text.
pub fn write_overfull<O: Sink>(
    seed: u32,
    bucket: u32,
    count: u32,
    equal: &[Pair],
    out: &mut O,
) -> Result<(), Failed>
    ensures text { Writes (O.state out.old).written (O.state out.new).written (overfull_text seed bucket count equal.now) result }
    ensures cause { HasCause (O.state out.old).faults (O.state out.new).faults result }
{
    let mut buffer = Buffer::new();
    write_head(seed, bucket, count, out, &mut buffer)?;
    write_pairs(out, equal, &mut buffer)
}
