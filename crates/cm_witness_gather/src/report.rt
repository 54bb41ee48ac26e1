//! A certificate as text.
ghost use Rattle.std.specs.Prelude.{◌≡◌, ◌+◌, ◌++◌, ◌≤◌, length, decimal, map};
ghost use Rattle.cm_io.specs.Causes.{HasCause};
ghost use Rattle.cm_io.specs.Writing.{Writes, joined};
ghost use Rattle.cm_witness_gather.specs.Reports.{edge_line, head_line, pair_line, report_text};

use crate::{Certificate, CoreEdge, Pair};
use arrayvec::ArrayVec;
use cm_io::{Failed, Sink};
use itoa::Buffer;

/// Room for any first line.
const HEAD_ROOM: usize = 96;

/// Room for any line of an edge or a pair.
const LINE_ROOM: usize = 64;

/// Appends a part to a line that has room for it.
#[inline(always)]
pub fn append<const N: usize>(line: &mut ArrayVec<u8, N>, part: &[u8])
    requires room { length line.old.items + length part.now ≤ N }
    ensures all { line.new.items ≡ line.old.items ++ part.now }
{
    if line.try_extend_from_slice(part).is_err() {
        unreachable!();
    }
}

/// Appends a part and a number in decimal to a line that has room for the part and for ten digits. The buffer is scratch space.
#[inline(always)]
pub fn append_number<const N: usize>(
    line: &mut ArrayVec<u8, N>,
    part: &[u8],
    number: u32,
    buffer: &mut Buffer,
)
    requires room { length line.old.items + length part.now + 10 ≤ N }
    ensures all { line.new.items ≡ line.old.items ++ (part.now ++ decimal number) }
    ensures long { length line.new.items ≤ length line.old.items + length part.now + 10 }
{
    append(line, part);
    append(line, buffer.format(number).as_bytes());
}

/// Writes the line of an edge as one piece.
fn write_edge<O: Sink>(out: &mut O, edge: &CoreEdge, buffer: &mut Buffer) -> Result<(), Failed>
    ensures line { Writes (O.state out.old).written (O.state out.new).written (edge_line edge.now) result }
    ensures cause { HasCause (O.state out.old).faults (O.state out.new).faults result }
{
    let mut line = ArrayVec::<u8, LINE_ROOM>::new();
    append_number(&mut line, b"edge ", edge.line, buffer);
    append_number(&mut line, b" ", edge.first, buffer);
    append_number(&mut line, b" ", edge.second, buffer);
    if let Some(third) = edge.third {
        append_number(&mut line, b" ", third, buffer);
    }
    append(&mut line, b"\n");
    out.write(line.as_slice())
}

/// Writes the line of a pair as one piece.
fn write_pair<O: Sink>(out: &mut O, pair: &Pair, buffer: &mut Buffer) -> Result<(), Failed>
    ensures line { Writes (O.state out.old).written (O.state out.new).written (pair_line pair.now) result }
    ensures cause { HasCause (O.state out.old).faults (O.state out.new).faults result }
{
    let mut line = ArrayVec::<u8, LINE_ROOM>::new();
    append_number(&mut line, b"equal ", pair.first, buffer);
    append_number(&mut line, b" ", pair.again, buffer);
    append(&mut line, b"\n");
    out.write(line.as_slice())
}

/// Writes the lines of the edges.
fn write_edges<O: Sink>(out: &mut O, edges: &[CoreEdge], buffer: &mut Buffer) -> Result<(), Failed>
    ensures lines { Writes (O.state out.old).written (O.state out.new).written (joined (map edge_line edges.now)) result }
    ensures cause { HasCause (O.state out.old).faults (O.state out.new).faults result }
{
    for edge in edges {
        write_edge(out, edge, buffer)?;
    }
    Ok(())
}

/// Writes a line for each pair of equal keys. Takes no memory. Fails exactly if the sink does, which has then taken a prefix of the
/// text. The buffer is scratch space.
pub fn write_pairs<O: Sink>(out: &mut O, pairs: &[Pair], buffer: &mut Buffer) -> Result<(), Failed>
    ensures lines { Writes (O.state out.old).written (O.state out.new).written (joined (map pair_line pairs.now)) result }
    ensures cause { HasCause (O.state out.old).faults (O.state out.new).faults result }
{
    for pair in pairs {
        write_pair(out, pair, buffer)?;
    }
    Ok(())
}

impl Certificate {
    /// Writes the first line as one piece.
    fn write_head<O: Sink>(&self, out: &mut O, buffer: &mut Buffer) -> Result<(), Failed>
        ensures line { Writes (O.state out.old).written (O.state out.new).written (head_line self.now.algorithm self.now.place self.now.seed (length self.now.edges.items)) result }
        ensures cause { HasCause (O.state out.old).faults (O.state out.new).faults result }
    {
        let mut line = ArrayVec::<u8, HEAD_ROOM>::new();
        append(&mut line, b"core ");
        append(&mut line, self.algorithm.name().as_bytes());
        if let Some(place) = self.place {
            append_number(&mut line, b" split ", place.split, buffer);
            append_number(&mut line, b" bucket ", place.bucket, buffer);
        }
        append_number(&mut line, b" seed ", self.seed, buffer);
        append(&mut line, b" edges ");
        append(&mut line, buffer.format(self.edges.len()).as_bytes());
        append(&mut line, b"\n");
        out.write(line.as_slice())
    }

    /// Writes the report: the algorithm with its bucket, if there is one, its seed and how many edges there are, then each edge, then
    /// each pair of equal keys, each in a line of its own. Takes no memory. Fails exactly if the sink does, which has then taken a
    /// prefix of the text.
    pub fn write<O: Sink>(&self, out: &mut O) -> Result<(), Failed>
        ensures text { Writes (O.state out.old).written (O.state out.new).written
            (report_text self.now.algorithm self.now.place self.now.seed self.now.edges.items self.now.equal.items) result }
        ensures cause { HasCause (O.state out.old).faults (O.state out.new).faults result }
    {
        let mut buffer = Buffer::new();
        self.write_head(out, &mut buffer)?;
        write_edges(out, &self.edges, &mut buffer)?;
        write_pairs(out, &self.equal, &mut buffer)
    }
}
