//! The counts of the shards, as the text of a file.
ghost use Rattle.std.specs.Prelude.{◌≡◌, ◌++◌, ◌∷◌, [], decimal};
ghost use Rattle.cm_io.specs.Causes.{HasCause};
ghost use Rattle.cm_io.specs.Writing.{Writes};
ghost use Rattle.cm_shards_split.specs.Parts.{counts_of};
ghost use Rattle.cm_shards_split.specs.Shares.{counts_text};
ghost use Rattle.cm_words_values.specs.declared.limits.TheConstants.{LINE_FEED};

use crate::part::Part;
use cm_io::{Failed, Sink, write_pieces};
use cm_tool_building::Saved;
use itoa::Buffer;

/// The counts of shards.
#[derive(Clone, Copy)]
pub(crate) struct Counts<'a> {
    pub(crate) parts: &'a [Part],
}

impl<'a> Saved for Counts<'a> {
    ghost bytes = { λ c. counts_text (counts_of c.parts.now) };

    fn save<O: Sink>(&self, out: &mut O) -> Result<(), Failed> {
        write_counts(self.parts, out)
    }
}

/// Writes a count on a line of its own.
fn write_count<O: Sink>(count: u64, out: &mut O) -> Result<(), Failed>
    ensures text { Writes (O.state out.old).written (O.state out.new).written (decimal count ++ LINE_FEED ∷ []) result }
    ensures cause { HasCause (O.state out.old).faults (O.state out.new).faults result }
{
    let mut buffer = Buffer::new();
    let digits = buffer.format(count).as_bytes();
    write_pieces(out, &[digits, b"\n"])
}

/// Writes the count of each shard, in order.
fn write_counts<O: Sink>(parts: &[Part], out: &mut O) -> Result<(), Failed>
    ensures text { Writes (O.state out.old).written (O.state out.new).written (counts_text (counts_of parts.now)) result }
    ensures cause { HasCause (O.state out.old).faults (O.state out.new).faults result }
{
    for i in 0..parts.len() {
        match write_count(parts[i].count, out) {
            Ok(()) => {}
            Err(Failed) => return Err(Failed),
        }
    }
    Ok(())
}
