//! What a sink is, and writes of several pieces to one.
ghost use Rattle.std.specs.Prelude.{◌≡◌, [], OnOk, map};
ghost use Rattle.cm_io.specs.Causes.{HasCause};
ghost use Rattle.cm_io.specs.States.{SinkState};
ghost use Rattle.cm_io.specs.Writing.{Writes, joined};

use crate::Failed;

/// What takes bytes in order.
pub trait Sink {
    /// What was written, how much of it is buffered, and how often it has failed.
    ghost state: { Self → SinkState };

    /// Appends the piece. Fails exactly if the count of faults rises, and then appends a prefix of the piece. An empty piece flushes
    /// all buffered bytes.
    fn write(&mut self, piece: &[u8]) -> Result<(), Failed>
        ensures bytes { Writes (state self.old).written (state self.new).written piece.now result }
        ensures sent { OnOk result (piece.now ≡ [] → (state self.new).waits ≡ 0) }
        ensures cause { HasCause (state self.old).faults (state self.new).faults result };
}

/// Writes the pieces, one after another. Fails exactly if the sink does, which has then taken a prefix of them all.
pub fn write_pieces<O: Sink>(out: &mut O, pieces: &[&[u8]]) -> Result<(), Failed>
    ensures bytes { Writes (O.state out.old).written (O.state out.new).written
        (joined (map (λ piece. piece.now) pieces.now)) result }
    ensures cause { HasCause (O.state out.old).faults (O.state out.new).faults result }
{
    for piece in pieces {
        out.write(*piece)?;
    }
    Ok(())
}
