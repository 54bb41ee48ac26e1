//! Messages to a sink that may fail.
ghost use Rattle.std.specs.Prelude.{◌≡◌, OnOk, false, map};
ghost use Rattle.cm_io.specs.Causes.{HasCause};
ghost use Rattle.cm_io.specs.Noting.{Noted};
ghost use Rattle.cm_io.specs.Writing.{Writes, joined};

use crate::{Failed, Sink, write_pieces};
use std::marker::Model;

/// Messages to a sink that may fail: from the first that failed on, nothing is written.
#[derive(Drop)]
pub struct Notes {
    failed: bool,
}

impl Model for Notes {
    ghost use Rattle.std.specs.Prelude.{Bool};

    ghost Value = { Bool };

    ghost view = { λ n. n.failed };
}

impl Notes {
    /// No note has failed yet.
    pub fn new() -> Notes
        ensures fresh { result ≡ false }
    {
        Notes { failed: false }
    }

    /// Writes a piece, unless a note has failed before. If the sink fails, this note has failed.
    pub fn note<E: Sink>(&mut self, sink: &mut E, piece: &[u8])
        ensures noted { Noted self.old self.new (E.state sink.old) (E.state sink.new)
            piece.now }
    {
        if !self.failed && sink.write(piece).is_err() {
            self.failed = true;
        }
    }

    /// Writes the pieces of one message and flushes the sink, unless a note has failed before. If the sink fails, this note has failed.
    pub fn note_pieces<E: Sink>(&mut self, sink: &mut E, pieces: &[&[u8]])
        ensures noted { Noted self.old self.new (E.state sink.old) (E.state sink.new)
            (joined (map (λ piece. piece.now) pieces.now)) }
        ensures sent { self.new ≡ false → (E.state sink.new).waits ≡ 0 }
    {
        if !self.failed && write_message(sink, pieces).is_err() {
            self.failed = true;
        }
    }
}

/// Writes the pieces and flushes the sink. Fails exactly if the sink does, which has then taken a prefix of them all.
fn write_message<E: Sink>(sink: &mut E, pieces: &[&[u8]]) -> Result<(), Failed>
    ensures bytes { Writes (E.state sink.old).written (E.state sink.new).written (joined (map (λ piece. piece.now) pieces.now)) result }
    ensures sent { OnOk result ((E.state sink.new).waits ≡ 0) }
    ensures cause { HasCause (E.state sink.old).faults (E.state sink.new).faults result }
{
    write_pieces(sink, pieces)?;
    sink.write(&[])
}
