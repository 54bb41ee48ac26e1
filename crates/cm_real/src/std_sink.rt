//! A sink over one of std's writers. Its bytes are not known here. If those of the writer are, each piece that is taken is there in
//! order.
ghost use Rattle.std.specs.Prelude.{◌≡◌, ◌≢◌, ◌≤◌, ◌+◌, ◌++◌, [], None, true, length, IfSome, IsOk, OnOk};
ghost use Rattle.std.specs.Io.KnownBytes.{Appends, append_known};
ghost use Rattle.cm_io.specs.Causes.{HasCause};
ghost use Rattle.cm_io.specs.Writing.{Writes};
ghost use Rattle.cm_real.specs.declared.std_sink.TheConstants.{ROOM};

use arrayvec::ArrayVec;
use cm_io::{Failed, Sink};
use std::io::Write;

/// How many bytes a sink buffers at most.
const ROOM: usize = 16_384;

/// A sink buffers at most 16,384 bytes.
pub fn room()
    ensures { ROOM ≡ 16384 }
{}

/// A writer behind a buffer. An empty piece flushes the buffer.
#[derive(Drop)]
pub struct StdSink<W> {
    writer: W,
    waiting: ArrayVec<u8, ROOM>,
    faults: u64,
}

impl<W: Write> StdSink<W> {
    /// A sink that buffers bytes until its buffer is full.
    pub fn new(writer: W) -> StdSink<W>
        ensures written { (⟦<StdSink<W> as Sink>⟧.state result).written ≡ None }
        ensures waits { (⟦<StdSink<W> as Sink>⟧.state result).waits ≡ 0 }
        ensures faults { (⟦<StdSink<W> as Sink>⟧.state result).faults ≡ 0 }
        ensures writer { result.writer ≡ writer }
        ensures empty { result.waiting.items ≡ [] }
    {
        StdSink {
            writer,
            waiting: ArrayVec::new(),
            faults: 0,
        }
    }

    /// How often a write has failed.
    pub fn faults(&self) -> u64
        ensures faults { result ≡ (⟦<StdSink<W> as Sink>⟧.state self.now).faults }
    {
        self.faults
    }

    /// The writer, and how often writing to it has failed.
    pub fn into_parts(self) -> (W, u64)
        ensures writer { result.0 ≡ self.writer }
        ensures faults { result.1 ≡ (⟦<StdSink<W> as Sink>⟧.state self).faults }
    {
        let StdSink {
            writer,
            waiting: _,
            faults,
        } = self;
        (writer, faults)
    }

    /// Writes the buffered bytes to the writer.
    fn send_on(&mut self) -> bool
        ensures faults { self.new.faults ≡ self.old.faults }
        ensures sent { result ≡ true → self.new.waiting.items ≡ [] }
        ensures taken { result ≡ true → Appends (append_known (W.contents self.old.writer) self.old.waiting.items) (append_known (W.contents self.new.writer) self.new.waiting.items) [] }
    {
        if self.writer.write_all(self.waiting.as_slice()).is_err() {
            return false;
        }
        self.waiting.clear();
        true
    }

    /// Buffers a piece, after writing out the buffer if the piece doesn't fit. If it still doesn't fit, it is written directly.
    fn take(&mut self, piece: &[u8]) -> bool
        ensures faults { self.new.faults ≡ self.old.faults }
        ensures taken { result ≡ true → Appends (append_known (W.contents self.old.writer) self.old.waiting.items) (append_known (W.contents self.new.writer) self.new.waiting.items) piece.now }
        ensures fits { length self.old.waiting.items + length piece.now ≤ ROOM → result ≡ true }
        ensures waits { length self.old.waiting.items + length piece.now ≤ ROOM → self.new.waiting.items ≡ self.old.waiting.items ++ piece.now }
        ensures writer { length self.old.waiting.items + length piece.now ≤ ROOM → self.new.writer ≡ self.old.writer }
    {
        if self.waiting.try_extend_from_slice(piece).is_ok() {
            return true;
        }
        self.send_on()
            && (self.waiting.try_extend_from_slice(piece).is_ok()
                || self.writer.write_all(piece).is_ok())
    }

    /// Takes a piece. After an empty one the buffer is empty. Another one that fits is only buffered.
    fn pass_on(&mut self, piece: &[u8]) -> bool
        ensures faults { self.new.faults ≡ self.old.faults }
        ensures sent { result ≡ true → piece.now ≡ [] → self.new.waiting.items ≡ [] }
        ensures taken { result ≡ true → Appends (append_known (W.contents self.old.writer) self.old.waiting.items) (append_known (W.contents self.new.writer) self.new.waiting.items) piece.now }
        ensures fits { piece.now ≢ [] → length self.old.waiting.items + length piece.now ≤ ROOM → result ≡ true }
        ensures waits { piece.now ≢ [] → length self.old.waiting.items + length piece.now ≤ ROOM → self.new.waiting.items ≡ self.old.waiting.items ++ piece.now }
        ensures writer { piece.now ≢ [] → length self.old.waiting.items + length piece.now ≤ ROOM → self.new.writer ≡ self.old.writer }
    {
        if !self.take(piece) {
            return false;
        }
        if piece.is_empty() {
            return self.send_on() && self.writer.flush().is_ok();
        }
        true
    }
}

impl<W: Write + Drop> StdSink<W> {
    /// The writer, after all buffered bytes were written to it. None if that fails, or if a write has failed before: a part of the
    /// buffered bytes may have been written already then.
    pub(crate) fn finish(self) -> Option<W>
        ensures sent { IfSome result (λ writer. Appends (append_known (W.contents self.writer) self.waiting.items) (W.contents writer) []) }
        ensures fine { IfSome result (λ _. self.faults ≡ 0) }
    {
        let mut sink = self;
        if sink.faults > 0 || sink.write(&[]).is_err() {
            return None;
        }
        let (writer, _) = sink.into_parts();
        Some(writer)
    }
}

impl<W: Write> Sink for StdSink<W> {
    ghost state = { λ s. record { written = None; waits = length s.waiting.items; faults = s.faults } };

    fn write(&mut self, piece: &[u8]) -> Result<(), Failed>
        ensures bytes { Writes None None piece.now result }
        ensures cause { HasCause self.old.faults self.new.faults result }
        ensures sent { OnOk result (piece.now ≡ [] → length self.new.waiting.items ≡ 0) }
        ensures taken { OnOk result (Appends (append_known (W.contents self.old.writer) self.old.waiting.items) (append_known (W.contents self.new.writer) self.new.waiting.items) piece.now) }

        // A piece that fits is buffered, and nothing is written to the writer.
        ensures fits { piece.now ≢ [] → length self.old.waiting.items + length piece.now ≤ ROOM → IsOk result }
        ensures waits { piece.now ≢ [] → length self.old.waiting.items + length piece.now ≤ ROOM → self.new.waiting.items ≡ self.old.waiting.items ++ piece.now }
        ensures writer { piece.now ≢ [] → length self.old.waiting.items + length piece.now ≤ ROOM → self.new.writer ≡ self.old.writer }
    {
        if self.pass_on(piece) {
            Ok(())
        } else {
            self.faults = self.faults.saturating_add(1);
            Err(Failed)
        }
    }
}
