//! The lines of a source that is read once.
ghost use Rattle.std.specs.Prelude.{◌≡◌, ◌⊎◌, ◌<◌, ◌≤◌, ◌+◌, ℕ, List, length, Ok, true, false, IfOk, IfErr, IfSome, IfNone, OnOk, OnErr, IsTrue, if◌then◌else◌, option_map};
ghost use Rattle.std.specs.Option.{ForSome};
ghost use Rattle.cm_keys.specs.LinePass.{IsFull, IsOpen};
ghost use Rattle.cm_keys.specs.Streams.{GivesLine, HasLineCause, IsBuffered, IsLineFault, NoneBuffered, new_stream, stream_in, told_by};

use crate::LINE_END;
use crate::buffered::{Buffered, Line};
use crate::keys::is_open;
use cm_io::{Failed, KeyBuf, MAX_KEY_LEN, Source};
use std::marker::Model;

/// How many lines are read at most.
pub const MAX_LINES: u64 = u64::MAX;

/// Why there is no next line.
#[derive(Clone, Copy, Debug, PartialEq, Eq)]
pub enum LineFault {
    /// The source failed.
    Read,
    /// The line has more bytes than a key.
    TooLong,
    /// There are more than `MAX_LINES` lines.
    TooMany,
}

/// The lines of a source, each read once, in order. A line ends with a byte that is chosen: `LINE_END`, or byte 0. It goes without it, and
/// a last line without its end counts if it has a byte. Lines are numbered from 1, and there may be more of them than a pass has keys.
pub struct Lines<S: Source> {
    bytes: Buffered<S>,
    first: Option<u32>,
    /// The byte that ends a line.
    end: u8,
    count: u64,
    /// No call has failed.
    usable: bool,
}

impl<S: Source> Model for Lines<S> {
    ghost use Rattle.cm_keys.specs.Streams.{LineStream};
    ghost use Rattle.cm_keys.specs.Leaving.{IsPassing, bytes_left};
    ghost use Rattle.cm_keys.specs.Buffering.{ready_in, line_rule};
    ghost use Rattle.cm_keys.specs.declared.lines.TheConstants.{MAX_LINES};
    ghost use Rattle.cm_io.specs.declared.key_pass.TheConstants.{MAX_KEY_LEN};

    ghost Value = { LineStream };

    ghost view = { λ k. record {
      bytes = S.told k.bytes.source;
      first = k.first;
      end = k.end;
      count = k.count;
      usable = k.usable;
      faults = S.faults k.bytes.source;
      waiting = ready_in k.bytes.buf k.bytes.start k.bytes.until;
    } };

    ghost invariant = { λ k. IsPassing MAX_LINES (line_rule MAX_KEY_LEN k.end) k.first k.count k.usable (bytes_left (S.told k.bytes.source) (S.place k.bytes.source) (ready_in k.bytes.buf k.bytes.start k.bytes.until)) };
}

impl<S: Source> Lines<S> {
    /// The lines of a source that stands at its start; with `first`, at most this many of them. The byte `end` ends a line: it is
    /// `LINE_END`, or 0 for lines that may have line feeds.
    pub fn new(source: S, first: Option<u32>, end: u8) -> Lines<S>
        requires start { ForSome (S.told source) (λ _. S.place source ≡ 0) }
        requires end { (end ≡ LINE_END) ⊎ (end ≡ 0) }
        ensures state { result ≡ new_stream (S.told source) first end (S.faults source) }
        ensures told { told_by result ≡ option_map (stream_in first end) (S.told source) }
    {
        Lines {
            bytes: Buffered::new(source),
            first,
            end,
            count: 0,
            usable: true,
        }
    }

    /// Puts the next line into the buffer, without its end, and returns true, or returns false at the end. Fails with `Read` exactly if the
    /// count of the source's faults rises, and with another fault if the lines have come to it: the line at fault is the next one.
    pub fn next(&mut self, key: &mut KeyBuf) -> Result<bool, LineFault>
        requires usable { IsTrue self.old.usable }
        ensures told { told_by self.new ≡ told_by self.old }
        ensures gives { ForSome (told_by self.old) (λ told. GivesLine told self.old.count self.new.count key.new.items result) }
        ensures cause { HasLineCause self.old.faults self.new.faults result }
        ensures counts { IfOk result (λ more. self.new.count ≡ self.old.count + (if more then 1 else 0)) }
        ensures refused { OnErr result (self.new.count ≡ self.old.count) }
        ensures usable { OnOk result (self.new.usable ≡ true) }
        ensures unusable { OnErr result (self.new.usable ≡ false) }

        // The line at fault is to be read, and is one too many only after `MAX_LINES` lines.
        ensures fault { IfErr result (IsLineFault self.old) }

        // The bytes of the source, the number of lines to read and the byte that ends a line stay the same.
        ensures bytes { self.new.bytes ≡ self.old.bytes }
        ensures first { self.new.first ≡ self.old.first }
        ensures end { self.new.end ≡ self.old.end }
    {
        if !is_open(self.first, self.count) {
            return Ok(false);
        }
        if self.count == MAX_LINES {
            return match self.bytes.has_more() {
                Ok(true) => Err(stop(&mut self.usable, LineFault::TooMany)),
                Ok(false) => Ok(false),
                Err(Failed) => Err(stop(&mut self.usable, LineFault::Read)),
            };
        }
        match self.bytes.read_line(self.end, key) {
            Ok(Line::Key) => {
                self.count += 1;
                Ok(true)
            }
            Ok(Line::End) => Ok(false),
            Ok(Line::TooLong) => Err(stop(&mut self.usable, LineFault::TooLong)),
            Err(Failed) => Err(stop(&mut self.usable, LineFault::Read)),
        }
    }

    /// The next line, without its end, if the whole line is buffered: no read can fail before it. None says that it isn't, and nothing of
    /// what comes.
    pub fn peek(&self) -> Option<&[u8]>
        requires usable { IsTrue self.now.usable }
        ensures gives { IfSome result (λ key. ForSome (told_by self.now) (λ told.
            GivesLine told self.now.count (self.now.count + 1) key.now (Ok true))) }
        ensures short { IfSome result (λ key. length key.now ≤ MAX_KEY_LEN) }
        ensures few { IfSome result (λ key. self.now.count < MAX_LINES) }
        ensures stands { IfSome result (λ key. IsBuffered self.now key.now) }
        ensures none_stands { IfNone result ((key : List ℕ) → IsBuffered self.now key → ⊥) }

        // If its whole line is in the buffer, the next line is buffered.
        ensures none { IfNone result (NoneBuffered self.now) }
    {
        if !may_yield(self.first, self.count) {
            return None;
        }
        match self.bytes.peek_line(self.end) {
            Some(line) => Some(line),
            None => None,
        }
    }

    /// Passes the next line without returning it. It is buffered, as `peek` shows, and has `len` bytes. No read can fail then, and it does
    /// what a `next` that returns true does.
    pub fn pass(&mut self, len: usize)
        requires usable { IsTrue self.old.usable }
        requires stands { (key : List ℕ) × IsBuffered self.old key × (length key ≡ len) }
        ensures told { told_by self.new ≡ told_by self.old }
        ensures cause { self.new.faults ≡ self.old.faults }
        ensures counts { self.new.count ≡ self.old.count + 1 }
        ensures usable { self.new.usable ≡ true }

        // The bytes of the source, the number of lines to read and the byte that ends a line stay the same.
        ensures bytes { self.new.bytes ≡ self.old.bytes }
        ensures first { self.new.first ≡ self.old.first }
        ensures end { self.new.end ≡ self.old.end }
    {
        self.bytes.pass_line(len);
        self.count += 1;
    }

    /// How many lines it has yielded. A line at fault is the one after them.
    pub fn count(&self) -> u64
        ensures count { result ≡ self.now.count }
    {
        self.count
    }

    /// Returns the source. More bytes than those of the lines may have been read from it.
    pub fn into_source(self) -> S
        ensures told { S.told result ≡ self.bytes }
        ensures faults { S.faults result ≡ self.faults }
    {
        let Lines {
            bytes,
            first: _,
            end: _,
            count: _,
            usable: _,
        } = self;
        bytes.into_source()
    }
}

/// Whether a further line may be yielded: it is read, and fewer than `MAX_LINES` were yielded yet.
fn may_yield(first: Option<u32>, count: u64) -> bool
    ensures open { result ≡ true → IsOpen first count }
    ensures few { result ≡ true → count < MAX_LINES }
    ensures none { result ≡ false → IsFull first count ⊎ (MAX_LINES ≤ count) }
{
    count < MAX_LINES && is_open(first, count)
}

/// Notes that a call has failed, and returns its fault.
fn stop(usable: &mut bool, fault: LineFault) -> LineFault
    ensures usable { usable.new ≡ false }
    ensures fault { result ≡ fault }
{
    *usable = false;
    fault
}
