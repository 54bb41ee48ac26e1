//! A source that is read in pieces, for items that are short.
ghost use Rattle.std.specs.Prelude.{◌≡◌, ◌+◌, ◌-◌, ◌<◌, ◌≤◌, ◌^◌, [], OnOk, IfOk, true, drop, length, take};
ghost use Rattle.std.specs.Option.{ForSome};
ghost use Rattle.cm_io.specs.Causes.{HasCause};
ghost use Rattle.cm_dump_items.specs.Reading.{Answers, Fills, HasLoadCause, IsAt, end_at};
ghost use Rattle.cm_dump_items.specs.Unreads.{IsNext};

use crate::LoadFault;
use crate::items::{end, fill};
use cm_io::{Failed, Source};
use std::alloc::{AllocError, Global};
use std::marker::Model;

/// How many bytes are read at a time.
const PIECE: usize = 16_384;

/// How many bytes are in a piece at least after `refill`, unless the source ends with it. An item of at most this many bytes is there
/// whole.
pub const ENOUGH: usize = 4096;

/// The bytes that were read and not used yet: those of the buffer from `from` up to `until`. The source has ended if the buffer
/// was not filled.
#[derive(Drop)]
pub struct Piece {
    buf: Vec<u8>,
    from: usize,
    until: usize,
}

impl Model for Piece {
    ghost use Rattle.std.specs.Prelude.{◌≡◌, ◌≤◌, length};
    ghost use Rattle.cm_dump_items.specs.Unreads.{Unread, unread_of};

    ghost Value = { Unread };

    ghost view = { λ p. unread_of p.buf.items p.from p.until };

    ghost invariant = { λ p. (p.from ≤ p.until) × (p.until ≤ 16384) × (length p.buf.items ≡ 16384) };
}

/// Moves the bytes of the buffer from `from` on to its start, and reads as many more as there is then room for. The first of them stands
/// at this offset, in bytes from 0. Returns how many bytes of the buffer are filled: all, unless the source has ended. Fails exactly if
/// the source does.
fn refilled<S: Source>(
    source: &mut S,
    at: u64,
    buf: &mut [u8],
    from: usize,
) -> Result<usize, Failed>
    requires inside { from ≤ length buf.old }
    requires room { at + length buf.old < 2 ^ 63 }
    requires at { IsAt (S.told source.old) (S.place source.old) (at + (length buf.old - from)) }
    requires kept { ForSome (S.told source.old) (λ bytes. drop from buf.old ≡ take (length buf.old - from) (drop at bytes)) }
    ensures told { S.told source.new ≡ S.told source.old }
    ensures inside { IfOk result (λ until. (length buf.old - from ≤ until) × (until ≤ length buf.old)) }
    ensures at { IfOk result (λ until. IsAt (S.told source.new) (S.place source.new) (at + until)) }
    ensures fills { IfOk result (λ until. ForSome (S.told source.old) (λ bytes. Fills bytes at until buf.new)) }
    ensures cause { HasCause (S.faults source.old) (S.faults source.new) result }
{
    let kept = buf.len() - from;
    buf.copy_within(from.., 0);
    match fill(source, at + kept as u64, &mut buf[kept..]) {
        Ok(got) => Ok(kept + got),
        Err(Failed) => Err(Failed),
    }
}

impl Piece {
    /// A piece of a source that nothing was read from yet. Fails only if memory runs out.
    pub fn new(alloc: Global) -> Result<Piece, AllocError>
        ensures none { IfOk result (λ p. (p.rest ≡ []) × (p.more ≡ true)) }
    {
        let buf = vec![in alloc; 0; PIECE]?;
        Ok(Piece {
            buf,
            from: PIECE,
            until: PIECE,
        })
    }

    /// The bytes that were read and not used yet.
    pub fn rest(&self) -> &[u8]
        ensures rest { result.now ≡ self.now.rest }
        ensures few { length result.now ≤ 16384 }
    {
        &self.buf[self.from..self.until]
    }

    /// Reads more unless there is enough. The first byte that was not used yet stands at this offset, in bytes from 0. Fails exactly if the
    /// source does.
    pub fn refill<S: Source>(&mut self, source: &mut S, at: u64) -> Result<(), Failed>
        requires room { at < 2 ^ 60 }
        requires next { ForSome (S.told source.old) (λ bytes. IsNext bytes (S.place source.old) at self.old) }
        ensures told { S.told source.new ≡ S.told source.old }
        ensures next { OnOk result (ForSome (S.told source.old) (λ bytes. IsNext bytes (S.place source.new) at self.new)) }
        ensures enough { OnOk result (self.new.more ≡ true → ENOUGH ≤ length self.new.rest) }
        ensures cause { HasCause (S.faults source.old) (S.faults source.new) result }
    {
        if self.until < PIECE || self.until - self.from >= ENOUGH {
            return Ok(());
        }
        match refilled(source, at, &mut self.buf, self.from) {
            Ok(until) => {
                self.from = 0;
                self.until = until;
                Ok(())
            }
            Err(Failed) => Err(Failed),
        }
    }

    /// Uses the first `n` bytes of those that were not used yet.
    pub fn skip(&mut self, n: usize)
        requires inside { n ≤ length self.old.rest }
        ensures rest { self.new ≡ record self.old { rest = drop n self.old.rest } }
    {
        self.from += n;
    }

    /// Checks that no byte is at this offset, in bytes from 0, where the first byte that was not used yet would stand. Returns `Trailing`
    /// if one is, and `Read` exactly if the source fails.
    #[tactic(auto, unfolding(crate::specs::Reading::end_at))]
    pub fn end<S: Source>(&self, source: &mut S, at: u64) -> Result<(), LoadFault>
        requires next { ForSome (S.told source.old) (λ bytes. IsNext bytes (S.place source.old) at self.now) }
        ensures told { S.told source.new ≡ S.told source.old }
        ensures exact { ForSome (S.told source.old) (λ bytes. Answers (λ x. x) result (end_at bytes at)) }
        ensures cause { HasLoadCause (S.faults source.old) (S.faults source.new) result }
    {
        if self.from < self.until {
            Err(LoadFault::Trailing)
        } else {
            end(source, at)
        }
    }
}
