//! Bytes of a spill that are read ahead.
ghost use Rattle.std.specs.Prelude.{◌≡◌, ◌<◌, ◌≤◌, ◌^◌, ◌+◌, ◌++◌, [], ℕ, List, Option, length, take, drop, IfOk, IfSome, IfNone, OnOk, true, false};
ghost use Rattle.std.specs.Option.{ForSome};
ghost use Rattle.cm_io.specs.Causes.{HasCause};
ghost use Rattle.cm_spill.specs.Reading.{IsAhead, IsHeaderAt};

use crate::header::{HEADER, Header, read_header};
use arrayvec::ArrayVec;
use cm_io::{Failed, Spill};
use std::alloc::{AllocError, Global};
use std::marker::Model;

/// Bytes of a spill from an offset on, read piece by piece.
#[derive(Drop)]
pub(crate) struct Ahead {
    at: u64,
    piece: Vec<u8>,
    from: usize,
    until: usize,
}

impl Model for Ahead {
    ghost use Rattle.std.specs.Prelude.{◌-◌, ◌≤◌, take, drop, length};
    ghost use Rattle.cm_spill.specs.Reading.{Position};

    ghost Value = { Position };

    ghost view = { λ a. record { at = a.at; ready = take (a.until - a.from) (drop a.from a.piece.items); room = length a.piece.items } };

    ghost invariant = { λ a. (a.from ≤ a.until) × (a.until ≤ length a.piece.items) };
}

impl Ahead {
    /// The bytes from this offset on, without a buffer yet.
    pub(crate) fn new(alloc: Global, at: u64) -> Ahead
        ensures state { result ≡ record { at = at; ready = []; room = 0 } }
    {
        Ahead {
            at,
            piece: Vec::new(alloc),
            from: 0,
            until: 0,
        }
    }

    /// Allocates a buffer of `size` bytes. Nothing was read yet.
    pub(crate) fn reserve(&mut self, size: usize) -> Result<(), AllocError>
        requires none { self.old.room ≡ 0 }
        ensures state { OnOk result (self.new ≡ record { at = self.old.at; ready = []; room = size }) }
    {
        self.piece.resize(size, 0)
    }

    /// The offset of the next byte.
    pub(crate) fn at(&self) -> u64
        ensures at { result ≡ self.now.at }
    {
        self.at
    }

    /// Reads a piece, if no byte is buffered. Returns false if the spill has no more.
    fn refill<P: Spill>(&mut self, spill: &mut P) -> Result<bool, Failed>
        requires room { 0 < self.old.room }
        ensures told { P.told spill.new ≡ P.told spill.old }
        ensures at { self.new.at ≡ self.old.at }
        ensures room { self.new.room ≡ self.old.room }
        ensures kept { 0 < length self.old.ready → self.new ≡ self.old }
        ensures ahead { OnOk result (ForSome (P.told spill.old) (λ bytes. IsAhead bytes self.old → IsAhead bytes self.new)) }
        ensures some { IfOk result (λ more. more ≡ true → 0 < length self.new.ready) }
        ensures end { IfOk result (λ more. more ≡ false → self.new.ready ≡ []) }
        ensures none { IfOk result (λ more. more ≡ false → ForSome (P.told spill.old) (λ bytes. drop self.old.at bytes ≡ [])) }
        ensures cause { HasCause (P.faults spill.old) (P.faults spill.new) result }
    {
        if self.from < self.until {
            return Ok(true);
        }
        self.from = 0;
        self.until = 0;
        let n = spill.read_at(self.at, &mut self.piece)?;
        self.until = n;
        Ok(n > 0)
    }

    /// Puts the next `len` bytes into a buffer, or all of them if there are fewer.
    pub(crate) fn take<P: Spill, const N: usize>(
        &mut self,
        spill: &mut P,
        len: usize,
        buf: &mut ArrayVec<u8, N>,
    ) -> Result<(), Failed>
        requires room { 0 < self.old.room }
        requires few { len ≤ N }
        requires small { self.old.at + len < 2 ^ 64 }
        ensures told { P.told spill.new ≡ P.told spill.old }
        ensures room { self.new.room ≡ self.old.room }
        ensures at { self.new.at ≡ self.old.at + length buf.new.items }
        ensures few { length buf.new.items ≤ len }
        ensures order { OnOk result ((more : List ℕ) × (self.old.ready ++ more ≡ buf.new.items ++ self.new.ready)) }
        ensures end { OnOk result (length buf.new.items < len → self.new.ready ≡ []) }
        ensures ahead { OnOk result (ForSome (P.told spill.old) (λ bytes. IsAhead bytes self.old → IsAhead bytes self.new)) }
        ensures bytes { OnOk result (ForSome (P.told spill.old) (λ bytes. IsAhead bytes self.old → buf.new.items ≡ take len (drop self.old.at bytes))) }
        ensures cause { HasCause (P.faults spill.old) (P.faults spill.new) result }
    {
        buf.clear();
        'pieces: while buf.len() < len {
            if !self.refill(spill)? {
                return Ok(());
            }
            let n = (self.until - self.from).min(len - buf.len());
            let part = &self.piece[self.from..self.from + n];
            if buf.try_extend_from_slice(part).is_err() {
                unreachable!();
            }
            self.from += n;
            self.at += n as u64;
        }
        Ok(())
    }

    /// Reads a header. Returns None if the spill ends before the header does; then `at` is the end of the spill.
    pub(crate) fn take_header<P: Spill>(&mut self, spill: &mut P) -> Result<Option<Header>, Failed>
        requires room { 0 < self.old.room }
        requires small { self.old.at + 10 < 2 ^ 64 }
        ensures told { P.told spill.new ≡ P.told spill.old }
        ensures room { self.new.room ≡ self.old.room }
        ensures at { IfOk result (λ header. IfSome header (λ _. self.new.at ≡ self.old.at + 10)) }
        ensures end { IfOk result (λ header. IfNone header ((self.new.ready ≡ []) × (self.old.at ≤ self.new.at) × (self.new.at < self.old.at + 10))) }
        ensures ahead { OnOk result (ForSome (P.told spill.old) (λ bytes. IsAhead bytes self.old → IsAhead bytes self.new)) }
        ensures first { IfOk result (λ header. IfSome header (λ h. (more : List ℕ) × IsHeaderAt (self.old.ready ++ more) h)) }
        ensures header { IfOk result (λ header. IfSome header (λ h. ForSome (P.told spill.old) (λ bytes. IsAhead bytes self.old → IsHeaderAt (drop self.old.at bytes) h))) }
        ensures none { IfOk result (λ header. IfNone header (ForSome (P.told spill.old) (λ bytes. IsAhead bytes self.old → length (drop self.old.at bytes) < 10))) }
        ensures cause { HasCause (P.faults spill.old) (P.faults spill.new) result }
    {
        if self.until - self.from >= HEADER {
            let header = read_header(&self.piece[self.from..self.until]);
            self.from += HEADER;
            self.at += HEADER as u64;
            return Ok(Some(header));
        }
        let mut buf = ArrayVec::<u8, HEADER>::new();
        self.take(spill, HEADER, &mut buf)?;
        if buf.len() < HEADER {
            return Ok(None);
        }
        Ok(Some(read_header(&buf)))
    }
}
