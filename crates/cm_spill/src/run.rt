//! A run in a spill, read record by record.
ghost use Rattle.std.specs.Prelude.{◌≡◌, ◌<◌, ◌≤◌, ◌^◌, ◌+◌, ◌++◌, ◌∷◌, [], ℕ, List, IfOk, IfErr, IfSome, IfNone, OnOk, OnErr, IsSome, Option, None, Some, MatchResult, true, false, length};
ghost use Rattle.std.specs.Option.{ForSome};
ghost use Rattle.cm_spill.specs.Records.{Record};
ghost use Rattle.cm_spill.specs.Reading.{AreLeft, Finds, HasHeader, IsPast, IsLineOf, IsHeaderAt, IsStill, IsWithin, Peeks, RunLeft, Takes, new_run};
ghost use Rattle.cm_spill.specs.declared.fault.SpillError.{SpillError};
ghost use Rattle.cm_spill.specs.Stores.{HasSpillCause, IsOfReading};
ghost use Rattle.cm_spill.specs.Damage.{IsHeaderDamage, IsKeyDamage, IsPlaceDamage};

use crate::SpillError;
use crate::ahead::Ahead;
use crate::header::{HEADER, Header};
use cm_io::{KeyBuf, Spill};
use std::alloc::{AllocError, Global};
use std::marker::Model;

/// A run in a spill, of which some records were read.
#[derive(Drop)]
pub(crate) struct Run {
    end: u64,
    next: u64,
    header: Option<Header>,
    ahead: Ahead,
}

impl Model for Run {
    ghost use Rattle.std.specs.Prelude.{◌≤◌, ◌<◌, ◌^◌};
    ghost use Rattle.cm_spill.specs.Reading.{RunLeft};

    ghost Value = { RunLeft };

    ghost view = { λ r. record { until = r.end; next = r.next; header = r.header; ahead = r.ahead } };

    ghost invariant = { λ r. (r.next ≤ r.end) × (r.end < 2 ^ 63) };
}

impl Run {
    /// The run between two offsets.
    pub(crate) fn new(alloc: Global, start: u64, end: u64) -> Run
        requires order { start ≤ end }
        requires small { end < 2 ^ 63 }
        ensures state { result ≡ new_run start end }
    {
        Run {
            end,
            next: start,
            header: None,
            ahead: Ahead::new(alloc, start),
        }
    }

    /// Allocates a buffer of `size` bytes to read ahead.
    pub(crate) fn reserve(&mut self, size: usize) -> Result<(), AllocError>
        requires none { self.old.ahead.room ≡ 0 }
        ensures state { OnOk result (self.new ≡ record self.old { ahead = record { at = self.old.ahead.at; ready = []; room = size } }) }
        ensures still { IsStill self.new self.old }
    {
        self.ahead.reserve(size)
    }

    /// The offset of the next record, which is the end of the last one that was read.
    pub(crate) fn next(&self) -> u64
        ensures next { result ≡ self.now.next }
    {
        self.next
    }

    /// Reads the header of the next record, which is to end within the run.
    fn read_header<P: Spill>(&mut self, spill: &mut P) -> Result<Header, SpillError>
        requires room { 0 < self.old.ahead.room }
        requires some { self.old.next < self.old.until }
        requires unread { self.old.header ≡ None }
        requires within { self.old.ahead.at ≡ self.old.next }
        ensures told { P.told spill.new ≡ P.told spill.old }
        ensures room { self.new.ahead.room ≡ self.old.ahead.room }
        ensures still { IsStill self.new self.old }
        ensures header { IfOk result (λ header. self.new.header ≡ Some header) }
        ensures first { IfSome self.new.header (λ h. (more : List ℕ) × IsHeaderAt (self.old.ahead.ready ++ more) h) }
        ensures within { OnOk result (IsWithin self.new self.new.header) }
        ensures left { ForSome (P.told spill.old) (λ bytes. (r : Record) (rs : List Record) → AreLeft bytes self.old (r ∷ rs) → MatchResult result (λ _. AreLeft bytes self.new (r ∷ rs)) (λ e. e ≡ SpillError.Failed)) }
        ensures fault { IfErr result IsOfReading }
        ensures damage { IfErr result (IsHeaderDamage self.new) }
        ensures cause { HasSpillCause (P.faults spill.old) (P.faults spill.new) result }
    {
        if self.end - self.next < HEADER as u64 {
            return Err(SpillError::Damaged {
                offset: self.next,
                expected: self.end,
                found: self.next + HEADER as u64,
            });
        }
        let header = match self.ahead.take_header(spill)? {
            Some(header) => header,
            None => {
                return Err(SpillError::Damaged {
                    offset: self.next,
                    expected: self.end,
                    found: self.ahead.at(),
                });
            }
        };
        self.header = Some(header);
        let end = self.next + HEADER as u64 + header.len as u64;
        if end > self.end {
            return Err(SpillError::Damaged {
                offset: self.next,
                expected: self.end,
                found: end,
            });
        }
        Ok(header)
    }

    /// The header of the next record, which is read unless it was read before, or None at the end of the run.
    #[inline(always)]
    fn peek<P: Spill>(&mut self, spill: &mut P) -> Result<Option<Header>, SpillError>
        requires room { 0 < self.old.ahead.room }
        requires within { IsWithin self.old self.old.header }
        ensures told { P.told spill.new ≡ P.told spill.old }
        ensures room { self.new.ahead.room ≡ self.old.ahead.room }
        ensures still { IsStill self.new self.old }
        ensures header { IfOk result (λ header. header ≡ self.new.header) }
        ensures end { IfOk result (λ header. IfNone header (self.new.next ≡ self.new.until)) }
        ensures within { OnOk result (IsWithin self.new self.new.header) }
        ensures left { OnOk result (ForSome (P.told spill.old) (λ bytes. (records : List Record) → AreLeft bytes self.old records → AreLeft bytes self.new records)) }
        ensures peeks { ForSome (P.told spill.old) (λ bytes. (records : List Record) → AreLeft bytes self.old records → Peeks records result) }
        ensures fault { IfErr result IsOfReading }
        ensures damage { IfErr result (IsHeaderDamage self.new) }
        ensures cause { HasSpillCause (P.faults spill.old) (P.faults spill.new) result }
    {
        if let Some(header) = self.header {
            return Ok(Some(header));
        }
        if self.next == self.end {
            return Ok(None);
        }
        match self.read_header(spill) {
            Ok(header) => Ok(Some(header)),
            Err(fault) => Err(fault),
        }
    }

    /// Whether the next record is of this bucket. Its bucket is to be no lower, and its line no less than the least, if it is of
    /// the bucket.
    #[inline(always)]
    pub(crate) fn is_at<P: Spill>(
        &mut self,
        spill: &mut P,
        bucket: u32,
        least: u64,
    ) -> Result<bool, SpillError>
        requires room { 0 < self.old.ahead.room }
        requires within { IsWithin self.old self.old.header }
        ensures told { P.told spill.new ≡ P.told spill.old }
        ensures room { self.new.ahead.room ≡ self.old.ahead.room }
        ensures still { IsStill self.new self.old }
        ensures header { IfOk result (λ more. more ≡ true → HasHeader bucket least self.new.header) }
        ensures passed { IfOk result (λ more. more ≡ false → IsPast bucket self.new self.new.header) }
        ensures within { OnOk result (IsWithin self.new self.new.header) }
        ensures left { OnOk result (ForSome (P.told spill.old) (λ bytes. (records : List Record) → AreLeft bytes self.old records → AreLeft bytes self.new records)) }
        ensures finds { ForSome (P.told spill.old) (λ bytes. (records : List Record) → AreLeft bytes self.old records → Finds bucket least records result) }
        ensures fault { IfErr result IsOfReading }
        ensures damage { IfErr result (IsPlaceDamage self.new bucket least) }
        ensures cause { HasSpillCause (P.faults spill.old) (P.faults spill.new) result }
    {
        let header = match self.peek(spill) {
            Ok(Some(header)) => header,
            Ok(None) => return Ok(false),
            Err(fault) => return Err(fault),
        };
        if header.bucket > bucket {
            return Ok(false);
        }
        let offset = self.next;
        if header.bucket < bucket {
            return Err(SpillError::Damaged {
                offset,
                expected: bucket as u64,
                found: header.bucket as u64,
            });
        }
        if (header.line as u64) < least {
            return Err(SpillError::Damaged {
                offset,
                expected: least,
                found: header.line as u64,
            });
        }
        Ok(true)
    }

    /// Reads the key of the next record, whose header was read, and returns its line.
    pub(crate) fn take<P: Spill>(
        &mut self,
        spill: &mut P,
        key: &mut KeyBuf,
    ) -> Result<u32, SpillError>
        requires room { 0 < self.old.ahead.room }
        requires header { IsSome self.old.header }
        requires within { IsWithin self.old self.old.header }
        ensures told { P.told spill.new ≡ P.told spill.old }
        ensures room { self.new.ahead.room ≡ self.old.ahead.room }
        ensures line { IfOk result (λ line. IsLineOf line self.old.header) }
        ensures small { IfOk result (λ line. line < 2 ^ 32) }
        ensures until { self.new.until ≡ self.old.until }
        ensures kept { OnErr result ((self.new.next ≡ self.old.next) × (self.new.header ≡ self.old.header)) }
        ensures next { OnOk result (self.new.next ≡ self.old.next + (10 + length key.new.items)) }
        ensures within { OnOk result (IsWithin self.new self.new.header) }
        ensures takes { ForSome (P.told spill.old) (λ bytes. (r : Record) (rs : List Record) → AreLeft bytes self.old (r ∷ rs) → Takes (r ∷ rs) rs key.new.items result) }
        ensures left { OnOk result (ForSome (P.told spill.old) (λ bytes. (r : Record) (rs : List Record) → AreLeft bytes self.old (r ∷ rs) → AreLeft bytes self.new rs)) }
        ensures fault { IfErr result IsOfReading }
        ensures damage { IfErr result (IsKeyDamage self.new) }
        ensures cause { HasSpillCause (P.faults spill.old) (P.faults spill.new) result }
    {
        let header = match self.header {
            Some(header) => header,
            None => unreachable!(),
        };
        let len = header.len as usize;
        self.ahead.take(spill, len, key)?;
        if key.len() < len {
            return Err(SpillError::Damaged {
                offset: self.next,
                expected: self.end,
                found: self.ahead.at(),
            });
        }
        self.next += (HEADER + len) as u64;
        self.header = None;
        Ok(header.line)
    }
}
