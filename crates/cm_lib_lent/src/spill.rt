//! A spill in lent room.
ghost use Rattle.std.specs.Prelude.{◌≡◌, ◌≤◌, ◌<◌, ◌-◌, ◌++◌, ◌↔◌, ◌+◌, IsTrue, IsErr, IsOk, IfOk, OnOk, OnErr, Some, length, min, take, drop};
ghost use Rattle.std.specs.Option.{ForSome};
ghost use Rattle.cm_io.specs.Causes.{HasCause};
ghost use Rattle.cm_io.specs.Counts.{counted};
ghost use Rattle.cm_io.specs.Reading.{GivesAt};
ghost use Rattle.cm_io.specs.Writing.{Writes};
ghost use Rattle.cm_lib_lent.specs.Spills.{new_spill};

use cm_io::{Failed, Spill};
use std::marker::Model;

/// Lent room, whose first bytes are those that were appended. An append fails if its piece doesn't fit, and no other call does.
#[derive(Drop)]
pub(crate) struct LentSpill<'a> {
    room: &'a mut [u8],
    len: usize,
    faults: u64,
}

impl<'a> Model for LentSpill<'a> {
    ghost use Rattle.std.specs.Prelude.{◌≤◌, length, take};
    ghost use Rattle.cm_lib_lent.specs.Spills.{SpillInRoom};

    ghost Value = { SpillInRoom };

    ghost view = { λ s. record { bytes = take s.len s.room.now; room = length s.room.now; faults = s.faults } };

    ghost invariant = { λ s. s.len ≤ length s.room.now };
}

impl<'a> LentSpill<'a> {
    /// A spill in this room, to which nothing was appended.
    pub(crate) fn new(room: &'a mut [u8]) -> LentSpill<'a>
        ensures state { result ≡ new_spill (length room.old) }
    {
        LentSpill {
            room,
            len: 0,
            faults: 0,
        }
    }

    /// Whether a call has failed.
    pub(crate) fn has_failed(&self) -> bool
        ensures failed { IsTrue result ↔ (0 < self.now.faults) }
    {
        self.faults > 0
    }

    /// The bytes that were appended.
    fn bytes(&self) -> &[u8]
        ensures bytes { result.now ≡ self.now.bytes }
    {
        &self.room[..self.len]
    }
}

impl<'a> Spill for LentSpill<'a> {
    ghost told = { λ s. Some s.bytes };

    ghost faults = { λ s. s.faults };

    fn append(&mut self, piece: &[u8]) -> Result<(), Failed>
        ensures bytes { Writes (Some self.old.bytes) (Some self.new.bytes) piece.now result }
        ensures cause { HasCause self.old.faults self.new.faults result }

        // Fails exactly if the piece doesn't fit, and then takes nothing.
        ensures fails { IsErr result ↔ (self.old.room < length self.old.bytes + length piece.now) }
        ensures ok { OnOk result (self.new ≡ record self.old { bytes = self.old.bytes ++ piece.now }) }
        ensures err { OnErr result (self.new ≡ record self.old { faults = counted self.old.faults }) }
    {
        let from = self.len;
        if piece.len() > self.room.len() - from {
            self.faults = self.faults.saturating_add(1);
            return Err(Failed);
        }
        let until = from + piece.len();
        self.room[from..until].copy_from_slice(piece);
        self.len = until;
        Ok(())
    }

    fn read_at(&mut self, offset: u64, buf: &mut [u8]) -> Result<usize, Failed>
        ensures bound { IfOk result (λ n. n ≤ length buf.old) }
        ensures told { Some self.new.bytes ≡ Some self.old.bytes }
        ensures gives { IfOk result (λ n. ForSome (Some self.old.bytes) (λ bytes. GivesAt bytes offset (length buf.old) n buf.new)) }
        ensures cause { HasCause self.old.faults self.new.faults result }

        // Never fails, changes nothing, and reads as many bytes as are left and fit.
        ensures fine { IsOk result }
        ensures count { IfOk result (λ n. n ≡ min (length self.old.bytes - offset) (length buf.old)) }
        ensures bytes { IfOk result (λ n. buf.new ≡ take n (drop offset self.old.bytes) ++ drop n buf.old) }
        ensures state { self.new ≡ self.old }
    {
        let rest = bytes_from(self.bytes(), offset);
        let n = rest.len().min(buf.len());
        buf[..n].copy_from_slice(&rest[..n]);
        Ok(n)
    }
}

/// The bytes from an offset on, which may be past their end.
fn bytes_from(bytes: &[u8], offset: u64) -> &[u8]
    ensures { result.now ≡ drop offset bytes.now }
{
    match usize::try_from(offset) {
        Ok(from) if from <= bytes.len() => &bytes[from..],
        _ => &[],
    }
}
