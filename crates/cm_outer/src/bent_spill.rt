//! A spill in memory with a byte that reads wrongly, whose contents are not known.
ghost use Rattle.std.specs.Prelude.{◌≡◌, ◌≤◌, ◌<◌, ◌-◌, ◌++◌, ◌↔◌, ◌+◌, IsTrue, IsErr, IsOk, IfOk, OnOk, OnErr, None, length, min, take, drop, slice_set};
ghost use Rattle.cm_io.specs.Causes.{HasCause};
ghost use Rattle.cm_io.specs.Writing.{Writes};
ghost use Rattle.cm_io.specs.Counts.{counted};
ghost use Rattle.cm_outer.specs.BentSpills.{new_bent, bent};

use cm_io::{Failed, Spill};
use cm_io_memory::MemSpill;
use std::alloc::{AllocError, Global};
use std::marker::Model;

/// Memory with room for `room` bytes, which are read from any place. The byte at `place` reads as a fixed value, whatever was appended
/// there. An append fails if its piece doesn't fit, and no other call does.
#[derive(Drop)]
pub struct BentSpill {
    spill: MemSpill,
    place: u64,
    value: u8,
}

impl Model for BentSpill {
    ghost use Rattle.std.specs.Prelude.{◌≡◌, []};
    ghost use Rattle.cm_outer.specs.BentSpills.{BentInMemory};

    ghost Value = { BentInMemory };

    ghost view = { λ s. record {
      bytes = s.spill.appended.bytes;
      room = s.spill.appended.room;
      place = s.place;
      value = s.value;
      faults = s.spill.appended.faults;
    } };

    ghost invariant = { λ s. (s.spill.appended.fails ≡ []) × (s.spill.read_fails ≡ []) };
}

impl BentSpill {
    /// An empty spill with room for `room` bytes. The byte at `place`, counted from 0, will read as `value`.
    pub fn new(alloc: Global, room: usize, place: u64, value: u8) -> Result<BentSpill, AllocError>
        ensures state { IfOk result (λ spill. spill ≡ new_bent room place value) }
    {
        let spill = MemSpill::new(alloc, room, Vec::new(alloc), Vec::new(alloc))?;
        Ok(BentSpill {
            spill,
            place,
            value,
        })
    }

    /// Whether a call has failed.
    pub(crate) fn has_failed(&self) -> bool
        ensures failed { IsTrue result ↔ (0 < self.now.faults) }
    {
        self.spill.has_failed()
    }
}

impl Spill for BentSpill {
    ghost told = { λ _. None };

    ghost faults = { λ s. s.faults };

    fn append(&mut self, piece: &[u8]) -> Result<(), Failed>
        ensures bytes { Writes None None piece.now result }
        ensures cause { HasCause self.old.faults self.new.faults result }

        // Fails exactly if the piece doesn't fit, and then takes what does.
        ensures fails { IsErr result ↔ (self.old.room < length self.old.bytes + length piece.now) }
        ensures ok { OnOk result (self.new ≡ record self.old { bytes = self.old.bytes ++ piece.now }) }
        ensures err { OnErr result (self.new ≡ record self.old {
          bytes = self.old.bytes ++ take (self.old.room - length self.old.bytes) piece.now;
          faults = counted self.old.faults;
        }) }
    {
        self.spill.append(piece)
    }

    fn read_at(&mut self, offset: u64, buf: &mut [u8]) -> Result<usize, Failed>
        ensures bound { IfOk result (λ n. n ≤ length buf.old) }
        ensures cause { HasCause self.old.faults self.new.faults result }

        // Never fails, changes nothing, and reads as many bytes as are left and fit.
        ensures fine { IsOk result }
        ensures count { IfOk result (λ n. n ≡ min (length self.old.bytes - offset) (length buf.old)) }
        ensures bytes { IfOk result (λ n. buf.new ≡ take n (drop offset (bent self.old)) ++ drop n buf.old) }
        ensures state { self.new ≡ self.old }
    {
        let n = self.spill.read_at(offset, buf)?;
        bend(&mut buf[..n], offset, self.place, self.value);
        Ok(n)
    }
}

/// Sets the byte at a place to the value, in bytes that begin at an offset. Bytes that don't reach the place stay.
fn bend(bytes: &mut [u8], offset: u64, place: u64, value: u8)
    ensures before { place < offset → bytes.new ≡ bytes.old }
    ensures within { offset ≤ place → bytes.new ≡ slice_set bytes.old (place - offset) value }
{
    if place >= offset && place - offset < bytes.len() as u64 {
        bytes[(place - offset) as usize] = value;
    }
}
