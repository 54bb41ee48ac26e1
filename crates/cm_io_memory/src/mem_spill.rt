//! A spill in memory.
ghost use Rattle.std.specs.Prelude.{◌≡◌, ◌≤◌, ◌<◌, ◌-◌, ◌++◌, ◌↔◌, ◌⊎◌, ◌+◌, IsTrue, IsErr, IfOk, OnOk, OnErr, Contains, Some, length, min, take, drop};
ghost use Rattle.std.specs.Option.{ForSome};
ghost use Rattle.cm_io.specs.Causes.{HasCause};
ghost use Rattle.cm_io.specs.Reading.{GivesAt};
ghost use Rattle.cm_io.specs.Writing.{Writes};
ghost use Rattle.cm_io.specs.Counts.{counted};
ghost use Rattle.cm_io_memory.specs.MemSpills.{new_spill};

use crate::MemSink;
use cm_io::{Failed, Sink, Spill};
use std::alloc::{AllocError, Global};
use std::marker::Model;

/// Memory with room for `room` bytes, which are read from any place. An append fails if its piece doesn't fit; appends and reads fail
/// in the listed calls, each counted from 0.
#[derive(Drop)]
pub struct MemSpill {
    appended: MemSink,
    reads: u64,
    read_fails: Vec<u64>,
}

impl Model for MemSpill {
    ghost use Rattle.cm_io_memory.specs.MemSpills.{SpillInMemory};

    ghost Value = { SpillInMemory };

    ghost view = { λ s. record { appended = s.appended; reads = s.reads; read_fails = s.read_fails.items } };
}

impl MemSpill {
    /// Room for `room` bytes, of which none is appended.
    pub fn new(
        alloc: Global,
        room: usize,
        append_fails: Vec<u64>,
        read_fails: Vec<u64>,
    ) -> Result<MemSpill, AllocError>
        ensures state { IfOk result (λ spill. spill ≡ new_spill room append_fails.items read_fails.items) }
    {
        Ok(MemSpill {
            appended: MemSink::new(alloc, room, append_fails)?,
            reads: 0,
            read_fails,
        })
    }

    /// Whether a call has failed.
    pub fn has_failed(&self) -> bool
        ensures failed { IsTrue result ↔ (0 < self.now.appended.faults) }
    {
        self.appended.has_failed()
    }

    /// The bytes that were appended.
    pub fn into_bytes(self) -> Vec<u8>
        ensures bytes { result.items ≡ self.appended.bytes }
    {
        self.appended.into_bytes()
    }
}

impl Spill for MemSpill {
    ghost told = { λ s. Some s.appended.bytes };

    ghost faults = { λ s. s.appended.faults };

    fn append(&mut self, piece: &[u8]) -> Result<(), Failed>
        ensures bytes { Writes (Some self.old.appended.bytes) (Some self.new.appended.bytes) piece.now result }
        ensures cause { HasCause self.old.appended.faults self.new.appended.faults result }

        // Fails in the listed calls, and then takes nothing, and if the piece doesn't fit, and then takes what does.
        ensures fails { IsErr result ↔ (Contains self.old.appended.fails self.old.appended.writes
            ⊎ (self.old.appended.room < length self.old.appended.bytes + length piece.now)) }
        ensures ok { OnOk result (self.new ≡ record self.old {
          appended = record self.old.appended {
            bytes = self.old.appended.bytes ++ piece.now;
            writes = counted self.old.appended.writes;
          };
        }) }
        ensures listed { Contains self.old.appended.fails self.old.appended.writes → self.new ≡ record self.old {
          appended = record self.old.appended {
            writes = counted self.old.appended.writes;
            faults = counted self.old.appended.faults;
          };
        } }
        ensures full { OnErr result ((Contains self.old.appended.fails self.old.appended.writes) ⊎ (self.new ≡ record self.old {
          appended = record self.old.appended {
            bytes = self.old.appended.bytes ++ take (self.old.appended.room - length self.old.appended.bytes) piece.now;
            writes = counted self.old.appended.writes;
            faults = counted self.old.appended.faults;
          };
        })) }
    {
        self.appended.write(piece)
    }

    fn read_at(&mut self, offset: u64, buf: &mut [u8]) -> Result<usize, Failed>
        ensures bound { IfOk result (λ n. n ≤ length buf.old) }
        ensures told { Some self.new.appended.bytes ≡ Some self.old.appended.bytes }
        ensures gives { IfOk result (λ n. ForSome (Some self.old.appended.bytes) (λ bytes. GivesAt bytes offset (length buf.old) n buf.new)) }
        ensures cause { HasCause self.old.appended.faults self.new.appended.faults result }

        // Fails only in the listed calls. Else it reads as many bytes as are left and fit.
        ensures fails { IsErr result ↔ Contains self.old.read_fails self.old.reads }
        ensures count { IfOk result (λ n. n ≡ min (length self.old.appended.bytes - offset) (length buf.old)) }
        ensures bytes { IfOk result (λ n. buf.new ≡ take n (drop offset self.old.appended.bytes) ++ drop n buf.old) }
        ensures ok { OnOk result (self.new ≡ record self.old { reads = counted self.old.reads }) }
        ensures err { OnErr result (self.new ≡ record self.old {
          appended = record self.old.appended { faults = counted self.old.appended.faults };
          reads = counted self.old.reads;
        }) }
        ensures untouched { OnErr result (buf.new ≡ buf.old) }
    {
        let call = self.reads;
        self.reads = self.reads.saturating_add(1);
        if self.read_fails.contains(&call) {
            self.appended.count_fault();
            return Err(Failed);
        }
        let rest = bytes_from(self.appended.bytes(), offset);
        let n = rest.len().min(buf.len());
        buf[..n].copy_from_slice(&rest[..n]);
        Ok(n)
    }
}

/// The bytes from an offset on, which may be past their end.
fn bytes_from(bytes: &[u8], offset: u64) -> &[u8]
    ensures { result.now ≡ drop offset bytes.now }
{
    match usize::try_from(offset) {
        Ok(from) if from <= bytes.len() => &bytes[from..],
        _ => &[],
    }
}
