//! A sink in memory, without a buffer.
ghost use Rattle.std.specs.Prelude.{◌≡◌, ◌≤◌, ◌<◌, ◌+◌, ◌-◌, ◌++◌, ◌↔◌, ◌⊎◌, IsTrue, IsErr, IfOk, OnOk, OnErr, Contains, Some, length, take};
ghost use Rattle.cm_io.specs.Causes.{HasCause, Rose};
ghost use Rattle.cm_io.specs.Writing.{Writes};
ghost use Rattle.cm_io.specs.Counts.{counted};
ghost use Rattle.cm_io_memory.specs.MemSinks.{new_sink};

use cm_io::{Failed, Sink};
use std::alloc::{AllocError, Global};
use std::marker::Model;

/// Memory with room for `room` bytes. A write fails if its piece doesn't fit, and in the listed calls, counted from 0.
#[derive(Drop)]
pub struct MemSink {
    bytes: Vec<u8>,
    room: usize,
    writes: u64,
    fails: Vec<u64>,
    faults: u64,
}

impl Model for MemSink {
    ghost use Rattle.std.specs.Prelude.{◌≤◌, length, vec_capacity};
    ghost use Rattle.cm_io_memory.specs.MemSinks.{SinkInMemory};

    ghost Value = { SinkInMemory };

    ghost view = { λ s. record {
      bytes = s.bytes.items;
      room = s.room;
      writes = s.writes;
      fails = s.fails.items;
      faults = s.faults;
    } };

    ghost invariant = { λ s. (length s.bytes.items ≤ s.room) × (s.room ≤ vec_capacity s.bytes) };
}

impl MemSink {
    /// Room for `room` bytes, of which none is written.
    pub fn new(alloc: Global, room: usize, fails: Vec<u64>) -> Result<MemSink, AllocError>
        ensures state { IfOk result (λ sink. sink ≡ new_sink room fails.items) }
    {
        Ok(MemSink {
            bytes: Vec::with_capacity(alloc, room)?,
            room,
            writes: 0,
            fails,
            faults: 0,
        })
    }

    /// The bytes that were written.
    pub fn bytes(&self) -> &[u8]
        ensures bytes { result.now ≡ self.now.bytes }
    {
        &self.bytes
    }

    /// Whether a call has failed.
    pub fn has_failed(&self) -> bool
        ensures failed { IsTrue result ↔ (0 < self.now.faults) }
    {
        self.faults > 0
    }

    /// One fault more.
    pub(crate) fn count_fault(&mut self)
        ensures state { self.new ≡ record self.old { faults = counted self.old.faults } }
        ensures later { self.old.faults ≤ self.new.faults }
        ensures rose { Rose self.old.faults self.new.faults }
    {
        self.faults = self.faults.saturating_add(1);
    }

    /// The bytes that were written.
    pub fn into_bytes(self) -> Vec<u8>
        ensures bytes { result.items ≡ self.bytes }
    {
        self.bytes
    }
}

impl Sink for MemSink {
    ghost state = { λ s. record { written = Some s.bytes; waits = 0; faults = s.faults } };

    fn write(&mut self, piece: &[u8]) -> Result<(), Failed>
        ensures bytes { Writes (Some self.old.bytes) (Some self.new.bytes) piece.now result }
        ensures cause { HasCause self.old.faults self.new.faults result }

        // Fails in the listed calls, and then takes nothing, and if the piece doesn't fit, and then takes what does.
        ensures fails { IsErr result ↔ (Contains self.old.fails self.old.writes
            ⊎ (self.old.room < length self.old.bytes + length piece.now)) }
        ensures ok { OnOk result (self.new ≡ record self.old {
          bytes = self.old.bytes ++ piece.now;
          writes = counted self.old.writes;
        }) }
        ensures listed { Contains self.old.fails self.old.writes → self.new ≡ record self.old {
          writes = counted self.old.writes;
          faults = counted self.old.faults;
        } }
        ensures full { OnErr result ((Contains self.old.fails self.old.writes) ⊎ (self.new ≡ record self.old {
          bytes = self.old.bytes ++ take (self.old.room - length self.old.bytes) piece.now;
          writes = counted self.old.writes;
          faults = counted self.old.faults;
        })) }
    {
        let call = self.writes;
        self.writes = self.writes.saturating_add(1);
        if self.fails.contains(&call) {
            self.count_fault();
            return Err(Failed);
        }
        let room = self.room - self.bytes.len();
        let fits = piece.len().min(room);
        self.bytes.extend_from_slice(&piece[..fits]).unwrap();
        if fits < piece.len() {
            self.count_fault();
            return Err(Failed);
        }
        Ok(())
    }
}
