//! A source in memory.
ghost use Rattle.std.specs.Prelude.{◌≡◌, ◌≤◌, ◌<◌, ◌+◌, ◌-◌, ◌++◌, ◌↔◌, IsTrue, IsErr, IfOk, OnOk, OnErr, Contains, Some, length, min, take, drop};
ghost use Rattle.std.specs.Option.{ForSome};
ghost use Rattle.cm_io.specs.Causes.{HasCause};
ghost use Rattle.cm_io.specs.Reading.{Gives};
ghost use Rattle.cm_io.specs.Counts.{counted};
ghost use Rattle.cm_io_memory.specs.MemSources.{new_source};

use cm_io::{Failed, Source};
use std::marker::Model;

/// Bytes in memory. Reads and rewinds fail only in the listed calls, counted from 0.
#[derive(Drop)]
pub struct MemSource {
    bytes: Vec<u8>,
    place: usize,
    reads: u64,
    read_fails: Vec<u64>,
    rewinds: u64,
    rewind_fails: Vec<u64>,
    faults: u64,
}

impl Model for MemSource {
    ghost use Rattle.std.specs.Prelude.{◌≤◌, length};
    ghost use Rattle.cm_io_memory.specs.MemSources.{SourceInMemory};

    ghost Value = { SourceInMemory };

    ghost view = { λ s. record {
      bytes = s.bytes.items;
      place = s.place;
      reads = s.reads;
      read_fails = s.read_fails.items;
      rewinds = s.rewinds;
      rewind_fails = s.rewind_fails.items;
      faults = s.faults;
    } };

    ghost invariant = { λ s. s.place ≤ length s.bytes.items };
}

impl MemSource {
    /// A source of these bytes, at its start.
    pub fn new(bytes: Vec<u8>, read_fails: Vec<u64>, rewind_fails: Vec<u64>) -> MemSource
        ensures state { result ≡ new_source bytes.items read_fails.items rewind_fails.items }
    {
        MemSource {
            bytes,
            place: 0,
            reads: 0,
            read_fails,
            rewinds: 0,
            rewind_fails,
            faults: 0,
        }
    }

    /// Whether a call has failed.
    pub fn has_failed(&self) -> bool
        ensures failed { IsTrue result ↔ (0 < self.now.faults) }
    {
        self.faults > 0
    }
}

impl Source for MemSource {
    ghost told = { λ s. Some s.bytes };

    ghost place = { λ s. s.place };

    ghost faults = { λ s. s.faults };

    fn read(&mut self, buf: &mut [u8]) -> Result<usize, Failed>
        ensures bound { IfOk result (λ n. n ≤ length buf.old) }
        ensures told { Some self.new.bytes ≡ Some self.old.bytes }
        ensures gives { IfOk result (λ n. ForSome (Some self.old.bytes) (λ bytes.
            Gives bytes self.old.place self.new.place (length buf.old) n buf.new)) }
        ensures cause { HasCause self.old.faults self.new.faults result }

        // Fails only in the listed calls. Else it reads as many bytes as are left and fit.
        ensures fails { IsErr result ↔ Contains self.old.read_fails self.old.reads }
        ensures count { IfOk result (λ n. n ≡ min (length self.old.bytes - self.old.place) (length buf.old)) }
        ensures bytes { IfOk result (λ n. buf.new ≡ take n (drop self.old.place self.old.bytes) ++ drop n buf.old) }
        ensures ok { IfOk result (λ n. self.new ≡ record self.old {
          place = self.old.place + n;
          reads = counted self.old.reads;
        }) }
        ensures err { OnErr result (self.new ≡ record self.old {
          reads = counted self.old.reads;
          faults = counted self.old.faults;
        }) }
        ensures untouched { OnErr result (buf.new ≡ buf.old) }
    {
        let call = self.reads;
        self.reads = self.reads.saturating_add(1);
        if self.read_fails.contains(&call) {
            self.faults = self.faults.saturating_add(1);
            return Err(Failed);
        }
        let rest = &self.bytes[self.place..];
        let n = rest.len().min(buf.len());
        buf[..n].copy_from_slice(&rest[..n]);
        self.place += n;
        Ok(n)
    }

    fn rewind(&mut self) -> Result<(), Failed>
        ensures told { Some self.new.bytes ≡ Some self.old.bytes }
        ensures start { OnOk result (self.new.place ≡ 0) }
        ensures cause { HasCause self.old.faults self.new.faults result }

        // Fails only in the listed calls, and then stays where it is.
        ensures fails { IsErr result ↔ Contains self.old.rewind_fails self.old.rewinds }
        ensures ok { OnOk result (self.new ≡ record self.old { place = 0; rewinds = counted self.old.rewinds }) }
        ensures err { OnErr result (self.new ≡ record self.old {
          rewinds = counted self.old.rewinds;
          faults = counted self.old.faults;
        }) }
    {
        let call = self.rewinds;
        self.rewinds = self.rewinds.saturating_add(1);
        if self.rewind_fails.contains(&call) {
            self.faults = self.faults.saturating_add(1);
            return Err(Failed);
        }
        self.place = 0;
        Ok(())
    }
}
