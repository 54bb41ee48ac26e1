//! A source in memory whose contents change and are not known.
ghost use Rattle.std.specs.Prelude.{◌≡◌, ◌≤◌, ◌<◌, ◌+◌, ◌-◌, ◌^◌, ◌++◌, IsOk, IfOk, OnOk, None, length, map, min, take, drop};
ghost use Rattle.cm_io.specs.Causes.{HasCause};
ghost use Rattle.cm_outer.specs.TurnSources.{new_turns, contents, turned};

use cm_io::{Failed, Source};
use std::marker::Model;

/// Bytes in memory that change from pass to pass: those of the first entry, after a rewind those of the second, and so on. The last entry
/// is repeated from then on. No call fails.
#[derive(Drop)]
pub struct TurnSource {
    passes: Vec<Vec<u8>>,
    turn: usize,
    place: usize,
}

impl Model for TurnSource {
    ghost use Rattle.std.specs.Prelude.{◌≤◌, ◌<◌, [], length, map, slice_index_or};
    ghost use Rattle.cm_outer.specs.TurnSources.{TurnsInMemory};

    ghost Value = { TurnsInMemory };

    ghost view = { λ s. record { passes = map (λ v. v.items) s.passes.items; turn = s.turn; place = s.place } };

    ghost invariant = { λ s. (s.turn < length s.passes.items)
        × (s.place ≤ length (slice_index_or (map (λ v. v.items) s.passes.items) s.turn [])) };
}

impl TurnSource {
    /// A source at the start of the first of these entries. There is at least one.
    pub fn new(passes: Vec<Vec<u8>>) -> TurnSource
        requires some { 0 < length passes.items }
        ensures state { result ≡ new_turns (map (λ v. v.items) passes.items) }
    {
        TurnSource {
            passes,
            turn: 0,
            place: 0,
        }
    }

    /// The bytes of the current pass that were not read.
    fn rest(&self) -> &[u8]
        ensures rest { result.now ≡ drop self.now.place (contents self.now) }
        ensures end { self.now.place + length result.now < 2 ^ 64 }
    {
        let entry = &self.passes[self.turn];
        &entry[self.place..]
    }
}

impl Source for TurnSource {
    ghost told = { λ _. None };

    ghost place = { λ s. s.place };

    ghost faults = { λ _. 0 };

    fn read(&mut self, buf: &mut [u8]) -> Result<usize, Failed>
        ensures bound { IfOk result (λ n. n ≤ length buf.old) }
        ensures cause { HasCause 0 0 result }

        // Never fails, and reads as many bytes as are left and fit.
        ensures fine { IsOk result }
        ensures count { IfOk result (λ n. n ≡ min (length (contents self.old) - self.old.place) (length buf.old)) }
        ensures bytes { IfOk result (λ n. buf.new ≡ take n (drop self.old.place (contents self.old)) ++ drop n buf.old) }
        ensures state { IfOk result (λ n. self.new ≡ record self.old { place = self.old.place + n }) }
    {
        let rest = self.rest();
        let n = rest.len().min(buf.len());
        buf[..n].copy_from_slice(&rest[..n]);
        self.place += n;
        Ok(n)
    }

    fn rewind(&mut self) -> Result<(), Failed>
        ensures start { OnOk result (self.new.place ≡ 0) }
        ensures cause { HasCause 0 0 result }

        // Never fails, and the next entry is read from then on, or the last one is repeated.
        ensures fine { IsOk result }
        ensures state { self.new ≡ turned self.old }
    {
        if self.turn + 1 < self.passes.len() {
            self.turn += 1;
        }
        self.place = 0;
        Ok(())
    }
}
