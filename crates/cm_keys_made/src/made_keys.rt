//! The generated keys as a source.
ghost use Rattle.std.specs.Prelude.{◌≡◌, ◌≤◌, ◌+◌, ◌-◌, ◌*◌, ◌++◌, IsOk, IfOk, OnOk, Some, length, min, take, drop};
ghost use Rattle.std.specs.Option.{ForSome};
ghost use Rattle.cm_io.specs.Causes.{HasCause};
ghost use Rattle.cm_io.specs.Reading.{Gives};
ghost use Rattle.cm_keys_made.specs.Sources.{new_source};
ghost use Rattle.cm_keys_made.specs.Texts.{made_text};

use crate::lines::{LINE_LEN, fill};
use cm_io::{Failed, MAX_KEYS, Source};
use std::marker::Model;

/// The lines of the first generated keys. Line number i, from 0 on, is `key-`, ten decimal digits of (2,654,435,761 * i) mod 2^32
/// with leading zeros, and a line feed. It takes no memory, and no call fails.
#[derive(Debug, Drop)]
pub struct MadeKeys {
    keys: u32,
    /// In bytes.
    place: usize,
}

impl Model for MadeKeys {
    ghost use Rattle.std.specs.Prelude.{◌≤◌, ◌*◌};
    ghost use Rattle.cm_spec.specs.declared.limits.TheConstants.{MAX_KEYS};
    ghost use Rattle.cm_keys_made.specs.Sources.{MadeSource};

    ghost Value = { MadeSource };

    ghost view = { λ s. record { keys = s.keys; place = s.place } };

    ghost invariant = { λ s. record {
      few : s.keys ≤ MAX_KEYS;
      inside : s.place ≤ 15 * s.keys;
    } };
}

impl MadeKeys {
    /// The first `n` keys, from 1 to `MAX_KEYS`, at their start.
    pub fn new(n: u32) -> MadeKeys
        requires some { 1 ≤ n }
        requires few { n ≤ MAX_KEYS }
        ensures state { result ≡ new_source n }
    {
        MadeKeys { keys: n, place: 0 }
    }
}

impl Source for MadeKeys {
    ghost use Rattle.std.specs.Prelude.{Some};
    ghost use Rattle.cm_keys_made.specs.Texts.{made_text};

    ghost told = { λ s. Some (made_text s.keys) };

    ghost place = { λ s. s.place };

    ghost faults = { λ s. 0 };

    fn read(&mut self, buf: &mut [u8]) -> Result<usize, Failed>
        ensures bound { IfOk result (λ n. n ≤ length buf.old) }
        ensures told { Some (made_text self.new.keys) ≡ Some (made_text self.old.keys) }
        ensures gives { IfOk result (λ n. ForSome (Some (made_text self.old.keys)) (λ bytes.
            Gives bytes self.old.place self.new.place (length buf.old) n buf.new)) }
        ensures cause { HasCause 0 0 result }

        // Never fails, and reads as many bytes as are left and fit.
        ensures fine { IsOk result }
        ensures count { IfOk result (λ n. n ≡ min (15 * self.old.keys - self.old.place) (length buf.old)) }
        ensures bytes { IfOk result (λ n. buf.new ≡ take n (drop self.old.place (made_text self.old.keys)) ++ drop n buf.old) }
        ensures state { IfOk result (λ n. self.new ≡ record self.old { place = self.old.place + n }) }
    {
        let n = buf.len().min(LINE_LEN * self.keys as usize - self.place);
        fill(&mut buf[..n], self.place);
        self.place += n;
        Ok(n)
    }

    fn rewind(&mut self) -> Result<(), Failed>
        ensures told { Some (made_text self.new.keys) ≡ Some (made_text self.old.keys) }
        ensures start { OnOk result (self.new.place ≡ 0) }
        ensures cause { HasCause 0 0 result }

        // Never fails.
        ensures fine { IsOk result }
        ensures state { self.new ≡ record self.old { place = 0 } }
    {
        self.place = 0;
        Ok(())
    }
}
