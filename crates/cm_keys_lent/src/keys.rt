//! The pass over keys that are lent.
ghost use Rattle.std.specs.Prelude.{◌≡◌, ◌<◌, ◌≤◌, IfErr, IfOk, length};
ghost use Rattle.cm_io.specs.declared.key_pass.TheConstants.{MAX_KEY_LEN};
ghost use Rattle.cm_keys_lent.specs.Ends.{key_in};
ghost use Rattle.cm_keys_lent.specs.Pass.{FailsEnds, IsLentPass};
ghost use Rattle.cm_spec.specs.declared.limits.TheConstants.{MAX_KEYS};

use crate::ends::{EndsFault, bad_end, key_at};
use cm_io::{KeyBuf, KeyFault, KeyPass, MAX_KEYS};
use cm_lookup2::words_of_four;
use std::marker::Model;

/// A pass over keys in one run of bytes, each with its end: each key is buffered, no call fails, and the line of a key is its number, counted
/// from 1.
#[derive(Drop)]
pub struct LentKeys<'a> {
    bytes: &'a [u8],
    ends: &'a [u64],
    given: usize,
}

impl<'a> Model for LentKeys<'a> {
    ghost use Rattle.cm_keys_lent.specs.Pass.{IsLentPass, LentPass};

    ghost Value = { LentPass };

    ghost view = { λ r. record { bytes = r.bytes.now; ends = r.ends.now; given = r.given } };

    ghost invariant = { λ r. IsLentPass (record { bytes = r.bytes.now; ends = r.ends.now; given = r.given }) };
}

impl<'a> LentKeys<'a> {
    /// The pass at its start over keys that stand one after another in these bytes, from the first byte on, each up to its end. There are
    /// at most `MAX_KEYS`, ends don't fall and aren't past the bytes, and no key has more than `MAX_KEY_LEN` bytes; else the first fault.
    pub fn new(bytes: &'a [u8], ends: &'a [u64]) -> Result<LentKeys<'a>, EndsFault>
        ensures pass { IfOk result (λ p. p ≡ record { bytes = bytes.now; ends = ends.now; given = 0 }) }
        ensures valid { IfOk result IsLentPass }
        ensures fault { IfErr result (FailsEnds bytes.now ends.now) }
    {
        if ends.len() > MAX_KEYS as usize {
            return Err(EndsFault::TooMany);
        }
        match bad_end(bytes, ends) {
            Some(i) => Err(EndsFault::BadEnd { key: i as u32 }),
            None => Ok(LentKeys {
                bytes,
                ends,
                given: 0,
            }),
        }
    }

    /// How many keys there are.
    pub fn count(&self) -> usize
        ensures count { result ≡ length self.now.ends }
        ensures few { result ≤ MAX_KEYS }
    {
        self.ends.len()
    }

    /// The bytes of key `i`, counted from 0: those from the end of the key before it on, up to its own.
    #[inline]
    pub fn key(&self, i: usize) -> &'a [u8]
        requires inside { i < length self.now.ends }
        ensures key { result.now ≡ key_in self.now.bytes self.now.ends i }
        ensures short { length result.now ≤ MAX_KEY_LEN }
    {
        key_at(self.bytes, self.ends, i)
    }
}

impl KeyPass for LentKeys<'_> {
    ghost use Rattle.std.specs.Prelude.{◌≡◌, ◌<◌, ◌+◌, length, take, true, None, Some};
    ghost use Rattle.cm_keys_lent.specs.Ends.{key_in, keys_in};

    ghost told = { λ r. Some (record { keys = keys_in r.bytes r.ends; fault = None }) };

    ghost place = { λ r. r.given };

    ghost last = { λ r. r.given };

    ghost usable = { λ _. true };

    ghost faults = { λ _. 0 };

    ghost failure = { λ _. None };

    ghost gave = { λ r keys. keys ≡ take r.given (keys_in r.bytes r.ends) };

    ghost at_end = { λ r. r.given ≡ length r.ends };

    ghost stands = { λ r key. (r.given < length r.ends) × (key ≡ key_in r.bytes r.ends r.given) };

    ghost next_line = { λ r. r.given + 1 };

    ghost lacks_four = { λ r. length r.ends < r.given + 4 };

    fn usable(&self) -> bool {
        true
    }

    fn next(&mut self, key: &mut KeyBuf) -> Result<bool, KeyFault> {
        if self.given == self.ends.len() {
            return Ok(false);
        }
        key.clear();
        if key
            .try_extend_from_slice(key_at(self.bytes, self.ends, self.given))
            .is_err()
        {
            unreachable!();
        }
        self.given += 1;
        Ok(true)
    }

    fn peek(&self) -> Option<(u32, &[u8])> {
        if self.given == self.ends.len() {
            return None;
        }
        Some((
            self.given as u32 + 1,
            key_at(self.bytes, self.ends, self.given),
        ))
    }

    fn pass(&mut self, _len: usize) {
        self.given += 1;
    }

    fn hash_four(&mut self, seed: u32) -> Option<[[u32; 3]; 4]> {
        let (bytes, ends, i) = (self.bytes, self.ends, self.given);
        if ends.len() - i < 4 {
            return None;
        }
        let four = words_of_four(
            key_at(bytes, ends, i),
            key_at(bytes, ends, i + 1),
            key_at(bytes, ends, i + 2),
            key_at(bytes, ends, i + 3),
            [seed; 4],
        );
        self.given += 4;
        Some([four.at(0), four.at(1), four.at(2), four.at(3)])
    }

    fn skip(&mut self) -> u32 {
        let left = self.ends.len() - self.given;
        self.given = self.ends.len();
        left as u32
    }

    fn rewind(&mut self) -> Result<(), KeyFault> {
        self.given = 0;
        Ok(())
    }

    fn line(&self) -> u32 {
        self.given as u32
    }
}
