//! The keys of one bucket, in memory.
ghost use Rattle.std.specs.Prelude.{◌≡◌, ◌<◌, ◌≤◌, ◌++◌, ℕ, [], ◌∷◌, length, slice_index, slice_index_or, IfSome, IsSome, OnOk, OnErr};
ghost use Rattle.cm_spec.specs.Lookup2.{words as words_of};
ghost use Rattle.cm_brz_split.specs.BucketPass.{BucketPass, last_line};

use arrayvec::ArrayVec;
use cm_io::{KeyBuf, KeyFault, KeyPass, MAX_KEY_LEN};
use cm_lookup2::{FourWords, words_under_four};
use cm_spec::MAX_BUCKET;
use std::alloc::{AllocError, Global};
use std::marker::Model;

/// How many keys a bucket has at most.
const MOST: usize = MAX_BUCKET as usize;

/// Where the bytes of a key stand, with its line.
#[derive(Clone, Copy, Default)]
struct Spot {
    line: u32,
    from: usize,
    until: usize,
}

/// The keys of one bucket with their lines, and a pass over them: each key is buffered, and no call fails. They can be hashed under four
/// seeds in advance. It is used again for bucket after bucket, and keeps its memory.
#[derive(Drop)]
pub struct BucketKeys {
    bytes: Vec<u8>,
    spots: ArrayVec<Spot, MOST>,
    seeds: [u32; 4],
    words: Vec<FourWords>,
    given: usize,
}

impl Model for BucketKeys {
    ghost use Rattle.std.specs.Prelude.{length, map};
    ghost use Rattle.cm_brz_split.specs.BucketPass.{AreHashed, BucketPass, IsBucketPass, keyed_in};
    ghost use Rattle.cm_brz_split.specs.declared.bucket_keys.TheConstants.{MOST};

    ghost Value = { BucketPass };

    ghost view = { λ b. record { keys = map (keyed_in b.bytes.items) b.spots.items; given = b.given; seeds = b.seeds; hashed = length b.words.items } };

    ghost invariant = { λ b. IsBucketPass MOST b.bytes.items b.spots.items b.given
        × AreHashed b.seeds (map (keyed_in b.bytes.items) b.spots.items) b.words.items };
}

impl BucketKeys {
    /// No keys. `hash` hashes those that are added under these seeds.
    pub fn new(alloc: Global, seeds: [u32; 4]) -> BucketKeys
        ensures state { result ≡ record { keys = []; given = 0; seeds = seeds; hashed = 0 } }
    {
        BucketKeys {
            bytes: Vec::new(alloc),
            spots: ArrayVec::new(),
            seeds,
            words: Vec::new(alloc),
            given: 0,
        }
    }

    /// Removes the keys, and keeps their memory.
    pub fn clear(&mut self)
        ensures state { self.new ≡ record self.old { keys = []; given = 0; hashed = 0 } }
    {
        self.bytes.clear();
        self.spots.clear();
        self.words.clear();
        self.given = 0;
    }

    /// Adds a key of a later line. Fails, and changes nothing, if memory runs out.
    pub fn push(&mut self, line: u32, key: &[u8]) -> Result<(), AllocError>
        requires few { length self.old.keys < MOST }
        requires rises { last_line self.old.keys < line }
        requires short { length key.now ≤ MAX_KEY_LEN }
        ensures state { OnOk result (self.new ≡ record self.old { keys = self.old.keys ++ (line, key.now) ∷ [] }) }
        ensures last { OnOk result (last_line self.new.keys ≡ line) }
        ensures unchanged { OnErr result (self.new ≡ self.old) }
    {
        let from = self.bytes.len();
        self.bytes.extend_from_slice(key)?;
        self.spots.push(Spot {
            line,
            from,
            until: self.bytes.len(),
        });
        Ok(())
    }

    /// Hashes the keys that were not hashed yet. Fails, and changes nothing, if memory runs out.
    pub fn hash(&mut self) -> Result<(), AllocError>
        ensures state { OnOk result (self.new ≡ record self.old { hashed = length self.old.keys }) }
        ensures unchanged { OnErr result (self.new ≡ self.old) }
    {
        let first = self.words.len();
        self.words.reserve(self.spots.len() - first)?;
        for i in first..self.spots.len() {
            let spot = self.spots[i];
            let key = &self.bytes[spot.from..spot.until];
            self.words.push_reserved(words_under_four(key, self.seeds));
        }
        Ok(())
    }

    /// How many keys there are: `MAX_BUCKET` at most.
    pub fn len(&self) -> usize
        ensures len { result ≡ length self.now.keys }
        ensures few { result ≤ MOST }
    {
        self.spots.len()
    }
}

impl KeyPass for BucketKeys {
    ghost use Rattle.std.specs.Prelude.{◌≡◌, ◌<◌, ◌+◌, [], length, take, true, None, Some, slice_index_or};
    ghost use Rattle.cm_brz_split.specs.BucketPass.{line_before};

    ghost told = { λ b. Some (record { keys = b.keys; fault = None }) };

    ghost place = { λ b. b.given };

    ghost last = { λ b. line_before b.keys b.given };

    ghost usable = { λ _. true };

    ghost faults = { λ _. 0 };

    ghost failure = { λ _. None };

    ghost gave = { λ b keys. keys ≡ take b.given b.keys };

    ghost at_end = { λ b. b.given ≡ length b.keys };

    ghost stands = { λ b key. (b.given < length b.keys) × (key ≡ (slice_index_or b.keys b.given (0, [])).1) };

    ghost next_line = { λ b. line_before b.keys (b.given + 1) };

    fn usable(&self) -> bool {
        true
    }

    fn next(&mut self, key: &mut KeyBuf) -> Result<bool, KeyFault> {
        if self.given == self.spots.len() {
            return Ok(false);
        }
        let spot = self.spots[self.given];
        key.clear();
        if key
            .try_extend_from_slice(&self.bytes[spot.from..spot.until])
            .is_err()
        {
            unreachable!();
        }
        self.given += 1;
        Ok(true)
    }

    fn peek(&self) -> Option<(u32, &[u8])> {
        if self.given == self.spots.len() {
            return None;
        }
        let spot = self.spots[self.given];
        Some((spot.line, &self.bytes[spot.from..spot.until]))
    }

    fn hashed(&self, seed: u32) -> Option<[u32; 3]>
        ensures words { IfSome result (λ hashed. hashed ≡ words_of (slice_index_or self.now.keys self.now.given (0, [])).1 seed) }
        ensures known { (i : ℕ) → i < 4 → slice_index self.now.seeds i ≡ seed → self.now.given < self.now.hashed → IsSome result }
    {
        if self.given >= self.words.len() {
            return None;
        }
        for i in 0..4 {
            if self.seeds[i] == seed {
                return Some(self.words[self.given].at(i));
            }
        }
        None
    }

    fn pass(&mut self, _len: usize) {
        self.given += 1;
    }

    fn skip(&mut self) -> u32 {
        let count = self.spots.len() - self.given;
        self.given += count;
        count as u32
    }

    fn hash_four(&mut self, _seed: u32) -> Option<[[u32; 3]; 4]> {
        None
    }

    fn rewind(&mut self) -> Result<(), KeyFault> {
        self.given = 0;
        Ok(())
    }

    fn line(&self) -> u32 {
        self.spots[self.given - 1].line
    }
}
