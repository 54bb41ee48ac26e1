//! What functions by BRZ in the bytes of their dumps return.
ghost use Rattle.std.specs.Prelude.{◌≡◌, ◌<◌, ◌++◌, ◌∷◌, [], ℕ, IfSome, List, Option, length, slice_index};
ghost use Rattle.cm_brz_func.specs.Places.{ends_in};
ghost use Rattle.cm_dump_brz.specs.Indexed.{bucket_by, indexed_answer, indexed_place, number_after};
ghost use Rattle.cm_spec.specs.Lookup2 as lookup2;

use crate::lent::LentBrz;
use cm_algo_scheme::{Answers, Place};
use cm_brz_func::{bucket_of_hashed, flip};
use cm_lookup2::{words, words_of_four};

/// The number of a key in its bucket after those of the buckets before, or none if it is not below the bound.
fn number_after(bound: u32, before: u32, answer: Option<u32>) -> Option<u32>
    ensures number { result ≡ number_after bound before answer }
    ensures below { IfSome result (λ n. n < bound) }
{
    match answer {
        Some(r) => {
            let n = before as u64 + r as u64;
            if n < bound as u64 {
                Some(n as u32)
            } else {
                None
            }
        }
        None => None,
    }
}

impl<'a> LentBrz<'a> {
    /// The seed of bucket `j`, which is 0 if it has no keys.
    fn seed_of(&self, j: u32) -> u32
        requires inside { j < length self.now.index }
        ensures seed { result ≡ (bucket_by self.now (slice_index self.now.index j)).seed }
    {
        match self.bucket(j) {
            Some(bucket) => bucket.seed(),
            None => 0,
        }
    }

    /// Where a key of bucket `j` is looked up, with these hash values under the bucket's seed.
    fn place_in(&self, j: u32, hashed: [u32; 3]) -> Place
        requires inside { j < length self.now.index }
        ensures ends { (key : List ℕ) → hashed ≡ lookup2.words key (bucket_by self.now (slice_index self.now.index j)).seed → result ≡ ends_in (bucket_by self.now (slice_index self.now.index j)) key ++ j ∷ [] }
    {
        let ends = match self.bucket(j) {
            Some(bucket) => bucket.ends(hashed),
            None => [0, 0, 0],
        };
        [ends[0], ends[1], ends[2], j]
    }
}

/// A key gets a number below the number of keys, or none: that of `Brz` if the dump and the index are those of the function.
impl<'a> Answers for LentBrz<'a> {
    ghost span_of = { λ f. f.keys };

    ghost place_of = { λ f key. indexed_place f key };

    ghost answer_of = { λ f key. indexed_answer f key };

    fn span(&self) -> u32 {
        self.keys()
    }

    fn place(&self, key: &[u8]) -> Place {
        let j = bucket_of_hashed(words(key, flip(self.split())), &self.count());
        self.place_in(j, words(key, self.seed_of(j)))
    }

    fn places_of_four(&self, p: &[u8], q: &[u8], r: &[u8], t: &[u8]) -> [Place; 4] {
        let split = flip(self.split());
        let count = self.count();
        let hashed = words_of_four(p, q, r, t, [split, split, split, split]);
        let j = [
            bucket_of_hashed(hashed.at(0), &count),
            bucket_of_hashed(hashed.at(1), &count),
            bucket_of_hashed(hashed.at(2), &count),
            bucket_of_hashed(hashed.at(3), &count),
        ];
        let seeds = [
            self.seed_of(j[0]),
            self.seed_of(j[1]),
            self.seed_of(j[2]),
            self.seed_of(j[3]),
        ];
        let hashed = words_of_four(p, q, r, t, seeds);
        [
            self.place_in(j[0], hashed.at(0)),
            self.place_in(j[1], hashed.at(1)),
            self.place_in(j[2], hashed.at(2)),
            self.place_in(j[3], hashed.at(3)),
        ]
    }

    fn answer_at(&self, place: &Place) -> Option<u32> {
        let keys = self.keys();
        let j = place[3];
        let answer = match self.bucket(j) {
            Some(bucket) => bucket.answer([place[0], place[1], place[2]]),
            None => None,
        };
        number_after(keys, self.before(j), answer)
    }
}
