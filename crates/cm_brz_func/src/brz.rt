//! Functions by BRZ.
ghost use Rattle.std.specs.Prelude.{◌≡◌, ◌<◌, ◌≤◌, ℕ, List, Option, IfSome, length, slice_index_or};
ghost use Rattle.cm_brz_func.specs.Functions.{IsBrz, IsBucket, brz_answer, bucket_count, bucket_of, flipped, no_bucket};
ghost use Rattle.cm_brz_func.specs.Places.{brz_place};
ghost use Rattle.cm_spec.specs.declared.limits.TheConstants.{MAX_KEYS, MAX_WIDTH, MIN_WIDTH};
ghost use Rattle.cm_spec.specs.Image.{packed_byte, packed_len};
ghost use Rattle.cm_spec.specs.Lists.{list_of};
ghost use Rattle.cm_spec.specs.Lookup2.{words};
ghost use Rattle.cm_spec.specs.Rule.{IsRatio};

use crate::buckets::bucket_of_hashed;
use crate::parts::BrzParts;
use cm_algo_scheme::Place;
use std::marker::Model;

/// A function from keys to numbers below the number of keys. Clauses see its number of keys, its ratio in millionths, how many keys
/// a bucket has on average, the seed of its split, and its buckets: of each the number of keys, the seed and the cells.
#[derive(Drop)]
pub struct Brz {
    parts: BrzParts,
}

impl Model for Brz {
    ghost use Rattle.cm_brz_func.specs.Functions.{Brz, IsBrz};

    ghost Value = { Brz };

    ghost view = { λ f. f.parts };

    ghost invariant = { λ f. IsBrz f.parts };
}

impl Brz {
    /// The function of all of its buckets.
    pub(crate) fn of(parts: BrzParts) -> Brz
        requires valid { IsBrz parts }
        ensures whole { result ≡ parts }
    {
        Brz { parts }
    }

    /// How many keys the function was built over.
    pub fn keys(&self) -> u32
        ensures keys { result ≡ self.now.keys }
        ensures within { (1 ≤ result) × (result ≤ MAX_KEYS) }
    {
        self.parts.keys()
    }

    /// The ratio of vertices to keys, in millionths.
    pub fn c(&self) -> u32
        ensures ratio { result ≡ self.now.ratio }
        ensures within { IsRatio result }
    {
        self.parts.c()
    }

    /// How many keys a bucket has on average.
    pub fn b(&self) -> u16
        ensures width { result ≡ self.now.width }
        ensures within { (MIN_WIDTH ≤ result) × (result ≤ MAX_WIDTH) }
    {
        self.parts.b()
    }

    /// The seed of the split.
    pub fn split(&self) -> u32
        ensures split { result ≡ self.now.split }
    {
        self.parts.split()
    }

    /// How many buckets there are.
    pub fn buckets(&self) -> u32
        ensures buckets { result ≡ length self.now.buckets }
        ensures count { result ≡ bucket_count self.now.keys self.now.width }
        ensures valid { IsBrz self.now }
    {
        self.parts.len()
    }

    /// How many keys bucket `j` has, counted from 0.
    pub fn size_of(&self, j: u32) -> u16
        requires inside { j < length self.now.buckets }
        ensures size { result ≡ (slice_index_or self.now.buckets j no_bucket).size }
    {
        self.parts.size_of(j)
    }

    /// The seed of the hash of the keys in bucket `j`; 0 if there are none.
    pub fn seed_of(&self, j: u32) -> u32
        requires inside { j < length self.now.buckets }
        ensures seed { result ≡ (slice_index_or self.now.buckets j no_bucket).seed }
    {
        self.parts.seed_of(j)
    }

    /// The image of the cells of the function of bucket `j` by BDZ; no byte if it has no keys.
    pub fn image_of(&self, j: u32) -> &[u8]
        requires inside { j < length self.now.buckets }
        ensures image { result.now ≡ list_of (packed_byte 4 4 (slice_index_or self.now.buckets j no_bucket).cells) (packed_len 4 (length (slice_index_or self.now.buckets j no_bucket).cells)) }
        ensures valid { IsBucket self.now.ratio (slice_index_or self.now.buckets j no_bucket) }
    {
        self.parts.image_of(j)
    }

    /// The bucket of a key with these hash values under the split's seed with all bits flipped.
    #[inline(always)]
    pub(crate) fn bucket_in(&self, hashed: [u32; 3]) -> u32
        ensures bucket { (key : List ℕ) → hashed ≡ words key (flipped self.now.split) → result ≡ bucket_of key self.now.split (length self.now.buckets) }
        ensures inside { result < length self.now.buckets }
    {
        bucket_of_hashed(hashed, self.parts.count())
    }

    /// Where a key of bucket `j` is looked up, with these hash values under the bucket's seed.
    #[inline(always)]
    pub(crate) fn place_in(&self, j: u32, hashed: [u32; 3]) -> Place
        requires inside { j < length self.now.buckets }
        ensures place { (key : List ℕ) → j ≡ bucket_of key self.now.split (length self.now.buckets) → hashed ≡ words key (slice_index_or self.now.buckets j no_bucket).seed → result ≡ brz_place self.now key }
    {
        let ends = self.parts.ends_of(j, hashed);
        [ends[0], ends[1], ends[2], j]
    }

    /// The answer to each key of a place.
    pub(crate) fn answer_in(&self, place: &Place) -> Option<u32>
        requires place { (key : List ℕ) × (place.now ≡ brz_place self.now key) }
        ensures answer { (key : List ℕ) → place.now ≡ brz_place self.now key → result ≡ brz_answer self.now key }
        ensures inside { IfSome result (λ n. n < self.now.keys) }
    {
        self.parts
            .answer_at(place[3], [place[0], place[1], place[2]])
    }
}
