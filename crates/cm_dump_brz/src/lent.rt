//! A function by BRZ in the bytes of its dump.
ghost use Rattle.std.specs.Prelude.{◌≡◌, ◌↔◌, ◌<◌, ◌≤◌, ◌%◌, ◌/◌, ◌^◌, IfNone, IfSome, IsSome, IsTrue, length, slice_index};
ghost use Rattle.cm_brz_func.specs.Functions.{no_bucket};
ghost use Rattle.cm_dump_brz.specs.Indexed.{FitsBrz, brz_held, bucket_by};
ghost use Rattle.cm_dump_brz.specs.Opened.{indexed};
ghost use Rattle.cm_spec.specs.Rule.{IsRatio};
ghost use Rattle.cm_spec.specs.declared.limits.TheConstants.{MAX_KEYS};

use crate::bucket::{LentBucket, bucket_at};
use cm_algo_scheme::Divisor;
use cm_dump::{Header, Version};
use cm_spec::{MAX_KEYS, MAX_RATIO, MIN_RATIO};
use std::marker::Model;

/// What `LentBrz` consists of: the bytes of its dump, an index of its buckets, its numbers, and the reciprocal of the number of buckets.
#[derive(Clone, Copy, Drop)]
pub struct LentBrzParts<'a> {
    /// The bytes of its dump.
    pub dump: &'a [u8],
    /// For each bucket its offset in the dump, times `2^32`, plus how many keys lie in the buckets before it.
    pub index: &'a [u64],
    /// The version of the dump.
    pub version: Version,
    /// The number of keys, from 1 to `MAX_KEYS` of `cm_spec`.
    pub keys: u32,
    /// The ratio of vertices to keys, from 1,000,000 to 10,000,000 millionths.
    pub ratio: u32,
    /// The seed of the split.
    pub split: u32,
    /// How many keys a bucket has on average.
    pub b: u16,
    /// `2^32` by the number of buckets, rounded down.
    pub scaled: u64,
}

/// A function from keys to numbers below the number of keys, like `Brz`, in the bytes of its dump: its buckets are read where they lie. The
/// bytes and the index may have any values. If they are those of a function, the answers are those of the function; if they aren't, a key
/// gets any number below the number of keys, or none.
#[derive(Drop)]
pub struct LentBrz<'a> {
    parts: LentBrzParts<'a>,
}

impl<'a> Model for LentBrz<'a> {
    ghost use Rattle.cm_dump_brz.specs.Indexed.{FitsBrz, IndexedBrz, brz_held};

    ghost Value = { IndexedBrz };

    ghost view = { λ f. brz_held f.parts };

    ghost invariant = { λ f. FitsBrz f.parts };
}

/// Whether the numbers and the lengths of parts fit together.
#[inline]
fn fit(parts: &LentBrzParts) -> bool
    ensures { IsTrue result ↔ FitsBrz parts.now }
{
    if parts.keys == 0 || parts.keys > MAX_KEYS || parts.index.len() > MAX_KEYS as usize {
        return false;
    }
    MIN_RATIO <= parts.ratio
        && parts.ratio <= MAX_RATIO
        && Divisor::known(parts.index.len() as u32, parts.scaled).is_some()
}

impl<'a> LentBrz<'a> {
    /// The function of a header in the bytes of its dump, with an index of its buckets.
    pub(crate) fn new(
        dump: &'a [u8],
        version: Version,
        header: Header,
        index: &'a [u64],
    ) -> LentBrz<'a>
        requires keys { (1 ≤ header.keys) × (header.keys ≤ MAX_KEYS) }
        requires ratio { IsRatio header.ratio }
        requires index { (0 < length index.now) × (length index.now ≤ MAX_KEYS) }
        ensures function { result ≡ indexed version header dump.entry.now index.entry.now }
    {
        let count = Divisor::new(index.len() as u32);
        LentBrz {
            parts: LentBrzParts {
                dump,
                index,
                version,
                keys: header.keys,
                ratio: header.ratio,
                split: header.seed,
                b: header.b,
                scaled: count.scaled(),
            },
        }
    }

    /// The function of these parts, or none if their numbers and lengths don't fit together. It makes no division and reads none of the
    /// bytes and the numbers of the index, which may have any values.
    #[inline]
    pub fn of(parts: LentBrzParts<'a>) -> Option<LentBrz<'a>>
        ensures fits { IsSome result ↔ FitsBrz parts.entry }
        ensures held { IfSome result (λ f. f ≡ brz_held parts.entry) }
    {
        if fit(&parts) {
            Some(LentBrz { parts })
        } else {
            None
        }
    }

    /// Its parts, of which `of` makes the same function.
    #[inline]
    pub fn parts(&self) -> LentBrzParts<'a>
        ensures parts { brz_held result ≡ self.now }
        ensures fits { FitsBrz result }
    {
        self.parts
    }

    /// The number of keys.
    #[inline]
    pub fn keys(&self) -> u32
        ensures keys { result ≡ self.now.keys }
        ensures within { (1 ≤ result) × (result ≤ MAX_KEYS) }
        ensures some { 0 < length self.now.index }
    {
        self.parts.keys
    }

    /// The seed of the split.
    #[inline]
    pub(crate) fn split(&self) -> u32
        ensures split { result ≡ self.now.split }
    {
        self.parts.split
    }

    /// The number of buckets, to take remainders by.
    #[inline]
    pub(crate) fn count(&self) -> Divisor
        ensures count { result ≡ length self.now.index }
    {
        Divisor::again(self.parts.index.len() as u32, self.parts.scaled)
    }

    /// Bucket `j`, or none if it does not lie in the dump.
    #[inline]
    pub(crate) fn bucket(&self, j: u32) -> Option<LentBucket<'a>>
        requires inside { j < length self.now.index }
        ensures bucket { IfSome result (λ b. b ≡ bucket_by self.now (slice_index self.now.index j)) }
        ensures none { IfNone result (bucket_by self.now (slice_index self.now.index j) ≡ no_bucket) }
    {
        let parts = &self.parts;
        bucket_at(
            parts.dump,
            parts.index[j as usize] >> 32,
            parts.version,
            parts.ratio,
        )
    }

    /// How many keys lie in the buckets before bucket `j`, by the index.
    #[inline]
    pub(crate) fn before(&self, j: u32) -> u32
        requires inside { j < length self.now.index }
        ensures before { result ≡ slice_index self.now.index j % 2 ^ 32 }
    {
        (self.parts.index[j as usize] % 4_294_967_296) as u32
    }
}
