//! Functions by BDZ in bytes that are lent.
ghost use Rattle.std.specs.Prelude.{◌≡◌, ◌↔◌, ◌*◌, ◌/◌, ◌^◌, ◌<◌, ◌≤◌, ℕ, length, IfSome, IsSome, IsTrue};
ghost use Rattle.std.specs.Int.{div_ceil};
ghost use Rattle.cm_bdz.specs.Functions.{IsThirds};
ghost use Rattle.cm_bdz.specs.Lent.{FitsBdz, bdz_held, samples_of};
ghost use Rattle.cm_bits.specs.Held.{packed_cells};
ghost use Rattle.cm_rank.specs.Ranks.{ranks_in};
ghost use Rattle.cm_spec.specs.Bdz.{bdz_size};
ghost use Rattle.cm_spec.specs.Image.{packed_len};
ghost use Rattle.cm_spec.specs.Rule.{IsRatio};
ghost use Rattle.cm_spec.specs.declared.limits.TheConstants.{MAX_KEYS, MAX_VERTICES};

use crate::scheme::BdzScheme;
use cm_algo_scheme::{Divisor, Scheme};
use cm_bits::{LentCrumbs, Lookup};
use cm_rank::LentRanks;
use cm_spec::{MAX_KEYS, MAX_VERTICES};
use std::marker::Model;

/// What `LentBdz` consists of: the bytes of its cells and of its ranks, its numbers, a third of its number of vertices, and the
/// reciprocal of this third.
#[derive(Clone, Copy, Drop)]
pub struct BdzParts<'a> {
    /// The image of its cells, of two bits each.
    pub cells: &'a [u8],
    /// The rank of every `2^b`-th cell, four bytes each, the lowest first.
    pub ranks: &'a [u8],
    /// The number of keys, from 1 to `MAX_KEYS` of `cm_spec`.
    pub keys: u32,
    /// The ratio of vertices to keys, in millionths.
    pub ratio: u32,
    /// The seed of its hash.
    pub seed: u32,
    /// A third of the number of vertices, from 1 on.
    pub third: u32,
    /// `2^32` by this third, rounded down.
    pub scaled: u64,
    /// From 3 to 10.
    pub b: u8,
}

/// A function from keys to numbers below the number of keys, like `Bdz`, in lent bytes: its cells and its ranks are read where they
/// lie. The bytes may have any values. If they are the image of a function and its ranks, the answers are those of the function; if
/// they aren't, a key gets any number below the number of keys, or none.
#[derive(Drop)]
pub struct LentBdz<'a> {
    parts: BdzParts<'a>,
}

impl<'a> Model for LentBdz<'a> {
    ghost use Rattle.cm_bdz.specs.Lent.{FitsBdz, HeldBdz, bdz_held};

    ghost Value = { HeldBdz };

    ghost view = { λ f. bdz_held f.parts };

    ghost invariant = { λ f. FitsBdz f.parts };
}

/// Whether the numbers and the lengths of parts fit together.
#[inline]
fn fit(parts: &BdzParts) -> bool
    ensures { IsTrue result ↔ FitsBdz parts.now }
{
    let third = parts.third;
    if Divisor::known(third, parts.scaled).is_none() || third > MAX_VERTICES / 3 {
        return false;
    }
    if parts.keys == 0 || parts.keys > MAX_KEYS || parts.b < 3 || parts.b > 10 {
        return false;
    }
    let n = 3 * third;
    parts.cells.len() == n.div_ceil(4) as usize
        && parts.ranks.len() == 4 * n.div_ceil(1 << parts.b) as usize
}

impl<'a> LentBdz<'a> {
    /// The function of these cells and ranks, of any values: from 1 to `MAX_KEYS` keys, a ratio from 1,000,000 to 10,000,000 millionths, b
    /// from 3 to 10, as many bytes as the image of a cell for each vertex has, and four bytes for each block of `2^b` vertices.
    pub fn new(
        cells: &'a [u8],
        ranks: &'a [u8],
        keys: u32,
        ratio: u32,
        seed: u32,
        b: u8,
    ) -> LentBdz<'a>
        requires keys { (1 ≤ keys) × (keys ≤ MAX_KEYS) }
        requires ratio { IsRatio ratio }
        requires b { (3 ≤ b) × (b ≤ 10) }
        requires cells { length cells.now ≡ packed_len 4 (bdz_size keys ratio) }
        requires ranks { length ranks.now ≡ 4 * div_ceil (bdz_size keys ratio) (2 ^ b) }
        ensures function { result.function ≡ record { keys = keys; ratio = ratio; seed = seed; shift = b; cells = packed_cells 4 4 (bdz_size keys ratio) cells.entry.now } }
        ensures ranks { result.ranks ≡ ranks_in ranks.entry.now }
    {
        let third = BdzScheme {}.size(keys, ratio) / 3;
        let scaled = Divisor::new(third).scaled();
        LentBdz {
            parts: BdzParts {
                cells,
                ranks,
                keys,
                ratio,
                seed,
                third,
                scaled,
                b,
            },
        }
    }

    /// The function of these parts, or none if their numbers and lengths don't fit together. It makes no division and reads none of the
    /// bytes, which may have any values.
    #[inline]
    pub fn of(parts: BdzParts<'a>) -> Option<LentBdz<'a>>
        ensures fits { IsSome result ↔ FitsBdz parts.entry }
        ensures held { IfSome result (λ f. f ≡ bdz_held parts.entry) }
    {
        if fit(&parts) {
            Some(LentBdz { parts })
        } else {
            None
        }
    }

    /// Its parts, of which `of` makes the same function.
    #[inline]
    pub fn parts(&self) -> BdzParts<'a>
        ensures parts { bdz_held result ≡ self.now }
        ensures fits { FitsBdz result }
    {
        self.parts
    }

    /// The number of keys.
    #[inline]
    pub fn keys(&self) -> u32
        ensures keys { result ≡ self.now.function.keys }
        ensures within { (1 ≤ result) × (result ≤ MAX_KEYS) }
    {
        self.parts.keys
    }

    /// The seed of its hash.
    #[inline]
    pub fn seed(&self) -> u32
        ensures seed { result ≡ self.now.function.seed }
    {
        self.parts.seed
    }

    /// The cells of its vertices.
    #[inline]
    pub fn cells(&self) -> LentCrumbs<'a>
        ensures cells { ⟦<LentCrumbs<'a> as Lookup>⟧.cells result ≡ self.now.function.cells }
        ensures thirds { IsThirds (length self.now.function.cells) }
    {
        LentCrumbs::new(3 * self.parts.third, self.parts.cells)
    }

    /// The ranks of its cells that are not 3. There is one for each block of cells.
    #[inline]
    pub fn ranks(&self) -> LentRanks<'a>
        ensures samples { result ≡ samples_of self.now }
        ensures there { (v : ℕ) → v < length self.now.function.cells → v / 2 ^ self.now.function.shift < length self.now.ranks }
    {
        LentRanks::new(self.parts.ranks, 3, self.parts.b)
    }

    /// A third of its number of vertices, to take remainders by.
    #[inline]
    pub(crate) fn third(&self) -> Divisor
        ensures third { length self.now.function.cells ≡ 3 * result }
        ensures room { 3 * result < 2 ^ 32 }
    {
        Divisor::again(self.parts.third, self.parts.scaled)
    }
}
