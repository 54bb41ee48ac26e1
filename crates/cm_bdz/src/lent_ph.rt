//! Functions by BDZ_PH in bytes that are lent.
ghost use Rattle.std.specs.Prelude.{◌≡◌, ◌↔◌, ◌*◌, ◌^◌, ◌<◌, ◌≤◌, length, IfSome, IsSome, IsTrue};
ghost use Rattle.cm_bdz.specs.Functions.{IsThirds};
ghost use Rattle.cm_bdz.specs.Lent.{FitsBdzPh, bdz_ph_held};
ghost use Rattle.cm_bits.specs.Held.{packed_cells};
ghost use Rattle.cm_spec.specs.Bdz.{bdz_size};
ghost use Rattle.cm_spec.specs.Image.{packed_len};
ghost use Rattle.cm_spec.specs.Rule.{IsRatio};
ghost use Rattle.cm_spec.specs.declared.limits.TheConstants.{MAX_KEYS, MAX_VERTICES};

use crate::scheme::BdzPhScheme;
use cm_algo_scheme::{Divisor, Scheme};
use cm_bits::{LentTrits, Lookup};
use cm_spec::{MAX_KEYS, MAX_VERTICES};
use std::marker::Model;

/// What `LentBdzPh` consists of: the bytes of its cells, its numbers, a third of its number of vertices, and the reciprocal of this
/// third.
#[derive(Clone, Copy, Drop)]
pub struct BdzPhParts<'a> {
    /// The image of its cells, five a byte.
    pub cells: &'a [u8],
    /// The number of keys, from 1 to `MAX_KEYS` of `cm_spec`.
    pub keys: u32,
    /// The ratio of vertices to keys, in millionths.
    pub ratio: u32,
    /// The seed of its hash.
    pub seed: u32,
    /// A third of the number of vertices, from 1 on.
    pub third: u32,
    /// `2^32` by this third, rounded down.
    pub scaled: u64,
}

/// A function from keys to vertices, like `BdzPh`, in lent bytes: its cells are read where they lie. The bytes may have any values.
/// Clauses see what they see of `BdzPh`.
#[derive(Drop)]
pub struct LentBdzPh<'a> {
    parts: BdzPhParts<'a>,
}

impl<'a> Model for LentBdzPh<'a> {
    ghost use Rattle.cm_bdz.specs.Functions.{BdzPh};
    ghost use Rattle.cm_bdz.specs.Lent.{FitsBdzPh, bdz_ph_held};

    ghost Value = { BdzPh };

    ghost view = { λ f. bdz_ph_held f.parts };

    ghost invariant = { λ f. FitsBdzPh f.parts };
}

/// Whether the numbers and the length of parts fit together.
#[inline]
fn fit(parts: &BdzPhParts) -> bool
    ensures { IsTrue result ↔ FitsBdzPh parts.now }
{
    let third = parts.third;
    if Divisor::known(third, parts.scaled).is_none() || third > MAX_VERTICES / 3 {
        return false;
    }
    if parts.keys == 0 || parts.keys > MAX_KEYS {
        return false;
    }
    parts.cells.len() == (3 * third).div_ceil(5) as usize
}

impl<'a> LentBdzPh<'a> {
    /// The function of these cells, of any values: from 1 to `MAX_KEYS` keys, a ratio from 1,000,000 to 10,000,000 millionths, and as many
    /// bytes as the image of a cell for each vertex has.
    pub fn new(cells: &'a [u8], keys: u32, ratio: u32, seed: u32) -> LentBdzPh<'a>
        requires keys { (1 ≤ keys) × (keys ≤ MAX_KEYS) }
        requires ratio { IsRatio ratio }
        requires cells { length cells.now ≡ packed_len 5 (bdz_size keys ratio) }
        ensures function { result ≡ record { keys = keys; ratio = ratio; seed = seed; cells = packed_cells 3 5 (bdz_size keys ratio) cells.entry.now } }
    {
        let third = BdzPhScheme {}.size(keys, ratio) / 3;
        let scaled = Divisor::new(third).scaled();
        LentBdzPh {
            parts: BdzPhParts {
                cells,
                keys,
                ratio,
                seed,
                third,
                scaled,
            },
        }
    }

    /// The function of these parts, or none if their numbers and their length don't fit together. It makes no division and reads none of
    /// the bytes, which may have any values.
    #[inline]
    pub fn of(parts: BdzPhParts<'a>) -> Option<LentBdzPh<'a>>
        ensures fits { IsSome result ↔ FitsBdzPh parts.entry }
        ensures held { IfSome result (λ f. f ≡ bdz_ph_held parts.entry) }
    {
        if fit(&parts) {
            Some(LentBdzPh { parts })
        } else {
            None
        }
    }

    /// Its parts, of which `of` makes the same function.
    #[inline]
    pub fn parts(&self) -> BdzPhParts<'a>
        ensures parts { bdz_ph_held result ≡ self.now }
        ensures fits { FitsBdzPh result }
    {
        self.parts
    }

    /// The number of keys.
    #[inline]
    pub fn keys(&self) -> u32
        ensures keys { result ≡ self.now.keys }
        ensures within { (1 ≤ result) × (result ≤ MAX_KEYS) }
    {
        self.parts.keys
    }

    /// The seed of its hash.
    #[inline]
    pub fn seed(&self) -> u32
        ensures seed { result ≡ self.now.seed }
    {
        self.parts.seed
    }

    /// The cells of its vertices.
    #[inline]
    pub fn cells(&self) -> LentTrits<'a>
        ensures cells { ⟦<LentTrits<'a> as Lookup>⟧.cells result ≡ self.now.cells }
        ensures thirds { IsThirds (length self.now.cells) }
        ensures few { length self.now.cells ≤ MAX_VERTICES }
    {
        LentTrits::new(3 * self.parts.third, self.parts.cells)
    }

    /// A third of its number of vertices, to take remainders by.
    #[inline]
    pub(crate) fn third(&self) -> Divisor
        ensures third { length self.now.cells ≡ 3 * result }
        ensures room { 3 * result < 2 ^ 32 }
    {
        Divisor::again(self.parts.third, self.parts.scaled)
    }
}
