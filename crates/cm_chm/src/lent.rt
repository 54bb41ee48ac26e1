//! A CHM function whose cells are in bytes that are lent.
ghost use Rattle.std.specs.Prelude.{◌≡◌, ◌↔◌, ◌^◌, ◌≤◌, length, IfSome, IsSome, IsTrue};
ghost use Rattle.cm_bits.specs.Fault.{bytes_number, field_cells};
ghost use Rattle.cm_chm.specs.Parts.{FitsChm, chm_held};
ghost use Rattle.cm_spec.specs.Chm.{chm_size, chm_rule};
ghost use Rattle.cm_spec.specs.Image.{fields_len, width_of};
ghost use Rattle.cm_spec.specs.Rule.{IsRatio, IsSize};
ghost use Rattle.cm_spec.specs.declared.limits.TheConstants.{MAX_KEYS};

use crate::scheme::ChmScheme;
use cm_algo_scheme::{Divisor, Scheme};
use cm_bits::fields::width;
use cm_bits::{LentFields, Lookup};
use cm_spec::{MAX_KEYS, MAX_RATIO, MIN_RATIO};
use std::marker::Model;

/// A function from keys to numbers, like `Chm`, whose cells are in bytes that are lent. The bytes may have any values: a cell may be
/// above the number of keys, and each answer is below it. Clauses see its number of keys, its ratio in millionths, its seed and its
/// cells.
#[derive(Drop)]
pub struct LentChm<'a> {
    parts: ChmParts<'a>,
}

/// The parts of a function in lent bytes, as plain values that a caller may keep in a struct of its own.
#[derive(Clone, Copy, Drop)]
pub struct ChmParts<'a> {
    /// The image of the cells, without the rest of the function file.
    pub cells: &'a [u8],
    /// The number of keys, from 1 to `MAX_KEYS` of `cm_spec`.
    pub keys: u32,
    /// The ratio of vertices to keys, from 1,000,000 to 10,000,000 millionths.
    pub ratio: u32,
    /// The seed of the hash.
    pub seed: u32,
    /// The number of vertices, and so of cells.
    pub vertices: u32,
    /// How many bits a cell has, from 1 to 26.
    pub width: u32,
    /// `2^32` divided by the number of keys, rounded down.
    pub keys_scaled: u64,
    /// `2^32` divided by the number of vertices, rounded down.
    pub vertices_scaled: u64,
}

impl<'a> Model for LentChm<'a> {
    ghost use Rattle.cm_chm.specs.Parts.{FitsChm, chm_held};
    ghost use Rattle.cm_spec.specs.Chm.{Chm};

    ghost Value = { Chm };

    ghost view = { λ f. chm_held f.parts };

    ghost invariant = { λ f. FitsChm f.parts };
}

/// Whether the numbers and the length of parts fit together.
#[inline]
fn fit(parts: &ChmParts) -> bool
    ensures { IsTrue result ↔ FitsChm parts.now }
{
    if parts.keys == 0 || parts.keys > MAX_KEYS || !is_ratio(parts.ratio) {
        return false;
    }
    if parts.vertices != (ChmScheme {}.size(parts.keys, parts.ratio)) {
        return false;
    }
    if Divisor::known(parts.keys, parts.keys_scaled).is_none()
        || Divisor::known(parts.vertices, parts.vertices_scaled).is_none()
    {
        return false;
    }
    let bits = parts.vertices as u64 * parts.width as u64;
    parts.width > 0 && parts.width <= 26 && parts.cells.len() as u64 == bits.div_ceil(8)
}

/// Whether this is a ratio in millionths.
#[inline]
fn is_ratio(ratio: u32) -> bool
    ensures { IsTrue result ↔ IsRatio ratio }
{
    MIN_RATIO <= ratio && ratio <= MAX_RATIO
}

impl<'a> LentChm<'a> {
    /// The function of these cells, of any values: from 1 to `MAX_KEYS` keys, a ratio from 1,000,000 to 10,000,000 millionths, and as many
    /// bytes as the image of a cell below the number of keys for each vertex has.
    pub fn new(cells: &'a [u8], keys: u32, ratio: u32, seed: u32) -> LentChm<'a>
        requires keys { (1 ≤ keys) × (keys ≤ MAX_KEYS) }
        requires ratio { IsRatio ratio }
        requires cells { length cells.now ≡ fields_len (width_of keys) (chm_size keys ratio) }
        ensures function { result ≡ record { keys = keys; ratio = ratio; seed = seed; cells = field_cells (width_of keys) (chm_size keys ratio) (bytes_number cells.entry.now) } }
    {
        let vertices = ChmScheme {}.size(keys, ratio);
        let keys_scaled = Divisor::new(keys).scaled();
        let vertices_scaled = Divisor::new(vertices).scaled();
        let width = width(keys);
        LentChm {
            parts: ChmParts {
                cells,
                keys,
                ratio,
                seed,
                vertices,
                width,
                keys_scaled,
                vertices_scaled,
            },
        }
    }

    /// The function of these parts, or none if their numbers and their length don't fit together. It divides by constants alone, and reads
    /// none of the bytes, which may have any values.
    #[inline]
    pub fn of(parts: ChmParts<'a>) -> Option<LentChm<'a>>
        ensures fits { IsSome result ↔ FitsChm parts.entry }
        ensures held { IfSome result (λ f. f ≡ chm_held parts.entry) }
    {
        if fit(&parts) {
            Some(LentChm { parts })
        } else {
            None
        }
    }

    /// Its parts, of which `of` makes the same function.
    #[inline]
    pub fn parts(&self) -> ChmParts<'a>
        ensures parts { chm_held result ≡ self.now }
        ensures fits { FitsChm result }
    {
        self.parts
    }

    /// The number of keys.
    #[inline]
    pub fn keys(&self) -> u32
        ensures keys { result ≡ self.now.keys }
        ensures within { (1 ≤ result) × (result ≤ MAX_KEYS) }
    {
        self.parts.keys
    }

    /// The seed of its hash.
    #[inline]
    pub fn seed(&self) -> u32
        ensures seed { result ≡ self.now.seed }
    {
        self.parts.seed
    }

    /// The cells of its vertices.
    #[inline]
    pub fn cells(&self) -> LentFields<'a>
        ensures cells { ⟦<LentFields<'a> as Lookup>⟧.cells result ≡ self.now.cells }
        ensures bound { ⟦<LentFields<'a> as Lookup>⟧.bound_of result ≤ MAX_KEYS }
        ensures size { length self.now.cells ≡ chm_size self.now.keys self.now.ratio }
        ensures vertices { IsSize chm_rule (length self.now.cells) }
    {
        LentFields::new(self.parts.vertices, self.parts.width, self.parts.cells)
    }

    /// Its number of keys, to take remainders by.
    #[inline]
    pub(crate) fn by_keys(&self) -> Divisor
        ensures keys { result ≡ self.now.keys }
    {
        Divisor::again(self.parts.keys, self.parts.keys_scaled)
    }

    /// Its number of vertices, to take remainders by.
    #[inline]
    pub(crate) fn by_vertices(&self) -> Divisor
        ensures vertices { result ≡ length self.now.cells }
    {
        Divisor::again(self.parts.vertices, self.parts.vertices_scaled)
    }
}
