//! A filter.
ghost use Rattle.std.specs.Prelude.{◌≡◌, ◌*◌, ◌^◌, ◌<◌, ◌≤◌, length};
ghost use Rattle.cm_filter.specs.Filters.{IsFingerprint};
ghost use Rattle.cm_spec.specs.Bdz.{bdz_size};
ghost use Rattle.cm_spec.specs.Rule.{IsRatio};
ghost use Rattle.cm_spec.specs.declared.limits.TheConstants.{MAX_KEYS, MAX_VERTICES};

use cm_algo_scheme::{Built, Divisor};
use cm_bits::{Cells, Fields};
use std::marker::Model;

/// A membership filter. Clauses see its number of keys, its ratio in millionths, its seed, the bits of a fingerprint and its cells. No
/// call takes memory.
#[derive(Drop)]
pub struct Filter {
    built: Built<Fields>,
    w: u8,
    // A third of the number of vertices, to take remainders by.
    third: Divisor,
}

impl Model for Filter {
    ghost use Rattle.std.specs.Prelude.{◌≡◌, ◌≤◌, ◌/◌, ◌^◌, length};
    ghost use Rattle.cm_filter.specs.Filters.{Filter, IsFingerprint};
    ghost use Rattle.cm_spec.specs.Bdz.{bdz_size};
    ghost use Rattle.cm_spec.specs.Rule.{IsRatio};
    ghost use Rattle.cm_spec.specs.declared.limits.TheConstants.{MAX_KEYS};

    ghost Value = { Filter };

    ghost view = { λ f. record { keys = f.built.m; ratio = f.built.c; seed = f.built.seed; bits = f.w; cells = ⟦<Fields as Cells>⟧.cells f.built.cells } };

    ghost invariant = { λ f. record {
      many : (1 ≤ f.built.m) × (f.built.m ≤ MAX_KEYS);
      ratio : IsRatio f.built.c;
      width : IsFingerprint f.w;
      bound : ⟦<Fields as Cells>⟧.bound_of f.built.cells ≡ 2 ^ f.w;
      size : length (⟦<Fields as Cells>⟧.cells f.built.cells) ≡ bdz_size f.built.m f.built.c;
      third : f.third ≡ length (⟦<Fields as Cells>⟧.cells f.built.cells) / 3;
    } };
}

impl Filter {
    /// The filter of a build's result, with fingerprints of `w` bits, from `MIN_FINGERPRINT` to `MAX_FINGERPRINT`: from 1 to `MAX_KEYS`
    /// keys, a ratio from 1,000,000 to 10,000,000 millionths, and as many cells below `2^w` as the graph has vertices.
    pub fn from_built(built: Built<Fields>, w: u8) -> Filter
        requires width { IsFingerprint w }
        requires keys { (1 ≤ built.m) × (built.m ≤ MAX_KEYS) }
        requires ratio { IsRatio built.c }
        requires bound { ⟦<Fields as Cells>⟧.bound_of built.cells ≡ 2 ^ w }
        requires size { length (⟦<Fields as Cells>⟧.cells built.cells) ≡ bdz_size built.m built.c }
        ensures keys { result.keys ≡ built.m }
        ensures ratio { result.ratio ≡ built.c }
        ensures seed { result.seed ≡ built.seed }
        ensures bits { result.bits ≡ w }
        ensures cells { result.cells ≡ ⟦<Fields as Cells>⟧.cells built.cells }
    {
        let third = Divisor::new(built.cells.len() / 3);
        Filter { built, w, third }
    }

    /// How many keys the filter was built over.
    pub fn keys(&self) -> u32
        ensures keys { result ≡ self.now.keys }
        ensures within { (1 ≤ result) × (result ≤ MAX_KEYS) }
    {
        self.built.m
    }

    /// The ratio of vertices to keys, in millionths.
    pub fn c(&self) -> u32
        ensures ratio { result ≡ self.now.ratio }
        ensures within { IsRatio result }
    {
        self.built.c
    }

    /// The seed of its hash.
    pub fn seed(&self) -> u32
        ensures seed { result ≡ self.now.seed }
    {
        self.built.seed
    }

    /// How many bits a fingerprint has.
    pub fn w(&self) -> u8
        ensures bits { result ≡ self.now.bits }
        ensures within { IsFingerprint result }
    {
        self.w
    }

    /// The cells of its vertices.
    #[tactic(auto, using(cm_bdz::specs::BdzLaws::few_cells))]
    pub fn cells(&self) -> &Fields
        ensures cells { ⟦<Fields as Cells>⟧.cells result.now ≡ self.now.cells }
        ensures bound { ⟦<Fields as Cells>⟧.bound_of result.now ≡ 2 ^ self.now.bits }
        ensures size { length self.now.cells ≡ bdz_size self.now.keys self.now.ratio }
        ensures few { length self.now.cells ≤ MAX_VERTICES }
    {
        &self.built.cells
    }

    /// A third of its number of vertices, to take remainders by.
    #[tactic(auto, using(cm_bdz::specs::BdzLaws::thirds))]
    pub(crate) fn third(&self) -> &Divisor
        ensures third { length self.now.cells ≡ 3 * result.now }
        ensures room { 3 * result.now < 2 ^ 32 }
    {
        &self.third
    }
}
