//! Functions by BDZ_PH.
ghost use Rattle.std.specs.Prelude.{◌≡◌, ◌*◌, ◌^◌, ◌<◌, ◌≤◌, length};
ghost use Rattle.cm_bdz.specs.Functions.{IsThirds};
ghost use Rattle.cm_spec.specs.Bdz.{bdz_size};
ghost use Rattle.cm_spec.specs.Rule.{IsRatio};
ghost use Rattle.cm_spec.specs.declared.limits.TheConstants.{MAX_KEYS, MAX_VERTICES};

use cm_algo_scheme::{Built, Divisor};
use cm_bits::{Cells, Trits};
use std::marker::Model;

/// A function from keys to vertices. Clauses see its number of keys, its ratio in millionths, its seed and its cells.
#[derive(Drop)]
pub struct BdzPh {
    built: Built<Trits>,
    // A third of the number of vertices, to take remainders by.
    third: Divisor,
}

impl Model for BdzPh {
    ghost use Rattle.std.specs.Prelude.{◌≡◌, ◌≤◌, ◌/◌, length};
    ghost use Rattle.cm_bdz.specs.Functions.{BdzPh};
    ghost use Rattle.cm_spec.specs.Bdz.{bdz_size};
    ghost use Rattle.cm_spec.specs.Rule.{IsRatio};
    ghost use Rattle.cm_spec.specs.declared.limits.TheConstants.{MAX_KEYS};

    ghost Value = { BdzPh };

    ghost view = { λ f. record { keys = f.built.m; ratio = f.built.c; seed = f.built.seed; cells = ⟦<Trits as Cells>⟧.cells f.built.cells } };

    ghost invariant = { λ f. record {
      many : (1 ≤ f.built.m) × (f.built.m ≤ MAX_KEYS);
      ratio : IsRatio f.built.c;
      size : length (⟦<Trits as Cells>⟧.cells f.built.cells) ≡ bdz_size f.built.m f.built.c;
      third : f.third ≡ length (⟦<Trits as Cells>⟧.cells f.built.cells) / 3;
    } };
}

impl BdzPh {
    /// The function of a build's result: from 1 to `MAX_KEYS` keys, a ratio from 1,000,000 to 10,000,000 millionths, and as many cells
    /// as the graph has vertices.
    pub fn from_built(built: Built<Trits>) -> BdzPh
        requires keys { (1 ≤ built.m) × (built.m ≤ MAX_KEYS) }
        requires ratio { IsRatio built.c }
        requires size { length (⟦<Trits as Cells>⟧.cells built.cells) ≡ bdz_size built.m built.c }
        ensures keys { result.keys ≡ built.m }
        ensures ratio { result.ratio ≡ built.c }
        ensures seed { result.seed ≡ built.seed }
        ensures cells { result.cells ≡ ⟦<Trits as Cells>⟧.cells built.cells }
    {
        let third = Divisor::new(built.cells.len() / 3);
        BdzPh { built, third }
    }

    /// How many keys the function was built over.
    pub fn keys(&self) -> u32
        ensures keys { result ≡ self.now.keys }
        ensures within { (1 ≤ result) × (result ≤ MAX_KEYS) }
    {
        self.built.m
    }

    /// The ratio of vertices to keys, in millionths.
    pub fn c(&self) -> u32
        ensures ratio { result ≡ self.now.ratio }
        ensures within { IsRatio result }
    {
        self.built.c
    }

    /// The seed of its hash.
    pub fn seed(&self) -> u32
        ensures seed { result ≡ self.now.seed }
    {
        self.built.seed
    }

    /// The cells of its vertices.
    #[tactic(auto, using(crate::specs::BdzLaws::few_cells))]
    pub fn cells(&self) -> &Trits
        ensures cells { ⟦<Trits as Cells>⟧.cells result.now ≡ self.now.cells }
        ensures size { length self.now.cells ≡ bdz_size self.now.keys self.now.ratio }
        ensures thirds { IsThirds (length self.now.cells) }
        ensures few { length self.now.cells ≤ MAX_VERTICES }
    {
        &self.built.cells
    }

    /// A third of its number of vertices, to take remainders by.
    pub(crate) fn third(&self) -> &Divisor
        ensures third { length self.now.cells ≡ 3 * result.now }
        ensures room { 3 * result.now < 2 ^ 32 }
    {
        &self.third
    }
}
