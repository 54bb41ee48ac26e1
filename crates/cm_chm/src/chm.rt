//! A CHM function.
ghost use Rattle.std.specs.Prelude.{◌≡◌, ◌≤◌, length};
ghost use Rattle.cm_spec.specs.Chm.{chm_size, chm_rule};
ghost use Rattle.cm_spec.specs.Rule.{IsRatio, IsSize};
ghost use Rattle.cm_spec.specs.declared.limits.TheConstants.{MAX_KEYS};

use cm_algo_scheme::{Built, Divisor};
use cm_bits::{Cells, Fields};
use std::marker::Model;

/// A function from keys to numbers. Clauses see its number of keys, its ratio in millionths, its seed and its cells.
#[derive(Drop)]
pub struct Chm {
    built: Built<Fields>,
    // The numbers of keys and of vertices, to take remainders by.
    keys: Divisor,
    vertices: Divisor,
}

impl Model for Chm {
    ghost use Rattle.std.specs.Prelude.{◌≡◌, ◌≤◌, length};
    ghost use Rattle.cm_spec.specs.Chm.{Chm, chm_size};
    ghost use Rattle.cm_spec.specs.Rule.{IsRatio};
    ghost use Rattle.cm_spec.specs.declared.limits.TheConstants.{MAX_KEYS};

    ghost Value = { Chm };

    ghost view = { λ f. record { keys = f.built.m; ratio = f.built.c; seed = f.built.seed; cells = ⟦<Fields as Cells>⟧.cells f.built.cells } };

    ghost invariant = { λ f. record {
      many : (1 ≤ f.built.m) × (f.built.m ≤ MAX_KEYS);
      ratio : IsRatio f.built.c;
      bound : ⟦<Fields as Cells>⟧.bound_of f.built.cells ≡ f.built.m;
      size : length (⟦<Fields as Cells>⟧.cells f.built.cells) ≡ chm_size f.built.m f.built.c;
      keys : f.keys ≡ f.built.m;
      vertices : f.vertices ≡ length (⟦<Fields as Cells>⟧.cells f.built.cells);
    } };
}

impl Chm {
    /// The function of a build's result: from 1 to `MAX_KEYS` keys, a ratio from 1,000,000 to 10,000,000 millionths, and as many cells
    /// below the number of keys as the graph has vertices.
    pub fn from_built(built: Built<Fields>) -> Chm
        requires keys { (1 ≤ built.m) × (built.m ≤ MAX_KEYS) }
        requires ratio { IsRatio built.c }
        requires bound { ⟦<Fields as Cells>⟧.bound_of built.cells ≡ built.m }
        requires size { length (⟦<Fields as Cells>⟧.cells built.cells) ≡ chm_size built.m built.c }
        ensures keys { result.keys ≡ built.m }
        ensures ratio { result.ratio ≡ built.c }
        ensures seed { result.seed ≡ built.seed }
        ensures cells { result.cells ≡ ⟦<Fields as Cells>⟧.cells built.cells }
    {
        let keys = Divisor::new(built.m);
        let vertices = Divisor::new(built.cells.len());
        Chm {
            built,
            keys,
            vertices,
        }
    }

    /// How many keys the function was built over.
    pub fn keys(&self) -> u32
        ensures keys { result ≡ self.now.keys }
        ensures within { (1 ≤ result) × (result ≤ MAX_KEYS) }
    {
        self.built.m
    }

    /// The ratio of vertices to keys, in millionths.
    pub fn c(&self) -> u32
        ensures ratio { result ≡ self.now.ratio }
        ensures within { IsRatio result }
    {
        self.built.c
    }

    /// The seed of its hash.
    pub fn seed(&self) -> u32
        ensures seed { result ≡ self.now.seed }
    {
        self.built.seed
    }

    /// The cells of its vertices.
    pub fn cells(&self) -> &Fields
        ensures cells { ⟦<Fields as Cells>⟧.cells result.now ≡ self.now.cells }
        ensures bound { ⟦<Fields as Cells>⟧.bound_of result.now ≡ self.now.keys }
        ensures size { length self.now.cells ≡ chm_size self.now.keys self.now.ratio }
        ensures vertices { IsSize chm_rule (length self.now.cells) }
    {
        &self.built.cells
    }

    /// Its number of keys, to take remainders by.
    pub(crate) fn by_keys(&self) -> &Divisor
        ensures keys { result.now ≡ self.now.keys }
    {
        &self.keys
    }

    /// Its number of vertices, to take remainders by.
    pub(crate) fn by_vertices(&self) -> &Divisor
        ensures vertices { result.now ≡ length self.now.cells }
    {
        &self.vertices
    }
}
