//! Functions by BDZ.
ghost use Rattle.std.specs.Prelude.{◌≡◌, ◌≢◌, ◌↔◌, ◌*◌, ◌^◌, ◌<◌, ◌≤◌, length, count_by, IfOk, Err};
ghost use Rattle.cm_bdz.specs.Functions.{IsThirds};
ghost use Rattle.cm_rank.specs.Ranks.{StandsFor};
ghost use Rattle.cm_spec.specs.Bdz.{bdz_size};
ghost use Rattle.cm_spec.specs.Cells.{is_busy};
ghost use Rattle.cm_spec.specs.Rule.{IsRatio};
ghost use Rattle.cm_bdz.specs.declared.bdz.PartsFault.{PartsFault};
ghost use Rattle.cm_spec.specs.declared.limits.TheConstants.{MAX_KEYS};

use cm_algo_scheme::{Built, Divisor};
use cm_bits::{Cells, Crumbs};
use cm_rank::{Counted, RankTable};
use std::alloc::Global;
use std::marker::Model;

/// Why parts make no function.
#[derive(Clone, Copy, Debug, PartialEq, Eq)]
pub enum PartsFault {
    /// Out of memory for the ranks.
    Memory,
    /// The number of cells that are not idle differs from the number of keys.
    BadCount,
}

/// A function from keys to numbers below the number of keys. Clauses see its number of keys, its ratio in millionths, its seed,
/// how far apart its ranks are sampled, and its cells.
#[derive(Drop)]
pub struct Bdz {
    built: Built<Crumbs>,
    // A third of the number of vertices, to take remainders by.
    third: Divisor,
    ranks: RankTable,
    b: u8,
}

impl Model for Bdz {
    ghost use Rattle.std.specs.Prelude.{◌≡◌, ◌≤◌, ◌/◌, count_by, length};
    ghost use Rattle.cm_bdz.specs.Functions.{Bdz};
    ghost use Rattle.cm_rank.specs.Ranks.{StandsFor};
    ghost use Rattle.cm_spec.specs.Bdz.{bdz_size};
    ghost use Rattle.cm_spec.specs.Cells.{is_busy};
    ghost use Rattle.cm_spec.specs.Rule.{IsRatio};
    ghost use Rattle.cm_spec.specs.declared.limits.TheConstants.{MAX_KEYS};

    ghost Value = { Bdz };

    ghost view = { λ f. record { keys = f.built.m; ratio = f.built.c; seed = f.built.seed; shift = f.b; cells = ⟦<Crumbs as Cells>⟧.cells f.built.cells } };

    ghost invariant = { λ f. record {
      many : (1 ≤ f.built.m) × (f.built.m ≤ MAX_KEYS);
      ratio : IsRatio f.built.c;
      size : length (⟦<Crumbs as Cells>⟧.cells f.built.cells) ≡ bdz_size f.built.m f.built.c;
      third : f.third ≡ length (⟦<Crumbs as Cells>⟧.cells f.built.cells) / 3;
      idle : f.ranks.idle ≡ 3;
      b : (3 ≤ f.b) × (f.b ≤ 10);
      shift : f.ranks.shift ≡ f.b;
      stands : StandsFor f.ranks (⟦<Crumbs as Cells>⟧.cells f.built.cells);
      busy : count_by (is_busy 3) (⟦<Crumbs as Cells>⟧.cells f.built.cells) ≡ f.built.m;
    } };
}

/// How many cells are not 3.
fn count_busy(cells: &Crumbs) -> u32
    ensures count { result ≡ count_by (is_busy 3) (⟦<Crumbs as Cells>⟧.cells cells.now) }
{
    cells.count_busy(3, 0, cells.len())
}

/// Why there is no function if memory runs out for the ranks. A wrong count takes precedence.
fn fault_without_ranks(built: &Built<Crumbs>) -> PartsFault
    ensures { result ≡ PartsFault.BadCount ↔ count_by (is_busy 3) (⟦<Crumbs as Cells>⟧.cells built.now.cells) ≢ built.now.m }
{
    if count_busy(&built.cells) == built.m {
        PartsFault::Memory
    } else {
        PartsFault::BadCount
    }
}

impl Bdz {
    /// The function of a build's result: from 1 to `MAX_KEYS` keys, a ratio from 1,000,000 to 10,000,000 millionths, and as many cells
    /// as the graph has vertices, with ranks of every `2^b`-th cell, with b from 3 to 10. Returns `BadCount` exactly if the number of
    /// cells that are not 3 differs from the number of keys.
    pub fn from_built(alloc: Global, built: Built<Crumbs>, b: u8) -> Result<Bdz, PartsFault>
        requires keys { (1 ≤ built.m) × (built.m ≤ MAX_KEYS) }
        requires ratio { IsRatio built.c }
        requires size { length (⟦<Crumbs as Cells>⟧.cells built.cells) ≡ bdz_size built.m built.c }
        requires b { (3 ≤ b) × (b ≤ 10) }
        ensures keys { IfOk result (λ f. f.keys ≡ built.m) }
        ensures ratio { IfOk result (λ f. f.ratio ≡ built.c) }
        ensures seed { IfOk result (λ f. f.seed ≡ built.seed) }
        ensures shift { IfOk result (λ f. f.shift ≡ b) }
        ensures cells { IfOk result (λ f. f.cells ≡ ⟦<Crumbs as Cells>⟧.cells built.cells) }
        ensures counted { count_by (is_busy 3) (⟦<Crumbs as Cells>⟧.cells built.cells) ≢ built.m → result ≡ Err PartsFault.BadCount }
        ensures bad_count { result ≡ Err PartsFault.BadCount → count_by (is_busy 3) (⟦<Crumbs as Cells>⟧.cells built.cells) ≢ built.m }
    {
        // The ranks yield the count, so the cells are read once.
        let Ok(ranks) = RankTable::build(alloc, &built.cells, 3, b) else {
            return Err(fault_without_ranks(&built));
        };
        if ranks.total(&built.cells) != built.m {
            return Err(PartsFault::BadCount);
        }
        let third = Divisor::new(built.cells.len() / 3);
        Ok(Bdz {
            built,
            third,
            ranks,
            b,
        })
    }

    /// How many keys the function was built over.
    pub fn keys(&self) -> u32
        ensures keys { result ≡ self.now.keys }
        ensures within { (1 ≤ result) × (result ≤ MAX_KEYS) }
    {
        self.built.m
    }

    /// The ratio of vertices to keys, in millionths.
    pub fn c(&self) -> u32
        ensures ratio { result ≡ self.now.ratio }
        ensures within { IsRatio result }
    {
        self.built.c
    }

    /// The seed of its hash.
    pub fn seed(&self) -> u32
        ensures seed { result ≡ self.now.seed }
    {
        self.built.seed
    }

    /// The rank of every `2^b`-th cell is kept.
    pub fn b(&self) -> u8
        ensures shift { result ≡ self.now.shift }
        ensures within { (3 ≤ result) × (result ≤ 10) }
    {
        self.b
    }

    /// The cells of its vertices.
    pub fn cells(&self) -> &Crumbs
        ensures cells { ⟦<Crumbs as Cells>⟧.cells result.now ≡ self.now.cells }
        ensures size { length self.now.cells ≡ bdz_size self.now.keys self.now.ratio }
        ensures thirds { IsThirds (length self.now.cells) }
        ensures busy { count_by (is_busy 3) self.now.cells ≡ self.now.keys }
    {
        &self.built.cells
    }

    /// The ranks of its cells that are not 3.
    pub fn ranks(&self) -> &RankTable
        ensures idle { result.now.idle ≡ 3 }
        ensures shift { result.now.shift ≡ self.now.shift }
        ensures stands { StandsFor result.now self.now.cells }
    {
        &self.ranks
    }

    /// A third of its number of vertices, to take remainders by.
    pub(crate) fn third(&self) -> &Divisor
        ensures third { length self.now.cells ≡ 3 * result.now }
        ensures room { 3 * result.now < 2 ^ 32 }
    {
        &self.third
    }
}
