//! What is kept of a bucket, and the bucket that follows from it.
ghost use Rattle.std.specs.Prelude.{◌≡◌, ◌≢◌, ℕ, ◌+◌, ◌*◌, ◌/◌, ◌<◌, ◌≤◌, List, slice_index, slice_index_or, Option, IfSome, option_map, count_by};
ghost use Rattle.cm_bdz.specs.Functions.{chosen_end};
ghost use Rattle.cm_brz_func.specs.Functions.{answer_in, bucket_cells};
ghost use Rattle.cm_brz_func.specs.Kept.{IsSized, LiesIn, all_held, bucket_in, cells_in, none_held, offset_at};
ghost use Rattle.cm_brz_func.specs.Places.{ends_in};
ghost use Rattle.cm_spec.specs.Bdz.{bdz_edge};
ghost use Rattle.cm_spec.specs.Cells.{is_busy};
ghost use Rattle.cm_spec.specs.declared.limits.TheConstants.{MAX_BUCKET};
ghost use Rattle.cm_spec.specs.Lookup2.{words};
ghost use Rattle.cm_spec.specs.Rule.{IsRatio};
ghost use Rattle.cm_rank.specs.Ranks.{rank_of};

use cm_algo_scheme::{Divisor, Scheme};
use cm_bdz::{BdzScheme, place_in};
use cm_bits::{Cells, Crumbs};
use cm_rank::Counted;

/// How many cells are counted without a branch that depends on their number: of a bucket of 128 keys, four fifths of its vertices.
const NEAR: u32 = 128;

/// What is kept of a bucket beside its cells. It has 12 bytes.
#[derive(Clone, Copy, Drop)]
pub(crate) struct Kept {
    /// The first of its cells in the table of the cells of all buckets, which begins a byte.
    pub(crate) start: u32,
    /// How many keys lie in the buckets before it.
    pub(crate) offset: u32,
    /// The seed of the hash of its keys.
    pub(crate) seed: u32,
}

/// A bucket whose cells lie in the table of the cells of all buckets.
#[derive(Clone, Copy, Drop)]
pub(crate) struct Held {
    /// The first of its cells in the table, which begins a byte.
    pub(crate) start: u32,
    /// How many keys lie in the buckets before it.
    pub(crate) offset: u32,
    /// The seed of the hash of its keys.
    pub(crate) seed: u32,
    /// A third of the number of its cells.
    pub(crate) third: u16,
    /// How many keys it has.
    pub(crate) size: u16,
}

/// How many cells are not 3.
pub(crate) fn count_busy(cells: &Crumbs) -> u32
    ensures count { result ≡ count_by (is_busy 3) (⟦<Crumbs as Cells>⟧.cells cells.now) }
{
    cells.count_busy(3, 0, cells.len())
}

/// How many keys lie in the buckets before bucket `j`, or `held` if it is past the last one.
#[inline(always)]
fn next_offset(kept: &[Kept], held: u32, j: usize) -> u32
    ensures offset { result ≡ offset_at kept.now held j }
{
    match kept.get(j) {
        Some(bucket) => bucket.offset,
        None => held,
    }
}

/// A third of the number of cells of a bucket of `size` keys.
#[inline(always)]
fn third_of(size: u16, c: u32) -> u16
    requires small { size ≤ MAX_BUCKET }
    requires ratio { IsRatio c }
    ensures third { result ≡ bucket_cells size c / 3 }
{
    if size == 0 {
        0
    } else {
        (BdzScheme {}.size(size as u32, c) / 3) as u16
    }
}

/// Bucket `j` of these, which have `held` keys, with the ratio `c`: it has the keys before those of the next one.
#[inline(always)]
pub(crate) fn held_at(kept: &[Kept], held: u32, c: u32, j: u32) -> Held
    requires sized { IsSized kept.now held j }
    requires ratio { IsRatio c }
    ensures held { result ≡ slice_index_or (all_held c held kept.now) j none_held }
{
    let bucket = &kept[j as usize];
    let size = (next_offset(kept, held, j as usize + 1) - bucket.offset) as u16;
    Held {
        start: bucket.start,
        offset: bucket.offset,
        seed: bucket.seed,
        third: third_of(size, c),
        size,
    }
}

impl Held {
    /// The three vertices of a key of these hash values under the bucket's seed, which are 0 in an empty bucket.
    #[inline(always)]
    pub(crate) fn ends(&self, hashed: [u32; 3]) -> [u32; 3]
        requires thirds { self.now.size ≢ 0 → 0 < self.now.third }
        ensures ends { (table key : List ℕ) → hashed ≡ words key self.now.seed → LiesIn table self.now → result ≡ ends_in (bucket_in table self.now) key }
    {
        if self.size == 0 {
            return [0, 0, 0];
        }
        let third = Divisor::new(self.third as u32);
        let place = place_in(hashed, &third);
        [place[0], place[1], place[2]]
    }

    /// Cell `v` of the bucket.
    fn get(&self, table: &Crumbs, v: u32) -> u32
        requires lies { LiesIn (⟦<Crumbs as Cells>⟧.cells table.now) self.now }
        requires inside { v < 3 * self.now.third }
        ensures cell { result ≡ slice_index (cells_in (⟦<Crumbs as Cells>⟧.cells table.now) self.now) v }
        ensures below { result < 4 }
    {
        table.get(self.start + v)
    }

    /// Of three vertices the one whose position is the sum of their cells, modulo 3.
    fn chosen_among(&self, table: &Crumbs, ends: [u32; 3]) -> u32
        requires lies { LiesIn (⟦<Crumbs as Cells>⟧.cells table.now) self.now }
        requires some { 0 < self.now.third }
        requires ends { (words : List ℕ) × (ends ≡ bdz_edge words (3 * self.now.third)) }
        ensures chosen { result ≡ chosen_end (cells_in (⟦<Crumbs as Cells>⟧.cells table.now) self.now) ends }
        ensures inside { result < 3 * self.now.third }
    {
        let sum = self.get(table, ends[0]) + self.get(table, ends[1]) + self.get(table, ends[2]);
        ends[(sum % 3) as usize]
    }

    /// How many of the bucket's cells before vertex `v` are not 3.
    fn rank(&self, table: &Crumbs, v: u32) -> u32
        requires lies { LiesIn (⟦<Crumbs as Cells>⟧.cells table.now) self.now }
        requires inside { v ≤ 3 * self.now.third }
        ensures rank { result ≡ rank_of 3 (cells_in (⟦<Crumbs as Cells>⟧.cells table.now) self.now) v }
    {
        if v <= NEAR {
            return table.count_near(3, self.start, self.start + v);
        }
        let from = self.start + NEAR;
        table.count_near(3, self.start, from) + table.count_busy(3, from, self.start + v)
    }

    /// The answer to each key of these vertices, after the numbers of the buckets before.
    pub(crate) fn answer_at(&self, table: &Crumbs, ends: [u32; 3]) -> Option<u32>
        requires lies { LiesIn (⟦<Crumbs as Cells>⟧.cells table.now) self.now }
        requires thirds { self.now.size ≢ 0 → 0 < self.now.third }
        requires room { self.now.offset + self.now.size < 4294967296 }
        requires busy { count_by (is_busy 3) (cells_in (⟦<Crumbs as Cells>⟧.cells table.now) self.now) ≡ self.now.size }
        requires ends { (key : List ℕ) × (ends ≡ ends_in (bucket_in (⟦<Crumbs as Cells>⟧.cells table.now) self.now) key) }
        ensures answer { (key : List ℕ) → ends ≡ ends_in (bucket_in (⟦<Crumbs as Cells>⟧.cells table.now) self.now) key → result ≡ option_map (λ r. self.now.offset + r) (answer_in (bucket_in (⟦<Crumbs as Cells>⟧.cells table.now) self.now) key) }
        ensures inside { IfSome result (λ n. n < self.now.offset + self.now.size) }
    {
        if self.size == 0 {
            return None;
        }
        let v = self.chosen_among(table, ends);
        if self.get(table, v) == 3 {
            None
        } else {
            Some(self.offset + self.rank(table, v))
        }
    }
}
