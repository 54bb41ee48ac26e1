//! The buckets of a function, one after another.
ghost use Rattle.std.specs.Prelude.{◌≡◌, ◌↔◌, ◌+◌, ◌<◌, ◌≤◌, [], length, slice_index_or, List, OnOk, OnErr, IfSome, Err, IsTrue, ℕ, ◌⊎◌, vec_capacity, vec_len};
ghost use Rattle.cm_bdz.specs.declared.bdz.PartsFault.{PartsFault};
ghost use Rattle.cm_brz_func.specs.Functions.{IsBrz, answer_of_bucket, bucket_cells, bucket_count, keys_in, no_bucket};
ghost use Rattle.cm_brz_func.specs.Places.{ends_in};
ghost use Rattle.cm_brz_func.specs.Pushing.{Counts, Miscounts, with_bucket};
ghost use Rattle.cm_spec.specs.declared.limits.TheConstants.{MAX_BUCKET, MAX_KEYS, MAX_WIDTH, MIN_WIDTH};
ghost use Rattle.cm_spec.specs.Image.{packed_byte, packed_len};
ghost use Rattle.cm_spec.specs.Lists.{list_of};
ghost use Rattle.cm_spec.specs.Lookup2.{words};
ghost use Rattle.cm_spec.specs.Rule.{IsRatio};

use crate::brz::Brz;
use crate::held::{Kept, count_busy, held_at};
use cm_algo_scheme::Divisor;
use cm_bdz::PartsFault;
use cm_bits::{Cells, Crumbs};
use std::alloc::{AllocError, Global};
use std::marker::Model;

/// The first buckets of a function. Clauses see the function with these buckets alone.
#[derive(Drop)]
pub struct BrzParts {
    m: u32,
    c: u32,
    split: u32,
    b: u16,
    // How many buckets there are to be, to take remainders by.
    count: Divisor,
    // Whether room for all buckets is made with the first one.
    whole: bool,
    // How many keys those so far have.
    held: u32,
    kept: Vec<Kept>,
    // The cells of the buckets, one bucket after another. Each begins a byte.
    cells: Crumbs,
}

impl Model for BrzParts {
    ghost use Rattle.cm_brz_func.specs.Functions.{Brz};
    ghost use Rattle.cm_brz_func.specs.Kept.{AreKept, all_held, buckets_of};

    ghost Value = { Brz };

    ghost view = { λ p. record { keys = p.m; ratio = p.c; width = p.b; split = p.split; buckets = buckets_of (⟦<Crumbs as Cells>⟧.cells p.cells) (all_held p.c p.held p.kept.items) } };

    ghost invariant = { λ p. AreKept (record { keys = p.m; ratio = p.c; width = p.b; split = p.split; buckets = buckets_of (⟦<Crumbs as Cells>⟧.cells p.cells) (all_held p.c p.held p.kept.items) }) (⟦<Crumbs as Cells>⟧.cells p.cells) (all_held p.c p.held p.kept.items) p.count p.held };
}

/// Makes room for one bucket more, of `count`: for all that are still to come, or for as many more as there are, if those are fewer. So no
/// room is left over after the last bucket.
fn make_room(kept: &mut Vec<Kept>, count: u32, whole: bool) -> Result<(), AllocError>
    requires more { length kept.old.items < count }
    ensures kept { kept.new.items ≡ kept.old.items }
    ensures room { OnOk result (vec_len kept.new < vec_capacity kept.new) }
{
    let len = kept.len();
    if len == kept.capacity() {
        let left = count as usize - len;
        let more = if whole { left } else { len.max(1).min(left) };
        kept.reserve_exact(more)?;
    }
    Ok(())
}

/// Whether `held` keys are too many for a function of `m`, or too few with the last bucket.
fn is_off(held: u32, m: u32, is_last: bool) -> bool
    ensures { IsTrue result ↔ ((m < held) ⊎ (IsTrue is_last × (held < m))) }
{
    held > m || is_last && held < m
}

/// How many buckets `m` keys are split into.
fn count_of(m: u32, b: u16) -> u32
    requires keys { (1 ≤ m) × (m ≤ MAX_KEYS) }
    requires some { 0 < b }
    ensures count { result ≡ bucket_count m b }
    ensures some { 0 < result }
{
    (m + (b as u32 - 1)) / b as u32
}

impl BrzParts {
    /// No bucket yet of a function of `m` keys, from 1 to `MAX_KEYS`, with the ratio `c` in millionths, `b` keys a bucket on average,
    /// from `MIN_WIDTH` to `MAX_WIDTH`, and the seed of its split. It takes no memory.
    pub fn new(alloc: Global, m: u32, c: u32, b: u16, split: u32) -> BrzParts
        requires keys { (1 ≤ m) × (m ≤ MAX_KEYS) }
        requires ratio { IsRatio c }
        requires width { (MIN_WIDTH ≤ b) × (b ≤ MAX_WIDTH) }
        ensures parts { result ≡ record { keys = m; ratio = c; width = b; split = split; buckets = [] } }
    {
        BrzParts {
            m,
            c,
            split,
            b,
            count: Divisor::new(count_of(m, b)),
            whole: false,
            held: 0,
            kept: Vec::new(alloc),
            cells: Crumbs::empty(alloc),
        }
    }

    /// Has room for all buckets made with the first one. Else room grows with the buckets, since a count that was read may be wrong.
    pub fn expect_all(&mut self)
        ensures same { self.new ≡ self.old }
    {
        self.whole = true;
    }

    /// Whether this can't be the next bucket: the number of its cells that are not 3 differs from its number of keys, the buckets then
    /// have more keys than the function, or this is the last one and they have fewer.
    fn miscounts(&self, size: u16, cells: &Crumbs) -> bool
        ensures { IsTrue result ↔ Miscounts self.now (record { size = size; seed = 0; cells = ⟦<Crumbs as Cells>⟧.cells cells.now }) }
    {
        let is_last = self.kept.len() + 1 == self.count.value() as usize;
        count_busy(cells) != size as u32 || is_off(self.held + size as u32, self.m, is_last)
    }

    /// How many bytes of the table to make room for beyond those of the next bucket: all that the keys still to come can fill, or as many
    /// as it has, if those are fewer.
    #[tactic(auto, using(crate::proofs::HeldLemmas::length_all_held))]
    fn spare(&self) -> usize {
        let keys = self.m.saturating_sub(self.held) as u64;
        let buckets = self.count.value().saturating_sub(self.kept.len() as u32) as u64;
        // A bucket has at most 9 cells more than its share, and 3 more end its last byte.
        let most = keys * self.c as u64 / 4_000_000 + 3 * buckets;
        if self.whole {
            most as usize
        } else {
            self.cells.image().len().min(most as usize)
        }
    }

    /// Appends the cells of the next bucket to the table, and keeps it. Fails only if memory runs out, and then changes nothing.
    #[tactic(auto, using(std::proofs::lemmas::Grind::common_steps, crate::proofs::HeldLemmas::length_all_held))]
    fn keep(&mut self, size: u16, seed: u32, cells: &Crumbs) -> Result<(), AllocError>
        requires room { length self.old.buckets < bucket_count self.old.keys self.old.width }
        requires small { size ≤ MAX_BUCKET }
        requires cells { length (⟦<Crumbs as Cells>⟧.cells cells.now) ≡ bucket_cells size self.old.ratio }
        requires seed { size ≡ 0 → seed ≡ 0 }
        requires counts { Counts self.old (record { size = size; seed = seed; cells = ⟦<Crumbs as Cells>⟧.cells cells.now }) }
        ensures kept { OnOk result (self.new ≡ with_bucket self.old (record { size = size; seed = seed; cells = ⟦<Crumbs as Cells>⟧.cells cells.now })) }
        ensures failed { OnErr result (self.new ≡ self.old) }
    {
        make_room(&mut self.kept, self.count.value(), self.whole)?;
        let spare = self.spare();
        let bucket = Kept {
            start: 4 * self.cells.len().div_ceil(4),
            offset: self.held,
            seed,
        };
        self.cells.append(cells, spare)?;
        match self.kept.push(bucket) {
            Ok(()) => {}
            Err(_) => unreachable!(),
        }
        self.held += size as u32;
        Ok(())
    }

    /// Adds the next bucket: its number of keys, at most `MAX_BUCKET`, the seed of their hash and the cells of their function by BDZ; seed 0
    /// and no cells if it has no key. Returns `BadCount` exactly if the number of cells that are not idle differs from that of the keys, if
    /// the buckets then have more keys than the function, or if this is the last bucket and they have fewer. A failure changes nothing.
    pub fn push(&mut self, size: u16, seed: u32, cells: Crumbs) -> Result<(), PartsFault>
        requires room { length self.old.buckets < bucket_count self.old.keys self.old.width }
        requires small { size ≤ MAX_BUCKET }
        requires cells { length (⟦<Crumbs as Cells>⟧.cells cells) ≡ bucket_cells size self.old.ratio }
        requires seed { size ≡ 0 → seed ≡ 0 }
        ensures pushed { OnOk result (self.new ≡ with_bucket self.old (record { size = size; seed = seed; cells = ⟦<Crumbs as Cells>⟧.cells cells })) }
        ensures refused { OnErr result (self.new ≡ self.old) }
        ensures bad_count { result ≡ Err PartsFault.BadCount ↔ Miscounts self.old (record { size = size; seed = seed; cells = ⟦<Crumbs as Cells>⟧.cells cells }) }
    {
        if self.miscounts(size, &cells) {
            return Err(PartsFault::BadCount);
        }
        match self.keep(size, seed, &cells) {
            Ok(()) => Ok(()),
            Err(_) => Err(PartsFault::Memory),
        }
    }

    /// How many buckets there are so far.
    #[tactic(auto, using(std::proofs::lemmas::Grind::common_steps, crate::proofs::HeldLemmas::length_all_held))]
    pub fn len(&self) -> u32
        ensures len { result ≡ length self.now.buckets }
        ensures few { result ≤ bucket_count self.now.keys self.now.width }
        ensures valid { length self.now.buckets ≡ bucket_count self.now.keys self.now.width → IsBrz self.now }
    {
        self.kept.len() as u32
    }

    /// How many buckets are still to come.
    #[tactic(auto, using(std::proofs::lemmas::Grind::common_steps, crate::proofs::HeldLemmas::length_all_held))]
    pub fn left(&self) -> u32
        ensures left { result + length self.now.buckets ≡ bucket_count self.now.keys self.now.width }
    {
        self.count.value() - self.kept.len() as u32
    }

    /// How many keys the buckets so far have.
    pub fn held(&self) -> u32
        ensures held { result ≡ keys_in self.now.buckets }
        ensures within { result ≤ self.now.keys }
    {
        self.held
    }

    /// How many keys the function has.
    pub fn keys(&self) -> u32
        ensures keys { result ≡ self.now.keys }
        ensures within { (1 ≤ result) × (result ≤ MAX_KEYS) }
    {
        self.m
    }

    /// The ratio of vertices to keys, in millionths.
    pub fn c(&self) -> u32
        ensures ratio { result ≡ self.now.ratio }
        ensures within { IsRatio result }
    {
        self.c
    }

    /// How many keys a bucket has on average.
    pub fn b(&self) -> u16
        ensures width { result ≡ self.now.width }
        ensures within { (MIN_WIDTH ≤ result) × (result ≤ MAX_WIDTH) }
    {
        self.b
    }

    /// The seed of the split.
    pub fn split(&self) -> u32
        ensures split { result ≡ self.now.split }
    {
        self.split
    }

    /// How many buckets there are to be, to take remainders by.
    pub(crate) fn count(&self) -> &Divisor
        ensures count { result.now ≡ bucket_count self.now.keys self.now.width }
    {
        &self.count
    }

    /// How many keys bucket `j` has, counted from 0.
    pub(crate) fn size_of(&self, j: u32) -> u16
        requires inside { j < length self.now.buckets }
        ensures size { result ≡ (slice_index_or self.now.buckets j no_bucket).size }
    {
        held_at(&self.kept, self.held, self.c, j).size
    }

    /// The seed of the hash of the keys in bucket `j`.
    pub(crate) fn seed_of(&self, j: u32) -> u32
        requires inside { j < length self.now.buckets }
        ensures seed { result ≡ (slice_index_or self.now.buckets j no_bucket).seed }
    {
        self.kept[j as usize].seed
    }

    /// The image of the cells of bucket `j`.
    pub(crate) fn image_of(&self, j: u32) -> &[u8]
        requires inside { j < length self.now.buckets }
        ensures image { result.now ≡ list_of (packed_byte 4 4 (slice_index_or self.now.buckets j no_bucket).cells) (packed_len 4 (length (slice_index_or self.now.buckets j no_bucket).cells)) }
    {
        let held = held_at(&self.kept, self.held, self.c, j);
        let from = (held.start / 4) as usize;
        let until = from + (3 * held.third as usize).div_ceil(4);
        &self.cells.image()[from..until]
    }

    /// The three vertices in bucket `j` of a key of these hash values under the bucket's seed, which are 0 if it is empty.
    #[inline(always)]
    pub(crate) fn ends_of(&self, j: u32, hashed: [u32; 3]) -> [u32; 3]
        requires inside { j < length self.now.buckets }
        ensures ends { (key : List ℕ) → hashed ≡ words key (slice_index_or self.now.buckets j no_bucket).seed → result ≡ ends_in (slice_index_or self.now.buckets j no_bucket) key }
    {
        held_at(&self.kept, self.held, self.c, j).ends(hashed)
    }

    /// The answer of bucket `j` to each key of these vertices, after the numbers of the buckets before.
    pub(crate) fn answer_at(&self, j: u32, ends: [u32; 3]) -> Option<u32>
        requires inside { j < length self.now.buckets }
        requires ends { (key : List ℕ) × (ends ≡ ends_in (slice_index_or self.now.buckets j no_bucket) key) }
        ensures answer { (key : List ℕ) → ends ≡ ends_in (slice_index_or self.now.buckets j no_bucket) key → result ≡ answer_of_bucket self.now j key }
        ensures inside { IfSome result (λ n. n < self.now.keys) }
    {
        held_at(&self.kept, self.held, self.c, j).answer_at(&self.cells, ends)
    }

    /// The function, once it has all of its buckets. It takes no memory.
    pub fn finish(self) -> Brz
        requires all { length self.buckets ≡ bucket_count self.keys self.width }
        ensures whole { result ≡ self }
    {
        // The invariant says that it is a function.
        let _ = &self.kept;
        Brz::of(self)
    }
}
