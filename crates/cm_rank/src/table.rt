//! Ranks by samples.
ghost use Rattle.std.specs.Prelude.{◌≡◌, ℕ, List, ◌+◌, ◌*◌, ◌/◌, ◌^◌, ◌<◌, ◌≤◌, count_by, length, slice_index, IfOk};
ghost use Rattle.std.specs.Int.{div_ceil};
ghost use Rattle.cm_rank.specs.Ranks.{rank_of, StandsFor};
ghost use Rattle.cm_spec.specs.Cells.{is_busy};

use crate::after::rank_after;
use crate::counted::Counted;
use cm_bits::Lookup;
use std::alloc::{AllocError, Global};
use std::marker::Model;

/// The ranks of every `2^b`-th cell of a table, 4 bytes each. It doesn't hold the cells that it was built over: a call that counts
/// takes them as an argument.
#[derive(Drop)]
pub struct RankTable {
    ranks: Vec<u32>,
    idle: u32,
    b: u8,
}

impl Model for RankTable {
    ghost use Rattle.std.specs.Prelude.{◌≤◌, length};
    ghost use Rattle.cm_rank.specs.Ranks.{Samples};
    ghost use Rattle.cm_bits.specs.declared.TheConstants.{MAX_CELLS};

    ghost Value = { Samples };

    ghost view = { λ t. record { idle = t.idle; shift = t.b; ranks = t.ranks.items } };

    ghost invariant = { λ t. (t.b ≤ 10) × (length t.ranks.items ≤ MAX_CELLS) };
}

impl RankTable {
    /// Samples the ranks: for every `2^b`-th cell, how many cells before it are not idle. b is from 3 to 10. Fails only if memory runs
    /// out.
    pub fn build<C: Counted>(
        alloc: Global,
        cells: &C,
        idle: u32,
        b: u8,
    ) -> Result<RankTable, AllocError>
        requires low { 3 ≤ b }
        requires high { b ≤ 10 }
        ensures idle { IfOk result (λ t. t.idle ≡ idle) }
        ensures shift { IfOk result (λ t. t.shift ≡ b) }
        ensures stands { IfOk result (λ t. StandsFor t (C.cells cells.now)) }
    {
        let step = 1 << b;
        let len = cells.len();
        let blocks = len.div_ceil(step);
        let mut ranks = Vec::with_capacity(alloc, blocks as usize)?;
        let mut rank = 0;
        for k in 0..blocks {
            ranks.push(rank)?;
            let from = k * step;
            rank += cells.count_busy(idle, from, len.min(from + step));
        }
        Ok(RankTable { ranks, idle, b })
    }

    /// How many of the first i cells are not idle. Reads at most `2^b` cells.
    pub fn rank<C: Counted>(&self, cells: &C, i: u32) -> u32
        requires stands { StandsFor self.now (C.cells cells.now) }
        requires index { i < length (C.cells cells.now) }
        ensures rank { result ≡ rank_of self.now.idle (C.cells cells.now) i }
    {
        self.rank_by(cells, self.sample(i), i)
    }

    /// The sample for cell i: the rank of the first cell of its block.
    pub fn sample(&self, i: u32) -> u32
        requires there { i / 2 ^ self.now.shift < length self.now.ranks }
        ensures sample { result ≡ slice_index self.now.ranks (i / 2 ^ self.now.shift) }
        ensures cells { (cells : List ℕ) → StandsFor self.now cells → result ≡ rank_of self.now.idle cells (i / 2 ^ self.now.shift * 2 ^ self.now.shift) }
    {
        let block = i / (1 << self.b);
        self.ranks[block as usize]
    }

    /// `rank`, by the sample for cell i. If samples of many cells are read first, their cache misses overlap.
    pub fn rank_by<C: Counted>(&self, cells: &C, sample: u32, i: u32) -> u32
        requires index { i < length (C.cells cells.now) }
        requires sample { sample ≡ rank_of self.now.idle (C.cells cells.now) (i / 2 ^ self.now.shift * 2 ^ self.now.shift) }
        ensures rank { result ≡ rank_of self.now.idle (C.cells cells.now) i }
    {
        rank_after(cells, self.idle, self.b, sample, i)
    }

    /// How many cells are not idle. Reads at most `2^b` cells.
    pub fn total<C: Counted>(&self, cells: &C) -> u32
        requires stands { StandsFor self.now (C.cells cells.now) }
        requires some { 0 < length (C.cells cells.now) }
        ensures total { result ≡ count_by (is_busy self.now.idle) (C.cells cells.now) }
    {
        let last = cells.len() - 1;
        let rank = self.rank(cells, last);
        if cells.get(last) == self.idle {
            rank
        } else {
            rank + 1
        }
    }

    /// How many ranks there are: the number of cells divided by `2^b`, rounded up.
    pub fn entries(&self) -> u32
        ensures entries { result ≡ length self.now.ranks }
        ensures cells { (cells : List ℕ) → StandsFor self.now cells → result ≡ div_ceil (length cells) (2 ^ self.now.shift) }
    {
        self.ranks.len() as u32
    }

    /// Rank i, that of cell `i * 2^b`.
    pub fn entry(&self, i: u32) -> u32
        requires inside { i < length self.now.ranks }
        ensures entry { result ≡ slice_index self.now.ranks i }
        ensures cells { (cells : List ℕ) → StandsFor self.now cells → result ≡ rank_of self.now.idle cells (i * 2 ^ self.now.shift) }
    {
        self.ranks[i as usize]
    }
}
