//! Ranks in bytes that are lent.
ghost use Rattle.std.specs.Prelude.{◌≡◌, ◌≢◌, ◌+◌, ◌-◌, ◌*◌, ◌/◌, ◌^◌, ◌<◌, ◌≤◌, length, min, MatchOption};
ghost use Rattle.std.specs.Int.{div_ceil, to_le_bytes, w32};
ghost use Rattle.cm_bits.specs.declared.TheConstants.{MAX_CELLS};
ghost use Rattle.cm_rank.specs.Ranks.{HoldRanks, rank_bytes, rank_in, rank_of, ranks_in, sampled_rank};

use crate::after::rank_after;
use crate::counted::Counted;
use std::marker::Model;

/// The ranks of every `2^b`-th cell of a table, in lent bytes, 4 bytes each, the lowest byte first. Like `RankTable`, it doesn't hold
/// the cells: a call that counts takes them as an argument.
#[derive(Drop)]
pub struct LentRanks<'a> {
    bytes: &'a [u8],
    idle: u32,
    b: u8,
}

impl<'a> Model for LentRanks<'a> {
    ghost use Rattle.std.specs.Prelude.{◌/◌, ◌≤◌, length};
    ghost use Rattle.cm_rank.specs.Ranks.{Samples, ranks_in};
    ghost use Rattle.cm_bits.specs.declared.TheConstants.{MAX_CELLS};

    ghost Value = { Samples };

    ghost view = { λ t. record { idle = t.idle; shift = t.b; ranks = ranks_in t.bytes.now } };

    ghost invariant = { λ t. (3 ≤ t.b) × (t.b ≤ 10) × (length t.bytes.now / 4 ≤ MAX_CELLS) };
}

/// Rank i of the bytes, counted from 0.
#[inline]
fn rank_at(bytes: &[u8], i: u32) -> u32
    requires inside { 4 * i + 4 ≤ length bytes.now }
    ensures rank { result ≡ rank_in bytes.now i }
{
    let at = 4 * i as usize;
    u32::from_le_bytes([bytes[at], bytes[at + 1], bytes[at + 2], bytes[at + 3]])
}

impl<'a> LentRanks<'a> {
    /// The ranks that these bytes are, four a rank, of every `2^b`-th cell. b is from 3 to 10.
    pub fn new(bytes: &'a [u8], idle: u32, b: u8) -> LentRanks<'a>
        requires low { 3 ≤ b }
        requires high { b ≤ 10 }
        requires few { length bytes.now / 4 ≤ MAX_CELLS }
        ensures ranks { result ≡ record { idle = idle; shift = b; ranks = ranks_in bytes.now } }
    {
        LentRanks { bytes, idle, b }
    }

    /// The rank that is kept for the block of cell i, plus how many cells of the block are not idle before cell i; at most 2^32 - 1. If the
    /// ranks are those of the cells, this is how many of the first i cells are not idle. Reads at most `2^b` cells.
    #[inline]
    pub fn rank<C: Counted>(&self, cells: &C, i: u32) -> u32
        requires index { i < length (C.cells cells.now) }
        requires there { i / 2 ^ self.now.shift < length self.now.ranks }
        ensures rank { result ≡ min (2 ^ 32 - 1) (sampled_rank self.now (C.cells cells.now) i) }
    {
        let block = i / (1 << self.b);
        rank_after(cells, self.idle, self.b, rank_at(self.bytes, block), i)
    }

    /// The rank of every `2^b`-th cell is kept.
    pub fn b(&self) -> u8
        ensures shift { result ≡ self.now.shift }
        ensures within { (3 ≤ result) × (result ≤ 10) }
    {
        self.b
    }

    /// The bytes of the ranks.
    pub fn bytes(&self) -> &'a [u8]
        ensures ranks { self.now.ranks ≡ ranks_in result.now }
        ensures few { length result.now / 4 ≤ MAX_CELLS }
    {
        self.bytes
    }
}

/// The first rank of the bytes, counted from 0, that is not that of its cell: rank k is to be that of cell `k * 2^b`, in four bytes, the
/// lowest first. b is from 3 to 10, and there are no more ranks than blocks of `2^b` cells. The cells are counted once.
pub fn first_bad_rank<C: Counted>(cells: &C, idle: u32, b: u8, bytes: &[u8]) -> Option<u32>
    requires low { 3 ≤ b }
    requires high { b ≤ 10 }
    requires few { length bytes.now / 4 ≤ div_ceil (length (C.cells cells.now)) (2 ^ b) }
    ensures first { MatchOption result (HoldRanks idle b (C.cells cells.now) bytes.now (length bytes.now / 4)) (λ i. (i < length bytes.now / 4) × HoldRanks idle b (C.cells cells.now) bytes.now i × (rank_bytes bytes.now i ≢ to_le_bytes w32 (rank_of idle (C.cells cells.now) (i * 2 ^ b)))) }
{
    let step = 1 << b;
    let len = cells.len();
    let many = (bytes.len() / 4) as u32;
    let mut rank = 0;
    for k in 0..many {
        if rank_at(bytes, k) != rank {
            return Some(k);
        }
        let from = k * step;
        rank += cells.count_busy(idle, from, len.min(from + step));
    }
    None
}
