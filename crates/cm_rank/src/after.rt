//! Ranks by a sample before.
ghost use Rattle.std.specs.Prelude.{◌≡◌, ◌+◌, ◌-◌, ◌*◌, ◌/◌, ◌^◌, ◌<◌, ◌≤◌, length, min};
ghost use Rattle.cm_rank.specs.Ranks.{rank_of};

use crate::counted::Counted;

/// How many cells are not idle, from a sampled cell on. Reads at most `2^b` cells.
#[inline]
fn count_after<C: Counted>(cells: &C, idle: u32, b: u8, from: u32, until: u32) -> u32
    requires order { from ≤ until }
    requires inside { until ≤ length (C.cells cells.now) }
    ensures busy { rank_of idle (C.cells cells.now) from + result ≡ rank_of idle (C.cells cells.now) until }
{
    if b >= 7 && until - from <= 128 {
        cells.count_near(idle, from, until)
    } else {
        cells.count_busy(idle, from, until)
    }
}

/// A sample, plus how many cells of the block of cell i are not idle before cell i; at most 2^32 - 1. A block is `2^b` cells. If the
/// sample is the rank of the block's first cell, this is how many of the first i cells are not idle. Reads at most `2^b` cells.
#[inline]
pub fn rank_after<C: Counted>(cells: &C, idle: u32, b: u8, sample: u32, i: u32) -> u32
    requires small { b ≤ 10 }
    requires index { i < length (C.cells cells.now) }
    ensures rank { result ≡ min (2 ^ 32 - 1) (sample + (rank_of idle (C.cells cells.now) i - rank_of idle (C.cells cells.now) (i / 2 ^ b * 2 ^ b))) }
{
    let step = 1 << b;
    sample.saturating_add(count_after(cells, idle, b, i / step * step, i))
}
