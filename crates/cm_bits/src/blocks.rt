//! Which cells are below a bound, by blocks: many cells at once, without a branch.
ghost use Rattle.std.specs.Prelude.{◌≡◌, ℕ, ◌+◌, ◌*◌, ◌/◌, ◌%◌, ◌^◌, ◌<◌, ◌≤◌, ◌↔◌, IsTrue, length, slice_index};
ghost use Rattle.std.specs.Simd.Lanes.{zip2};
ghost use Rattle.cm_bits.specs.Held.{AreBelow, HoldFields, carries_of, window_at};
ghost use Rattle.cm_bits.specs.declared.blocks.TheConstants.{BLOCK};

use crate::bytes::window;
use std::simd::prelude::*;

// How many groups of eight cells a block has.
const BLOCK: u32 = 32;

// The number, shifted to where each of the four pairs of a group begins in its window.
#[inline(always)]
fn at_pairs(number: u64, width: usize) -> u64x4
    requires small { number < 2 ^ 57 }
    requires width { width ≤ 26 }
    ensures four { length result ≡ 4 }
    ensures lanes { (j : ℕ) → j < 4 → slice_index result j ≡ number * 2 ^ (2 * j * width % 8) }
{
    u64x4::from_array([
        number,
        number << (2 * width % 8),
        number << (4 * width % 8),
        number << (6 * width % 8),
    ])
}

// The windows of the four pairs of cells of the group that begins with byte `at`.
#[inline(always)]
fn pairs(held: &[u8], at: usize, width: usize) -> u64x4
    requires width { width ≤ 26 }
    requires room { at + width + 8 ≤ length held.now }
    ensures four { length result ≡ 4 }
    ensures lanes { (j : ℕ) → j < 4 → slice_index result j ≡ window_at held.now (at + 2 * j * width / 8) }
{
    u64x4::from_array([
        window(held, at),
        window(held, at + 2 * width / 8),
        window(held, at + 4 * width / 8),
        window(held, at + 6 * width / 8),
    ])
}

// The carries into each bit of the sum, lane by lane.
#[inline(always)]
fn carries(x: u64x4, y: u64x4) -> u64x4
    ensures { result ≡ zip2 carries_of x y }
{
    x ^ y ^ (x + y)
}

// Whether all cells of the block that begins with group `first` are below the bound. All cells before it are.
//
// 2^width - bound is added to both cells of each pair, so that a cell that is not below the bound carries into the bit after it, and
// others don't. A carry out of a lower cell can change that of the upper one, but it is found itself. The carries of all groups are
// tested at once.
fn is_block_below(held: &[u8], first: u32, width: u32, bound: u32) -> bool
    requires width { width ≤ 26 }
    requires positive { 0 < bound }
    requires bound { bound ≤ 2 ^ width }
    requires small { first + BLOCK < 2 ^ 32 }
    requires room { (first + BLOCK) * width + 8 ≤ length held.now }
    requires fit { (k : ℕ) → slice_index held.now k < 256 }
    requires below { AreBelow width bound held.now (8 * first) }
    ensures { IsTrue result ↔ AreBelow width bound held.now (8 * (first + BLOCK)) }
{
    let w = width as usize;
    let lack = (1 << w) - bound as u64;
    let added = at_pairs((lack << w) + lack, w);
    let after = at_pairs((1 << w) | (1 << (2 * w)), w);
    let mut found = u64x4::splat(0);
    for g in first..first + BLOCK {
        found |= carries(pairs(held, g as usize * w, w), added);
    }
    (found & after).reduce_or() == 0
}

// How many of the leading groups of eight cells have only cells below the bound, counted from group `first` on by whole blocks. All
// groups before `first` have only such cells. If a whole block comes after the groups that are counted, one of its cells is not below
// the bound.
pub fn blocks_below(held: &[u8], first: u32, n: u32, width: u32, bound: u32) -> u32
    requires positive { 0 < bound }
    requires order { 8 * first ≤ n }
    requires held { HoldFields width n bound held.now }
    requires below { AreBelow width bound held.now (8 * first) }
    ensures some { 8 * result ≤ n }
    ensures below { AreBelow width bound held.now (8 * result) }
    ensures whole { result + BLOCK ≤ n / 8 → AreBelow width bound held.now (8 * (result + BLOCK)) → ⊥ }
{
    let mut groups = first;
    while groups + BLOCK <= n / 8 && is_block_below(held, groups, width, bound) {
        groups += BLOCK;
    }
    groups
}
