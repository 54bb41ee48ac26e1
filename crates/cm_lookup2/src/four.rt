//! Hash values of four keys at once, or of one key under four seeds.
ghost use Rattle.std.specs.Prelude.{◌≡◌, ◌+◌, ◌*◌, ◌/◌, ◌%◌, ◌^◌, ◌<◌, [], ◌∷◌, drop, length, map, slice_index, slice_index_or};
ghost use Rattle.cm_lookup2.specs.Four.{by_lanes, plus_lanes, words_of_each};
ghost use Rattle.cm_spec.specs.Lookup2.{right_line, left_line, three_lines, list_of_state, mix as mixed, word_at, start, words as words_of};

use crate::{Addends, tail_of, word, words};
use std::marker::Model;
use std::simd::prelude::*;

/// The three words of each of four states: a lane for each.
#[derive(Drop)]
struct Mixing {
    a: u32x4,
    b: u32x4,
    c: u32x4,
}

impl Model for Mixing {
    ghost use Rattle.std.specs.Prelude.{◌≡◌, List, length};
    ghost use Rattle.cm_spec.specs.Lookup2.{State};
    ghost use Rattle.cm_lookup2.specs.Four.{states_of};

    ghost Value = { List State };

    ghost view = { λ s. states_of s.a s.b s.c };

    ghost invariant = { λ s. (length s.a ≡ 4) × (length s.b ≡ 4) × (length s.c ≡ 4) };
}

impl Mixing {
    /// Before the first block.
    #[inline(always)]
    fn of(seeds: [u32; 4]) -> Mixing
        ensures { result ≡ map start seeds }
    {
        Mixing {
            a: u32x4::splat(0x9e37_79b9),
            b: u32x4::splat(0x9e37_79b9),
            c: u32x4::from_array(seeds),
        }
    }
}

/// `x - y - z`, crossed with `z` shifted to the right.
#[inline(always)]
fn right(k: u32, x: u32x4, y: u32x4, z: u32x4) -> u32x4
    requires small { k < 32 }
    requires four { length z ≡ 4 }
    ensures { result ≡ by_lanes (right_line k) x y z }
{
    (x - y - z) ^ (z >> k)
}

/// `x - y - z`, crossed with `z` shifted to the left.
#[inline(always)]
fn left(k: u32, x: u32x4, y: u32x4, z: u32x4) -> u32x4
    requires small { k < 32 }
    requires four { length z ≡ 4 }
    ensures { result ≡ by_lanes (left_line k) x y z }
{
    (x - y - z) ^ (z << k)
}

/// Three lines of the nine.
#[inline(always)]
fn three(i: u32, j: u32, k: u32, s: Mixing) -> Mixing
    requires { (i < 32) × (j < 32) × (k < 32) }
    ensures { result ≡ map (three_lines i j k) s }
{
    let a = right(i, s.a, s.b, s.c);
    let b = left(j, s.b, s.c, a);
    let c = right(k, s.c, a, b);
    Mixing { a, b, c }
}

/// The nine lines.
#[inline(always)]
fn mix(s: Mixing) -> Mixing
    ensures { result ≡ map mixed s }
{
    let s = three(13, 8, 13, s);
    let s = three(12, 16, 5, s);
    three(3, 10, 15, s)
}

/// Each state gains what its key adds, and is mixed.
#[inline(always)]
fn absorb(s: Mixing, p: Addends, q: Addends, r: Addends, t: Addends) -> Mixing
    ensures { result ≡ map mixed (plus_lanes s (p ∷ q ∷ r ∷ t ∷ [])) }
{
    mix(Mixing {
        a: s.a + u32x4::from_array([p.a, q.a, r.a, t.a]),
        b: s.b + u32x4::from_array([p.b, q.b, r.b, t.b]),
        c: s.c + u32x4::from_array([p.c, q.c, r.c, t.c]),
    })
}

/// What a block of 12 bytes adds.
#[inline(always)]
fn block_of(block: &[u8]) -> Addends
    ensures a { result.a ≡ word_at block.now 0 }
    ensures b { result.b ≡ word_at block.now 4 }
    ensures c { result.c ≡ word_at block.now 8 }
{
    Addends {
        a: word(block, 0),
        b: word(block, 4),
        c: word(block, 8),
    }
}

/// What the tail of a key adds, and its length.
#[inline(always)]
fn last_of(key: &[u8], rest: &[u8]) -> Addends
    requires { rest.now ≡ drop (length key.now / 12 * 12) key.now }
    ensures a { result.a ≡ word_at rest.now 0 }
    ensures b { result.b ≡ word_at rest.now 4 }
    ensures c { result.c ≡ (256 * slice_index rest.now 8 + 65536 * slice_index rest.now 9 + 16777216 * slice_index rest.now 10 + length key.now % 2 ^ 32) % 2 ^ 32 }
{
    let low = (key.len() % 0x1_0000_0000) as u32;
    let last = tail_of(key, rest);
    Addends {
        a: last.a,
        b: last.b,
        c: last.c.wrapping_add(low),
    }
}

/// Four times three hash values.
#[derive(Drop)]
pub struct FourWords {
    a: [u32; 4],
    b: [u32; 4],
    c: [u32; 4],
}

impl Model for FourWords {
    ghost use Rattle.std.specs.Prelude.{ℕ, List, map};
    ghost use Rattle.cm_spec.specs.Lookup2.{list_of_state};
    ghost use Rattle.cm_lookup2.specs.Four.{states_of};

    ghost Value = { List (List ℕ) };

    ghost view = { λ w. map list_of_state (states_of w.a w.b w.c) };
}

impl FourWords {
    /// The words of the states at the end.
    #[inline(always)]
    fn of(s: Mixing) -> FourWords
        ensures { result ≡ map list_of_state s }
    {
        FourWords {
            a: s.a.to_array(),
            b: s.b.to_array(),
            c: s.c.to_array(),
        }
    }

    /// Those at place `i`, counted from 0.
    #[inline(always)]
    pub fn at(&self, i: usize) -> [u32; 3]
        requires four { i < 4 }
        ensures words { result ≡ slice_index_or self.now i [] }
    {
        [self.a[i], self.b[i], self.c[i]]
    }
}

/// The hash values of four keys, one key after another.
fn one_by_one(p: &[u8], q: &[u8], r: &[u8], t: &[u8], seeds: [u32; 4]) -> FourWords
    ensures words { result ≡ words_of_each p.now q.now r.now t.now seeds }
{
    let p = words(p, seeds[0]);
    let q = words(q, seeds[1]);
    let r = words(r, seeds[2]);
    let t = words(t, seeds[3]);
    FourWords {
        a: [p[0], q[0], r[0], t[0]],
        b: [p[1], q[1], r[1], t[1]],
        c: [p[2], q[2], r[2], t[2]],
    }
}

/// The hash values of four keys, of each as `words` returns them under the seed at its place. It is fastest if they have the same number of
/// whole blocks.
#[inline(always)]
pub fn words_of_four(p: &[u8], q: &[u8], r: &[u8], t: &[u8], seeds: [u32; 4]) -> FourWords
    ensures words { result ≡ words_of_each p.now q.now r.now t.now seeds }
{
    let (p_blocks, p_rest) = p.as_chunks::<12>();
    let (q_blocks, q_rest) = q.as_chunks::<12>();
    let (r_blocks, r_rest) = r.as_chunks::<12>();
    let (t_blocks, t_rest) = t.as_chunks::<12>();
    let n = p_blocks.len();
    if q_blocks.len() != n || r_blocks.len() != n || t_blocks.len() != n {
        return one_by_one(p, q, r, t, seeds);
    }
    let mut s = Mixing::of(seeds);
    for i in 0..n {
        s = absorb(
            s,
            block_of(&p_blocks[i]),
            block_of(&q_blocks[i]),
            block_of(&r_blocks[i]),
            block_of(&t_blocks[i]),
        );
    }
    let s = absorb(
        s,
        last_of(p, p_rest),
        last_of(q, q_rest),
        last_of(r, r_rest),
        last_of(t, t_rest),
    );
    FourWords::of(s)
}

/// The hash values of a key under four seeds, as `words` returns them under each.
#[inline(always)]
pub fn words_under_four(key: &[u8], seeds: [u32; 4]) -> FourWords
    ensures words { result ≡ map (words_of key.now) seeds }
{
    words_of_four(key, key, key, key, seeds)
}
