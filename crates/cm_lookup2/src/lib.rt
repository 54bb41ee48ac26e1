//! lookup2, the hash function of Bob Jenkins (1997): three 32-bit hash values of a key under a seed, or under each of four.
#![tactic(auto)]

ghost use Rattle.std.specs.Prelude.{◌≡◌, ◌+◌, ◌*◌, ◌/◌, ◌^◌, ◌-◌, ◌<◌, ◌≤◌, length, drop, slice_index};
ghost use Rattle.cm_spec.specs.Lookup2.{right_line, left_line, three_lines, mix as mixed, word_at, absorb as absorbed, finish as finished, words as words_of};

mod four;

pub use four::{FourWords, words_of_four, words_under_four};
use std::marker::Model;

/// The three words of the state.
#[derive(Drop)]
struct Mixing {
    a: u32,
    b: u32,
    c: u32,
}

impl Model for Mixing {
    ghost use Rattle.cm_spec.specs.Lookup2.{State};

    ghost Value = { State };

    ghost view = { λ s. record { a = s.a; b = s.b; c = s.c } };
}

/// `x - y - z`, crossed with `z` shifted to the right.
#[inline]
#[tactic(auto, unfolding(cm_spec::specs::Lookup2::right_line))]
fn right(k: u32, x: u32, y: u32, z: u32) -> u32
    requires { k < 32 }
    ensures { result ≡ right_line k x y z }
{
    x.wrapping_sub(y).wrapping_sub(z) ^ (z >> k)
}

/// `x - y - z`, crossed with `z` shifted to the left.
#[inline]
#[tactic(auto, unfolding(cm_spec::specs::Lookup2::left_line))]
fn left(k: u32, x: u32, y: u32, z: u32) -> u32
    requires { k < 32 }
    ensures { result ≡ left_line k x y z }
{
    x.wrapping_sub(y).wrapping_sub(z) ^ (z << k)
}

/// Three lines of the nine.
#[inline]
#[tactic(auto, unfolding(cm_spec::specs::Lookup2::three_lines))]
fn three(i: u32, j: u32, k: u32, s: Mixing) -> Mixing
    requires { (i < 32) × (j < 32) × (k < 32) }
    ensures { result ≡ three_lines i j k s }
{
    let a = right(i, s.a, s.b, s.c);
    let b = left(j, s.b, s.c, a);
    let c = right(k, s.c, a, b);
    Mixing { a, b, c }
}

/// The nine lines.
#[inline]
fn mix(s: Mixing) -> Mixing
    ensures { result ≡ mixed s }
{
    let s = three(13, 8, 13, s);
    let s = three(12, 16, 5, s);
    three(3, 10, 15, s)
}

/// The byte at `i`, or 0 past the end.
#[inline]
fn byte_at(bytes: &[u8], i: usize) -> u32
    ensures value { result ≡ slice_index bytes.now i }
    ensures small { result < 256 }
{
    if i < bytes.len() {
        u32::from(bytes[i])
    } else {
        0
    }
}

/// The little-endian word of the bytes at `i` to `i + 3`. In a block of 12 bytes it becomes one load.
#[inline]
fn word(bytes: &[u8], i: usize) -> u32
    requires { i < 1000 }
    ensures { result ≡ word_at bytes.now i }
{
    byte_at(bytes, i)
        + 256 * byte_at(bytes, i + 1)
        + 65536 * byte_at(bytes, i + 2)
        + 16_777_216 * byte_at(bytes, i + 3)
}

/// Absorbs a block of 12 bytes.
#[inline]
#[tactic(auto, unfolding(cm_spec::specs::Lookup2::absorb))]
fn absorb(s: Mixing, block: &[u8]) -> Mixing
    ensures { result ≡ absorbed s block.now }
{
    mix(Mixing {
        a: s.a.wrapping_add(word(block, 0)),
        b: s.b.wrapping_add(word(block, 4)),
        c: s.c.wrapping_add(word(block, 8)),
    })
}

/// What a block or the tail of a key adds to the words of the state.
#[derive(Clone, Copy)]
struct Addends {
    a: u32,
    b: u32,
    c: u32,
}

/// The word of the four bytes from `i` on.
#[inline(always)]
fn four_at(bytes: &[u8], i: usize) -> u32
    requires { i + 4 ≤ length bytes.now }
    ensures { result ≡ word_at bytes.now i }
{
    word(&bytes[i..i + 4], 0)
}

/// The last `n` of the four bytes from `i` on, as a word.
#[inline(always)]
fn last_of_four(bytes: &[u8], i: usize, n: usize) -> u32
    requires within { i + 4 ≤ length bytes.now }
    requires few { n ≤ 4 }
    ensures { result ≡ word_at bytes.now i / 2 ^ (8 * (4 - n)) }
{
    (u64::from(four_at(bytes, i)) >> (8 * (4 - n))) as u32
}

/// The words of a tail of 4 to 11 bytes. Each is read from four bytes of the tail, without a branch on its length.
#[inline(always)]
fn long_tail(rest: &[u8]) -> Addends
    requires { (4 ≤ length rest.now) × (length rest.now < 12) }
    ensures a { result.a ≡ word_at rest.now 0 }
    ensures b { result.b ≡ word_at rest.now 4 }
    ensures c { result.c ≡ 256 * slice_index rest.now 8 + 65536 * slice_index rest.now 9 + 16777216 * slice_index rest.now 10 }
{
    let n = rest.len();
    let second = (n - 4).min(4);
    let third = n.saturating_sub(8);
    Addends {
        a: four_at(rest, 0),
        b: last_of_four(rest, second, second),
        c: 256 * last_of_four(rest, n - 4, third),
    }
}

/// The words of a key's tail, which is what is left after its blocks of 12 bytes. The lowest byte of `c` is left to the length of the key.
#[inline(always)]
fn tail_of(key: &[u8], rest: &[u8]) -> Addends
    requires { rest.now ≡ drop (length key.now / 12 * 12) key.now }
    ensures a { result.a ≡ word_at rest.now 0 }
    ensures b { result.b ≡ word_at rest.now 4 }
    ensures c { result.c ≡ 256 * slice_index rest.now 8 + 65536 * slice_index rest.now 9 + 16777216 * slice_index rest.now 10 }
{
    let n = rest.len();
    if n >= 4 {
        return long_tail(rest);
    }
    let last = if key.len() < 12 {
        word(rest, 0)
    } else {
        last_of_four(key, key.len() - 4, n)
    };
    Addends {
        a: last,
        b: 0,
        c: 0,
    }
}

/// Absorbs the tail of a key.
#[inline(always)]
#[tactic(auto, unfolding(cm_spec::specs::Lookup2::finish))]
fn finish(key: &[u8], rest: &[u8], s: Mixing) -> Mixing
    requires { rest.now ≡ drop (length key.now / 12 * 12) key.now }
    ensures { result ≡ finished rest.now (length key.now) s }
{
    let low = (key.len() % 0x1_0000_0000) as u32;
    let last = tail_of(key, rest);
    mix(Mixing {
        a: s.a.wrapping_add(last.a),
        b: s.b.wrapping_add(last.b),
        c: s.c.wrapping_add(low).wrapping_add(last.c),
    })
}

/// The three hash values of a key under a seed, for any key and any seed.
#[inline(always)]
#[tactic(auto, unfolding(cm_spec::specs::Lookup2::words))]
pub fn words(key: &[u8], seed: u32) -> [u32; 3]
    ensures words { result ≡ words_of key.now seed }
{
    let mut s = Mixing {
        a: 0x9e37_79b9,
        b: 0x9e37_79b9,
        c: seed,
    };
    let (blocks, rest) = key.as_chunks::<12>();
    for block in blocks {
        s = absorb(s, block);
    }
    let s = finish(key, rest, s);
    [s.a, s.b, s.c]
}
