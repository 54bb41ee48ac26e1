//! Numbers that look random and can be computed in any order.
ghost use Rattle.std.specs.Prelude.{◌<◌};

/// Number `turn` of a fixed sequence that looks random: the upper halves of what SplitMix64 makes.
#[inline]
pub fn random(turn: u32) -> u32 {
    let x = (turn as u64).wrapping_mul(0x9e37_79b9_7f4a_7c15);
    let x = (x ^ (x >> 30)).wrapping_mul(0xbf58_476d_1ce4_e5b9);
    let x = (x ^ (x >> 27)).wrapping_mul(0x94d0_49bb_1331_11eb);
    upper(x ^ (x >> 31))
}

// The upper half of a number.
#[inline]
fn upper(x: u64) -> u32 {
    (x / 0x1_0000_0000) as u32
}

/// A number below n, spread as evenly as x is.
#[inline]
pub fn below(x: u32, n: u32) -> u32
    requires { 0 < n }
    ensures { result < n }
{
    ((x as u64 * n as u64) / 0x1_0000_0000) as u32
}
