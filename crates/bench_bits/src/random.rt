//! Numbers that look random and can be computed in any order.
ghost use Rattle.std.specs.Prelude.{◌<◌};

/// Number `turn` of a fixed sequence that looks random.
#[inline]
pub fn random(turn: u32) -> u32 {
    let x = turn.wrapping_mul(0x9e37_79b1);
    let x = (x ^ (x >> 15)).wrapping_mul(0x85eb_ca77);
    x ^ (x >> 13)
}

/// A number below n, spread as evenly as x is.
#[inline]
pub fn below(x: u32, n: u32) -> u32
    requires { 0 < n }
    ensures { result < n }
{
    ((x as u64 * n as u64) / 0x1_0000_0000) as u32
}
