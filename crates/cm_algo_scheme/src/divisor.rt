//! Remainders by a fixed number, with multiplications in place of each division.
ghost use Rattle.std.specs.Prelude.{◌≡◌, ◌↔◌, ℕ, ◌/◌, ◌%◌, ◌^◌, ◌<◌, IfSome, IsSome};

use std::marker::Model;

/// A number from 1 to `2^32 - 1` to take remainders by. Its reciprocal is kept beside it, so that a remainder costs two
/// multiplications and no division (Barrett 1986, "Implementing the Rivest Shamir and Adleman public key encryption algorithm on
/// a standard digital signal processor"). Clauses see the number.
#[derive(Clone, Copy, Drop)]
pub struct Divisor {
    n: u32,
    // `2^32 / n`, rounded down.
    scaled: u64,
}

impl Model for Divisor {
    ghost Value = { ℕ };

    ghost view = { λ d. d.n };

    ghost invariant = { λ d. (0 < d.n) × (d.scaled ≡ 2 ^ 32 / d.n) };

    ghost inverse = { λ n. record { n = n; scaled = 2 ^ 32 / n } };
}

impl Divisor {
    /// Takes the reciprocal of `n`, which is not 0. This is the one division.
    pub fn new(n: u32) -> Divisor
        requires some { 0 < n }
        ensures value { result ≡ n }
    {
        Divisor {
            n,
            scaled: 4_294_967_296 / n as u64,
        }
    }

    /// The divisor of `n`, which is not 0, by its reciprocal `2^32 / n`, rounded down, as `scaled` gives it. Nothing is divided.
    pub fn again(n: u32, scaled: u64) -> Divisor
        requires some { 0 < n }
        requires scaled { scaled ≡ 2 ^ 32 / n }
        ensures value { result ≡ n }
    {
        Divisor { n, scaled }
    }

    /// The reciprocal: `2^32` divided by the number, rounded down, from 1 to `2^32`.
    pub fn scaled(&self) -> u64
        ensures scaled { result ≡ 2 ^ 32 / self.now }
    {
        self.scaled
    }

    /// The number `n`, if `scaled` is its reciprocal: `2^32 / n`, rounded down. None if it isn't, and if `n` is 0. It multiplies, and makes
    /// no division.
    #[inline]
    pub fn known(n: u32, scaled: u64) -> Option<Divisor>
        ensures value { IfSome result (λ d. d ≡ n) }
        ensures known { IsSome result ↔ ((0 < n) × (scaled ≡ 2 ^ 32 / n)) }
    {
        let whole = 4_294_967_296u64;
        if n == 0 || scaled > whole {
            return None;
        }
        let product = scaled * n as u64;
        if product <= whole && whole - product < n as u64 {
            Some(Divisor { n, scaled })
        } else {
            None
        }
    }

    /// The number itself.
    pub fn value(&self) -> u32
        ensures value { result ≡ self.now }
        ensures some { 0 < result }
    {
        self.n
    }

    /// The remainder of any `x` by this number, and so below it.
    #[inline]
    pub fn rem(&self, x: u32) -> u32
        ensures remainder { result ≡ x % self.now }
        ensures below { result < self.now }
    {
        let n = self.n as u64;
        // The quotient is the true one, or one less.
        let quotient = (x as u64 * self.scaled) >> 32;
        let left = x as u64 - quotient * n;
        // A difference below zero wraps around, and is then the greater of the two: no branch depends on the remainder.
        left.min(left.wrapping_sub(n)) as u32
    }

    /// The remainder of any `x` by this number. Divides only if `x` is `2^32` or more.
    #[inline]
    pub fn rem_wide(&self, x: u64) -> u32
        ensures remainder { result ≡ x % self.now }
        ensures below { result < self.now }
    {
        match u32::try_from(x) {
            Ok(small) => self.rem(small),
            Err(_) => (x % self.n as u64) as u32,
        }
    }
}
