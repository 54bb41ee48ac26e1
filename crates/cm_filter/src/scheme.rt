//! The filter as a scheme.
ghost use Rattle.std.specs.Prelude.{◌≡◌, ◌%◌, ◌/◌, ◌^◌, true, refl};
ghost use Rattle.cm_algo_names.specs.declared.algorithm.Algorithm.TheVariants as algorithm;
ghost use Rattle.cm_filter.specs.FilterLaws.{bound_fits, filter_is_rule};
ghost use Rattle.cm_filter.specs.Filters.{IsFingerprint, filter_rule, fingerprint};

use cm_algo_names::Algorithm;
use cm_algo_scheme::{Divisor, Scheme};
use cm_bdz::BdzScheme;
use cm_bits::Fields;

/// The fingerprint of `w` bits of a key, by its hash values: the highest `w` bits of their xor.
#[inline(always)]
pub(crate) fn fingerprint(words: [u32; 3], w: u8) -> u32
    requires width { IsFingerprint w }
    ensures fingerprint { result ≡ fingerprint w words }
{
    (words[0] ^ words[1] ^ words[2]) >> (32 - w as u32)
}

/// The lowest `w` bits of a number.
#[inline(always)]
pub(crate) fn lowest(number: u32, w: u8) -> u32
    requires width { IsFingerprint w }
    ensures lowest { result ≡ number % 2 ^ w }
{
    number & ((1 << w as u32) - 1)
}

/// Edges of three ends, which are those of BDZ, and cells of `w` bits that add up to the fingerprint of the key, modulo `2^w`.
#[derive(Drop)]
pub struct FilterScheme {
    /// The number of bits of a fingerprint, from `MIN_FINGERPRINT` to `MAX_FINGERPRINT`.
    pub w: u8,
    ghost within: { IsFingerprint w },
}

impl FilterScheme {
    /// The scheme of fingerprints of `w` bits, from `MIN_FINGERPRINT` to `MAX_FINGERPRINT`.
    pub fn new(w: u8) -> FilterScheme
        requires width { IsFingerprint w }
        ensures width { result.w ≡ w }
    {
        FilterScheme { w }
    }
}

/// Its graph is that of BDZ, and so are its reports.
impl Scheme<3> for FilterScheme {
    type Table = Fields;

    ghost rule = { λ s. filter_rule s.w };

    ghost divisor_of = { λ _ n. n / 3 };

    ghost algorithm_of = { λ _. algorithm.Bdz };

    ghost KEEPS_TAGS = { true };

    ghost laws = { λ s. filter_is_rule s.w };

    ghost ends = { λ _. refl };

    ghost untagged = { λ s hashed kept. absurd (cc kept) };

    ghost bound_fits = { λ s m many. bound_fits s.w s.within };

    const KEEPS_TAGS: bool = true;

    fn algorithm(&self) -> Algorithm {
        Algorithm::Bdz
    }

    fn size(&self, m: u32, c: u32) -> u32 {
        BdzScheme {}.size(m, c)
    }

    fn divisor(&self, n: u32) -> Divisor {
        BdzScheme {}.divisor(n)
    }

    fn edge(&self, words: [u32; 3], n: u32, divisor: &Divisor) -> [u32; 3] {
        BdzScheme {}.edge(words, n, divisor)
    }

    fn tag(&self, words: [u32; 3]) -> u32 {
        fingerprint(words, self.w)
    }

    fn modulus(&self, _m: u32) -> u32 {
        1 << self.w as u32
    }

    fn bound(&self, _m: u32) -> u32 {
        1 << self.w as u32
    }

    fn idle(&self) -> u32 {
        0
    }

    fn target(&self, _number: u32, _position: u32, tag: u32) -> u32 {
        lowest(tag, self.w)
    }
}
