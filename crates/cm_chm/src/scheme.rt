//! CHM as a scheme.
ghost use Rattle.std.specs.Prelude.{◌≡◌, ◌+◌, ◌%◌, ◌<◌, false, refl};
ghost use Rattle.cm_algo_names.specs.declared.algorithm.Algorithm.TheVariants as algorithm;
ghost use Rattle.cm_spec.specs.Chm.{chm_rule};
ghost use Rattle.cm_chm.specs.ChmLaws.{chm_is_rule};

use cm_algo_names::Algorithm;
use cm_algo_scheme::{Divisor, Scheme};
use cm_bits::Fields;

/// The vertex after `v`, of `n`: the first one after the last.
fn next_vertex(v: u32, n: u32) -> u32
    requires inside { v < n }
    ensures next { result ≡ (v + 1) % n }
{
    if v + 1 == n { 0 } else { v + 1 }
}

/// Edges of two ends, and cells below the number of keys that add up to the key's number.
#[derive(Clone, Copy, Drop)]
pub struct ChmScheme {}

impl Scheme<2> for ChmScheme {
    type Table = Fields;

    ghost rule = { λ _. chm_rule };

    ghost divisor_of = { λ _ n. n };

    ghost algorithm_of = { λ _. algorithm.Chm };

    ghost KEEPS_TAGS = { false };

    ghost laws = { λ _. chm_is_rule };

    ghost ends = { λ _. refl };

    ghost untagged = { λ _ _ _. refl };

    ghost bound_fits = { λ _ m many. many };

    const KEEPS_TAGS: bool = false;

    fn algorithm(&self) -> Algorithm {
        Algorithm::Chm
    }

    fn size(&self, m: u32, c: u32) -> u32 {
        let n = (c as u64 * m as u64).div_ceil(1_000_000);
        if n < 2 { 2 } else { n as u32 }
    }

    fn divisor(&self, n: u32) -> Divisor {
        Divisor::new(n)
    }

    fn edge(&self, words: [u32; 3], n: u32, divisor: &Divisor) -> [u32; 2] {
        let first = divisor.rem(words[0]);
        let second = divisor.rem(words[1]);
        if first == second {
            [first, next_vertex(first, n)]
        } else {
            [first, second]
        }
    }

    fn tag(&self, _words: [u32; 3]) -> u32 {
        0
    }

    fn modulus(&self, m: u32) -> u32 {
        m
    }

    fn bound(&self, m: u32) -> u32 {
        m
    }

    fn idle(&self) -> u32 {
        0
    }

    fn target(&self, number: u32, _position: u32, _tag: u32) -> u32 {
        number
    }
}
