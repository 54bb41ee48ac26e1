//! BDZ and BDZ_PH as schemes.
ghost use Rattle.std.specs.Prelude.{◌≡◌, ℕ, ◌*◌, ◌/◌, ◌^◌, ◌<◌, ◌∷◌, [], false, refl};
ghost use Rattle.cm_algo_names.specs.declared.algorithm.Algorithm.TheVariants as algorithm;
ghost use Rattle.cm_algo_names.specs.declared.algorithm.Algorithm.{Algorithm};
ghost use Rattle.cm_algo_scheme.specs.Kinds.{HasEnds};
ghost use Rattle.cm_bdz.specs.BdzLaws.{bdz_is_rule, bdz_ph_is_rule, triple_rule};
ghost use Rattle.cm_bdz.specs.Places.{bdz_place};
ghost use Rattle.cm_spec.specs.Bdz.{bdz_edge, bdz_size};
ghost use Rattle.cm_spec.specs.Lookup2 as lookup2;
ghost use Rattle.cm_spec.specs.Rule.{IsRule, IsCount, IsRatio};

use cm_algo_names::Algorithm;
use cm_algo_scheme::{Divisor, Place, Scheme};
use cm_bits::{Cells, Crumbs, Trits};
use cm_lookup2::words_of_four;

/// The number of vertices for `m` keys and the ratio `c` in millionths: three thirds, each an odd number of at least 3 for one
/// that would be 1.
fn vertices(m: u32, c: u32) -> u32
    requires many { IsCount m }
    requires ratio { IsRatio c }
    ensures size { result ≡ bdz_size m c }
{
    let least = (c as u64 * m as u64).div_ceil(3_000_000);
    let odd = if least % 2 == 0 { least + 1 } else { least };
    let third = if odd == 1 { 3 } else { odd };
    3 * third as u32
}

/// The ends for the hash values of a key, one in each third of the vertices. `third` is the number of vertices in a third.
fn triple(words: [u32; 3], third: &Divisor) -> [u32; 3]
    requires room { 3 * third.now < 2 ^ 32 }
    ensures edge { result ≡ bdz_edge words (3 * third.now) }
{
    let n = third.value();
    [
        third.rem(words[0]),
        n + third.rem(words[1]),
        2 * n + third.rem(words[2]),
    ]
}

/// Where a function looks up a key of these hash values. `third` is a third of its number of vertices.
pub fn place_in(words: [u32; 3], third: &Divisor) -> Place
    requires room { 3 * third.now < 2 ^ 32 }
    ensures place { result ≡ bdz_place words (3 * third.now) }
{
    let ends = triple(words, third);
    [ends[0], ends[1], ends[2], 0]
}

/// Where a function of this seed looks up four keys. `third` is a third of its number of vertices.
#[inline(always)]
pub(crate) fn places_of(
    p: &[u8],
    q: &[u8],
    r: &[u8],
    t: &[u8],
    seed: u32,
    third: &Divisor,
) -> [Place; 4]
    requires room { 3 * third.now < 2 ^ 32 }
    ensures places { result ≡ bdz_place (lookup2.words p.now seed) (3 * third.now) ∷ bdz_place (lookup2.words q.now seed) (3 * third.now) ∷ bdz_place (lookup2.words r.now seed) (3 * third.now) ∷ bdz_place (lookup2.words t.now seed) (3 * third.now) ∷ [] }
{
    let hashed = words_of_four(p, q, r, t, [seed, seed, seed, seed]);
    [
        place_in(hashed.at(0), third),
        place_in(hashed.at(1), third),
        place_in(hashed.at(2), third),
        place_in(hashed.at(3), third),
    ]
}

/// What BDZ and BDZ_PH differ in: the table of their cells, and the value of an untouched one.
pub trait Variant {
    /// Where the cells are kept.
    type Table: Cells + Drop;

    ghost named: { Algorithm };

    ghost bound: { ℕ };

    ghost idle: { ℕ };

    /// The algorithm.
    fn algorithm() -> Algorithm
        ensures algorithm { result ≡ named };

    /// The bound: all cells are below it.
    fn bound() -> u32
        ensures bound { result ≡ bound };

    /// The value of an untouched cell.
    fn idle() -> u32
        ensures idle { result ≡ idle };

    ghost lawful: { IsRule 3 (triple_rule bound idle) };

    ghost fits: { Self.Table.fits bound };

    ghost ends: { HasEnds 3 named };
}

/// Edges of three ends, whose cells add up to the position of the key's own vertex, modulo 3: BDZ if they are `RANKED`, else BDZ_PH.
#[derive(Clone, Copy, Drop)]
pub struct TripleScheme<const RANKED: bool> {}

/// Cells of two bits, in which 3 is an untouched one.
impl Variant for TripleScheme<true> {
    type Table = Crumbs;

    ghost named = { algorithm.Bdz };

    ghost bound = { 4 };

    ghost idle = { 3 };

    ghost lawful = { bdz_is_rule };

    ghost fits = { refl };

    ghost ends = { refl };

    fn algorithm() -> Algorithm {
        Algorithm::Bdz
    }

    fn bound() -> u32 {
        4
    }

    fn idle() -> u32 {
        3
    }
}

/// Cells that are digits in base 3, in which 0 is an untouched one.
impl Variant for TripleScheme<false> {
    type Table = Trits;

    ghost named = { algorithm.BdzPh };

    ghost bound = { 3 };

    ghost idle = { 0 };

    ghost lawful = { bdz_ph_is_rule };

    ghost fits = { refl };

    ghost ends = { refl };

    fn algorithm() -> Algorithm {
        Algorithm::BdzPh
    }

    fn bound() -> u32 {
        3
    }

    fn idle() -> u32 {
        0
    }
}

/// BDZ.
pub type BdzScheme = TripleScheme<true>;

/// BDZ_PH.
pub type BdzPhScheme = TripleScheme<false>;

impl<const RANKED: bool> Scheme<3> for TripleScheme<RANKED>
where
    TripleScheme<RANKED>: Variant,
{
    type Table = <TripleScheme<RANKED> as Variant>::Table;

    ghost rule = { λ _. triple_rule bound-1.bound bound-1.idle };

    ghost divisor_of = { λ _ n. n / 3 };

    ghost algorithm_of = { λ _. bound-1.named };

    ghost KEEPS_TAGS = { false };

    ghost laws = { λ _. bound-1.lawful };

    ghost ends = { λ _. bound-1.ends };

    ghost untagged = { λ _ _ _. refl };

    ghost bound_fits = { λ _ m many. bound-1.fits };

    const KEEPS_TAGS: bool = false;

    fn algorithm(&self) -> Algorithm {
        <TripleScheme<RANKED> as Variant>::algorithm()
    }

    fn size(&self, m: u32, c: u32) -> u32 {
        vertices(m, c)
    }

    fn divisor(&self, n: u32) -> Divisor {
        Divisor::new(n / 3)
    }

    fn edge(&self, words: [u32; 3], _n: u32, divisor: &Divisor) -> [u32; 3] {
        triple(words, divisor)
    }

    fn tag(&self, _words: [u32; 3]) -> u32 {
        0
    }

    fn modulus(&self, _m: u32) -> u32 {
        3
    }

    fn bound(&self, _m: u32) -> u32 {
        <TripleScheme<RANKED> as Variant>::bound()
    }

    fn idle(&self) -> u32 {
        <TripleScheme<RANKED> as Variant>::idle()
    }

    fn target(&self, _number: u32, position: u32, _tag: u32) -> u32 {
        position
    }
}
