//! What a CHM function returns.
ghost use Rattle.std.specs.Prelude.{◌≡◌, ◌+◌, ◌%◌, ◌<◌, ◌≤◌, ◌++◌, ◌∷◌, [], ℕ, List, Option, Some, length, slice_index};
ghost use Rattle.cm_chm.specs.Places.{chm_place};
ghost use Rattle.cm_spec.specs.Chm.{chm_answer, chm_edge, chm_rule};
ghost use Rattle.cm_spec.specs.Lookup2.{words as words_of};
ghost use Rattle.cm_spec.specs.Rule.{IsSize};
ghost use Rattle.cm_spec.specs.declared.limits.TheConstants.{MAX_KEYS};

use crate::chm::Chm;
use crate::scheme::ChmScheme;
use cm_algo_scheme::{Answers, Divisor, Place, Scheme};
use cm_bits::Lookup;
use cm_lookup2::{words, words_of_four};

/// Where a key of these hash values is looked up, among `n` cells.
#[inline(always)]
pub(crate) fn place_of_words(words: [u32; 3], n: u32, by_vertices: &Divisor) -> Place
    requires size { IsSize chm_rule n }
    requires vertices { by_vertices.now ≡ n }
    ensures place { result ≡ chm_edge words n ++ 0 ∷ 0 ∷ [] }
{
    let ends = ChmScheme {}.edge(words, n, by_vertices);
    [ends[0], ends[1], 0, 0]
}

/// The sum of the two cells of a place, modulo the number of keys, which is the bound of the cells.
#[inline(always)]
pub(crate) fn number_of<C: Lookup>(cells: &C, place: &Place, by_keys: &Divisor) -> u32
    requires first { slice_index place.now 0 < length (C.cells cells.now) }
    requires second { slice_index place.now 1 < length (C.cells cells.now) }
    requires bound { C.bound_of cells.now ≤ MAX_KEYS }
    ensures number { result ≡ (slice_index (C.cells cells.now) (slice_index place.now 0) + slice_index (C.cells cells.now) (slice_index place.now 1)) % by_keys.now }
    ensures below { result < by_keys.now }
{
    let sum = cells.get(place[0]) + cells.get(place[1]);
    by_keys.rem(sum)
}

impl Chm {
    /// Where a key of these hash values is looked up.
    #[inline(always)]
    fn place_in(&self, words: [u32; 3]) -> Place
        ensures place { (key : List ℕ) → words ≡ words_of key self.now.seed → result ≡ chm_place self.now key }
    {
        place_of_words(words, self.cells().len(), self.by_vertices())
    }
}

/// Every key gets a number below the number of keys: a key that the function was built over gets its own.
impl Answers for Chm {
    ghost span_of = { λ f. f.keys };

    ghost place_of = { λ f key. chm_place f key };

    ghost answer_of = { λ f key. Some (chm_answer f key) };

    fn span(&self) -> u32 {
        self.keys()
    }

    fn place(&self, key: &[u8]) -> Place {
        self.place_in(words(key, self.seed()))
    }

    fn places_of_four(&self, p: &[u8], q: &[u8], r: &[u8], t: &[u8]) -> [Place; 4] {
        let seed = self.seed();
        let hashed = words_of_four(p, q, r, t, [seed, seed, seed, seed]);
        [
            self.place_in(hashed.at(0)),
            self.place_in(hashed.at(1)),
            self.place_in(hashed.at(2)),
            self.place_in(hashed.at(3)),
        ]
    }

    fn answer_at(&self, place: &Place) -> Option<u32> {
        Some(number_of(self.cells(), place, self.by_keys()))
    }
}
