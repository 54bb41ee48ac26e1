//! Which keys hold.
ghost use Rattle.std.specs.Prelude.{◌≡◌, ℕ, List};
ghost use Rattle.cm_filter.specs.Filters.{filter_answer, holds};
ghost use Rattle.cm_filter.specs.Places.{filter_place};
ghost use Rattle.cm_spec.specs.Lookup2.{words as words_of};

use crate::filter::Filter;
use crate::scheme::{fingerprint, lowest};
use cm_algo_scheme::{Answers, Place, answer};
use cm_bits::Cells;
use cm_lookup2::{words, words_of_four};

impl Filter {
    /// Whether a key holds: each key that the filter was built over does, and of the others about one in `2^w`.
    pub fn holds(&self, key: &[u8]) -> bool
        ensures holds { result ≡ holds self.now key.now }
    {
        answer(self, key).is_some()
    }

    /// Where a key of these hash values is looked up: the ends of its edge, and its fingerprint.
    #[inline(always)]
    fn place_in(&self, words: [u32; 3]) -> Place
        ensures place { (key : List ℕ) → words ≡ words_of key self.now.seed → result ≡ filter_place self.now key }
    {
        let ends = cm_bdz::place_in(words, self.third());
        [ends[0], ends[1], ends[2], fingerprint(words, self.w())]
    }
}

/// A key that holds gets 0, and another one none.
impl Answers for Filter {
    ghost span_of = { λ _. 1 };

    ghost place_of = { λ f key. filter_place f key };

    ghost answer_of = { λ f key. filter_answer f key };

    fn span(&self) -> u32 {
        1
    }

    fn place(&self, key: &[u8]) -> Place {
        self.place_in(words(key, self.seed()))
    }

    fn places_of_four(&self, p: &[u8], q: &[u8], r: &[u8], t: &[u8]) -> [Place; 4] {
        let seed = self.seed();
        let hashed = words_of_four(p, q, r, t, [seed, seed, seed, seed]);
        [
            self.place_in(hashed.at(0)),
            self.place_in(hashed.at(1)),
            self.place_in(hashed.at(2)),
            self.place_in(hashed.at(3)),
        ]
    }

    fn answer_at(&self, place: &Place) -> Option<u32> {
        let cells = self.cells();
        let sum = cells.get(place[0]) + cells.get(place[1]) + cells.get(place[2]);
        if lowest(sum, self.w()) == lowest(place[3], self.w()) {
            Some(0)
        } else {
            None
        }
    }
}
