//! What a CHM function in lent bytes returns.
ghost use Rattle.std.specs.Prelude.{◌≡◌, ℕ, List, Option, Some};
ghost use Rattle.cm_chm.specs.Places.{chm_place};
ghost use Rattle.cm_spec.specs.Chm.{chm_answer};
ghost use Rattle.cm_spec.specs.Lookup2.{words as words_of};

use crate::answers::{number_of, place_of_words};
use crate::lent::LentChm;
use cm_algo_scheme::{Answers, Place};
use cm_bits::Lookup;
use cm_lookup2::{words, words_of_four};

impl<'a> LentChm<'a> {
    /// Where a key of these hash values is looked up.
    #[inline(always)]
    fn place_in(&self, words: [u32; 3]) -> Place
        ensures place { (key : List ℕ) → words ≡ words_of key self.now.seed → result ≡ chm_place self.now key }
    {
        place_of_words(words, self.cells().len(), &self.by_vertices())
    }
}

/// Every key gets a number below the number of keys: that of `Chm`.
impl<'a> Answers for LentChm<'a> {
    ghost span_of = { λ f. f.keys };

    ghost place_of = { λ f key. chm_place f key };

    ghost answer_of = { λ f key. Some (chm_answer f key) };

    fn span(&self) -> u32 {
        self.keys()
    }

    fn place(&self, key: &[u8]) -> Place {
        self.place_in(words(key, self.seed()))
    }

    fn places_of_four(&self, p: &[u8], q: &[u8], r: &[u8], t: &[u8]) -> [Place; 4] {
        let seed = self.seed();
        let hashed = words_of_four(p, q, r, t, [seed, seed, seed, seed]);
        [
            self.place_in(hashed.at(0)),
            self.place_in(hashed.at(1)),
            self.place_in(hashed.at(2)),
            self.place_in(hashed.at(3)),
        ]
    }

    fn answer_at(&self, place: &Place) -> Option<u32> {
        Some(number_of(&self.cells(), place, &self.by_keys()))
    }
}
