//! What functions by BRZ return.
ghost use Rattle.std.specs.Prelude.{Option};
ghost use Rattle.cm_brz_func.specs.Functions.{brz_answer};
ghost use Rattle.cm_brz_func.specs.Places.{brz_place};

use crate::brz::Brz;
use crate::buckets::flip;
use cm_algo_scheme::{Answers, Place};
use cm_lookup2::{words, words_of_four};

/// A key that the function was built over gets a number below the number of keys, and no other of these keys the same. Another
/// key gets any number, or none.
impl Answers for Brz {
    ghost span_of = { λ f. f.keys };

    ghost place_of = { λ f key. brz_place f key };

    ghost answer_of = { λ f key. brz_answer f key };

    fn span(&self) -> u32 {
        self.keys()
    }

    fn place(&self, key: &[u8]) -> Place {
        let j = self.bucket_in(words(key, flip(self.split())));
        self.place_in(j, words(key, self.seed_of(j)))
    }

    fn places_of_four(&self, p: &[u8], q: &[u8], r: &[u8], t: &[u8]) -> [Place; 4] {
        let split = flip(self.split());
        let hashed = words_of_four(p, q, r, t, [split, split, split, split]);
        let j = [
            self.bucket_in(hashed.at(0)),
            self.bucket_in(hashed.at(1)),
            self.bucket_in(hashed.at(2)),
            self.bucket_in(hashed.at(3)),
        ];
        let seeds = [
            self.seed_of(j[0]),
            self.seed_of(j[1]),
            self.seed_of(j[2]),
            self.seed_of(j[3]),
        ];
        let hashed = words_of_four(p, q, r, t, seeds);
        [
            self.place_in(j[0], hashed.at(0)),
            self.place_in(j[1], hashed.at(1)),
            self.place_in(j[2], hashed.at(2)),
            self.place_in(j[3], hashed.at(3)),
        ]
    }

    fn answer_at(&self, place: &Place) -> Option<u32> {
        self.answer_in(place)
    }
}
