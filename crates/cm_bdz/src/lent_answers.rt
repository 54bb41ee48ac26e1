//! What functions by BDZ and BDZ_PH in lent bytes return.
ghost use Rattle.std.specs.Prelude.{◌≡◌, ◌<◌, IfSome, Option, Some, length};
ghost use Rattle.cm_bdz.specs.Functions.{bdz_ph_answer};
ghost use Rattle.cm_bdz.specs.Lent.{held_answer, held_rank};
ghost use Rattle.cm_bdz.specs.Places.{bdz_place};
ghost use Rattle.cm_spec.specs.Lookup2 as lookup2;

use crate::choice::{chosen_among, chosen_by_all};
use crate::lent::LentBdz;
use crate::lent_ph::LentBdzPh;
use crate::scheme::{place_in, places_of};
use cm_algo_scheme::{Answers, MOST_PLACES, Place};
use cm_bits::Lookup;
use cm_lookup2::words;

/// The number of a vertex, by the sample of its block. None if its cell is 3, or the number is not below the number of keys.
#[inline]
fn rank_of(function: &LentBdz<'_>, v: u32) -> Option<u32>
    requires inside { v < length function.now.function.cells }
    ensures rank { result ≡ held_rank function.now v }
    ensures below { IfSome result (λ rank. rank < function.now.function.keys) }
{
    let cells = function.cells();
    if cells.get(v) == 3 {
        return None;
    }
    let rank = function.ranks().rank(&cells, v);
    if rank < function.keys() {
        Some(rank)
    } else {
        None
    }
}

/// A key gets a number below the number of keys, or none: that of `Bdz` if the ranks are those of the cells.
impl<'a> Answers for LentBdz<'a> {
    ghost span_of = { λ f. f.function.keys };

    ghost place_of = { λ f key. bdz_place (lookup2.words key f.function.seed) (length f.function.cells) };

    ghost answer_of = { λ f key. held_answer f key };

    fn span(&self) -> u32 {
        self.keys()
    }

    fn place(&self, key: &[u8]) -> Place {
        place_in(words(key, self.seed()), &self.third())
    }

    fn places_of_four(&self, p: &[u8], q: &[u8], r: &[u8], t: &[u8]) -> [Place; 4] {
        places_of(p, q, r, t, self.seed(), &self.third())
    }

    fn answer_at(&self, place: &Place) -> Option<u32> {
        rank_of(self, chosen_among(&self.cells(), place))
    }

    // The cells of all places come first, and then the ranks.
    fn answer_all(&self, places: &[Place], answers: &mut [Option<u32>]) {
        let mut vertices = [0; MOST_PLACES];
        chosen_by_all(&self.cells(), places, &mut vertices);
        for i in 0..places.len() {
            answers[i] = rank_of(self, vertices[i]);
        }
    }
}

/// Every key gets a vertex: that of `BdzPh`.
impl<'a> Answers for LentBdzPh<'a> {
    ghost span_of = { λ f. length f.cells };

    ghost place_of = { λ f key. bdz_place (lookup2.words key f.seed) (length f.cells) };

    ghost answer_of = { λ f key. Some (bdz_ph_answer f key) };

    fn span(&self) -> u32 {
        self.cells().len()
    }

    fn place(&self, key: &[u8]) -> Place {
        place_in(words(key, self.seed()), &self.third())
    }

    fn places_of_four(&self, p: &[u8], q: &[u8], r: &[u8], t: &[u8]) -> [Place; 4] {
        places_of(p, q, r, t, self.seed(), &self.third())
    }

    fn answer_at(&self, place: &Place) -> Option<u32> {
        Some(chosen_among(&self.cells(), place))
    }
}
