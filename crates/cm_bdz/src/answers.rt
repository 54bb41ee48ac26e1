//! What functions by BDZ and BDZ_PH return.
ghost use Rattle.std.specs.Prelude.{◌≡◌, ◌<◌, ◌≤◌, ℕ, IfSome, Option, Some, length, slice_index};
ghost use Rattle.cm_algo_scheme.specs.declared.answers.TheConstants.{MOST_PLACES};
ghost use Rattle.cm_bdz.specs.Choices.{sample_of};
ghost use Rattle.cm_bdz.specs.Functions.{bdz_answer, bdz_ph_answer, ranked};
ghost use Rattle.cm_bdz.specs.Places.{bdz_place};
ghost use Rattle.cm_spec.specs.Lookup2 as lookup2;

use crate::bdz::Bdz;
use crate::bdz_ph::BdzPh;
use crate::choice::{chosen_among, chosen_by_all};
use crate::scheme::{place_in, places_of};
use cm_algo_scheme::{Answers, MOST_PLACES, Place};
use cm_bits::Lookup;
use cm_lookup2::words;

/// The number of a vertex, by the sample for its cell: its rank among those whose cells are not 3. None if its cell is 3.
#[inline]
fn rank_of(function: &Bdz, v: u32, sample: u32) -> Option<u32>
    requires inside { v < length function.now.cells }
    requires sample { sample ≡ sample_of function.now v }
    ensures ranked { result ≡ ranked function.now.cells v }
    ensures below { IfSome result (λ rank. rank < function.now.keys) }
{
    let cells = function.cells();
    if cells.get(v) == 3 {
        None
    } else {
        Some(function.ranks().rank_by(cells, sample, v))
    }
}

/// The sample for the cell of a vertex.
#[inline]
fn sample_for(function: &Bdz, v: u32) -> u32
    requires inside { v < length function.now.cells }
    ensures sample { result ≡ sample_of function.now v }
{
    function.ranks().sample(v)
}

/// The samples for the cells of some vertices, each where its vertex stands. The numbers behind them are any.
fn samples_for(function: &Bdz, vertices: &[u32; MOST_PLACES], count: usize) -> [u32; MOST_PLACES]
    requires few { count ≤ MOST_PLACES }
    requires inside { (i : ℕ) → i < count → slice_index vertices.now i < length function.now.cells }
    ensures samples { (i : ℕ) → i < count → slice_index result i ≡ sample_of function.now (slice_index vertices.now i) }
{
    let mut samples = [0; MOST_PLACES];
    for i in 0..count {
        samples[i] = sample_for(function, vertices[i]);
    }
    samples
}

/// A key that the function was built over gets a number below the number of keys, and no other of these keys the same. Another
/// key gets any number, or none.
impl Answers for Bdz {
    ghost span_of = { λ f. f.keys };

    ghost place_of = { λ f key. bdz_place (lookup2.words key f.seed) (length f.cells) };

    ghost answer_of = { λ f key. bdz_answer f key };

    fn span(&self) -> u32 {
        self.keys()
    }

    fn place(&self, key: &[u8]) -> Place {
        place_in(words(key, self.seed()), self.third())
    }

    fn places_of_four(&self, p: &[u8], q: &[u8], r: &[u8], t: &[u8]) -> [Place; 4] {
        places_of(p, q, r, t, self.seed(), self.third())
    }

    fn answer_at(&self, place: &Place) -> Option<u32> {
        let v = chosen_among(self.cells(), place);
        rank_of(self, v, sample_for(self, v))
    }

    // The cells of all places come first, then the samples for all, and then the counts, so that the cache misses of each step overlap.
    fn answer_all(&self, places: &[Place], answers: &mut [Option<u32>]) {
        let mut vertices = [0; MOST_PLACES];
        chosen_by_all(self.cells(), places, &mut vertices);
        let samples = samples_for(self, &vertices, places.len());
        for i in 0..places.len() {
            answers[i] = rank_of(self, vertices[i], samples[i]);
        }
    }
}

/// Every key gets a vertex: a key that the function was built over one that no other of these keys gets.
impl Answers for BdzPh {
    ghost span_of = { λ f. length f.cells };

    ghost place_of = { λ f key. bdz_place (lookup2.words key f.seed) (length f.cells) };

    ghost answer_of = { λ f key. Some (bdz_ph_answer f key) };

    fn span(&self) -> u32 {
        self.cells().len()
    }

    fn place(&self, key: &[u8]) -> Place {
        place_in(words(key, self.seed()), self.third())
    }

    fn places_of_four(&self, p: &[u8], q: &[u8], r: &[u8], t: &[u8]) -> [Place; 4] {
        places_of(p, q, r, t, self.seed(), self.third())
    }

    fn answer_at(&self, place: &Place) -> Option<u32> {
        Some(chosen_among(self.cells(), place))
    }
}
