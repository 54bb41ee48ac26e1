//! What a function from keys to numbers is.
ghost use Rattle.std.specs.Prelude.{◌≡◌, ◌<◌, ◌≤◌, ◌∷◌, [], ℕ, List, Option, IfSome, length};
ghost use Rattle.cm_algo_scheme.specs.Answering.{ArePlaces, AnswersAll};
ghost use Rattle.cm_spec.specs.declared.limits.TheConstants.{MAX_VERTICES};

/// Where a function looks up the number of a key: the two or three vertices of the key's edge, counted from 0, and 0 in each further
/// number.
pub type Place = [u32; 4];

/// How many places are answered together at most.
pub const MOST_PLACES: usize = 32;

/// A function from keys to numbers below its span, in two steps: from a key to its place, and from the place to the number. If the
/// places of many keys are computed first, the cache misses of their cells overlap. No call takes memory.
pub trait Answers {
    ghost use Rattle.cm_algo_scheme.specs.declared.answers.TheConstants.{MOST_PLACES};

    /// The span: all numbers are below it.
    ghost span_of: { Self → ℕ };

    /// The place for the bytes of a key.
    ghost place_of: { Self → List ℕ → List ℕ };

    /// The number for the bytes of a key. A key that the function was not built over gets any number, or none.
    ghost answer_of: { Self → List ℕ → Option ℕ };

    /// The span: all numbers are below it. It is at most `MAX_VERTICES` of `cm_spec`.
    fn span(&self) -> u32
        ensures span { result ≡ span_of self.now }
        ensures few { result ≤ MAX_VERTICES };

    /// The place of a key.
    fn place(&self, key: &[u8]) -> Place
        ensures place { result ≡ place_of self.now key.now };

    /// The places of four keys, in their order. A function that hashes them at once is faster than by `place`.
    fn places_of_four(&self, p: &[u8], q: &[u8], r: &[u8], t: &[u8]) -> [Place; 4]
        ensures places { result ≡ place_of self.now p.now ∷ place_of self.now q.now ∷ place_of self.now r.now ∷ place_of self.now t.now ∷ [] }
    {
        [self.place(p), self.place(q), self.place(r), self.place(t)]
    }

    /// The number of each key of this place. None only for keys that the function was not built over.
    fn answer_at(&self, place: &Place) -> Option<u32>
        requires place { (key : List ℕ) × (place.now ≡ place_of self.now key) }
        ensures answer { (key : List ℕ) → place.now ≡ place_of self.now key → result ≡ answer_of self.now key }
        ensures inside { IfSome result (λ number. number < span_of self.now) };

    /// The numbers of the keys of these places, each where its place stands: what `answer_at` returns. There are at most `MOST_PLACES` places,
    /// and as many numbers. A function that reads one part of its memory for all keys, and then the next, is faster than by `answer_at`.
    fn answer_all(&self, places: &[Place], answers: &mut [Option<u32>])
        requires few { length places.now ≤ MOST_PLACES }
        requires room { length answers.old ≡ length places.now }
        requires places { ArePlaces (place_of self.now) places.now }
        ensures answers { AnswersAll (place_of self.now) (answer_of self.now) (span_of self.now) places.now answers.new }
    {
        for i in 0..places.len() {
            answers[i] = self.answer_at(&places[i]);
        }
    }
}

/// The number of a key. None only for keys that the function was not built over.
pub fn answer<A: Answers>(function: &A, key: &[u8]) -> Option<u32>
    ensures answer { result ≡ A.answer_of function.now key.now }
    ensures inside { IfSome result (λ number. number < A.span_of function.now) }
{
    let place = function.place(key);
    function.answer_at(&place)
}
