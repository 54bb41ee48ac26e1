//! Keys that are taken together, each with its line.
ghost use Rattle.std.specs.Prelude.{◌≡◌, ◌⊎◌, ◌<◌, ◌≤◌, ◌+◌, ◌++◌, ℕ, List, [], ◌∷◌, length, map, slice_index_or, All, Option, IfSome, Ok, IfOk, OnErr, true, false, IsTrue, Some};
ghost use Rattle.std.specs.Option.{ForSome};
ghost use Rattle.cm_query_batch.specs.Waiting.{FillsBatch, Takes};
ghost use Rattle.cm_query_batch.specs.declared.taken.TheConstants.{MOST_KEYS};

use arrayvec::ArrayVec;
use cm_algo_scheme::{Answers, Place};
use cm_io::{KeyBuf, KeyFault, KeyPass, MAX_KEY_LEN, MAX_KEYS};
use std::marker::Model;

/// How many keys are taken together at most.
pub const MOST_KEYS: usize = 32;

/// How many bytes they have at most. A key is taken only if half of that is free, so each has room.
const ROOM: usize = 2 * MAX_KEY_LEN;

/// Where the bytes of a key stand, with its line.
#[derive(Clone, Copy, Default)]
pub(crate) struct Spot {
    line: u32,
    from: usize,
    until: usize,
}

/// Keys that are taken together. Clauses see each with its line, and how many bytes they have.
#[derive(Drop)]
pub(crate) struct Taken {
    bytes: ArrayVec<u8, ROOM>,
    spots: ArrayVec<Spot, MOST_KEYS>,
}

impl Model for Taken {
    ghost use Rattle.std.specs.Prelude.{length, map, All};
    ghost use Rattle.cm_query_batch.specs.Waiting.{StandsIn, TakenKeys, key_in};

    ghost Value = { TakenKeys };

    ghost view = { λ t. record { keys = map (key_in t.bytes.items) t.spots.items; bytes = length t.bytes.items } };

    ghost invariant = { λ t. All (StandsIn t.bytes.items) t.spots.items };
}

/// Makes room for as many answers, which are none so far.
fn make_room(answers: &mut ArrayVec<Option<u32>, MOST_KEYS>, count: usize)
    requires few { count ≤ MOST_KEYS }
    ensures room { length answers.new.items ≡ count }
{
    answers.clear();
    for i in 0..count {
        answers.push(None);
    }
}

impl Taken {
    ghost use Rattle.cm_query_batch.specs.declared.taken.TheConstants.{MOST_KEYS, ROOM};

    /// No keys.
    pub(crate) fn new() -> Taken
        ensures none { result.keys ≡ [] }
    {
        Taken {
            bytes: ArrayVec::new(),
            spots: ArrayVec::new(),
        }
    }

    /// Removes the keys.
    pub(crate) fn clear(&mut self)
        ensures none { self.new.keys ≡ [] }
        ensures bytes { self.new.bytes ≡ 0 }
    {
        self.bytes.clear();
        self.spots.clear();
    }

    /// Whether one more key of any length has room.
    fn has_room(&self) -> bool
        ensures few { result ≡ true → length self.now.keys < MOST_KEYS }
        ensures room { result ≡ true → self.now.bytes + MAX_KEY_LEN ≤ ROOM }
        ensures full { result ≡ false → (MOST_KEYS ≤ length self.now.keys) ⊎ (ROOM < self.now.bytes + MAX_KEY_LEN) }
    {
        !self.spots.is_full() && self.bytes.len() <= MAX_KEY_LEN
    }

    /// Adds a key with its line.
    fn add(&mut self, line: u32, key: &[u8])
        requires few { length self.old.keys < MOST_KEYS }
        requires room { self.old.bytes + length key.now ≤ ROOM }
        ensures keys { self.new.keys ≡ self.old.keys ++ (line, key.now) ∷ [] }
        ensures bytes { self.new.bytes ≡ self.old.bytes + length key.now }
    {
        let from = self.bytes.len();
        if self.bytes.try_extend_from_slice(key).is_err() {
            unreachable!();
        }
        self.spots.push(Spot {
            line,
            from,
            until: self.bytes.len(),
        });
    }

    /// Takes the next key of a pass, if it is buffered. If it isn't, the keys and the pass stay as they are. Runs for each key, so it is
    /// inlined into each caller.
    #[inline(always)]
    fn take_next<P: KeyPass>(&mut self, keys: &mut P) -> bool
        requires usable { IsTrue (P.usable keys.old) }
        requires few { length self.old.keys < MOST_KEYS }
        requires room { self.old.bytes + MAX_KEY_LEN ≤ ROOM }
        ensures told { P.told keys.new ≡ P.told keys.old }
        ensures cause { P.faults keys.new ≡ P.faults keys.old }
        ensures usable { P.usable keys.new ≡ true }
        ensures few { result ≡ true → P.place keys.new ≤ MAX_KEYS }
        ensures one { result ≡ true → (length self.new.keys ≡ length self.old.keys + 1) × (P.place keys.new ≡ P.place keys.old + 1) }
        ensures takes { ForSome (P.told keys.old) (λ told. Takes told (P.place keys.old) (P.place keys.new) self.old.keys self.new.keys) }
        ensures unchanged { result ≡ false → (self.new ≡ self.old) × (keys.new ≡ keys.old) }
        ensures at_hand { (key : List ℕ) → P.stands keys.old key → result ≡ true }
    {
        let (line, key) = match keys.peek() {
            Some(next) => next,
            None => return false,
        };
        let len = key.len();
        self.add(line, key);
        keys.pass(len);
        true
    }

    /// Takes the first key: the next of a pass if it is buffered, or else the one that `next` yields. Returns false if there is none, and
    /// fails if the pass does. It does neither if a key is buffered.
    pub(crate) fn take_first<P: KeyPass>(
        &mut self,
        keys: &mut P,
        key: &mut KeyBuf,
    ) -> Result<bool, KeyFault>
        requires usable { IsTrue (P.usable keys.old) }
        requires none { self.old.keys ≡ [] }
        requires room { self.old.bytes ≡ 0 }
        ensures fills { FillsBatch P.KeyPass keys.old keys.new self.new.keys result }
        ensures at_hand { (key : List ℕ) → P.stands keys.old key → result ≡ Ok true }
        ensures ended { IfOk result (λ more. more ≡ false → self.new.keys ≡ []) }
        ensures refused { OnErr result (self.new.keys ≡ []) }
    {
        if self.take_next(keys) {
            return Ok(true);
        }
        if !keys.next(key)? {
            return Ok(false);
        }
        self.add(keys.line(), key);
        Ok(true)
    }

    /// Takes further keys of a pass that are buffered, as long as there is room.
    pub(crate) fn gather<P: KeyPass>(&mut self, keys: &mut P)
        requires usable { IsTrue (P.usable keys.old) }
        requires few { P.place keys.old ≤ MAX_KEYS }
        ensures told { P.told keys.new ≡ P.told keys.old }
        ensures cause { P.faults keys.new ≡ P.faults keys.old }
        ensures usable { P.usable keys.new ≡ true }
        ensures few { P.place keys.new ≤ MAX_KEYS }
        ensures some { length self.old.keys ≤ length self.new.keys }
        ensures counts { P.place keys.new + length self.old.keys ≡ P.place keys.old + length self.new.keys }
        ensures takes { ForSome (P.told keys.old) (λ told. Takes told (P.place keys.old) (P.place keys.new) self.old.keys self.new.keys) }
    {
        'more: while self.has_room() {
            if !self.take_next(keys) {
                return;
            }
        }
    }

    /// Where a function looks up each key, four keys at a time.
    fn place_all<A: Answers>(&self, function: &A, places: &mut ArrayVec<Place, MOST_KEYS>)
        ensures are { places.new.items ≡ map (λ k. A.place_of function.now k.1) self.now.keys }
    {
        let fours = self.len() / 4;
        places.clear();
        for i in 0..fours {
            let first = 4 * i;
            let four = function.places_of_four(
                self.key(first),
                self.key(first + 1),
                self.key(first + 2),
                self.key(first + 3),
            );
            if places.try_extend_from_slice(&four).is_err() {
                unreachable!();
            }
        }
        for i in 4 * fours..self.len() {
            places.push(function.place(self.key(i)));
        }
    }

    /// The answers of a function for all keys. All places come first, so that the cache misses of their cells overlap.
    pub(crate) fn answer_all<A: Answers>(
        &self,
        function: &A,
        answers: &mut ArrayVec<Option<u32>, MOST_KEYS>,
    )
        ensures few { length self.now.keys ≤ MOST_KEYS }
        ensures are { answers.new.items ≡ map (λ k. A.answer_of function.now k.1) self.now.keys }
        ensures inside { All (λ a. IfSome a (λ v. v < A.span_of function.now)) answers.new.items }
    {
        let mut places = ArrayVec::<Place, MOST_KEYS>::new();
        self.place_all(function, &mut places);
        make_room(answers, places.len());
        function.answer_all(places.as_slice(), answers.as_mut_slice());
    }

    /// The bytes of key i, counted from 0.
    pub(crate) fn key(&self, i: usize) -> &[u8]
        requires there { i < length self.now.keys }
        ensures key { (d : ℕ × List ℕ) → result.now ≡ (slice_index_or self.now.keys i d).1 }
    {
        let spot = &self.spots[i];
        &self.bytes[spot.from..spot.until]
    }

    /// The line of key i, counted from 0.
    pub(crate) fn line(&self, i: usize) -> u32
        requires there { i < length self.now.keys }
        ensures line { (d : ℕ × List ℕ) → result ≡ (slice_index_or self.now.keys i d).0 }
    {
        self.spots[i].line
    }

    /// How many keys there are: `MOST_KEYS` at most.
    pub(crate) fn len(&self) -> usize
        ensures len { result ≡ length self.now.keys }
        ensures few { result ≤ MOST_KEYS }
    {
        self.spots.len()
    }
}
