//! Keys that wait for their lines.
ghost use Rattle.std.specs.Prelude.{◌≡◌, ◌⊎◌, ◌<◌, ◌≤◌, ℕ, List, [], length, drop, slice_index_or, Option, Ok, true, false, IsTrue, ◌↔◌, OnOk, OnErr, Some, IfErr};
ghost use Rattle.std.specs.Option.{ForSome};
ghost use Rattle.cm_io.specs.Passes.{HasKeyCause};
ghost use Rattle.cm_query_batch.specs.declared.taken.TheConstants.{MOST_KEYS};
ghost use Rattle.cm_query_batch.specs.Waiting.{AreAnswers, FillsBatch, Refills, RefillsBy, WaitingKeys};

use crate::taken::{MOST_KEYS, Taken};
use arrayvec::ArrayVec;
use cm_algo_scheme::Answers;
use cm_io::{KeyBuf, KeyFault, KeyPass, MAX_KEYS};
use std::marker::Model;

/// Keys of a pass that were taken and looked up together, `MOST_KEYS` at most. They wait until they are passed, one after another in the
/// order of the pass: `refill`, read `key`, `line` and `answer` of the first that waits, and `pass`. No call allocates memory: a batch
/// has room for twice `MAX_KEY_LEN` bytes in itself. Clauses see the keys that wait, with their lines, and their answers.
#[derive(Drop)]
pub struct Batch {
    taken: Taken,
    answers: ArrayVec<Option<u32>, MOST_KEYS>,
    next: usize,
}

impl Model for Batch {
    ghost use Rattle.std.specs.Prelude.{◌≡◌, ◌≤◌, length, drop};
    ghost use Rattle.cm_query_batch.specs.Waiting.{WaitingKeys};
    ghost use Rattle.cm_query_batch.specs.declared.taken.TheConstants.{MOST_KEYS};

    ghost Value = { WaitingKeys };

    ghost view = { λ b. record { keys = drop b.next b.taken.keys; answers = drop b.next b.answers.items } };

    ghost invariant = { λ b. record {
      next : b.next ≤ length b.taken.keys;
      long : length b.answers.items ≡ length b.taken.keys;
      few : length b.taken.keys ≤ MOST_KEYS;
    } };
}

impl Batch {
    /// A batch in which no key waits.
    pub fn new() -> Batch
        ensures none { result.keys ≡ [] }
        ensures answers { result.answers ≡ [] }
    {
        Batch {
            taken: Taken::new(),
            answers: ArrayVec::new(),
            next: 0,
        }
    }

    /// Returns true if a key waits. If none does, takes and looks up the next keys of a pass: one that is buffered, or else the one that
    /// `next` yields, and those that are buffered then. Returns false if there is no further key, and fails if the pass does. It does
    /// neither if a key waits or is buffered. `key` is room for a key that isn't buffered. The pass must be usable and have yielded
    /// `MAX_KEYS` keys at most, and the keys that wait must have the answers of this function.
    #[inline]
    pub fn refill<A: Answers, P: KeyPass>(
        &mut self,
        function: &A,
        keys: &mut P,
        key: &mut KeyBuf,
    ) -> Result<bool, KeyFault>
        requires usable { IsTrue (P.usable keys.old) }
        requires few { P.place keys.old ≤ MAX_KEYS }
        requires answers { AreAnswers (A.answer_of function.now) (A.span_of function.now) self.old }
        ensures told { P.told keys.new ≡ P.told keys.old }
        ensures cause { HasKeyCause (P.faults keys.old) (P.faults keys.new) result }
        ensures failed { IfErr result (λ fault. P.failure keys.new ≡ Some fault) }
        ensures usable { OnOk result (P.usable keys.new ≡ true) }
        ensures unusable { OnErr result (P.usable keys.new ≡ false) }
        ensures few { P.place keys.new ≤ MAX_KEYS }
        ensures answers { AreAnswers (A.answer_of function.now) (A.span_of function.now) self.new }
        ensures counts { RefillsBy (P.place keys.old) (P.place keys.new) (length self.old.keys) (length self.new.keys) result }
        ensures refills { ForSome (P.told keys.old) (λ told. Refills told (P.place keys.old) (P.place keys.new) self.old.keys self.new.keys result) }
        ensures waits { 0 < length self.old.keys → (result ≡ Ok true) × (self.new ≡ self.old) × (keys.new ≡ keys.old) }
        ensures at_hand { (key : List ℕ) → P.stands keys.old key → result ≡ Ok true }
    {
        if self.next < self.taken.len() {
            return Ok(true);
        }
        self.fill(function, keys, key)
    }

    /// `refill`, if no key waits.
    fn fill<A: Answers, P: KeyPass>(
        &mut self,
        function: &A,
        keys: &mut P,
        key: &mut KeyBuf,
    ) -> Result<bool, KeyFault>
        requires usable { IsTrue (P.usable keys.old) }
        requires none { self.old.keys ≡ [] }
        ensures fills { FillsBatch P.KeyPass keys.old keys.new self.new.keys result }
        ensures answers { AreAnswers (A.answer_of function.now) (A.span_of function.now) self.new }
        ensures at_hand { (key : List ℕ) → P.stands keys.old key → result ≡ Ok true }
    {
        self.next = 0;
        self.taken.clear();
        self.answers.clear();
        if !self.taken.take_first(keys, key)? {
            return Ok(false);
        }
        self.taken.gather(keys);
        self.taken.answer_all(function, &mut self.answers);
        Ok(true)
    }

    /// Whether one key waits and no other. One must wait.
    fn is_last(&self) -> bool
        requires waits { 0 < length self.now.keys }
        ensures { IsTrue result ↔ (length self.now.keys ≡ 1) }
    {
        self.next + 1 == self.taken.len()
    }

    /// Whether no key waits after the first, and the next of the pass is not buffered. Its read may fail, so what is written of the first
    /// has to be flushed before. One must wait.
    pub fn reads_next<P: KeyPass>(&self, keys: &P) -> bool
        requires usable { IsTrue (P.usable keys.now) }
        requires waits { 0 < length self.now.keys }
        ensures reads { result ≡ true → (length self.now.keys ≡ 1) × ((key : List ℕ) → P.stands keys.now key → ⊥) }
        ensures waits { result ≡ false → (1 < length self.now.keys) ⊎ ((key : List ℕ) × P.stands keys.now key) }
    {
        self.is_last() && keys.peek().is_none()
    }

    /// The bytes of the first key that waits. One must wait.
    pub fn key(&self) -> &[u8]
        requires waits { 0 < length self.now.keys }
        ensures key { (d : ℕ × List ℕ) → result.now ≡ (slice_index_or self.now.keys 0 d).1 }
    {
        self.taken.key(self.next)
    }

    /// The line of the first key that waits, counted from 1. One must wait.
    pub fn line(&self) -> u32
        requires waits { 0 < length self.now.keys }
        ensures line { (d : ℕ × List ℕ) → result ≡ (slice_index_or self.now.keys 0 d).0 }
    {
        self.taken.line(self.next)
    }

    /// The answer to the first key that waits: a number below the span of the function, or none. One must wait.
    pub fn answer(&self) -> Option<u32>
        requires waits { 0 < length self.now.answers }
        ensures answer { (d : Option ℕ) → result ≡ slice_index_or self.now.answers 0 d }
    {
        self.answers[self.next]
    }

    /// The answers to all keys that wait, in the order of the keys: each a number below the span of the function, or none.
    pub fn answers(&self) -> &[Option<u32>]
        ensures answers { result.now ≡ self.now.answers }
        ensures few { length result.now ≤ MOST_KEYS }
    {
        &self.answers[self.next..]
    }

    /// Passes the first key that waits: it waits no more. One must wait.
    pub fn pass(&mut self)
        requires waits { 0 < length self.old.keys }
        ensures keys { self.new.keys ≡ drop 1 self.old.keys }
        ensures answers { self.new.answers ≡ drop 1 self.old.answers }
    {
        self.next += 1;
    }
}
