//! Lines that wait to be answered.
ghost use Rattle.std.specs.Prelude.{◌≡◌, ◌⊎◌, ◌<◌, ◌≤◌, ℕ, List, [], length, drop, slice_index_or, Option, Ok, Err, true, false, IsTrue, ◌↔◌, OnOk};
ghost use Rattle.std.specs.Option.{ForSome};
ghost use Rattle.cm_keys.specs.Streams.{HasLineCause, IsBuffered, told_by};
ghost use Rattle.cm_keys.specs.declared.lines.LineFault.TheVariants as line_fault;
ghost use Rattle.cm_keys.specs.declared.lines.TheConstants.{MAX_LINES};
ghost use Rattle.cm_query_batch.specs.Waiting.{AreAnswers, WaitingKeys};
ghost use Rattle.cm_shards_files.specs.Shards.{number_in, total_of};
ghost use Rattle.cm_shards_query.specs.Taking.{RefillsLines, RefillsLinesBy};

use crate::taking::{gather, take_first};
use arrayvec::ArrayVec;
use cm_io::{KeyBuf, Source};
use cm_keys::{LineFault, Lines};
use cm_shards_files::{MOST_KEYS, ShardKeys, Shards};
use std::marker::Model;

/// Lines that were taken and looked up together. They wait until they are passed, one after another: `refill`, read `key`, `line` and
/// `number` of the first that waits, and `pass`. No call allocates memory. Clauses see the lines that wait, and their numbers.
#[derive(Drop)]
pub(crate) struct Batch {
    keys: ShardKeys,
    numbers: ArrayVec<Option<u64>, MOST_KEYS>,
    /// How many lines came before the first of the keys.
    before: u64,
    next: usize,
}

impl Model for Batch {
    ghost use Rattle.std.specs.Prelude.{◌≡◌, ◌≤◌, ◌+◌, length, drop};
    ghost use Rattle.cm_keys.specs.declared.lines.TheConstants.{MAX_LINES};
    ghost use Rattle.cm_query_batch.specs.Waiting.{WaitingKeys};
    ghost use Rattle.cm_shards_files.specs.declared.taken.TheConstants.{MOST_KEYS};
    ghost use Rattle.cm_shards_query.specs.Taking.{numbered};

    ghost Value = { WaitingKeys };

    ghost view = { λ b. record { keys = drop b.next (numbered b.before b.keys); answers = drop b.next b.numbers.items } };

    ghost invariant = { λ b. record {
      next : b.next ≤ length b.keys;
      long : length b.numbers.items ≡ length b.keys;
      few : length b.keys ≤ MOST_KEYS;
      lines : b.before + length b.keys ≤ MAX_LINES;
    } };
}

impl Batch {
    /// A batch in which no line waits.
    pub(crate) fn new() -> Batch
        ensures none { result.keys ≡ [] }
        ensures answers { result.answers ≡ [] }
    {
        Batch {
            keys: ShardKeys::new(),
            numbers: ArrayVec::new(),
            before: 0,
            next: 0,
        }
    }

    /// Returns true if a line waits. If none does, takes and looks up the next lines: one that is buffered, or else the one that is read,
    /// and those that are buffered then. Returns false if there is no further line, and fails if the lines do. It does neither if a line
    /// waits or is buffered. `key` is room for a line that isn't buffered. The lines that wait must have the numbers of these shards.
    #[inline]
    pub(crate) fn refill<S: Source>(
        &mut self,
        shards: &Shards,
        lines: &mut Lines<S>,
        key: &mut KeyBuf,
    ) -> Result<bool, LineFault>
        requires usable { IsTrue lines.old.usable }
        requires few { lines.old.count ≤ MAX_LINES }
        requires answers { AreAnswers (number_in shards.now) (total_of shards.now) self.old }
        ensures told { told_by lines.new ≡ told_by lines.old }
        ensures cause { HasLineCause lines.old.faults lines.new.faults result }
        ensures usable { OnOk result (lines.new.usable ≡ true) }
        ensures few { lines.new.count ≤ MAX_LINES }
        ensures long { result ≡ Err line_fault.TooLong → lines.new.count < MAX_LINES }
        ensures answers { AreAnswers (number_in shards.now) (total_of shards.now) self.new }
        ensures counts { RefillsLinesBy lines.old.count lines.new.count (length self.old.keys) (length self.new.keys) result }
        ensures refills { ForSome (told_by lines.old) (λ told. RefillsLines told lines.old.count lines.new.count self.old.keys self.new.keys result) }
        ensures waits { 0 < length self.old.keys → result ≡ Ok true }
        ensures buffered { (key : List ℕ) → IsBuffered lines.old key → result ≡ Ok true }
    {
        if self.next < self.keys.len() {
            return Ok(true);
        }
        self.fill(shards, lines, key)
    }

    /// `refill`, if no line waits.
    fn fill<S: Source>(
        &mut self,
        shards: &Shards,
        lines: &mut Lines<S>,
        key: &mut KeyBuf,
    ) -> Result<bool, LineFault>
        requires usable { IsTrue lines.old.usable }
        requires few { lines.old.count ≤ MAX_LINES }
        requires none { self.old.keys ≡ [] }
        ensures told { told_by lines.new ≡ told_by lines.old }
        ensures cause { HasLineCause lines.old.faults lines.new.faults result }
        ensures usable { OnOk result (lines.new.usable ≡ true) }
        ensures few { lines.new.count ≤ MAX_LINES }
        ensures long { result ≡ Err line_fault.TooLong → lines.new.count < MAX_LINES }
        ensures answers { AreAnswers (number_in shards.now) (total_of shards.now) self.new }
        ensures counts { RefillsLinesBy lines.old.count lines.new.count 0 (length self.new.keys) result }
        ensures refills { ForSome (told_by lines.old) (λ told. RefillsLines told lines.old.count lines.new.count [] self.new.keys result) }
        ensures buffered { (key : List ℕ) → IsBuffered lines.old key → result ≡ Ok true }
    {
        self.next = 0;
        self.before = 0;
        self.keys.clear();
        self.numbers.clear();
        match take_first(&mut self.keys, lines, key) {
            Ok(true) => {}
            Ok(false) => return Ok(false),
            Err(fault) => return Err(fault),
        }
        gather(&mut self.keys, lines);
        shards.numbers(&self.keys, &mut self.numbers);
        self.before = lines.count() - self.keys.len() as u64;
        Ok(true)
    }

    /// Whether no line waits after the first, and the next is not buffered. Its read may fail, so what is written of the first has to be
    /// flushed before. One must wait.
    pub(crate) fn reads_next<S: Source>(&self, lines: &Lines<S>) -> bool
        requires usable { IsTrue lines.now.usable }
        requires waits { 0 < length self.now.keys }
        ensures reads { result ≡ true → (length self.now.keys ≡ 1) × ((key : List ℕ) → IsBuffered lines.now key → ⊥) }
        ensures waits { result ≡ false → (1 < length self.now.keys) ⊎ ((key : List ℕ) × IsBuffered lines.now key) }
    {
        self.is_last() && lines.peek().is_none()
    }

    /// Whether one line waits and no other. One must wait.
    fn is_last(&self) -> bool
        requires waits { 0 < length self.now.keys }
        ensures { IsTrue result ↔ (length self.now.keys ≡ 1) }
    {
        self.next + 1 == self.keys.len()
    }

    /// The bytes of the first line that waits. One must wait.
    pub(crate) fn key(&self) -> &[u8]
        requires waits { 0 < length self.now.keys }
        ensures key { (d : ℕ × List ℕ) → result.now ≡ (slice_index_or self.now.keys 0 d).1 }
    {
        self.keys.key(self.next)
    }

    /// The first line that waits, counted from 1. One must wait.
    pub(crate) fn line(&self) -> u64
        requires waits { 0 < length self.now.keys }
        ensures line { (d : ℕ × List ℕ) → result ≡ (slice_index_or self.now.keys 0 d).0 }
    {
        self.before + self.next as u64 + 1
    }

    /// The number of the first line that waits, or none. One must wait.
    pub(crate) fn number(&self) -> Option<u64>
        requires waits { 0 < length self.now.answers }
        ensures answer { (d : Option ℕ) → result ≡ slice_index_or self.now.answers 0 d }
    {
        self.numbers[self.next]
    }

    /// Passes the first line that waits: it waits no more. One must wait.
    pub(crate) fn pass(&mut self)
        requires waits { 0 < length self.old.keys }
        ensures keys { self.new.keys ≡ drop 1 self.old.keys }
        ensures answers { self.new.answers ≡ drop 1 self.old.answers }
    {
        self.next += 1;
    }
}
