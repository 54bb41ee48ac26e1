//! The pass over the lines of a source.
ghost use Rattle.std.specs.Prelude.{◌≡◌, ◌⊎◌, ◌<◌, ◌≤◌, ◌+◌, ◌++◌, ℕ, List, [], ◌∷◌, length, map, drop, Ok, None, true, false, OnOk, OnErr, IfOk, IfErr, IfSome, IfNone, IsTrue, IsOkUnless, if◌then◌else◌, option_map};
ghost use Rattle.std.specs.Option.{ForSome};
ghost use Rattle.cm_io.specs.Passes.{HasKeyCause, GivesFour, GivesKey, PassesKeys, failure_of};
ghost use Rattle.cm_spec.specs.Lookup2.{words};
ghost use Rattle.cm_keys.specs.Buffering.{HasFewer, HasNoEnd, line_rule};
ghost use Rattle.cm_keys.specs.Lines.{lines_of};
ghost use Rattle.cm_keys.specs.NumberingLaws.{IsWithin};
ghost use Rattle.cm_keys.specs.declared.buffered.TheConstants.{ROOM};
ghost use Rattle.cm_keys.specs.LinePass.{HasGiven, IsAtHand, IsDone, IsFull, IsNearEnd, IsNextLine, IsOpen, NoneAtHand, keys_of, new_pass};

use crate::buffered::{Buffered, Line, ROOM};
use cm_io::{Failed, KeyBuf, KeyFault, KeyPass, MAX_KEY_LEN, MAX_KEYS, Source};
use cm_lookup2::words_of_four;
use std::marker::Model;

/// The line feed, which ends a line of text.
pub const LINE_END: u8 = 10;

/// The lines of a source as keys. A line ends with a byte that is chosen for the pass: `LINE_END`, or byte 0. A key goes without it,
/// and a last line without its end counts if it has a byte. Lines are numbered from 1.
pub struct Keys<S: Source> {
    bytes: Buffered<S>,
    first: Option<u32>,
    /// The byte that ends a line.
    end: u8,
    given: u32,
    /// The fault of the last call that failed, up to a rewind that doesn't.
    failure: Option<KeyFault>,
}

impl<S: Source> Model for Keys<S> {
    ghost use Rattle.std.specs.Prelude.{is_none};
    ghost use Rattle.cm_keys.specs.LinePass.{LinePass};
    ghost use Rattle.cm_keys.specs.Leaving.{IsPassing, bytes_left};
    ghost use Rattle.cm_keys.specs.Buffering.{ready_in, line_rule};
    ghost use Rattle.cm_io.specs.declared.key_pass.TheConstants.{MAX_KEY_LEN};
    ghost use Rattle.cm_spec.specs.declared.limits.TheConstants.{MAX_KEYS};

    ghost Value = { LinePass };

    ghost view = { λ k. record {
      bytes = S.told k.bytes.source;
      first = k.first;
      end = k.end;
      given = k.given;
      ended = k.bytes.ended;
      usable = is_none k.failure;
      failure = k.failure;
      faults = S.faults k.bytes.source;
      waiting = ready_in k.bytes.buf k.bytes.start k.bytes.until;
    } };

    ghost invariant = { λ k. IsPassing MAX_KEYS (line_rule MAX_KEY_LEN k.end) k.first k.given (is_none k.failure) (bytes_left (S.told k.bytes.source) (S.place k.bytes.source) (ready_in k.bytes.buf k.bytes.start k.bytes.until)) };
}

impl<S: Source> Keys<S> {
    /// The lines of a source that stands at its start; with `first`, at most this many of them. The byte `end` ends a line: it is
    /// `LINE_END`, or 0 for keys that may have line feeds.
    pub fn new(source: S, first: Option<u32>, end: u8) -> Keys<S>
        requires start { ForSome (S.told source) (λ _. S.place source ≡ 0) }
        requires end { (end ≡ LINE_END) ⊎ (end ≡ 0) }
        ensures state { result ≡ new_pass (S.told source) first end (S.faults source) }
        ensures told { ⟦<Keys<S> as KeyPass>⟧.told result
            ≡ option_map (lines_of MAX_KEYS MAX_KEY_LEN end first) (S.told source) }
        ensures place { ⟦<Keys<S> as KeyPass>⟧.place result ≡ 0 }
        ensures last { ⟦<Keys<S> as KeyPass>⟧.last result ≡ 0 }
        ensures usable { ⟦<Keys<S> as KeyPass>⟧.usable result ≡ true }
        ensures faults { ⟦<Keys<S> as KeyPass>⟧.faults result ≡ S.faults source }
        ensures failure { ⟦<Keys<S> as KeyPass>⟧.failure result ≡ None }
        ensures gave { ⟦<Keys<S> as KeyPass>⟧.gave result [] }
    {
        Keys {
            bytes: Buffered::new(source),
            first,
            end,
            given: 0,
            failure: None,
        }
    }

    /// Returns the source. More bytes than those of the keys may have been read from it.
    pub fn into_source(self) -> S
        ensures told { S.told result ≡ self.bytes }
        ensures faults { S.faults result ≡ self.faults }
    {
        let Keys {
            bytes,
            first: _,
            end: _,
            given: _,
            failure: _,
        } = self;
        bytes.into_source()
    }
}

/// Keeps a fault as the failure of a pass, and returns it.
fn keep(failure: &mut Option<KeyFault>, fault: KeyFault) -> KeyFault
    ensures failure { failure.new ≡ Some fault }
    ensures fault { result ≡ fault }
{
    *failure = Some(fault);
    fault
}

/// Whether a further line is read.
pub(crate) fn is_open(first: Option<u32>, given: u64) -> bool
    ensures open { result ≡ true → IsOpen first given }
    ensures full { result ≡ false → IsFull first given }
{
    match first {
        None => true,
        Some(first) => given < first as u64,
    }
}

/// Whether a further line may be a key: it is read, and there are fewer than `MAX_KEYS` keys yet.
fn may_give(first: Option<u32>, given: u32) -> bool
    ensures open { result ≡ true → IsOpen first given }
    ensures few { result ≡ true → given < MAX_KEYS }
    ensures none { result ≡ false → IsFull first given ⊎ (MAX_KEYS ≤ given) }
{
    given < MAX_KEYS && is_open(first, given as u64)
}

/// Whether this many further lines may be keys.
fn may_give_many(first: Option<u32>, given: u32, many: u32) -> bool
    requires few { given ≤ MAX_KEYS }
    requires many { many ≤ ROOM }
    ensures within { result ≡ true → IsWithin first (given + many) }
    ensures few { result ≡ true → given + many ≤ MAX_KEYS }
    ensures none { result ≡ false → IsNearEnd MAX_KEYS many first given }
{
    let most = given + many;
    let within = match first {
        None => true,
        Some(first) => most <= first,
    };
    within && most <= MAX_KEYS
}

impl<S: Source> KeyPass for Keys<S> {
    ghost use Rattle.cm_io.specs.declared.key_pass.TheConstants.{MAX_KEY_LEN};
    ghost use Rattle.cm_spec.specs.declared.limits.TheConstants.{MAX_KEYS};

    ghost told = { λ k. keys_of MAX_KEYS MAX_KEY_LEN k };

    ghost place = { λ k. k.given };

    ghost last = { λ k. k.given };

    ghost usable = { λ k. k.usable };

    ghost faults = { λ k. k.faults };

    ghost failure = { λ k. k.failure };

    ghost gave = { λ k keys. HasGiven MAX_KEYS MAX_KEY_LEN k keys };

    ghost at_end = { λ k. IsDone k };

    ghost stands = { λ k key. IsAtHand MAX_KEYS MAX_KEY_LEN k key };

    ghost next_line = { λ k. k.given + 1 };

    ghost lacks_four = { λ k. IsNearEnd MAX_KEYS 4 k.first k.given ⊎ HasFewer (line_rule MAX_KEY_LEN k.end) 4 k.waiting };

    fn usable(&self) -> bool {
        self.failure.is_none()
    }

    fn next(&mut self, key: &mut KeyBuf) -> Result<bool, KeyFault>
        requires usable { IsTrue self.old.usable }
        ensures told { keys_of MAX_KEYS MAX_KEY_LEN self.new ≡ keys_of MAX_KEYS MAX_KEY_LEN self.old }
        ensures gives { ForSome (keys_of MAX_KEYS MAX_KEY_LEN self.old) (λ told.
            GivesKey told self.old.given self.new.given self.new.given key.new.items result) }
        ensures cause { HasKeyCause self.old.faults self.new.faults result }
        ensures failure { self.new.failure ≡ failure_of result }
        ensures gave { (keys : List (ℕ × List ℕ)) → HasGiven MAX_KEYS MAX_KEY_LEN self.old keys →
            IfOk result (λ more. HasGiven MAX_KEYS MAX_KEY_LEN self.new
            (keys ++ (if more then (self.new.given, key.new.items) ∷ [] else []))) }
        ensures counts { IfOk result (λ more. self.new.given ≡ self.old.given + (if more then 1 else 0)) }
        ensures few { self.new.given ≤ MAX_KEYS }
        ensures rises { IfOk result (λ more. more ≡ true → self.old.given < self.new.given) }
        ensures ended { IfOk result (λ more. more ≡ false → self.new.given ≡ self.old.given) }
        ensures refused { OnErr result (self.new.given ≡ self.old.given) }
        ensures usable { OnOk result (self.new.usable ≡ true) }
        ensures unusable { OnErr result (self.new.usable ≡ false) }

        // The bytes of the source, the number of lines to read and the byte that ends a line stay the same.
        ensures bytes { self.new.bytes ≡ self.old.bytes }
        ensures first { self.new.first ≡ self.old.first }
        ensures end { self.new.end ≡ self.old.end }

        // Returns false exactly if there is no further line, and then until a rewind.
        ensures at_end { IfOk result (λ more. more ≡ false → IsDone self.new) }
        ensures done { IsDone self.old → result ≡ Ok false }

        // A line at fault is the next one.
        ensures fault { IfErr result (IsNextLine MAX_KEYS self.old) }
    {
        if !is_open(self.first, self.given as u64) {
            return Ok(false);
        }
        if self.given == MAX_KEYS {
            return match self.bytes.has_more() {
                Ok(true) => Err(keep(&mut self.failure, KeyFault::TooMany)),
                Ok(false) => Ok(false),
                Err(Failed) => Err(keep(&mut self.failure, KeyFault::Read)),
            };
        }
        match self.bytes.read_line(self.end, key) {
            Ok(Line::Key) => {
                self.given += 1;
                Ok(true)
            }
            Ok(Line::End) => Ok(false),
            Ok(Line::TooLong) => {
                let line = self.given + 1;
                Err(keep(&mut self.failure, KeyFault::TooLong { line }))
            }
            Err(Failed) => Err(keep(&mut self.failure, KeyFault::Read)),
        }
    }

    fn peek(&self) -> Option<(u32, &[u8])>
        requires usable { IsTrue self.now.usable }
        ensures gives { IfSome result (λ key. ForSome (keys_of MAX_KEYS MAX_KEY_LEN self.now) (λ told.
            GivesKey told self.now.given (self.now.given + 1) key.0 key.1.now (Ok true))) }
        ensures short { IfSome result (λ key. length key.1.now ≤ MAX_KEY_LEN) }
        ensures line { IfSome result (λ key. (key.0 ≡ self.now.given + 1) × (self.now.given < key.0)) }
        ensures stands { IfSome result (λ key. IsAtHand MAX_KEYS MAX_KEY_LEN self.now key.1.now) }
        ensures none_stands { IfNone result ((key : List ℕ) → IsAtHand MAX_KEYS MAX_KEY_LEN self.now key → ⊥) }

        // If its whole line is in the buffer, the next key is buffered.
        ensures none { IfNone result (NoneAtHand MAX_KEYS self.now) }
    {
        if !may_give(self.first, self.given) {
            return None;
        }
        match self.bytes.peek_line(self.end) {
            Some(line) => Some((self.given + 1, line)),
            None => None,
        }
    }

    fn pass(&mut self, len: usize)
        requires usable { IsTrue self.old.usable }
        requires stands { (key : List ℕ) × IsAtHand MAX_KEYS MAX_KEY_LEN self.old key × (length key ≡ len) }
        ensures told { keys_of MAX_KEYS MAX_KEY_LEN self.new ≡ keys_of MAX_KEYS MAX_KEY_LEN self.old }
        ensures gives { (key : List ℕ) → IsAtHand MAX_KEYS MAX_KEY_LEN self.old key → length key ≡ len → ForSome (keys_of MAX_KEYS MAX_KEY_LEN self.old) (λ told.
            GivesKey told self.old.given self.new.given self.new.given key (Ok true)) }
        ensures gave { (keys : List (ℕ × List ℕ)) (key : List ℕ) → HasGiven MAX_KEYS MAX_KEY_LEN self.old keys →
            IsAtHand MAX_KEYS MAX_KEY_LEN self.old key → length key ≡ len →
            HasGiven MAX_KEYS MAX_KEY_LEN self.new (keys ++ (self.new.given, key) ∷ []) }
        ensures cause { self.new.faults ≡ self.old.faults }
        ensures counts { self.new.given ≡ self.old.given + 1 }
        ensures few { self.new.given ≤ MAX_KEYS }
        ensures rises { self.old.given < self.new.given }
        ensures usable { self.new.usable ≡ true }

        // The line with its end is no longer buffered. The bytes of the source, the number of lines to read, the byte that ends a line
        // and `ended` stay the same.
        ensures waiting { self.new.waiting ≡ drop (len + 1) self.old.waiting }
        ensures bytes { self.new.bytes ≡ self.old.bytes }
        ensures first { self.new.first ≡ self.old.first }
        ensures end { self.new.end ≡ self.old.end }
        ensures ended { self.new.ended ≡ self.old.ended }
    {
        self.bytes.pass_line(len);
        self.given += 1;
    }

    fn hash_four(&mut self, seed: u32) -> Option<[[u32; 3]; 4]>
        requires usable { IsTrue self.old.usable }
        ensures told { keys_of MAX_KEYS MAX_KEY_LEN self.new ≡ keys_of MAX_KEYS MAX_KEY_LEN self.old }
        ensures gives { IfSome result (λ four. ForSome (keys_of MAX_KEYS MAX_KEY_LEN self.old) (λ told.
            GivesFour told self.old.given seed four)) }
        ensures gave { IfSome result (λ four. (keys : List (ℕ × List ℕ)) → HasGiven MAX_KEYS MAX_KEY_LEN self.old keys →
            (more : List (ℕ × List ℕ)) × (four ≡ map (λ key. words key.1 seed) more)
            × HasGiven MAX_KEYS MAX_KEY_LEN self.new (keys ++ more)) }
        ensures cause { self.new.faults ≡ self.old.faults }
        ensures counts { IfSome result (λ _. self.new.given ≡ self.old.given + 4) }
        ensures few { IfSome result (λ _. self.new.given ≤ MAX_KEYS) }
        ensures line { IfSome result (λ _. ForSome (keys_of MAX_KEYS MAX_KEY_LEN self.old) (λ told.
            PassesKeys told self.new.given self.new.given)) }
        ensures rises { IfSome result (λ _. self.old.given < self.new.given) }
        ensures usable { self.new.usable ≡ true }
        ensures unchanged { IfNone result (self.new ≡ self.old) }

        // Passes four lines if they are in the buffer, except near the last line to read and near `MAX_KEYS` keys.
        ensures none { IfNone result (IsNearEnd MAX_KEYS 4 self.old.first self.old.given ⊎ HasFewer (line_rule MAX_KEY_LEN self.old.end) 4 self.old.waiting) }

        // The bytes of the source, the number of lines to read, the byte that ends a line and `ended` stay the same.
        ensures bytes { self.new.bytes ≡ self.old.bytes }
        ensures first { self.new.first ≡ self.old.first }
        ensures end { self.new.end ≡ self.old.end }
        ensures ended { self.new.ended ≡ self.old.ended }
    {
        if !may_give_many(self.first, self.given, 4) {
            return None;
        }
        let (p, q, r, t) = match self.bytes.peek_four(self.end) {
            Some(four) => four,
            None => return None,
        };
        let four = words_of_four(p, q, r, t, [seed; 4]);
        // The lines are borrowed from the buffer, so only their lengths are kept.
        let (p, q, r, t) = (p.len(), q.len(), r.len(), t.len());
        self.pass(p);
        self.pass(q);
        self.pass(r);
        self.pass(t);
        Some([four.at(0), four.at(1), four.at(2), four.at(3)])
    }

    fn skip(&mut self) -> u32
        requires usable { IsTrue self.old.usable }
        ensures told { keys_of MAX_KEYS MAX_KEY_LEN self.new ≡ keys_of MAX_KEYS MAX_KEY_LEN self.old }
        ensures gives { 0 < result → ForSome (keys_of MAX_KEYS MAX_KEY_LEN self.old) (λ told. PassesKeys told self.new.given self.new.given) }
        ensures gave { (keys : List (ℕ × List ℕ)) → HasGiven MAX_KEYS MAX_KEY_LEN self.old keys →
            (more : List (ℕ × List ℕ)) × (length more ≡ result) × HasGiven MAX_KEYS MAX_KEY_LEN self.new (keys ++ more) }
        ensures cause { self.new.faults ≡ self.old.faults }
        ensures counts { self.new.given ≡ self.old.given + result }
        ensures few { 0 < result → self.new.given ≤ MAX_KEYS }
        ensures rises { 0 < result → self.old.given < self.new.given }
        ensures usable { self.new.usable ≡ true }
        ensures unchanged { result ≡ 0 → self.new ≡ self.old }

        // Passes all whole lines in the buffer, except near the last line to read and near `MAX_KEYS` keys.
        ensures all { 0 < result → HasNoEnd self.new.end self.new.waiting }
        ensures none { result ≡ 0 → IsNearEnd MAX_KEYS ROOM self.old.first self.old.given ⊎ HasNoEnd self.old.end self.old.waiting }

        // The bytes of the source, the number of lines to read, the byte that ends a line and `ended` stay the same.
        ensures bytes { self.new.bytes ≡ self.old.bytes }
        ensures first { self.new.first ≡ self.old.first }
        ensures end { self.new.end ≡ self.old.end }
        ensures ended { self.new.ended ≡ self.old.ended }
    {
        if !may_give_many(self.first, self.given, ROOM as u32) {
            return 0;
        }
        let count = self.bytes.skip_lines(self.end);
        self.given += count;
        count
    }

    fn rewind(&mut self) -> Result<(), KeyFault>
        ensures told { keys_of MAX_KEYS MAX_KEY_LEN self.new ≡ keys_of MAX_KEYS MAX_KEY_LEN self.old }
        ensures start { OnOk result (self.new.given ≡ 0) }
        ensures gave { OnOk result (HasGiven MAX_KEYS MAX_KEY_LEN self.new []) }
        ensures read { IsOkUnless result KeyFault.Read }
        ensures cause { HasKeyCause self.old.faults self.new.faults result }
        ensures failure { self.new.failure ≡ failure_of result }
        ensures refused { OnErr result (self.new.given ≡ self.old.given) }
        ensures usable { OnOk result (self.new.usable ≡ true) }
        ensures unusable { OnErr result (self.new.usable ≡ false) }

        // The pass is as a new one.
        ensures ok { OnOk result (self.new ≡ new_pass self.old.bytes self.old.first self.old.end self.old.faults) }
        ensures bytes { self.new.bytes ≡ self.old.bytes }
        ensures first { self.new.first ≡ self.old.first }
        ensures end { self.new.end ≡ self.old.end }
    {
        match self.bytes.rewind() {
            Ok(()) => {
                self.given = 0;
                self.failure = None;
                Ok(())
            }
            Err(Failed) => Err(keep(&mut self.failure, KeyFault::Read)),
        }
    }

    fn line(&self) -> u32 {
        self.given
    }
}
