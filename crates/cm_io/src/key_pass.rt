//! What a pass over keys is, and why one stops before the end of its keys.
ghost use Rattle.std.specs.Prelude.{◌≡◌, ◌<◌, ◌≤◌, ◌+◌, ◌++◌, ℕ, List, [], ◌∷◌, length, map, Option, Ok, Bool, true, false, OnOk, OnErr, IfOk, IfSome, IfNone, IsTrue, IsOkUnless, if◌then◌else◌};
ghost use Rattle.std.specs.Option.{ForSome};
ghost use Rattle.cm_io.specs.Passes.{Told, HasKeyCause, GivesFour, GivesKey, PassesKeys, failure_of};
ghost use Rattle.cm_spec.specs.Lookup2.{words};
ghost use Rattle.cm_spec.specs.declared.limits.TheConstants.{MAX_KEYS};

use arrayvec::ArrayVec;
use thiserror::Error;

/// How many bytes a key has at most.
pub const MAX_KEY_LEN: usize = 65_535;

/// Room for one key.
pub type KeyBuf = ArrayVec<u8, MAX_KEY_LEN>;

/// Why a pass stopped before the end of its keys. Lines are counted from 1.
#[derive(Clone, Copy, Debug, PartialEq, Eq, Error)]
pub enum KeyFault {
    /// What the keys are read from failed.
    #[error("the keys cannot be read")]
    Read,
    /// A line has more bytes than a key.
    #[error("line {line} is too long")]
    TooLong { line: u32 },
    /// There are more than `MAX_KEYS` keys.
    #[error("there are too many keys")]
    TooMany,
}

/// A list of keys that can be passed again.
pub trait KeyPass {
    ghost use Rattle.cm_io.specs.declared.key_pass.KeyFault.{KeyFault};
    ghost use Rattle.cm_spec.specs.declared.limits.TheConstants.{MAX_KEYS};

    /// The keys with their lines and the fault at their end, if they are known.
    ghost told: { Self → Option Told };

    /// How many keys it has yielded since the last rewind.
    ghost place: { Self → ℕ };

    /// The line of the key yielded last, and 0 before the first.
    ghost last: { Self → ℕ };

    /// No call has failed since the last rewind.
    ghost usable: { Self → Bool };

    /// How often what it reads from has failed.
    ghost faults: { Self → ℕ };

    /// The fault that the last call of `next` or `rewind` failed with, if it failed.
    ghost failure: { Self → Option KeyFault };

    /// These are the keys that it has yielded since the last rewind, with their lines. It may be true of any list if the keys aren't known.
    ghost gave: { Self → List (ℕ × List ℕ) → Type 0 };

    /// The last call of `next` found no further key.
    ghost at_end: { Self → Type 0 };

    /// The next key is buffered, and has these bytes.
    ghost stands: { Self → List ℕ → Type 0 };

    /// The line of the next key, if it is buffered.
    ghost next_line: { Self → ℕ };

    /// Four keys can't be hashed at once: one of the next four isn't buffered, or the end is near.
    ghost lacks_four: { Self → Type 0 } = { λ _. Unit {0} };

    /// False from a call that failed until a rewind that doesn't.
    fn usable(&self) -> bool
        ensures usable { result ≡ usable self.now };

    /// Puts the next key into the buffer and returns true, or returns false at the end. Fails with `Read` exactly if the count of
    /// faults rises, and with another fault if the keys have come to it.
    fn next(&mut self, key: &mut KeyBuf) -> Result<bool, KeyFault>
        requires usable { IsTrue (usable self.old) }
        ensures told { told self.new ≡ told self.old }
        ensures gives { ForSome (told self.old) (λ told.
            GivesKey told (place self.old) (place self.new) (last self.new) key.new.items result) }
        ensures cause { HasKeyCause (faults self.old) (faults self.new) result }
        ensures failure { failure self.new ≡ failure_of result }
        ensures gave { (keys : List (ℕ × List ℕ)) → gave self.old keys →
            IfOk result (λ more. gave self.new (keys ++ (if more then (last self.new, key.new.items) ∷ [] else []))) }

        // A key is one more, of a later line.
        ensures counts { IfOk result (λ more. place self.new ≡ place self.old + (if more then 1 else 0)) }
        ensures few { place self.new ≤ MAX_KEYS }
        ensures rises { IfOk result (λ more. more ≡ true → last self.old < last self.new) }

        // The end and a failure leave the place and the line as they are.
        ensures ended { IfOk result (λ more. more ≡ false → last self.new ≡ last self.old) }
        ensures at_end { IfOk result (λ more. more ≡ false → at_end self.new) }
        ensures refused { OnErr result ((place self.new ≡ place self.old) × (last self.new ≡ last self.old)) }
        ensures usable { OnOk result (usable self.new ≡ true) }
        ensures unusable { OnErr result (usable self.new ≡ false) };

    /// The next key with its line, if it is buffered: no read can fail before it. None says that it isn't, and nothing of what comes.
    fn peek(&self) -> Option<(u32, &[u8])>
        requires usable { IsTrue (usable self.now) }
        ensures gives { IfSome result (λ key. ForSome (told self.now) (λ told.
            GivesKey told (place self.now) (place self.now + 1) key.0 key.1.now (Ok true))) }
        ensures short { IfSome result (λ key. length key.1.now ≤ MAX_KEY_LEN) }
        ensures line { IfSome result (λ key. (key.0 ≡ next_line self.now) × (last self.now < key.0)) }
        ensures stands { IfSome result (λ key. stands self.now key.1.now) }
        ensures none_stands { IfNone result ((key : List ℕ) → stands self.now key → ⊥) };

    /// The hash values of the next key under a seed, by lookup2, if the key is buffered and was hashed under this seed before. None says
    /// nothing.
    fn hashed(&self, seed: u32) -> Option<[u32; 3]>
        requires usable { IsTrue (usable self.now) }
        ensures words { IfSome result (λ hashed. (key : List ℕ) → stands self.now key → hashed ≡ words key seed) }
    {
        None
    }

    /// Passes the next key without returning it. The key is buffered, as `peek` shows, and has `len` bytes. No read can fail then, and
    /// it does what a `next` that returns true does.
    fn pass(&mut self, len: usize)
        requires usable { IsTrue (usable self.old) }
        requires stands { (key : List ℕ) × stands self.old key × (length key ≡ len) }
        ensures told { told self.new ≡ told self.old }
        ensures gives { (key : List ℕ) → stands self.old key → length key ≡ len → ForSome (told self.old) (λ told.
            GivesKey told (place self.old) (place self.new) (last self.new) key (Ok true)) }
        ensures gave { (keys : List (ℕ × List ℕ)) (key : List ℕ) → gave self.old keys → stands self.old key → length key ≡ len →
            gave self.new (keys ++ (last self.new, key) ∷ []) }
        ensures cause { faults self.new ≡ faults self.old }
        ensures counts { place self.new ≡ place self.old + 1 }
        ensures few { place self.new ≤ MAX_KEYS }
        ensures line { last self.new ≡ next_line self.old }
        ensures rises { last self.old < last self.new }
        ensures usable { usable self.new ≡ true };

    /// Passes the next four keys, if they are buffered, and returns their hash values under a seed, by lookup2, in order. None says
    /// nothing of what comes, except that four keys can't be hashed at once: nothing has changed then.
    fn hash_four(&mut self, seed: u32) -> Option<[[u32; 3]; 4]>
        requires usable { IsTrue (usable self.old) }
        ensures told { told self.new ≡ told self.old }
        ensures gives { IfSome result (λ four. ForSome (told self.old) (λ told. GivesFour told (place self.old) seed four)) }
        ensures gave { IfSome result (λ four. (keys : List (ℕ × List ℕ)) → gave self.old keys →
            (more : List (ℕ × List ℕ)) × (four ≡ map (λ key. words key.1 seed) more) × gave self.new (keys ++ more)) }
        ensures cause { faults self.new ≡ faults self.old }
        ensures counts { IfSome result (λ _. place self.new ≡ place self.old + 4) }
        ensures few { IfSome result (λ _. place self.new ≤ MAX_KEYS) }
        ensures line { IfSome result (λ _. ForSome (told self.old) (λ told. PassesKeys told (place self.new) (last self.new))) }
        ensures rises { IfSome result (λ _. last self.old < last self.new) }
        ensures usable { usable self.new ≡ true }
        ensures unchanged { IfNone result (self.new ≡ self.old) }
        ensures none { IfNone result (lacks_four self.old) };

    /// Passes some of the next keys without returning them, if they are buffered, and returns how many. 0 says nothing of what comes:
    /// nothing has changed then, and `next` shows what comes.
    fn skip(&mut self) -> u32
        requires usable { IsTrue (usable self.old) }
        ensures told { told self.new ≡ told self.old }
        ensures gives { 0 < result → ForSome (told self.old) (λ told. PassesKeys told (place self.new) (last self.new)) }
        ensures gave { (keys : List (ℕ × List ℕ)) → gave self.old keys →
            (more : List (ℕ × List ℕ)) × (length more ≡ result) × gave self.new (keys ++ more) }
        ensures cause { faults self.new ≡ faults self.old }
        ensures counts { place self.new ≡ place self.old + result }
        ensures few { 0 < result → place self.new ≤ MAX_KEYS }
        ensures rises { 0 < result → last self.old < last self.new }
        ensures usable { usable self.new ≡ true }
        ensures unchanged { result ≡ 0 → self.new ≡ self.old }
    {
        0
    }

    /// Goes back to the start. Fails only with `Read`, exactly if the count of faults rises.
    fn rewind(&mut self) -> Result<(), KeyFault>
        ensures told { told self.new ≡ told self.old }
        ensures start { OnOk result ((place self.new ≡ 0) × (last self.new ≡ 0)) }
        ensures gave { OnOk result (gave self.new []) }
        ensures read { IsOkUnless result KeyFault.Read }
        ensures cause { HasKeyCause (faults self.old) (faults self.new) result }
        ensures failure { failure self.new ≡ failure_of result }
        ensures refused { OnErr result ((place self.new ≡ place self.old) × (last self.new ≡ last self.old)) }
        ensures usable { OnOk result (usable self.new ≡ true) }
        ensures unusable { OnErr result (usable self.new ≡ false) };

    /// The line of the key yielded last, from 1.
    fn line(&self) -> u32
        requires given { 0 < place self.now }
        ensures last { result ≡ last self.now };
}
