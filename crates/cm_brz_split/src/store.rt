//! Where keys wait for their buckets.
ghost use Rattle.std.specs.Prelude.{◌≡◌, ◌<◌, ◌≤◌, ◌+◌, ◌++◌, ℕ, List, [], ◌∷◌, length, Bool, true, false, is_some, IfOk, IfErr, IfSome, IfNone, OnOk, OnErr, IsTrue, if◌then◌else◌};
ghost use Rattle.cm_brz_split.specs.Records.{GivesRecord, Record};
ghost use Rattle.cm_spill.specs.Stores.{HasSpillCause as HasStoreCause, IsOfReading, IsOfWriting as NotDamaged};

use cm_io::{KeyBuf, MAX_KEY_LEN};
use cm_spill::SpillError;

/// Keys that are put by rising lines, and then read bucket by bucket, those of a bucket by rising lines.
pub trait Store {
    ghost use Rattle.cm_spill.specs.declared.fault.SpillError.{SpillError};

    /// These records were put, in this order, and the contents of what keeps them are known.
    ghost holds: { Self → List Record → Type 0 };

    /// The contents of what keeps them are known.
    ghost known: { Self → Bool };

    /// How often what keeps them has failed.
    ghost faults: { Self → ℕ };

    /// No call has failed.
    ghost usable: { Self → Bool };

    /// All keys were put.
    ghost sealed: { Self → Bool };

    /// The line of the key put last, and 0 before the first.
    ghost put_last: { Self → ℕ };

    /// This bucket may be read: the one that was read last, and the one after it once it has no further key.
    ghost may_ask: { Self → ℕ → Type 0 };

    /// How many keys of a bucket were read, if it is the one that was read last or a later one.
    ghost given: { Self → ℕ → ℕ };

    /// The line of the last of these keys, and 0 before the first.
    ghost given_last: { Self → ℕ → ℕ };

    /// The offset after the record that was read last of the bucket read last, and 0 before the first.
    ghost end: { Self → ℕ };

    /// What the last call, which failed, may say of the bucket that it read: where and how its records are damaged.
    ghost damages: { Self → ℕ → SpillError → Type 0 };

    /// Puts a key with its bucket and its line, which is above those put before. After a failure nothing may be put or read.
    fn put(&mut self, bucket: u32, line: u32, key: &[u8]) -> Result<(), SpillError>
        requires usable { IsTrue (usable self.old) }
        requires open { sealed self.old ≡ false }
        requires rises { put_last self.old < line }
        requires short { length key.now ≤ MAX_KEY_LEN }
        ensures holds { (records : List Record) → holds self.old records →
            OnOk result (holds self.new (records ++ record { bucket = bucket; line = line; key = key.now } ∷ [])) }
        ensures known { known self.new ≡ known self.old }
        ensures last { OnOk result (put_last self.new ≡ line) }
        ensures open { OnOk result (sealed self.new ≡ false) }
        ensures usable { OnOk result (usable self.new ≡ true) }
        ensures unusable { OnErr result (usable self.new ≡ false) }
        ensures cause { HasStoreCause (faults self.old) (faults self.new) result }
        ensures fault { IfErr result NotDamaged };

    /// Ends the keys. From then on buckets are read, from 0 on. After a failure none may be.
    fn seal(&mut self) -> Result<(), SpillError>
        requires usable { IsTrue (usable self.old) }
        requires open { sealed self.old ≡ false }
        ensures holds { (records : List Record) → holds self.old records → OnOk result (holds self.new records) }
        ensures known { known self.new ≡ known self.old }
        ensures sealed { OnOk result (sealed self.new ≡ true) }
        ensures first { OnOk result (may_ask self.new 0) }
        ensures none { OnOk result ((j : ℕ) → (given self.new j ≡ 0) × (given_last self.new j ≡ 0)) }
        ensures end { OnOk result (end self.new ≡ 0) }
        ensures usable { OnOk result (usable self.new ≡ true) }
        ensures unusable { OnErr result (usable self.new ≡ false) }
        ensures cause { HasStoreCause (faults self.old) (faults self.new) result }
        ensures fault { IfErr result NotDamaged };

    /// Puts the next key of a bucket into the buffer and returns its line, or returns None if the bucket has no further key. Takes no
    /// memory, and finds no damage if the contents are known. After a failure nothing may be read.
    fn next_of(&mut self, bucket: u32, key: &mut KeyBuf) -> Result<Option<u32>, SpillError>
        requires usable { IsTrue (usable self.old) }
        requires sealed { sealed self.old ≡ true }
        requires may_ask { may_ask self.old bucket }
        ensures holds { (records : List Record) → holds self.old records → OnOk result (holds self.new records) }
        ensures gives { (records : List Record) → holds self.old records →
            IfOk result (λ line. GivesRecord records bucket (given self.old bucket) key.new.items line (given self.new bucket)) }
        ensures undamaged { (records : List Record) → holds self.old records → IfErr result NotDamaged }
        ensures known { known self.new ≡ known self.old }

        // Whatever the contents are, a key is one more, of a later line.
        ensures counts { IfOk result (λ line. given self.new bucket ≡ given self.old bucket + (if is_some line then 1 else 0)) }
        ensures rises { IfOk result (λ line. IfSome line (λ l. (given_last self.old bucket < l) × (given_last self.new bucket ≡ l))) }
        ensures ended { IfOk result (λ line. IfNone line (given_last self.new bucket ≡ given_last self.old bucket)) }
        ensures later { OnOk result ((j : ℕ) → bucket < j → (given self.new j ≡ 0) × (given_last self.new j ≡ 0)) }

        // The same bucket may be read again, and the next one once there is no further key.
        ensures again { OnOk result (may_ask self.new bucket) }
        ensures next { IfOk result (λ line. IfNone line (may_ask self.new (bucket + 1))) }
        ensures sealed { OnOk result (sealed self.new ≡ true) }
        ensures usable { OnOk result (usable self.new ≡ true) }
        ensures unusable { OnErr result (usable self.new ≡ false) }
        ensures cause { HasStoreCause (faults self.old) (faults self.new) result }
        ensures fault { IfErr result IsOfReading }
        ensures damage { IfErr result (damages self.new bucket) };

    /// The offset in bytes after the record that was read last of the bucket read last, and 0 before the first.
    fn read_end(&self) -> u64
        ensures end { result ≡ end self.now };
}
