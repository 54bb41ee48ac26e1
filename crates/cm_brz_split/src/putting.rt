//! Keys that are put into a store by their buckets.
ghost use Rattle.std.specs.Prelude.{◌≡◌, ◌≢◌, ◌⊎◌, ℕ, ◌+◌, ◌*◌, ◌<◌, ◌≤◌, List, [], length, slice_index, IfOk, IfErr, IfSome, IfNone, IsTrue, OnOk, None, Some, Ok, Err, true, false};
ghost use Rattle.std.specs.Option.{ForSome};
ghost use Rattle.cm_io.specs.Passes.{Ends};
ghost use Rattle.cm_spec.specs.declared.limits.TheConstants.{MAX_BUCKET, MAX_KEYS};
ghost use Rattle.cm_io.specs.PassFaults.{IsOtherCount};
ghost use Rattle.cm_brz_split.specs.Faults.{FailsPassing, HasFailure, HasKeysCause, HasPutFailure, HasSpillCause, IfChanged, IsOfPassing};
ghost use Rattle.cm_brz_split.specs.Given.{GaveNext, GaveOther, GaveSizes};
ghost use Rattle.cm_brz_split.specs.Passes.{AreCounted};
ghost use Rattle.cm_brz_split.specs.Puts.{AreAllPut, FailsPut, HasPutCause, IsPutFault, PutsOne};
ghost use Rattle.cm_brz_split.specs.Records.{Record};
ghost use Rattle.cm_brz_split.specs.Split.{AreSizes, GivesBucket};

use crate::fault::{BrzFault, PutFault};
use crate::split::{Split, Splitting};
use crate::store::Store;
use cm_brz_func::MAX_BUCKET;
use cm_io::{KeyBuf, KeyPass, expect_end};
use std::alloc::Global;

/// Puts the next key into the store, and returns its bucket, or none at the end. A buffered key is put where it stands, and any other is
/// copied into the buffer, which is scratch space.
fn put_next<P: KeyPass, B: Store>(
    keys: &mut P,
    key: &mut KeyBuf,
    split: &Split,
    store: &mut B,
) -> Result<Option<u32>, PutFault>
    requires usable { IsTrue (P.usable keys.old) }
    requires store { IsTrue (B.usable store.old) }
    requires open { B.sealed store.old ≡ false }
    requires last { B.put_last store.old ≡ P.last keys.old }
    ensures told { P.told keys.new ≡ P.told keys.old }
    ensures cause { HasPutCause (P.faults keys.old) (P.faults keys.new) (B.faults store.old) (B.faults store.new) result }
    ensures known { B.known store.new ≡ B.known store.old }
    ensures counts { IfOk result (λ o. IfSome o (λ _. P.place keys.new ≡ P.place keys.old + 1)) }
    ensures below { IfOk result (λ o. IfSome o (λ j. j < split.now.buckets)) }
    ensures usable { OnOk result (P.usable keys.new ≡ true) }
    ensures store { OnOk result (B.usable store.new ≡ true) }
    ensures open { OnOk result (B.sealed store.new ≡ false) }
    ensures last { OnOk result (B.put_last store.new ≡ P.last keys.new) }
    ensures gives { IfOk result (λ o. IfSome o (λ j. ForSome (P.told keys.old) (λ told. GivesBucket told (P.place keys.old) (P.place keys.new) split.now.buckets split.now.seed (Ok (Some j))))) }
    ensures puts { (records : List Record) → B.holds store.old records → IfOk result (λ o. IfSome o (λ j. PutsOne (B.holds store.new) (P.told keys.old) (P.place keys.old) (P.place keys.new) split.now.buckets split.now.seed j records)) }
    ensures kept { (records : List Record) → B.holds store.old records → IfOk result (λ o. IfNone o (B.holds store.new records)) }
    ensures ends { IfOk result (λ o. IfNone o (ForSome (P.told keys.old) (λ told. Ends told (P.place keys.old) None))) }
    ensures ended { IfOk result (λ o. IfNone o (P.place keys.new ≡ P.place keys.old)) }
    ensures gave { (before : List (ℕ × List ℕ)) → P.gave keys.old before → IfOk result (λ o. IfSome o (GaveNext (P.gave keys.new) before split.now.buckets split.now.seed)) }
    ensures failed { IfErr result (HasPutFailure (P.failure keys.new)) }
    ensures undamaged { IfErr result IsPutFault }
    ensures fault { IfErr result (λ e. ForSome (P.told keys.old) (λ told. FailsPut told e)) }
{
    let (bucket, len) = match keys.peek() {
        Some((line, next)) => {
            let bucket = split.bucket_of(next);
            store.put(bucket, line, next)?;
            (bucket, next.len())
        }
        None => {
            if !keys.next(key)? {
                return Ok(None);
            }
            let bucket = split.bucket_of(key.as_slice());
            store.put(bucket, keys.line(), key.as_slice())?;
            return Ok(Some(bucket));
        }
    };
    keys.pass(len);
    Ok(Some(bucket))
}

/// The first bucket whose number of keys put differs from the number counted.
fn find_other(sizes: &[u16], put: &[u16]) -> Option<usize>
    requires long { length put.now ≡ length sizes.now }
    ensures some { IfSome result (λ j. (j < length sizes.now) × (slice_index sizes.now j ≢ slice_index put.now j)) }
    ensures lowest { IfSome result (λ j. (i : ℕ) → i < j → slice_index put.now i ≡ slice_index sizes.now i) }
    ensures none { IfNone result ((i : ℕ) → i < length sizes.now → slice_index put.now i ≡ slice_index sizes.now i) }
{
    for (j, size) in sizes.iter().enumerate() {
        if *size != put[j] {
            return Some(j);
        }
    }
    None
}

/// Puts all keys, which are to be `m`, into the store in one pass, each with its bucket and its line, and counts those of each bucket
/// in two bytes: none had more keys than a bucket may have when they were counted. The buffer is scratch space.
fn put_each<P: KeyPass, B: Store>(
    keys: &mut P,
    key: &mut KeyBuf,
    m: u32,
    split: &Split,
    sizes: &[u16],
    put: &mut [u16],
    store: &mut B,
) -> Result<(), BrzFault>
    requires few { m ≤ MAX_KEYS }
    requires long { (length sizes.now ≡ split.now.buckets) × (length put.old ≡ split.now.buckets) }
    requires small { (j : ℕ) → j < length sizes.now → slice_index sizes.now j ≤ MAX_BUCKET }
    requires store { IsTrue (B.usable store.old) }
    requires open { B.sealed store.old ≡ false }
    requires new { B.put_last store.old ≡ 0 }
    requires counted { ForSome (P.told keys.old) (AreCounted m) }
    requires sizes { ForSome (P.told keys.old) (λ told. AreSizes sizes.now told.keys split.now.buckets split.now.seed) }
    ensures told { P.told keys.new ≡ P.told keys.old }
    ensures keys_cause { HasKeysCause (P.faults keys.old) (P.faults keys.new) result }
    ensures spill_cause { HasSpillCause (B.faults store.old) (B.faults store.new) result }
    ensures known { B.known store.new ≡ B.known store.old }
    ensures store { OnOk result (B.usable store.new ≡ true) }
    ensures open { OnOk result (B.sealed store.new ≡ false) }
    ensures sizes { OnOk result (ForSome (P.told keys.old) (λ told. AreSizes put.new told.keys split.now.buckets split.now.seed)) }
    ensures put { B.holds store.old [] → OnOk result (AreAllPut (B.holds store.new) (P.told keys.old) put.new split.now.buckets split.now.seed) }
    ensures given { OnOk result (P.place keys.new ≡ m) }
    ensures ended { OnOk result (P.at_end keys.new) }
    ensures gave { OnOk result (GaveSizes (P.gave keys.new) put.new split.now.buckets split.now.seed) }
    ensures fault { IfErr result (λ e. ForSome (P.told keys.old) (λ told. FailsPassing told e)) }
    ensures changed { IfErr result (λ e. IfChanged e (λ first now. ((first ≡ m) × IsOtherCount first now (P.place keys.new))
        ⊎ GaveOther (P.gave keys.new) sizes.now split.now.buckets split.now.seed first now)) }
    ensures failed { IfErr result (HasFailure (P.failure keys.new)) }
    ensures form { IfErr result IsOfPassing }
{
    keys.rewind()?;
    put.fill(0);
    for count in 0..m {
        match put_next(keys, key, split, store)? {
            Some(bucket) => {
                let j = bucket as usize;
                if put[j] as u32 >= MAX_BUCKET {
                    return Err(BrzFault::Changed {
                        first: sizes[j] as u32,
                        now: put[j] as u32 + 1,
                    });
                }
                put[j] += 1;
            }
            None => {
                return Err(BrzFault::Changed {
                    first: m,
                    now: count,
                });
            }
        }
    }
    expect_end(keys, key, m)?;
    Ok(())
}

/// Puts all keys into the store, each with its bucket and its line, in one pass, compares, and seals the store: the keys are to be `m`,
/// and each bucket is to have as many as were counted. The buffer is scratch space.
pub fn put_all<P: KeyPass, B: Store>(
    alloc: Global,
    keys: &mut P,
    key: &mut KeyBuf,
    m: u32,
    splitting: &Splitting,
    store: &mut B,
) -> Result<(), BrzFault>
    requires few { m ≤ MAX_KEYS }
    requires long { length splitting.now.sizes.items ≡ splitting.now.split.buckets }
    requires small { (j : ℕ) → j < length splitting.now.sizes.items → slice_index splitting.now.sizes.items j ≤ MAX_BUCKET }
    requires store { IsTrue (B.usable store.old) }
    requires open { B.sealed store.old ≡ false }
    requires new { B.put_last store.old ≡ 0 }
    requires counted { ForSome (P.told keys.old) (AreCounted m) }
    requires sizes { ForSome (P.told keys.old) (λ told. AreSizes splitting.now.sizes.items told.keys splitting.now.split.buckets splitting.now.split.seed) }
    ensures told { P.told keys.new ≡ P.told keys.old }
    ensures keys_cause { HasKeysCause (P.faults keys.old) (P.faults keys.new) result }
    ensures spill_cause { HasSpillCause (B.faults store.old) (B.faults store.new) result }
    ensures known { B.known store.new ≡ B.known store.old }
    ensures store { OnOk result (B.usable store.new ≡ true) }
    ensures sealed { OnOk result (B.sealed store.new ≡ true) }
    ensures asks { OnOk result (B.may_ask store.new 0) }
    ensures none { OnOk result ((j : ℕ) → (B.given store.new j ≡ 0) × (B.given_last store.new j ≡ 0)) }
    ensures put { B.holds store.old [] → OnOk result (AreAllPut (B.holds store.new) (P.told keys.old) splitting.now.sizes.items splitting.now.split.buckets splitting.now.split.seed) }
    ensures given { OnOk result (P.place keys.new ≡ m) }
    ensures ended { OnOk result (P.at_end keys.new) }
    ensures gave { OnOk result (GaveSizes (P.gave keys.new) splitting.now.sizes.items splitting.now.split.buckets splitting.now.split.seed) }
    ensures fault { IfErr result (λ e. ForSome (P.told keys.old) (λ told. FailsPassing told e)) }
    ensures changed { IfErr result (λ e. IfChanged e (λ first now. ((first ≡ m) × IsOtherCount first now (P.place keys.new))
        ⊎ GaveOther (P.gave keys.new) splitting.now.sizes.items splitting.now.split.buckets splitting.now.split.seed first now)) }
    ensures failed { IfErr result (HasFailure (P.failure keys.new)) }
    ensures form { IfErr result IsOfPassing }
{
    let sizes: &[u16] = &splitting.sizes;
    let mut table = vec![in alloc; 0; sizes.len()]?;
    let put: &mut [u16] = &mut table;
    put_each(keys, key, m, &splitting.split, sizes, put, store)?;
    if let Some(j) = find_other(sizes, put) {
        return Err(BrzFault::Changed {
            first: sizes[j] as u32,
            now: put[j] as u32,
        });
    }
    // Freed before memory to read the records back is allocated.
    drop(table);
    store.seal()?;
    Ok(())
}
