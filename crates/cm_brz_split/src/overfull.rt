//! The equal keys of an overfull bucket.
ghost use Rattle.std.specs.Prelude.{◌≡◌, ◌≢◌, ◌⊎◌, ℕ, ◌+◌, ◌<◌, ◌≤◌, List, [], ◌∷◌, ◌++◌, drop, map, Ok, IfOk, IfErr, IfSome, IfNone, IsTrue, OnOk, None, true};
ghost use Rattle.std.specs.List.Sorted.{IsStrictlyIncreasing};
ghost use Rattle.std.specs.Option.{ForSome};
ghost use Rattle.cm_io.specs.Passes.{Ends, GivesKey};
ghost use Rattle.cm_spec.specs.declared.limits.TheConstants.{MAX_KEYS};
ghost use Rattle.cm_io.specs.PassFaults.{HasPassCause, HasPassFailure, IfChanged, IsOtherCount};
ghost use Rattle.cm_witness_gather.specs.Pairs.{pairs};
ghost use Rattle.cm_brz_split.specs.Given.{GaveCount, GaveEqual};
ghost use Rattle.cm_brz_split.specs.Passes.{AreCounted, FailsAgain, NotesNext};
ghost use Rattle.cm_brz_func.specs.Splitting.{keys_of_bucket, size_of_bucket};

use crate::split::{Overfull, Split};
use cm_io::{KeyBuf, KeyPass, PassFault, expect_end};
use cm_witness_gather::{EqualKeys, Pair};
use std::alloc::Global;

/// Passes the next key, and notes it with its line if it is of this bucket. Returns whether it is, or none at the end. The buffer is
/// scratch space.
fn note_next<P: KeyPass>(
    alloc: Global,
    keys: &mut P,
    key: &mut KeyBuf,
    split: &Split,
    bucket: u32,
    equal: &mut EqualKeys,
) -> Result<Option<bool>, PassFault>
    requires usable { IsTrue (P.usable keys.old) }
    ensures told { P.told keys.new ≡ P.told keys.old }
    ensures cause { HasPassCause (P.faults keys.old) (P.faults keys.new) result }
    ensures counts { IfOk result (λ o. IfSome o (λ _. P.place keys.new ≡ P.place keys.old + 1)) }
    ensures rises { IfOk result (λ o. IfSome o (λ _. P.last keys.old < P.last keys.new)) }
    ensures gives { IfOk result (λ o. IfSome o (λ _. ForSome (P.told keys.old) (λ told. (next : List ℕ) × GivesKey told (P.place keys.old) (P.place keys.new) (P.last keys.new) next (Ok true)))) }
    ensures usable { OnOk result (P.usable keys.new ≡ true) }
    ensures notes { IfOk result (λ o. IfSome o (λ here. ForSome (P.told keys.old) (λ told. NotesNext (drop (P.place keys.old) told.keys) (drop (P.place keys.new) told.keys) split.now.buckets split.now.seed bucket here equal.old.firsts equal.old.pairs.items equal.new.firsts equal.new.pairs.items))) }
    ensures ends { IfOk result (λ o. IfNone o (ForSome (P.told keys.old) (λ told. Ends told (P.place keys.old) None))) }
    ensures ended { IfOk result (λ o. IfNone o (P.place keys.new ≡ P.place keys.old)) }
    ensures gave { (before : List (ℕ × List ℕ)) → P.gave keys.old before → IfOk result (λ o. IfSome o (λ here. (next : ℕ × List ℕ) × P.gave keys.new (before ++ next ∷ [])
        × NotesNext (next ∷ []) [] split.now.buckets split.now.seed bucket here equal.old.firsts equal.old.pairs.items equal.new.firsts equal.new.pairs.items)) }
    ensures unchanged { IfErr result (λ e. IfChanged e (λ _ _. ⊥)) }
    ensures failed { IfErr result (HasPassFailure (P.failure keys.new)) }
    ensures fault { IfErr result (λ e. ForSome (P.told keys.old) (λ told. FailsAgain told e)) }
{
    if !keys.next(key)? {
        return Ok(None);
    }
    let here = split.bucket_of(key.as_slice()) == bucket;
    if here {
        equal.note(alloc, keys.line(), key.as_slice())?;
    }
    Ok(Some(here))
}

/// The equal keys of an overfull bucket, as the first line that has the key and a later one, in the order of the later ones. The keys,
/// which were counted, are passed once; of equal ones of the bucket one is kept. The buffer is scratch space.
pub fn gather_equal<P: KeyPass>(
    alloc: Global,
    keys: &mut P,
    key: &mut KeyBuf,
    m: u32,
    split: &Split,
    over: Overfull,
) -> Result<Vec<Pair>, PassFault>
    requires few { m ≤ MAX_KEYS }
    requires counted { ForSome (P.told keys.old) (AreCounted m) }
    requires over { ForSome (P.told keys.old) (λ told. over.count ≡ size_of_bucket told.keys split.now.buckets split.now.seed over.bucket) }
    ensures told { P.told keys.new ≡ P.told keys.old }
    ensures cause { HasPassCause (P.faults keys.old) (P.faults keys.new) result }
    ensures equal { IfOk result (λ equal. ForSome (P.told keys.old) (λ told. equal.items ≡ pairs (keys_of_bucket told.keys split.now.buckets split.now.seed over.bucket))) }
    ensures ended { OnOk result (P.at_end keys.new) }
    ensures gave { IfOk result (λ equal. GaveEqual (P.gave keys.new) split.now.buckets split.now.seed over.bucket over.count equal.items) }

    // A whole pass, key by key, shows that the lines rise.
    ensures rising { OnOk result (ForSome (P.told keys.old) (λ told. IsStrictlyIncreasing (map (λ key. key.0) told.keys))) }

    // There are fewer keys, or one more; or the bucket has another number of them.
    ensures changed { IfErr result (λ e. IfChanged e (λ first now. ((first ≡ m) × IsOtherCount first now (P.place keys.new))
        ⊎ ((first ≡ over.count) × (first ≢ now) × GaveCount (P.gave keys.new) split.now.buckets split.now.seed over.bucket now))) }
    ensures failed { IfErr result (HasPassFailure (P.failure keys.new)) }
    ensures fault { IfErr result (λ e. ForSome (P.told keys.old) (λ told. FailsAgain told e)) }
{
    let mut equal = EqualKeys::new(alloc, over.count as usize)?;
    keys.rewind()?;
    let mut found = 0;
    for count in 0..m {
        match note_next(alloc, keys, key, split, over.bucket, &mut equal)? {
            Some(here) => found += here as u32,
            None => {
                return Err(PassFault::Changed {
                    first: m,
                    now: count,
                });
            }
        }
    }
    expect_end(keys, key, m)?;
    if found != over.count {
        return Err(PassFault::Changed {
            first: over.count,
            now: found,
        });
    }
    Ok(equal.into_pairs())
}
