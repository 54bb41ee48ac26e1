//! Whether the report that a bucket is overfull is true.
ghost use Rattle.std.specs.Prelude.{◌≡◌, ◌<◌, ◌≤◌, ◌⊎◌, IfErr, IfNone, IfOk, IfSome, None};
ghost use Rattle.std.specs.Option.{ForSome};
ghost use Rattle.cm_brz_func.specs.Functions.{bucket_count};
ghost use Rattle.cm_brz_func.specs.Splitting.{IsLowestOver};
ghost use Rattle.cm_brz_split.specs.Given.{CountedOver};
ghost use Rattle.cm_brz_split.specs.Passes.{AreCounted};
ghost use Rattle.cm_io.specs.PassFaults.{HasOtherCount, IfChanged, IsOtherCount};
ghost use Rattle.cm_judge_reports.specs.Faults.{DiffersInBucket, PassesAgain};
ghost use Rattle.cm_judge_verdict.specs.Rising.{RisesBy};
ghost use Rattle.cm_judge_verdict.specs.Verdicts.{first_reason, lowest_overfull, overfull_reasons};
ghost use Rattle.cm_spec.specs.declared.limits.TheConstants.{MAX_KEYS, MAX_WIDTH, MIN_WIDTH};

use cm_algo_scheme::Divisor;
use cm_brz_split::{Overfull, Split, bucket_total, choose_split, gather_equal};
use cm_io::{KeyBuf, KeyPass, PassFault};
use cm_judge_core::first_apart;
use cm_judge_verdict::{Reason, Verdict};
use cm_witness_gather::Pair;
use std::alloc::Global;

/// What a report claims of an overfull bucket: the seed that split the keys, the bucket, from 0, and its number of keys.
#[derive(Clone, Copy)]
pub(crate) struct Claim {
    pub split: u32,
    pub bucket: u32,
    pub count: u32,
}

/// The lowest bucket with more keys than one may have, if a seed splits the keys into so many buckets. The keys, which were counted, are
/// passed once. The buffer is scratch space.
fn find_over<P: KeyPass>(
    alloc: Global,
    keys: &mut P,
    key: &mut KeyBuf,
    m: u32,
    buckets: Divisor,
    split: u32,
) -> Result<Option<Overfull>, PassFault>
    requires few { m ≤ MAX_KEYS }
    requires few_buckets { buckets ≤ MAX_KEYS }
    requires counted { ForSome (P.told keys.old) (AreCounted m) }
    ensures passes { PassesAgain P.KeyPass keys.old keys.new result }
    ensures lowest { IfOk result (λ o. IfSome o (λ over. ForSome (P.told keys.old) (λ told. IsLowestOver told.keys buckets split over.bucket over.count))) }
    ensures counted { IfOk result (λ o. IfSome o (λ over. CountedOver P.at_end P.gave buckets split over.bucket over.count)) }
    ensures none { IfOk result (λ o. IfNone o (ForSome (P.told keys.old) (λ told. lowest_overfull told.keys buckets split ≡ None))) }
    ensures changed { IfErr result (HasOtherCount m (P.place keys.new)) }
{
    let mut sizes = vec![in alloc; 0; buckets.value() as usize]?;
    match choose_split(keys, key, m, buckets, &[split], &mut sizes)? {
        Ok(_) => Ok(None),
        Err(over) => Ok(Some(over)),
    }
}

/// The verdict of the keys of a pass, of which `m` were counted, on the report that a bucket is overfull: the first reason against it, or
/// that it holds. The keys were split into buckets of `b` on average. They are passed twice at most. The buffer is scratch space.
pub(crate) fn overfull_verdict<P: KeyPass>(
    alloc: Global,
    keys: &mut P,
    key: &mut KeyBuf,
    m: u32,
    b: u16,
    claim: Claim,
    equal: &[Pair],
) -> Result<Verdict, PassFault>
    requires many { (1 ≤ m) × (m ≤ MAX_KEYS) }
    requires width { (MIN_WIDTH ≤ b) × (b ≤ MAX_WIDTH) }
    requires counted { ForSome (P.told keys.old) (AreCounted m) }
    requires equal { RisesBy (λ p. p.again) 0 equal.now }
    ensures passes { PassesAgain P.KeyPass keys.old keys.new result }
    ensures verdict { IfOk result (λ verdict. ForSome (P.told keys.old) (λ told.
        verdict ≡ first_reason (overfull_reasons told.keys (bucket_count m b) claim.split claim.bucket claim.count equal.now))) }

    // There are fewer keys, or one more; or the bucket has another number of them.
    ensures changed { IfErr result (λ fault. IfChanged fault (λ first now. ((first ≡ m) × IsOtherCount first now (P.place keys.new))
        ⊎ DiffersInBucket P.KeyPass keys.new first now)) }
{
    let buckets = Divisor::new(bucket_total(m, b));
    let over = match find_over(alloc, keys, key, m, buckets, claim.split)? {
        Some(over) => over,
        None => return Ok(Verdict::Fails(Reason::NoBucket)),
    };
    if over.bucket != claim.bucket {
        return Ok(Verdict::Fails(Reason::NoBucket));
    }
    if over.count != claim.count {
        return Ok(Verdict::Fails(Reason::Count { count: over.count }));
    }
    let split = Split {
        seed: claim.split,
        buckets,
    };
    let real = gather_equal(alloc, keys, key, m, &split, over)?;
    match first_apart(&real, equal) {
        Some(line) => Ok(Verdict::Fails(Reason::NoPair { line })),
        None => Ok(Verdict::Holds),
    }
}
