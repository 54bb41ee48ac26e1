//! From keys to buckets, through a store.
ghost use Rattle.std.specs.Prelude.{◌≡◌, ◌≢◌, ◌⊎◌, ℕ, ◌+◌, ◌*◌, ◌<◌, ◌≤◌, [], length, slice_index, sum, IfOk, IfErr, IsTrue, OnOk, Contains, None, Some, Ok, Err, true, false};
ghost use Rattle.std.specs.Option.{ForSome};
ghost use Rattle.cm_spec.specs.declared.limits.TheConstants.{MAX_BUCKET, MAX_KEYS, MAX_WIDTH, MIN_WIDTH};
ghost use Rattle.cm_brz.specs.AnyKeys.{HasDamage, IsDamageIn, IsOtherBucket};
ghost use Rattle.cm_brz.specs.BrzOf.{IsBrzOf};
ghost use Rattle.cm_brz.specs.Fails.{FailsBrz, FailsKeys, HasBrzForm, IsDamage, IsOfOverfull, RefusesOverfull};
ghost use Rattle.cm_brz_split.specs.Faults.{HasFailure, HasKeysCause, HasSpillCause, IfChanged, IfDamage, IfOverfull, OnNoKeys};
ghost use Rattle.cm_brz_split.specs.Given.{CountedBucket, CountedOver, GaveCount, GaveEqual, GaveSizes};
ghost use Rattle.cm_brz_split.specs.Passes.{AreCounted};
ghost use Rattle.cm_brz_split.specs.Puts.{records_under};
ghost use Rattle.cm_brz_split.specs.Split.{AreSizes, split_of};
ghost use Rattle.cm_brz_func.specs.Splitting.{size_of_bucket};
ghost use Rattle.cm_brz_func.specs.Functions.{bucket_count};
ghost use Rattle.cm_spec.specs.Rule.{IsRatio};
ghost use Rattle.cm_io.specs.PassFaults.{HasPassed, IsOtherCount};

use crate::buckets::build_buckets;
use cm_algo_scheme::Divisor;
use cm_algo_seeds::count_all;
use cm_brz_func::{Brz, BrzParts, MAX_BUCKET};
use cm_brz_split::{
    BrzFault, Overfull, Split, Splitting, Store, bucket_total, choose_split, gather_equal,
    narrowed, put_all,
};
use cm_graph::Steps;
use cm_io::{KeyBuf, KeyPass};
use std::alloc::Global;
use std::sync::ledger::Ledger;

/// The fault of an overfull bucket, with its equal keys. The keys are passed once more. The buffer is scratch space.
fn refuse_overfull<P: KeyPass>(
    alloc: Global,
    keys: &mut P,
    key: &mut KeyBuf,
    m: u32,
    split: &Split,
    over: Overfull,
) -> BrzFault
    requires few { m ≤ MAX_KEYS }
    requires over { MAX_BUCKET < over.count }
    requires counted { ForSome (P.told keys.old) (AreCounted m) }
    requires size { ForSome (P.told keys.old) (λ told. over.count ≡ size_of_bucket told.keys split.now.buckets split.now.seed over.bucket) }
    ensures told { P.told keys.new ≡ P.told keys.old }
    ensures cause { HasKeysCause {T = Unit {0}} (P.faults keys.old) (P.faults keys.new) (Err result) }
    ensures undamaged { IsDamage result → ⊥ }
    ensures shows { ForSome (P.told keys.old) (λ told. RefusesOverfull told split.now.buckets split.now.seed over.bucket over.count result) }
    ensures failed { HasFailure (P.failure keys.new) result }
    ensures overfull { IfOverfull result (λ seed bucket count equal. (seed ≡ split.now.seed) × (bucket ≡ over.bucket) × (count ≡ over.count)
        × P.at_end keys.new × GaveEqual (P.gave keys.new) split.now.buckets seed bucket count equal) }
    ensures changed { IfChanged result (λ first now. ((first ≡ m) × IsOtherCount first now (P.place keys.new))
        ⊎ ((first ≡ over.count) × (first ≢ now) × GaveCount (P.gave keys.new) split.now.buckets split.now.seed over.bucket now)) }
    ensures form { IsOfOverfull result }
    ensures spill { (n : ℕ) → HasSpillCause {T = Unit {0}} n n (Err result) }
{
    match gather_equal(alloc, keys, key, m, split, over) {
        Ok(equal) => BrzFault::Overfull {
            seed: split.seed,
            bucket: over.bucket,
            count: over.count,
            equal,
        },
        Err(fault) => fault.into(),
    }
}

/// The split of keys that were counted, into buckets of `b` keys on average. The buffer is scratch space.
fn split_keys<P: KeyPass>(
    alloc: Global,
    keys: &mut P,
    key: &mut KeyBuf,
    m: u32,
    b: u16,
    seeds: &[u32],
) -> Result<Splitting, BrzFault>
    requires many { (1 ≤ m) × (m ≤ MAX_KEYS) }
    requires width { (MIN_WIDTH ≤ b) × (b ≤ MAX_WIDTH) }
    requires some { 0 < length seeds.now }
    requires counted { ForSome (P.told keys.old) (AreCounted m) }
    ensures told { P.told keys.new ≡ P.told keys.old }
    ensures cause { HasKeysCause (P.faults keys.old) (P.faults keys.new) result }
    ensures buckets { IfOk result (λ s. (s.split.buckets ≡ bucket_count m b) × (length s.sizes.items ≡ bucket_count m b)) }
    ensures seed { IfOk result (λ s. Contains seeds.now s.split.seed) }
    ensures all { IfOk result (λ s. sum s.sizes.items ≡ m) }
    ensures small { IfOk result (λ s. (j : ℕ) → j < length s.sizes.items → slice_index s.sizes.items j ≤ MAX_BUCKET) }
    ensures sizes { IfOk result (λ s. ForSome (P.told keys.old) (λ told. AreSizes s.sizes.items told.keys s.split.buckets s.split.seed)) }
    ensures first { IfOk result (λ s. ForSome (P.told keys.old) (λ told. split_of told.keys (bucket_count (length told.keys) b) seeds.now ≡ Some s.split.seed)) }
    ensures fault { IfErr result (λ e. ForSome (P.told keys.old) (λ told. (c : ℕ) → FailsBrz told c b seeds.now e)) }
    ensures ended { OnOk result (P.at_end keys.new) }
    ensures gave { IfOk result (λ s. GaveSizes (P.gave keys.new) s.sizes.items s.split.buckets s.split.seed) }
    ensures failed { IfErr result (HasFailure (P.failure keys.new)) }
    ensures overfull { IfErr result (λ e. IfOverfull e (λ seed bucket count equal. (seed ≡ slice_index seeds.now 0) × P.at_end keys.new
        × CountedOver P.at_end P.gave (bucket_count m b) seed bucket count × GaveEqual (P.gave keys.new) (bucket_count m b) seed bucket count equal)) }
    ensures changed { IfErr result (λ e. IfChanged e (λ first now. ((first ≡ m) × IsOtherCount first now (P.place keys.new))
        ⊎ IsOtherBucket (CountedBucket P.at_end P.gave) (GaveCount (P.gave keys.new)) (bucket_count m b) seeds.now first now)) }
    ensures kind { IfErr result IsOfOverfull }
    ensures form { IfErr result (HasBrzForm seeds.now) }
    ensures undamaged { IfErr result (λ e. IsDamage e → ⊥) }
    ensures spill { (n : ℕ) → HasSpillCause n n result }
{
    let total = bucket_total(m, b);
    let buckets = Divisor::new(total);
    let mut sizes = vec![in alloc; 0; total as usize]?;
    match choose_split(keys, key, m, buckets, seeds, &mut sizes)? {
        Ok(split) => Ok(Splitting {
            split,
            sizes: narrowed(alloc, &sizes)?,
        }),
        Err(over) => {
            let split = Split {
                seed: seeds[0],
                buckets,
            };
            Err(refuse_overfull(alloc, keys, key, m, &split, over))
        }
    }
}

/// The function by BRZ of the keys of a pass. The first seed of the list under which no bucket has more than `MAX_BUCKET` keys splits
/// them into buckets of `b` on average. Each bucket takes the first seed of the list whose graph by BDZ has an empty 2-core. The ratio
/// `c` is in millionths. The keys wait for their buckets in the store, which is new. They are passed once to be counted, once for each
/// seed that is tried for the split, and once to be put into the store, or to gather the equal keys of an overfull bucket.
pub(crate) fn brz_over<P: KeyPass, B: Store, L: Ledger>(
    alloc: Global,
    keys: &mut P,
    store: &mut B,
    c: u32,
    b: u16,
    seeds: &[u32],
    steps: &mut Steps<L>,
) -> Result<Brz, BrzFault>
    requires ratio { IsRatio c }
    requires width { (MIN_WIDTH ≤ b) × (b ≤ MAX_WIDTH) }
    requires some { 0 < length seeds.now }
    requires store { IsTrue (B.usable store.old) }
    requires open { B.sealed store.old ≡ false }
    requires new { B.put_last store.old ≡ 0 }
    ensures told { P.told keys.new ≡ P.told keys.old }
    ensures keys_cause { HasKeysCause (P.faults keys.old) (P.faults keys.new) result }
    ensures spill_cause { HasSpillCause (B.faults store.old) (B.faults store.new) result }
    ensures known { B.known store.new ≡ B.known store.old }
    ensures sealed { OnOk result (B.sealed store.new ≡ true) }
    ensures numbers { IfOk result (λ f. (f.ratio ≡ c) × (f.width ≡ b) × Contains seeds.now f.split) }
    ensures made { B.holds store.old [] → IfOk result (λ f. ForSome (P.told keys.old) (λ told. (told.fault ≡ None) × IsBrzOf told.keys c b seeds.now f)) }
    ensures put { B.holds store.old [] → IfOk result (λ f. ForSome (P.told keys.old) (λ told. B.holds store.new (records_under told.keys (length f.buckets) f.split))) }
    ensures fault { B.holds store.old [] → IfErr result (λ e. ForSome (P.told keys.old) (λ told. FailsBrz told c b seeds.now e)) }
    ensures undamaged { B.holds store.old [] → IfErr result (λ e. IsDamage e → ⊥) }

    // Whatever is known of the store.
    ensures split_known { IfOk result (λ f. ForSome (P.told keys.old) (λ told. (told.fault ≡ None) × (f.keys ≡ length told.keys)
        × (split_of told.keys (bucket_count (length told.keys) b) seeds.now ≡ Some f.split))) }
    ensures over_known { IfErr result (λ e. ForSome (P.told keys.old) (λ told. FailsKeys told b seeds.now e)) }

    // Over any keys, of which the first pass counted m.
    ensures no_keys { IfErr result (λ e. OnNoKeys e ((P.place keys.new ≡ 0) × P.at_end keys.new × P.gave keys.new [])) }
    ensures failed { IfErr result (HasFailure (P.failure keys.new)) }
    ensures overfull { IfErr result (λ e. IfOverfull e (λ seed bucket count equal. (m : ℕ) × HasPassed P.at_end P.place m × (seed ≡ slice_index seeds.now 0) × P.at_end keys.new
        × CountedOver P.at_end P.gave (bucket_count m b) seed bucket count × GaveEqual (P.gave keys.new) (bucket_count m b) seed bucket count equal)) }
    ensures changed { IfErr result (λ e. IfChanged e (λ first now. (m : ℕ) × HasPassed P.at_end P.place m × (((first ≡ m) × IsOtherCount first now (P.place keys.new))
        ⊎ IsOtherBucket (CountedBucket P.at_end P.gave) (GaveCount (P.gave keys.new)) (bucket_count m b) seeds.now first now))) }
    ensures damage { IfErr result (λ e. IfDamage e (λ damage. P.at_end keys.new × HasDamage (GaveSizes (P.gave keys.new))
        (IsDamageIn (B.damages store.new) (B.given store.new) (B.end store.new)) (bucket_count (P.place keys.new) b) seeds.now damage)) }
    ensures form { IfErr result (HasBrzForm seeds.now) }
    ensures steps { ForSome (P.told keys.old) (λ told. steps.new ≤ steps.old + 24 * length told.keys * length seeds.now) }
{
    let mut key = KeyBuf::new();
    let m = count_all(keys, &mut key)?;
    if m == 0 {
        return Err(BrzFault::NoKeys);
    }
    let splitting = split_keys(alloc, keys, &mut key, m, b, seeds)?;
    put_all(alloc, keys, &mut key, m, &splitting, store)?;
    let mut parts = BrzParts::new(alloc, m, c, b, splitting.split.seed);
    parts.expect_all();
    let sizes: &[u16] = &splitting.sizes;
    build_buckets(alloc, store, &mut key, sizes, seeds, &mut parts, steps)?;
    Ok(parts.finish())
}
