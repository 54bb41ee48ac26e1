//! Builds by BRZ with the keys in a spill.
ghost use Rattle.std.specs.Prelude.{◌≡◌, ◌⊎◌, ℕ, ◌+◌, ◌*◌, ◌<◌, ◌≤◌, [], length, slice_index, IfOk, IfErr, Contains, None, Some, is_some};
ghost use Rattle.std.specs.Option.{ForSome};
ghost use Rattle.cm_brz.specs.AnyKeys.{HasDamage, IsDamageIn, IsOtherBucket};
ghost use Rattle.cm_brz.specs.BrzOf.{IsBrzOf};
ghost use Rattle.cm_brz.specs.Fails.{FailsBrz, FailsKeys, HasBrzForm, IsDamage};
ghost use Rattle.cm_brz_split.specs.Faults.{HasFailure, HasKeysCause, HasSpillCause, IfChanged, IfDamage, IfOverfull, OnNoKeys};
ghost use Rattle.cm_brz_split.specs.Given.{CountedBucket, CountedOver, GaveCount, GaveEqual, GaveSizes};
ghost use Rattle.cm_brz_split.specs.Puts.{records_under};
ghost use Rattle.cm_brz_split.specs.Spilled.{AreSpilled};
ghost use Rattle.cm_brz_split.specs.Split.{split_of};
ghost use Rattle.cm_brz_func.specs.Functions.{bucket_count};
ghost use Rattle.cm_spec.specs.declared.limits.TheConstants.{MAX_WIDTH, MIN_WIDTH};
ghost use Rattle.cm_spec.specs.Rule.{IsRatio};
ghost use Rattle.cm_io.specs.PassFaults.{HasPassed, IsOtherCount};
ghost use Rattle.cm_spill.specs.Damage.{IsDamageOf};
ghost use Rattle.cm_spill.specs.Stores.{Store, given_of};
ghost use Rattle.cm_spill.specs.declared.runs.TheConstants.{MAX_BYTES, MIN_BYTES};

use crate::building::brz_over;
use cm_brz_split::BrzFault;
use cm_graph::Steps;
use cm_io::{KeyPass, Spill};
use cm_spill::Runs;
use std::alloc::Global;
use std::sync::ledger::Ledger;

/// The function by BRZ of the keys of a pass. The first seed of the list under which no bucket has more than `MAX_BUCKET` keys splits
/// them into buckets of `b` on average, from `MIN_WIDTH` to `MAX_WIDTH`. Each bucket takes the first seed of the list whose graph by
/// BDZ has an empty 2-core. The ratio `c` is in millionths.
///
/// The keys are passed once to be counted, and once for each seed that is tried for the split. Then they are passed once more: all of
/// them are put into the spill, which is empty, through a buffer of `buffer` bytes, from `MIN_BYTES` to `MAX_BYTES`, and are read from
/// it bucket by bucket; or, if no seed splits them, the equal keys of the lowest overfull bucket are gathered. The function doesn't
/// depend on the buffer. The spill is returned as the last call left it, and after a failure the keys may be rewound and used again.
pub fn brz<P: KeyPass, S: Spill, L: Ledger>(
    alloc: Global,
    keys: &mut P,
    c: u32,
    b: u16,
    seeds: &[u32],
    buffer: u32,
    spill: S,
    steps: &mut Steps<L>,
) -> (Result<cm_brz_func::Brz, BrzFault>, S)
    requires ratio { IsRatio c }
    requires width { (MIN_WIDTH ≤ b) × (b ≤ MAX_WIDTH) }
    requires some { 0 < length seeds.now }
    requires buffer { (MIN_BYTES ≤ buffer) × (buffer ≤ MAX_BYTES) }
    requires empty { ForSome (S.told spill) (λ known. known ≡ []) }
    ensures told { P.told keys.new ≡ P.told keys.old }
    ensures keys_cause { HasKeysCause (P.faults keys.old) (P.faults keys.new) result.0 }
    ensures spill_cause { HasSpillCause (S.faults spill) (S.faults result.1) result.0 }
    ensures known { is_some (S.told result.1) ≡ is_some (S.told spill) }
    ensures numbers { IfOk result.0 (λ f. (f.ratio ≡ c) × (f.width ≡ b) × Contains seeds.now f.split) }
    ensures made { ForSome (S.told spill) (λ _. IfOk result.0 (λ f. ForSome (P.told keys.old) (λ told. (told.fault ≡ None) × IsBrzOf told.keys c b seeds.now f))) }

    // Each key is in the spill, once, with its line and its bucket.
    ensures spilled { IfOk result.0 (λ f. ForSome (S.told result.1) (λ bytes. ForSome (P.told keys.old) (λ told. AreSpilled bytes (records_under told.keys (length f.buckets) f.split)))) }
    ensures fault { ForSome (S.told spill) (λ _. IfErr result.0 (λ e. ForSome (P.told keys.old) (λ told. FailsBrz told c b seeds.now e))) }
    ensures undamaged { ForSome (S.told spill) (λ _. IfErr result.0 (λ e. IsDamage e → ⊥)) }
    ensures form { IfErr result.0 (HasBrzForm seeds.now) }

    // Over known keys, whatever is known of the spill.
    ensures split_known { IfOk result.0 (λ f. ForSome (P.told keys.old) (λ told. (told.fault ≡ None) × (f.keys ≡ length told.keys)
        × (split_of told.keys (bucket_count (length told.keys) b) seeds.now ≡ Some f.split))) }
    ensures over_known { IfErr result.0 (λ e. ForSome (P.told keys.old) (λ told. FailsKeys told b seeds.now e)) }

    // Over any keys, of which the first pass counted m.
    ensures no_keys { IfErr result.0 (λ e. OnNoKeys e ((P.place keys.new ≡ 0) × P.at_end keys.new × P.gave keys.new [])) }
    ensures failed { IfErr result.0 (HasFailure (P.failure keys.new)) }
    ensures overfull { IfErr result.0 (λ e. IfOverfull e (λ seed bucket count equal. (m : ℕ) × HasPassed P.at_end P.place m × (seed ≡ slice_index seeds.now 0) × P.at_end keys.new
        × CountedOver P.at_end P.gave (bucket_count m b) seed bucket count × GaveEqual (P.gave keys.new) (bucket_count m b) seed bucket count equal)) }
    ensures changed { IfErr result.0 (λ e. IfChanged e (λ first now. (m : ℕ) × HasPassed P.at_end P.place m × (((first ≡ m) × IsOtherCount first now (P.place keys.new))
        ⊎ IsOtherBucket (CountedBucket P.at_end P.gave) (GaveCount (P.gave keys.new)) (bucket_count m b) seeds.now first now))) }

    // A damage is one that a store over the spill found, after all keys of the last pass were put into it.
    ensures damage { IfErr result.0 (λ e. IfDamage e (λ damage. P.at_end keys.new × ((store : Store) × (store.known ≡ S.told result.1) × (store.faults ≡ S.faults result.1)
        × HasDamage (GaveSizes (P.gave keys.new)) (IsDamageIn (IsDamageOf store) (given_of store) store.read_end) (bucket_count (P.place keys.new) b) seeds.now damage))) }
    ensures steps { ForSome (P.told keys.old) (λ told. steps.new ≤ steps.old + 24 * length told.keys * length seeds.now) }
{
    let mut store = match Runs::new(alloc, spill, buffer) {
        Ok(store) => store,
        Err(spill) => return (Err(BrzFault::Memory), spill),
    };
    let made = brz_over(alloc, keys, &mut store, c, b, seeds, steps);
    (made, store.into_spill())
}
