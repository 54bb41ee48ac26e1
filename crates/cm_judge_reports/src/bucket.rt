//! Whether the report of a 2-core in a bucket is true.
ghost use Rattle.std.specs.Prelude.{◌≡◌, ◌<◌, ◌≤◌, ◌+◌, [], Some, None, drop, length, true, false, IfErr, IfNone, IfOk, IfSome, IsTrue, OnOk};
ghost use Rattle.std.specs.Option.{ForSome};
ghost use Rattle.cm_brz_func.specs.Functions.{bucket_count};
ghost use Rattle.cm_brz_func.specs.Splitting.{keys_of_bucket, size_of_bucket};
ghost use Rattle.cm_brz_split.specs.BucketPass.{last_line};
ghost use Rattle.cm_brz_split.specs.Passes.{AreCounted};
ghost use Rattle.cm_io.specs.PassFaults.{HasOtherCount, IfChanged};
ghost use Rattle.cm_io.specs.Passes.{Ends};
ghost use Rattle.cm_io.specs.declared.key_pass.TheConstants.{MAX_KEY_LEN};
ghost use Rattle.cm_judge_core.specs.Walks.{graph_judged};
ghost use Rattle.cm_judge_reports.specs.Buckets.{AddsHere, AddsNext};
ghost use Rattle.cm_judge_reports.specs.Faults.{PassesAgain};
ghost use Rattle.cm_judge_verdict.specs.Rising.{RisesBy};
ghost use Rattle.cm_judge_verdict.specs.Verdicts.{core_reasons, first_reason, graph_reasons, lines_unknown, lowest};
ghost use Rattle.cm_judge_verdict.specs.declared.verdict.Reason.TheVariants.{NoKey};
ghost use Rattle.cm_spec.specs.Bdz.{bdz_rule};
ghost use Rattle.cm_spec.specs.Rule.{IsRatio};
ghost use Rattle.cm_spec.specs.declared.limits.TheConstants.{MAX_BUCKET, MAX_KEYS, MAX_WIDTH, MIN_WIDTH};

use cm_algo_scheme::Divisor;
use cm_bdz::BdzScheme;
use cm_brz_func::MAX_BUCKET;
use cm_brz_split::{BucketKeys, Split, bucket_total};
use cm_graph::{Steps, Xored};
use cm_io::{KeyBuf, KeyPass, PassFault, expect_end};
use cm_judge_core::core_verdict;
use cm_judge_verdict::{Reason, Verdict};
use cm_witness_gather::{Certificate, CoreEdge, InBucket};
use std::alloc::{AllocError, Global};
use std::sync::ledger::Ledger;

/// Adds a key of a later line if it is of this bucket. Returns false, and adds nothing, if there is no room for it.
fn add_here(
    line: u32,
    key: &[u8],
    split: &Split,
    bucket: u32,
    taken: &mut BucketKeys,
) -> Result<bool, AllocError>
    requires few { length taken.old.keys ≤ MAX_BUCKET }
    requires rises { last_line taken.old.keys < line }
    requires short { length key.now ≤ MAX_KEY_LEN }
    ensures adds { IfOk result (λ fits. AddsHere (line, key.now) split.now.buckets split.now.seed bucket fits taken.old.keys taken.new.keys) }
    ensures few { length taken.new.keys ≤ MAX_BUCKET }
    ensures rises { last_line taken.new.keys ≤ line }
{
    if split.bucket_of(key) != bucket {
        return Ok(true);
    }
    if taken.len() == MAX_BUCKET as usize {
        return Ok(false);
    }
    taken.push(line, key)?;
    Ok(true)
}

/// Passes the next key, and adds it if it is of this bucket. Returns whether there was room for it, or none at the end. A buffered key
/// of another bucket isn't copied. The buffer is scratch space.
fn take_next<P: KeyPass>(
    keys: &mut P,
    key: &mut KeyBuf,
    split: &Split,
    bucket: u32,
    taken: &mut BucketKeys,
) -> Result<Option<bool>, PassFault>
    requires usable { IsTrue (P.usable keys.old) }
    requires few { length taken.old.keys ≤ MAX_BUCKET }
    requires rises { last_line taken.old.keys ≤ P.last keys.old }
    ensures passes { PassesAgain P.KeyPass keys.old keys.new result }
    ensures usable { OnOk result (P.usable keys.new ≡ true) }
    ensures few { length taken.new.keys ≤ MAX_BUCKET }
    ensures rises { OnOk result (last_line taken.new.keys ≤ P.last keys.new) }
    ensures counts { IfOk result (λ o. IfSome o (λ _. P.place keys.new ≡ P.place keys.old + 1)) }
    ensures adds { IfOk result (λ o. IfSome o (λ fits. ForSome (P.told keys.old) (λ told. AddsNext (drop (P.place keys.old) told.keys) (drop (P.place keys.new) told.keys) split.now.buckets split.now.seed bucket fits taken.old.keys taken.new.keys))) }
    ensures ends { IfOk result (λ o. IfNone o (ForSome (P.told keys.old) (λ told. Ends told (P.place keys.old) None))) }
    ensures ended { IfOk result (λ o. IfNone o (P.place keys.new ≡ P.place keys.old)) }
    ensures unchanged { IfErr result (λ fault. IfChanged fault (λ _ _. ⊥)) }
{
    let (fits, len) = match keys.peek() {
        Some((line, next)) => (add_here(line, next, split, bucket, taken)?, next.len()),
        None => {
            if !keys.next(key)? {
                return Ok(None);
            }
            let fits = add_here(keys.line(), key.as_slice(), split, bucket, taken)?;
            return Ok(Some(fits));
        }
    };
    keys.pass(len);
    Ok(Some(fits))
}

/// Takes the keys of a bucket, with their lines, from a pass over all keys, of which `m` were counted. Returns false, and stops, at one
/// key more than a bucket may have. The buffer is scratch space.
pub(crate) fn take_bucket<P: KeyPass>(
    keys: &mut P,
    key: &mut KeyBuf,
    m: u32,
    split: &Split,
    bucket: u32,
    taken: &mut BucketKeys,
) -> Result<bool, PassFault>
    requires few { m ≤ MAX_KEYS }
    requires none { (taken.old.keys ≡ []) × (taken.old.given ≡ 0) }
    requires counted { ForSome (P.told keys.old) (AreCounted m) }
    ensures passes { PassesAgain P.KeyPass keys.old keys.new result }
    ensures taken { IfOk result (λ fits. fits ≡ true → ForSome (P.told keys.old) (λ told. taken.new.keys ≡ keys_of_bucket told.keys split.now.buckets split.now.seed bucket)) }
    ensures full { IfOk result (λ fits. fits ≡ false → ForSome (P.told keys.old) (λ told. MAX_BUCKET < size_of_bucket told.keys split.now.buckets split.now.seed bucket)) }
    ensures passed { IfOk result (λ fits. fits ≡ true → P.at_end keys.new × (P.place keys.new ≡ m)) }
    ensures few { length taken.new.keys ≤ MAX_BUCKET }
    ensures changed { IfErr result (HasOtherCount m (P.place keys.new)) }
{
    keys.rewind()?;
    for count in 0..m {
        match take_next(keys, key, split, bucket, taken)? {
            Some(true) => {}
            Some(false) => return Ok(false),
            None => {
                return Err(PassFault::Changed {
                    first: m,
                    now: count,
                });
            }
        }
    }
    expect_end(keys, key, m)?;
    Ok(true)
}

/// The reason against a report on a bucket that has no key: the lowest of its lines is that of none.
fn no_key(edges: &[CoreEdge]) -> Reason
    requires some { 0 < length edges.now }
    requires edges { RisesBy (λ e. e.line) 0 edges.now }
    ensures reason { Some result ≡ lowest NoKey (lines_unknown [] edges.now) }
{
    Reason::NoKey {
        line: edges[0].line,
    }
}

/// The verdict of the keys of a bucket, of which there is one at least, on the report of their 2-core. Fails only if memory runs out. The
/// buffer is scratch space.
fn taken_verdict<L: Ledger>(
    alloc: Global,
    taken: &mut BucketKeys,
    key: &mut KeyBuf,
    shown: &Certificate,
    c: u32,
    steps: &mut Steps<L>,
) -> Result<Verdict, AllocError>
    requires some { 0 < length taken.old.keys }
    requires ratio { IsRatio c }
    requires edges { RisesBy (λ e. e.line) 0 shown.now.edges.items }
    requires equal { RisesBy (λ p. p.again) 0 shown.now.equal.items }
    ensures verdict { IfOk result (λ verdict. verdict ≡ first_reason (graph_reasons (graph_judged bdz_rule taken.old.keys c shown.now.seed) shown.now.edges.items shown.now.equal.items)) }
{
    let m = taken.len() as u32;
    match core_verdict::<BdzScheme, Xored<3>, BucketKeys, 3, L>(
        alloc,
        &BdzScheme {},
        taken,
        key,
        shown,
        m,
        c,
        steps,
    ) {
        Ok(verdict) => Ok(verdict),
        Err(PassFault::Memory) => Err(AllocError),
        // The keys are in memory: each pass yields all of them.
        Err(_) => unreachable!(),
    }
}

/// What the graphs of a build are made with, besides an algorithm and seeds.
#[derive(Clone, Copy)]
pub(crate) struct BuildSizes {
    /// How many keys there are.
    pub keys: u32,
    /// How many keys a bucket of BRZ has on average.
    pub width: u16,
    /// The ratio of vertices to keys in millionths.
    pub ratio: u32,
}

/// The verdict of the keys of a pass, which were counted, on the report of the 2-core of a bucket. They are passed once at most. The
/// buffer is scratch space.
pub(crate) fn bucket_verdict<P: KeyPass, L: Ledger>(
    alloc: Global,
    keys: &mut P,
    key: &mut KeyBuf,
    shown: &Certificate,
    place: InBucket,
    sizes: BuildSizes,
    steps: &mut Steps<L>,
) -> Result<Verdict, PassFault>
    requires many { (1 ≤ sizes.keys) × (sizes.keys ≤ MAX_KEYS) }
    requires width { (MIN_WIDTH ≤ sizes.width) × (sizes.width ≤ MAX_WIDTH) }
    requires ratio { IsRatio sizes.ratio }
    requires counted { ForSome (P.told keys.old) (AreCounted sizes.keys) }
    requires some { 0 < length shown.now.edges.items }
    requires edges { RisesBy (λ e. e.line) 0 shown.now.edges.items }
    requires equal { RisesBy (λ p. p.again) 0 shown.now.equal.items }
    ensures passes { PassesAgain P.KeyPass keys.old keys.new result }
    ensures verdict { IfOk result (λ verdict. ForSome (P.told keys.old) (λ told. verdict ≡ first_reason (core_reasons (Some place) (bucket_count sizes.keys sizes.width)
        (graph_judged bdz_rule (keys_of_bucket told.keys (bucket_count sizes.keys sizes.width) place.split place.bucket) sizes.ratio shown.now.seed) shown.now.edges.items shown.now.equal.items))) }
    ensures changed { IfErr result (HasOtherCount sizes.keys (P.place keys.new)) }
{
    let buckets = Divisor::new(bucket_total(sizes.keys, sizes.width));
    if place.bucket >= buckets.value() {
        return Ok(Verdict::Fails(Reason::NoBucket));
    }
    let split = Split {
        seed: place.split,
        buckets,
    };
    let mut taken = BucketKeys::new(alloc, [shown.seed; 4]);
    if !take_bucket(keys, key, sizes.keys, &split, place.bucket, &mut taken)? {
        return Ok(Verdict::Fails(Reason::NoBucket));
    }
    if taken.len() == 0 {
        return Ok(Verdict::Fails(no_key(&shown.edges)));
    }
    let verdict = taken_verdict(alloc, &mut taken, key, shown, sizes.ratio, steps)?;
    Ok(verdict)
}
