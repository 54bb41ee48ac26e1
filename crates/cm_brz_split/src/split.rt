//! How keys are split into buckets.
ghost use Rattle.std.specs.Prelude.{◌≡◌, ◌≢◌, ◌⊎◌, ℕ, ◌+◌, ◌<◌, ◌≤◌, List, length, drop, slice_index, sum, true, false, IfOk, IfErr, IfSome, IfNone, IsTrue, OnOk, Contains, None, Some, Ok, Err};
ghost use Rattle.std.specs.Option.{ForSome};
ghost use Rattle.cm_io.specs.Passes.{HasKeyCause};
ghost use Rattle.cm_io.specs.PassFaults.{HasOtherCount, HasPassCause, HasPassFailure};
ghost use Rattle.cm_io.specs.declared.pass_fault.PassFault.TheVariants as pass_fault;
ghost use Rattle.cm_brz_func.specs.Functions.{bucket_count, bucket_of as bucket_of_key};
ghost use Rattle.cm_spec.specs.declared.limits.TheConstants.{MAX_BUCKET, MAX_KEYS};
ghost use Rattle.cm_brz_split.specs.Given.{CountedOver, GaveMore, GaveNext, GaveOver, GaveSizes};
ghost use Rattle.cm_brz_split.specs.Passes.{AreCounted, FailsAgain};
ghost use Rattle.cm_brz_split.specs.Split.{AreSizes, CountsPassed, GivesBucket, IsFirstOver, is_split, size_by_words, split_of};
ghost use Rattle.cm_brz_func.specs.Splitting.{IsLowestOver};

use cm_algo_scheme::Divisor;
use cm_brz_func::{MAX_BUCKET, bucket_of_hashed, flip};
use cm_io::{KeyBuf, KeyFault, KeyPass, MAX_KEYS, PassFault, expect_end};
use cm_lookup2::words;
use std::alloc::{AllocError, Global};

/// How many buckets `m` keys are split into, with `b` keys a bucket on average.
pub fn bucket_total(m: u32, b: u16) -> u32
    requires many { (1 ≤ m) × (m ≤ MAX_KEYS) }
    requires some { 0 < b }
    ensures count { result ≡ bucket_count m b }
    ensures some { 0 < result }
    ensures few { result ≤ m }
{
    (m + (b as u32 - 1)) / b as u32
}

/// A split of keys into buckets: its seed, and how many buckets there are.
#[derive(Clone, Copy, Drop)]
pub struct Split {
    pub seed: u32,
    pub buckets: Divisor,
}

impl Split {
    /// The bucket of a key, from 0.
    #[inline(always)]
    pub fn bucket_of(&self, key: &[u8]) -> u32
        ensures bucket { result ≡ bucket_of_key key.now self.now.seed self.now.buckets }
        ensures below { result < self.now.buckets }
    {
        bucket_of_hashed(words(key, flip(self.seed)), &self.buckets)
    }
}

/// How keys are split: the buckets, and how many keys each has, which two bytes hold.
#[derive(Drop)]
pub struct Splitting {
    pub split: Split,
    pub sizes: Vec<u16>,
}

/// The bucket of the next key, or none at the end. A buffered key isn't copied. The buffer is scratch space.
#[inline(always)]
fn next_bucket<P: KeyPass>(
    keys: &mut P,
    key: &mut KeyBuf,
    split: &Split,
) -> Result<Option<u32>, KeyFault>
    requires usable { IsTrue (P.usable keys.old) }
    ensures told { P.told keys.new ≡ P.told keys.old }
    ensures gives { ForSome (P.told keys.old) (λ told. GivesBucket told (P.place keys.old) (P.place keys.new) split.now.buckets split.now.seed result) }
    ensures cause { HasKeyCause (P.faults keys.old) (P.faults keys.new) result }
    ensures counts { IfOk result (λ o. IfSome o (λ _. P.place keys.new ≡ P.place keys.old + 1)) }
    ensures below { IfOk result (λ o. IfSome o (λ j. j < split.now.buckets)) }
    ensures ended { IfOk result (λ o. IfNone o (P.place keys.new ≡ P.place keys.old)) }
    ensures usable { OnOk result (P.usable keys.new ≡ true) }
    ensures failed { IfErr result (λ fault. P.failure keys.new ≡ Some fault) }
    ensures gave { (before : List (ℕ × List ℕ)) → P.gave keys.old before → IfOk result (λ o. IfSome o (GaveNext (P.gave keys.new) before split.now.buckets split.now.seed)) }
{
    let (bucket, len) = match keys.peek() {
        Some((_, next)) => (split.bucket_of(next), next.len()),
        None => {
            if !keys.next(key)? {
                return Ok(None);
            }
            return Ok(Some(split.bucket_of(key.as_slice())));
        }
    };
    keys.pass(len);
    Ok(Some(bucket))
}

/// Counts keys by their hash values, each in its bucket.
#[inline(always)]
fn count_hashed(split: &Split, all: &[[u32; 3]], sizes: &mut [u32])
    requires long { length sizes.old ≡ split.now.buckets }
    requires few { sum sizes.old + length all.now ≤ MAX_KEYS }
    ensures all { sum sizes.new ≡ sum sizes.old + length all.now }
    ensures each { (j : ℕ) → j < split.now.buckets → slice_index sizes.new j ≡ slice_index sizes.old j + size_by_words all.now split.now.buckets j }
{
    for hashed in all {
        sizes[bucket_of_hashed(*hashed, &split.buckets) as usize] += 1;
    }
}

/// Counts the next four keys, each in its bucket, if they are buffered and at least four are left. If not, nothing changes.
#[inline(always)]
fn count_four<P: KeyPass>(keys: &mut P, left: u32, split: &Split, sizes: &mut [u32]) -> bool
    requires usable { IsTrue (P.usable keys.old) }
    requires long { length sizes.old ≡ split.now.buckets }
    requires few { sum sizes.old + left ≤ MAX_KEYS }
    ensures told { P.told keys.new ≡ P.told keys.old }
    ensures cause { P.faults keys.new ≡ P.faults keys.old }
    ensures usable { P.usable keys.new ≡ true }
    ensures unchanged { result ≡ false → (keys.new ≡ keys.old) × (sizes.new ≡ sizes.old) }
    ensures none { result ≡ false → (left < 4) ⊎ P.lacks_four keys.old }
    ensures enough { result ≡ true → 4 ≤ left }
    ensures counts { result ≡ true → P.place keys.new ≡ P.place keys.old + 4 }
    ensures all { result ≡ true → sum sizes.new ≡ sum sizes.old + 4 }
    ensures each { result ≡ true → ForSome (P.told keys.old) (λ told. CountsPassed sizes.old sizes.new (drop (P.place keys.old) told.keys) (drop (P.place keys.new) told.keys) split.now.buckets split.now.seed) }
    ensures gave { result ≡ true → (before : List (ℕ × List ℕ)) → P.gave keys.old before → GaveMore (P.gave keys.new) before sizes.old sizes.new split.now.buckets split.now.seed }
{
    if left < 4 {
        return false;
    }
    let four = match keys.hash_four(flip(split.seed)) {
        Some(four) => four,
        None => return false,
    };
    count_hashed(split, &four, sizes);
    true
}

/// A bucket with more keys than one may have, and how many it has.
#[derive(Clone, Copy)]
pub struct Overfull {
    pub bucket: u32,
    pub count: u32,
}

/// The first of these numbers of keys that is more than a bucket may have.
fn find_overfull(sizes: &[u32]) -> Option<Overfull>
    requires few { length sizes.now ≤ MAX_KEYS }
    ensures some { IfSome result (λ over. IsFirstOver sizes.now over.bucket over.count) }
    ensures none { IfNone result ((j : ℕ) → j < length sizes.now → slice_index sizes.now j ≤ MAX_BUCKET) }
{
    for (j, count) in sizes.iter().enumerate() {
        if *count > MAX_BUCKET {
            return Some(Overfull {
                bucket: j as u32,
                count: *count,
            });
        }
    }
    None
}

/// Counts the keys of each bucket in one pass over all keys, which are to be `m`. The buffer is scratch space.
fn count_buckets<P: KeyPass>(
    keys: &mut P,
    key: &mut KeyBuf,
    m: u32,
    split: &Split,
    sizes: &mut [u32],
) -> Result<(), PassFault>
    requires few { m ≤ MAX_KEYS }
    requires long { length sizes.old ≡ split.now.buckets }
    requires counted { ForSome (P.told keys.old) (AreCounted m) }
    ensures told { P.told keys.new ≡ P.told keys.old }
    ensures cause { HasPassCause (P.faults keys.old) (P.faults keys.new) result }
    ensures all { OnOk result (sum sizes.new ≡ m) }
    ensures sizes { OnOk result (ForSome (P.told keys.old) (λ told. AreSizes sizes.new told.keys split.now.buckets split.now.seed)) }
    ensures ended { OnOk result (P.at_end keys.new) }
    ensures gave { OnOk result (GaveSizes (P.gave keys.new) sizes.new split.now.buckets split.now.seed) }
    ensures memory { result ≢ Err pass_fault.Memory }
    ensures changed { IfErr result (HasOtherCount m (P.place keys.new)) }
    ensures failed { IfErr result (HasPassFailure (P.failure keys.new)) }
    ensures fault { IfErr result (λ e. ForSome (P.told keys.old) (λ told. FailsAgain told e)) }
{
    keys.rewind()?;
    sizes.fill(0);
    let mut count = 0;
    'more: while count < m {
        if count_four(keys, m - count, split, sizes) {
            count += 4;
            continue;
        }
        match next_bucket(keys, key, split) {
            Ok(Some(bucket)) => sizes[bucket as usize] += 1,
            Ok(None) => {
                return Err(PassFault::Changed {
                    first: m,
                    now: count,
                });
            }
            Err(fault) => return Err(PassFault::Key(fault)),
        }
        count += 1;
    }
    expect_end(keys, key, m)?;
    Ok(())
}

/// Counts the keys of each bucket, and returns the lowest bucket that has more than it may have, or none if this seed splits the
/// keys.
fn try_seed<P: KeyPass>(
    keys: &mut P,
    key: &mut KeyBuf,
    m: u32,
    split: &Split,
    sizes: &mut [u32],
) -> Result<Option<Overfull>, PassFault>
    requires few { m ≤ MAX_KEYS }
    requires few_buckets { split.now.buckets ≤ MAX_KEYS }
    requires long { length sizes.old ≡ split.now.buckets }
    requires counted { ForSome (P.told keys.old) (AreCounted m) }
    ensures told { P.told keys.new ≡ P.told keys.old }
    ensures cause { HasPassCause (P.faults keys.old) (P.faults keys.new) result }
    ensures all { OnOk result (sum sizes.new ≡ m) }
    ensures sizes { OnOk result (ForSome (P.told keys.old) (λ told. AreSizes sizes.new told.keys split.now.buckets split.now.seed)) }
    ensures ended { OnOk result (P.at_end keys.new) }
    ensures gave { OnOk result (GaveSizes (P.gave keys.new) sizes.new split.now.buckets split.now.seed) }
    ensures small { IfOk result (λ o. IfNone o ((j : ℕ) → j < length sizes.new → slice_index sizes.new j ≤ MAX_BUCKET)) }
    ensures splits { IfOk result (λ o. IfNone o (ForSome (P.told keys.old) (λ told. is_split told.keys split.now.buckets split.now.seed ≡ true))) }
    ensures over { IfOk result (λ o. IfSome o (λ over. (MAX_BUCKET < over.count) × (over.bucket < split.now.buckets))) }
    ensures gave_over { IfOk result (λ o. IfSome o (λ over. GaveOver (P.gave keys.new) split.now.buckets split.now.seed over.bucket over.count)) }
    ensures lowest { IfOk result (λ o. IfSome o (λ over. ForSome (P.told keys.old) (λ told. IsLowestOver told.keys split.now.buckets split.now.seed over.bucket over.count))) }
    ensures memory { result ≢ Err pass_fault.Memory }
    ensures changed { IfErr result (HasOtherCount m (P.place keys.new)) }
    ensures failed { IfErr result (HasPassFailure (P.failure keys.new)) }
    ensures fault { IfErr result (λ e. ForSome (P.told keys.old) (λ told. FailsAgain told e)) }
{
    count_buckets(keys, key, m, split, sizes)?;
    match find_overfull(sizes) {
        Some(over) => Ok(Some(over)),
        None => Ok(None),
    }
}

/// The first seed of the list under which no bucket has more keys than it may have, with this many buckets for the `m` keys; or, if
/// there is none, the lowest bucket that has more under the first seed. The keys are passed once for each seed that is tried. If a seed
/// is found, the table has the number of keys of each bucket. The buffer is scratch space.
pub fn choose_split<P: KeyPass>(
    keys: &mut P,
    key: &mut KeyBuf,
    m: u32,
    buckets: Divisor,
    seeds: &[u32],
    sizes: &mut [u32],
) -> Result<Result<Split, Overfull>, PassFault>
    requires few { m ≤ MAX_KEYS }
    requires few_buckets { buckets ≤ MAX_KEYS }
    requires some { 0 < length seeds.now }
    requires long { length sizes.old ≡ buckets }
    requires counted { ForSome (P.told keys.old) (AreCounted m) }
    ensures told { P.told keys.new ≡ P.told keys.old }
    ensures cause { HasPassCause (P.faults keys.old) (P.faults keys.new) result }
    ensures split { IfOk result (λ o. IfOk o (λ split. (split.buckets ≡ buckets) × Contains seeds.now split.seed)) }
    ensures all { IfOk result (λ o. IfOk o (λ _. sum sizes.new ≡ m)) }
    ensures small { IfOk result (λ o. IfOk o (λ _. (j : ℕ) → j < length sizes.new → slice_index sizes.new j ≤ MAX_BUCKET)) }
    ensures sizes { IfOk result (λ o. IfOk o (λ split. ForSome (P.told keys.old) (λ told. AreSizes sizes.new told.keys buckets split.seed))) }
    ensures ended { IfOk result (λ o. IfOk o (λ _. P.at_end keys.new)) }
    ensures gave { IfOk result (λ o. IfOk o (λ split. GaveSizes (P.gave keys.new) sizes.new buckets split.seed)) }
    ensures first { IfOk result (λ o. IfOk o (λ split. ForSome (P.told keys.old) (λ told. split_of told.keys buckets seeds.now ≡ Some split.seed))) }
    ensures over { IfOk result (λ o. IfErr o (λ over. (MAX_BUCKET < over.count) × (over.bucket < buckets))) }
    ensures counted { IfOk result (λ o. IfErr o (λ over. CountedOver P.at_end P.gave buckets (slice_index seeds.now 0) over.bucket over.count)) }
    ensures none { IfOk result (λ o. IfErr o (λ over. ForSome (P.told keys.old) (λ told. (split_of told.keys buckets seeds.now ≡ None) × IsLowestOver told.keys buckets (slice_index seeds.now 0) over.bucket over.count))) }
    ensures memory { result ≢ Err pass_fault.Memory }
    ensures changed { IfErr result (HasOtherCount m (P.place keys.new)) }
    ensures failed { IfErr result (HasPassFailure (P.failure keys.new)) }
    ensures fault { IfErr result (λ e. ForSome (P.told keys.old) (λ told. FailsAgain told e)) }
{
    let split = Split {
        seed: seeds[0],
        buckets,
    };
    let first = match try_seed(keys, key, m, &split, sizes)? {
        Some(over) => over,
        None => return Ok(Ok(split)),
    };
    for i in 1..seeds.len() {
        let later = Split {
            seed: seeds[i],
            buckets,
        };
        match try_seed(keys, key, m, &later, sizes)? {
            Some(_) => {}
            None => return Ok(Ok(later)),
        }
    }
    Ok(Err(first))
}

/// These numbers of keys, in two bytes each: none is more than a bucket may have. Fails only if memory runs out.
pub fn narrowed(alloc: Global, sizes: &[u32]) -> Result<Vec<u16>, AllocError>
    requires small { (j : ℕ) → j < length sizes.now → slice_index sizes.now j ≤ MAX_BUCKET }
    ensures same { IfOk result (λ v. v.items ≡ sizes.now) }
{
    let mut narrow = Vec::with_capacity(alloc, sizes.len())?;
    for size in sizes {
        narrow.push_reserved(*size as u16);
    }
    Ok(narrow)
}
