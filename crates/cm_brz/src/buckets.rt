//! From the store to the functions of the buckets.
ghost use Rattle.std.specs.Prelude.{◌≡◌, ◌⊎◌, ℕ, ◌+◌, ◌*◌, ◌<◌, ◌≤◌, List, [], Some, length, sum, count_by, IfOk, IfErr, IsTrue, OnOk, slice_index, true};
ghost use Rattle.cm_algo_names.specs.declared.algorithm.Algorithm.TheVariants as algorithm;
ghost use Rattle.cm_brz.specs.AnyKeys.{IsDamageIn};
ghost use Rattle.cm_brz.specs.BrzOf.{AreBuilt, PushesBucket, bucket_from};
ghost use Rattle.cm_brz.specs.Fails.{FailsBucket, FailsBuckets, HasBuildingForm};
ghost use Rattle.cm_brz_split.specs.Faults.{HasSpillCause, IfDamage};
ghost use Rattle.cm_brz_split.specs.Puts.{HasTwoNumbers, HaveSizes, IsMiscount, keys_in_bucket};
ghost use Rattle.cm_brz_split.specs.Records.{Record, records_of};
ghost use Rattle.cm_spill.specs.Stores.{HasSpillCause as HasStoreCause, IsOfWriting as NotDamaged};
ghost use Rattle.cm_brz_split.specs.declared.fault.BrzFault.TheVariants as brz_fault;
ghost use Rattle.cm_spill.specs.declared.fault.SpillError.TheVariants as spill_error;
ghost use Rattle.cm_brz_func.specs.Functions.{bucket_cells, bucket_count, keys_in};
ghost use Rattle.cm_brz_func.specs.Pushing.{with_bucket};
ghost use Rattle.cm_spec.specs.declared.limits.TheConstants.{MAX_BUCKET, MAX_KEYS};
ghost use Rattle.cm_spec.specs.Bdz.{bdz_rule, bdz_size};
ghost use Rattle.cm_spec.specs.Built.{IsFirst};
ghost use Rattle.cm_spec.specs.Cells.{is_busy};

use cm_algo_names::Algorithm;
use cm_algo_scheme::Built;
use cm_algo_seeds::{BuildFault, build_with};
use cm_bdz::{BdzScheme, PartsFault};
use cm_bits::{Cells, Crumbs};
use cm_brz_func::BrzParts;
use cm_brz_split::{BrzFault, BucketKeys, Store};
use cm_graph::{Steps, Xored};
use cm_io::KeyBuf;
use cm_spill::SpillError;
use cm_witness_gather::{Certificate, InBucket};
use std::alloc::Global;
use std::sync::ledger::Ledger;

/// The fault of a store that returned another number of records of a bucket than were put.
fn miscounted<B: Store>(store: &B, put: u32, found: u32) -> SpillError
    ensures damaged { result ≡ spill_error.Damaged (B.end store.now) put found }
{
    SpillError::Damaged {
        offset: store.read_end(),
        expected: put as u64,
        found: found as u64,
    }
}

/// Reads the keys of a bucket from the store. `size` of them were put. The buffer is scratch space.
fn read_bucket<B: Store>(
    store: &mut B,
    bucket: u32,
    size: u32,
    held: &mut BucketKeys,
    key: &mut KeyBuf,
) -> Result<(), SpillError>
    requires small { size ≤ MAX_BUCKET }
    requires store { IsTrue (B.usable store.old) }
    requires sealed { B.sealed store.old ≡ true }
    requires asks { B.may_ask store.old bucket }
    requires none { (B.given store.old bucket ≡ 0) × (B.given_last store.old bucket ≡ 0) }
    ensures store { OnOk result (B.usable store.new ≡ true) }
    ensures sealed { OnOk result (B.sealed store.new ≡ true) }
    ensures asks { OnOk result (B.may_ask store.new (bucket + 1)) }
    ensures later { OnOk result ((j : ℕ) → bucket < j → (B.given store.new j ≡ 0) × (B.given_last store.new j ≡ 0)) }
    ensures cause { HasStoreCause (B.faults store.old) (B.faults store.new) result }
    ensures known { B.known store.new ≡ B.known store.old }
    ensures size { OnOk result (length held.new.keys ≡ size) }
    ensures holds { (records : List Record) → B.holds store.old records → OnOk result (B.holds store.new records) }
    ensures keys { (records : List Record) → B.holds store.old records → OnOk result (held.new.keys ≡ keys_in_bucket records bucket) }
    ensures undamaged { (records : List Record) → B.holds store.old records → length (records_of bucket records) ≡ size → IfErr result NotDamaged }
    ensures fault { IfErr result HasTwoNumbers }

    // The store found a damage, or only the number of its records is wrong.
    ensures damage { IfErr result (λ e. B.damages store.new bucket e ⊎ IsMiscount size (B.given store.new bucket) (B.end store.new) e) }

    // If the store is still usable, only the number of its records is wrong.
    ensures miscounted { IfErr result (λ e. B.usable store.new ≡ true → IsMiscount size (B.given store.new bucket) (B.end store.new) e) }
{
    held.clear();
    for count in 0..size {
        match store.next_of(bucket, key)? {
            Some(line) => match held.push(line, key.as_slice()) {
                Ok(()) => {}
                Err(_) => return Err(SpillError::Memory),
            },
            None => {
                return Err(miscounted(store, size, count));
            }
        }
    }
    match store.next_of(bucket, key)? {
        Some(_) => Err(miscounted(store, size, size + 1)),
        None => Ok(()),
    }
}

/// The certificate of a graph by BDZ, as that of a bucket.
fn in_bucket(certificate: Certificate, place: InBucket) -> Certificate
    ensures algorithm { result.algorithm ≡ algorithm.Brz }
    ensures seed { result.seed ≡ certificate.seed }
    ensures place { result.place ≡ Some place }
    ensures edges { result.edges.items ≡ certificate.edges.items }
    ensures equal { result.equal.items ≡ certificate.equal.items }
{
    Certificate {
        algorithm: Algorithm::Brz,
        seed: certificate.seed,
        place: Some(place),
        edges: certificate.edges,
        equal: certificate.equal,
    }
}

/// Builds the function of the next bucket's keys, of which there is one at least. The buffer is scratch space.
fn build_bucket<L: Ledger>(
    alloc: Global,
    held: &mut BucketKeys,
    key: &mut KeyBuf,
    parts: &BrzParts,
    seeds: &[u32],
    steps: &mut Steps<L>,
) -> Result<Built<Crumbs>, BrzFault>
    requires some { 0 < length seeds.now }
    requires keys { 0 < length held.old.keys }
    ensures many { IfOk result (λ b. b.m ≡ length held.old.keys) }
    ensures made { IfOk result (λ b. bucket_from held.old.keys parts.now.ratio seeds.now ≡ Some (record { size = b.m; seed = b.seed; cells = ⟦<Crumbs as Cells>⟧.cells b.cells })) }
    ensures first { IfOk result (λ b. (t : ℕ) × IsFirst bdz_rule held.old.keys parts.now.ratio seeds.now t b.seed) }
    ensures cells { IfOk result (λ b. length (⟦<Crumbs as Cells>⟧.cells b.cells) ≡ bdz_size b.m parts.now.ratio) }
    ensures busy { IfOk result (λ b. count_by (is_busy 3) (⟦<Crumbs as Cells>⟧.cells b.cells) ≡ b.m) }
    ensures steps { steps.new ≤ steps.old + 24 * length held.old.keys * length seeds.now }
    ensures fault { IfErr result (FailsBucket held.old.keys parts.now.ratio seeds.now (record { split = parts.now.split; bucket = length parts.now.buckets })) }
{
    match build_with::<BdzScheme, Xored<3>, BucketKeys, 3, L>(
        alloc,
        &BdzScheme {},
        held,
        key,
        parts.c(),
        seeds,
        steps,
    ) {
        Ok(built) => Ok(built),
        Err(BuildFault::Memory) => Err(BrzFault::Memory),
        Err(BuildFault::Cored(certificate)) => {
            let place = InBucket {
                split: parts.split(),
                bucket: parts.len(),
            };
            Err(BrzFault::Cored(in_bucket(certificate, place)))
        }
        // The keys are in memory: there is one at least, and each pass yields all of them.
        Err(_) => unreachable!(),
    }
}

/// Adds a bucket to the function.
fn push_bucket(parts: &mut BrzParts, size: u32, seed: u32, cells: Crumbs) -> Result<(), BrzFault>
    requires small { size ≤ MAX_BUCKET }
    requires room { length parts.old.buckets < bucket_count parts.old.keys parts.old.width }
    requires cells { length (⟦<Crumbs as Cells>⟧.cells cells) ≡ bucket_cells size parts.old.ratio }
    requires busy { count_by (is_busy 3) (⟦<Crumbs as Cells>⟧.cells cells) ≡ size }
    requires unseeded { size ≡ 0 → seed ≡ 0 }
    requires within { keys_in parts.old.buckets + size ≤ parts.old.keys }
    requires all { length parts.old.buckets + 1 ≡ bucket_count parts.old.keys parts.old.width → keys_in parts.old.buckets + size ≡ parts.old.keys }
    ensures pushed { OnOk result (parts.new ≡ with_bucket parts.old (record { size = size; seed = seed; cells = ⟦<Crumbs as Cells>⟧.cells cells })) }
    ensures memory { IfErr result (λ e. e ≡ brz_fault.Memory) }
{
    match parts.push(size as u16, seed, cells) {
        Ok(()) => Ok(()),
        Err(PartsFault::Memory) => Err(BrzFault::Memory),
        // It has as many cells that are not idle as keys, and the buckets have all keys that were counted.
        Err(PartsFault::BadCount) => unreachable!(),
    }
}

/// Builds the function of the next bucket's keys and adds it. A bucket without keys has none. The buffer is scratch space.
fn add_bucket<L: Ledger>(
    alloc: Global,
    held: &mut BucketKeys,
    key: &mut KeyBuf,
    seeds: &[u32],
    parts: &mut BrzParts,
    steps: &mut Steps<L>,
) -> Result<(), BrzFault>
    requires some { 0 < length seeds.now }
    requires small { length held.old.keys ≤ MAX_BUCKET }
    requires room { length parts.old.buckets < bucket_count parts.old.keys parts.old.width }
    requires within { keys_in parts.old.buckets + length held.old.keys ≤ parts.old.keys }
    requires all { length parts.old.buckets + 1 ≡ bucket_count parts.old.keys parts.old.width → keys_in parts.old.buckets + length held.old.keys ≡ parts.old.keys }
    ensures pushed { OnOk result (PushesBucket parts.old parts.new held.old.keys parts.old.ratio seeds.now) }
    ensures steps { steps.new ≤ steps.old + 24 * length held.old.keys * length seeds.now }
    ensures fault { IfErr result (FailsBucket held.old.keys parts.old.ratio seeds.now (record { split = parts.old.split; bucket = length parts.old.buckets })) }
{
    if held.len() == 0 {
        let cells = Crumbs::zeroed(alloc, 0, 4)?;
        push_bucket(parts, 0, 0, cells)?;
        return Ok(());
    }
    held.hash()?;
    let built = build_bucket(alloc, held, key, parts, seeds, steps)?;
    push_bucket(parts, built.m, built.seed, built.cells)?;
    Ok(())
}

/// The first four seeds of a list, or as many as it has, and the last of them again.
fn first_four(seeds: &[u32]) -> [u32; 4]
    requires some { 0 < length seeds.now }
{
    let last = seeds.len() - 1;
    [
        seeds[0],
        seeds[last.min(1)],
        seeds[last.min(2)],
        seeds[last.min(3)],
    ]
}

/// Reads each bucket's keys from the store, and builds and adds its function, one bucket after another. The buffer is scratch space.
pub(crate) fn build_buckets<B: Store, L: Ledger>(
    alloc: Global,
    store: &mut B,
    key: &mut KeyBuf,
    sizes: &[u16],
    seeds: &[u32],
    parts: &mut BrzParts,
    steps: &mut Steps<L>,
) -> Result<(), BrzFault>
    requires some { 0 < length seeds.now }
    requires store { IsTrue (B.usable store.old) }
    requires sealed { B.sealed store.old ≡ true }
    requires asks { B.may_ask store.old 0 }
    requires none { (j : ℕ) → (B.given store.old j ≡ 0) × (B.given_last store.old j ≡ 0) }
    requires new { parts.old.buckets ≡ [] }
    requires few { length sizes.now ≤ MAX_KEYS }
    requires small { (j : ℕ) → j < length sizes.now → slice_index sizes.now j ≤ MAX_BUCKET }
    requires count { length sizes.now ≡ bucket_count parts.old.keys parts.old.width }
    requires all { sum sizes.now ≡ parts.old.keys }
    ensures same { OnOk result (parts.new ≡ record parts.old { buckets = parts.new.buckets }) }
    ensures count { OnOk result (length parts.new.buckets ≡ length sizes.now) }
    ensures cause { HasSpillCause (B.faults store.old) (B.faults store.new) result }
    ensures known { B.known store.new ≡ B.known store.old }
    ensures sealed { OnOk result (B.sealed store.new ≡ true) }
    ensures built { (records : List Record) → B.holds store.old records → OnOk result (B.holds store.new records × AreBuilt (keys_in_bucket records) parts.old.ratio seeds.now parts.new.buckets) }
    ensures fault { (records : List Record) → B.holds store.old records → HaveSizes records sizes.now (length sizes.now) → IfErr result (FailsBuckets (keys_in_bucket records) (length sizes.now) parts.old.ratio parts.old.split seeds.now) }
    ensures form { IfErr result (HasBuildingForm seeds.now) }
    ensures damage { IfErr result (λ e. IfDamage e (IsDamageIn (B.damages store.new) (B.given store.new) (B.end store.new) sizes.now)) }
    ensures steps { steps.new ≤ steps.old + 24 * parts.old.keys * length seeds.now }
{
    let mut held = BucketKeys::new(alloc, first_four(seeds));
    for (j, size) in sizes.iter().enumerate() {
        read_bucket(store, j as u32, *size as u32, &mut held, key)?;
        add_bucket(alloc, &mut held, key, seeds, parts, steps)?;
    }
    Ok(())
}
