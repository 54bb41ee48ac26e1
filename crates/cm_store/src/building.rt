//! Stores built by the seeds of a list.
ghost use Rattle.std.specs.Prelude.{◌≡◌, ◌<◌, ℕ, IfErr, IfOk, IsTrue, length, slice_index};
ghost use Rattle.std.specs.Option.{ForSome};
ghost use Rattle.cm_bdz.specs.Functions.{IsBdz};
ghost use Rattle.cm_store.specs.Builds.{AnswersKeys, AnswersLines, FailsKeys, FailsLines, HasStoreCause, HasStoreFailure, HasStoreForm, IsFirstStore, IsStorePlan, IsStoreOfLines, KnowsKeys, fault_from, fault_from_read, keys_in, store_over};
ghost use Rattle.cm_store.specs.Stores.{IsStore};

use crate::store::Store;
use cm_algo::{BuildFault, build};
use cm_algo_cells::cells_solve;
use cm_bdz::{BdzScheme, answers_apart};
use cm_graph::{Steps, Xored};
use cm_io::{KeyFault, KeyPass};
use cm_store_records::{ReadFault, RecordKeys, Records, read_records};
use cm_witness_gather::Certificate;
use std::alloc::{AllocError, Global};
use std::marker::Brand;
use std::sync::ledger::{Blank, Ledger};

/// How the index of a store is built. `IsStorePlan` has the ranges of its numbers.
#[derive(Clone, Copy)]
pub struct StorePlan {
    /// The ratio of vertices to keys in millionths, from 1,000,000 to 10,000,000.
    pub c: u32,
    /// The rank of every `2^b`-th cell is kept, with b from 3 to 10.
    pub b: u8,
}

/// Why there is no store.
#[derive(Drop)]
pub enum StoreBuildFault {
    /// Out of memory.
    Memory,
    /// There are no records.
    NoKeys,
    /// No seed of the list works: this is the 2-core under the first, with the equal keys among its edges.
    Cored(Certificate),
    /// The pass over the lines failed.
    Key(KeyFault),
    /// The records up to this line, the first such, take more than `MAX_RECORD_BYTES` bytes.
    TooLarge { line: u32 },
}

/// Why there is no store of records in memory, whose keys are passed without a fault and don't change.
fn fault_of(fault: BuildFault) -> StoreBuildFault
    requires keys { KnowsKeys fault }
    ensures fault { result ≡ fault_from fault }
{
    match fault {
        BuildFault::Memory => StoreBuildFault::Memory,
        BuildFault::NoKeys => StoreBuildFault::NoKeys,
        BuildFault::Cored(certificate) => StoreBuildFault::Cored(certificate),
        BuildFault::Key(_) | BuildFault::Changed { .. } => unreachable!(),
    }
}

/// Why there is no store of lines that aren't read.
fn fault_of_read(fault: ReadFault) -> StoreBuildFault
    ensures fault { result ≡ fault_from_read fault }
{
    match fault {
        ReadFault::Memory => StoreBuildFault::Memory,
        ReadFault::Key(fault) => StoreBuildFault::Key(fault),
        ReadFault::TooLarge { line } => StoreBuildFault::TooLarge { line },
    }
}

/// The store of records under the first seed that works, with steps that nobody reads.
fn store_by<L: Ledger>(
    alloc: Global,
    records: Records,
    plan: StorePlan,
    seeds: &[u32],
    blank: Blank,
) -> Result<Store, StoreBuildFault>
    requires name { blank.name ≡ L.name }
    requires parts { blank.parts ≡ L.parts }
    requires some { 0 < blank.parts }
    requires plan { IsStorePlan plan }
    requires seeds { 0 < length seeds.now }
    ensures made { IfOk result (IsFirstStore (keys_in records) plan.c seeds.now (λ seed. store_over records plan.c seed plan.b)) }
    ensures store { IfOk result IsStore }
    ensures index { IfOk result (λ s. IsBdz s.index) }
    ensures refused { IfErr result (FailsKeys (keys_in records) plan.c seeds.now) }
    ensures form { IfErr result (HasStoreForm (slice_index seeds.now 0)) }
{
    // Laws, for the proof alone.
    cells_solve();
    answers_apart();
    let mut steps = Steps::<L>::new(blank);
    let mut keys = records.keys();
    let made = build::<BdzScheme, Xored<3>, RecordKeys<'_>, 3, L>(
        alloc,
        &BdzScheme {},
        &mut keys,
        plan.c,
        seeds,
        &mut steps,
    );
    let built = match made {
        Ok(built) => built,
        Err(fault) => return Err(fault_of(fault)),
    };
    match Store::from_records(alloc, records, built, plan.b) {
        Ok(store) => Ok(store),
        Err(AllocError) => Err(StoreBuildFault::Memory),
    }
}

/// The store of records whose index is that of the first seed of a list under which the graph of their keys has an empty 2-core. The plan
/// must be in its ranges, and the list not empty. The faults: `Memory` out of memory; `NoKeys` there are no records; `Cored` no seed
/// works, with the 2-core under the first. The others never come.
pub fn build_store(
    alloc: Global,
    records: Records,
    plan: StorePlan,
    seeds: &[u32],
) -> Result<Store, StoreBuildFault>
    requires plan { IsStorePlan plan }
    requires seeds { 0 < length seeds.now }
    ensures made { IfOk result (IsFirstStore (keys_in records) plan.c seeds.now (λ seed. store_over records plan.c seed plan.b)) }
    ensures store { IfOk result IsStore }
    ensures index { IfOk result (λ s. IsBdz s.index) }
    ensures refused { IfErr result (FailsKeys (keys_in records) plan.c seeds.now) }
    ensures comes { AnswersKeys (keys_in records) plan.c seeds.now result }
    ensures form { IfErr result (HasStoreForm (slice_index seeds.now 0)) }
{
    store_by::<Brand>(alloc, records, plan, seeds, Blank::new(1))
}

/// The store of the records of the lines of a pass at its start, by `build_store`. The lines are passed once, so their keys can't change.
/// The faults beside those of `build_store`: `Key` the pass failed; `TooLarge` the records up to a line take more than `MAX_RECORD_BYTES`
/// of `cm_store_records`.
pub fn build_store_of_lines<P: KeyPass>(
    alloc: Global,
    lines: &mut P,
    plan: StorePlan,
    seeds: &[u32],
) -> Result<Store, StoreBuildFault>
    requires usable { IsTrue (P.usable lines.old) }
    requires start { P.place lines.old ≡ 0 }
    requires plan { IsStorePlan plan }
    requires seeds { 0 < length seeds.now }
    ensures told { P.told lines.new ≡ P.told lines.old }
    ensures cause { HasStoreCause (P.faults lines.old) (P.faults lines.new) result }
    ensures failed { IfErr result (HasStoreFailure (P.failure lines.new) (P.last lines.new)) }
    ensures made { IfOk result (λ s. ForSome (P.told lines.old) (λ told. IsStoreOfLines plan seeds.now told s)) }
    ensures store { IfOk result IsStore }
    ensures index { IfOk result (λ s. IsBdz s.index) }
    ensures refused { IfErr result (λ fault. ForSome (P.told lines.old) (λ told. FailsLines told plan.c seeds.now fault)) }
    ensures comes { ForSome (P.told lines.old) (λ told. AnswersLines told plan.c seeds.now result) }
    ensures form { IfErr result (HasStoreForm (slice_index seeds.now 0)) }
{
    match read_records(alloc, lines) {
        Ok(records) => match build_store(alloc, records, plan, seeds) {
            Ok(store) => Ok(store),
            Err(fault) => Err(fault),
        },
        Err(fault) => Err(fault_of_read(fault)),
    }
}
