//! A build whose keys and dump are in lent memory.
ghost use Rattle.std.specs.Prelude.{◌≡◌, ◌≢◌, ◌<◌, ◌≤◌, length, Err, IfErr, IfOk, OnErr, OnOk};
ghost use Rattle.cm_algo_names.specs.declared.algorithm.Algorithm.TheVariants.{Brz};
ghost use Rattle.cm_dump.specs.Dumps.{dump_of};
ghost use Rattle.cm_lib_lent.specs.Builds.{FailsLent, FailsSpilled, HasDump, IsLentKind, IsSaved, IsSpilledKind, LacksDump, spill_len_of};
ghost use Rattle.cm_lib_lent.specs.declared.building.LentFault.TheVariants as lent;
ghost use Rattle.cm_tool_builds.specs.declared.fault.FuncFault.TheVariants as faults;
ghost use Rattle.cm_tool_builds.specs.Plans.{IsPlan};

use crate::disk::LentDisk;
use cm_dump::{save, saved_len};
use cm_func::Func;
use cm_io::Failed;
use cm_io_memory::MemSink;
use cm_keys_lent::LentKeys;
use cm_outer::MemDisk;
use cm_tool_builds::{FuncFault, Plan, func_of};
use std::alloc::{AllocError, Global};

/// Why there is no dump in the room.
#[derive(Drop)]
pub enum LentFault {
    /// There is no function of the keys.
    Build(FuncFault),
    /// The dump of the function has this many bytes, which are more than the room has.
    Room { needed: u64 },
    /// By BRZ: the spill needs this many bytes: those of the keys, and ten more for each.
    Spill { needed: u64 },
}

/// The dump of a function.
fn dumped(alloc: Global, function: &Func, len: usize) -> Result<Vec<u8>, AllocError>
    ensures dump { IfOk result (λ bytes. bytes.items ≡ dump_of function.now) }
{
    let mut sink = MemSink::new(alloc, len, Vec::new(alloc))?;
    match save(function, &mut sink) {
        Ok(()) => Ok(sink.into_bytes()),
        // The sink has room for it, so no call fails.
        Err(Failed) => Err(AllocError),
    }
}

/// Puts the dump of a function into the first bytes of the room, if it has as many. Returns how many bytes that are.
#[tactic(auto, using(crate::proofs::BuildLemmas::dump_is))]
fn dump_into(alloc: Global, function: &Func, room: &mut [u8]) -> Result<usize, LentFault>
    ensures dump { IfOk result (λ n. HasDump function.now n room.old room.new) }
    ensures lacks { IfErr result (LacksDump function.now (length room.old)) }
    ensures kept { OnErr result (room.new ≡ room.old) }
{
    let needed = saved_len(function);
    if needed > room.len() as u64 {
        return Err(LentFault::Room { needed });
    }
    let dump = match dumped(alloc, function, needed as usize) {
        Ok(dump) => dump,
        Err(_) => return Err(LentFault::Build(FuncFault::Memory)),
    };
    room[..dump.len()].copy_from_slice(&dump);
    Ok(dump.len())
}

/// Builds the function of keys in memory by CHM, BDZ or BDZ_PH, under the first of the seeds that works, and puts its dump into the first
/// bytes of the room. Returns how many bytes that are. Fails if there is no function of the keys, with the fault of `func_of`, and if the
/// room has fewer bytes than the dump; the room then stays as it was. The pass is at its start, or was built over before.
#[tactic(auto, using(crate::proofs::BuildLemmas::lent_kind))]
pub fn build_into(
    alloc: Global,
    plan: &Plan,
    seeds: &[u32],
    keys: &mut LentKeys<'_>,
    room: &mut [u8],
) -> Result<usize, LentFault>
    requires plan { IsPlan plan.now }
    requires unspilled { plan.now.algorithm ≢ Brz }
    requires seeds { 0 < length seeds.now }
    ensures saved { IfOk result (λ n. IsSaved plan.now seeds.now keys.old n room.old room.new) }
    ensures refused { IfErr result (FailsLent plan.now seeds.now keys.old (length room.old)) }
    ensures kind { IfErr result IsLentKind }
    ensures kept { OnErr result (room.new ≡ room.old) }
{
    // These algorithms make no spill, so a disk without room will do.
    let mut disk = MemDisk::new(alloc, 0);
    let function = match func_of(alloc, plan, seeds, "", keys, &mut disk) {
        Ok(function) => function,
        Err(fault) => return Err(LentFault::Build(fault)),
    };
    dump_into(alloc, &function, room)
}

/// How many bytes the spill of keys has: those of the keys, and ten more for each.
#[tactic(auto, using(crate::proofs::SpillLemmas::spill_more))]
fn spill_len(keys: &LentKeys<'_>) -> u64
    ensures len { result ≡ spill_len_of keys.now }
{
    let mut len = 0;
    for i in 0..keys.count() {
        len += keys.key(i).len() as u64 + 10;
    }
    len
}

/// The fault of a build by BRZ whose spill is memory, and long enough.
fn fault_of(fault: FuncFault) -> LentFault
    ensures spill { fault ≡ faults.Spill → result ≡ lent.Build faults.Memory }
    ensures other { fault ≢ faults.Spill → result ≡ lent.Build fault }
{
    match fault {
        FuncFault::Spill => LentFault::Build(FuncFault::Memory),
        other => LentFault::Build(other),
    }
}

/// Builds the function of keys in memory by BRZ, under the first of the seeds that works, and puts its dump into the first bytes of the room. The
/// keys are stored in the spill, which has any bytes afterwards. Returns how many bytes the dump has. Fails by `Spill` exactly if the spill has fewer
/// bytes than the keys and ten more for each, before anything is built; if there is no function of the keys, with the fault of `func_of`; and if the room
/// has fewer bytes than the dump. The room then stays as it was. The pass is at its start, or was built over before.
pub fn build_brz_into(
    alloc: Global,
    plan: &Plan,
    seeds: &[u32],
    keys: &mut LentKeys<'_>,
    spill: &mut [u8],
    room: &mut [u8],
) -> Result<usize, LentFault>
    requires plan { IsPlan plan.now }
    requires by { plan.now.algorithm ≡ Brz }
    requires seeds { 0 < length seeds.now }
    ensures saved { IfOk result (λ n. IsSaved plan.now seeds.now keys.old n room.old room.new) }
    ensures enough { OnOk result (spill_len_of keys.old ≤ length spill.old) }
    ensures refused { IfErr result (FailsSpilled plan.now seeds.now keys.old (length spill.old) (length room.old)) }
    ensures short { length spill.old < spill_len_of keys.old → result ≡ Err (lent.Spill (spill_len_of keys.old)) }
    ensures kind { IfErr result IsSpilledKind }
    ensures kept { OnErr result (room.new ≡ room.old) }
{
    let needed = spill_len(keys);
    if (spill.len() as u64) < needed {
        return Err(LentFault::Spill { needed });
    }
    let mut disk = LentDisk::new(spill);
    match func_of(alloc, plan, seeds, "", keys, &mut disk) {
        Ok(function) => dump_into(alloc, &function, room),
        Err(fault) => Err(fault_of(fault)),
    }
}
