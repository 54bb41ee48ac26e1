//! Functions of the algorithms, built over a pass of keys.
ghost use Rattle.std.specs.Prelude.{◌≡◌, ◌<◌, length, IfOk, IfErr};
ghost use Rattle.std.specs.Option.{ForSome};
ghost use Rattle.cm_algo_names.specs.declared.algorithm.Algorithm.TheVariants.{Brz};
ghost use Rattle.cm_func.specs.Functions.{IsFunction};
ghost use Rattle.cm_tool_builds.specs.Faults.{FailsFunc, HasFuncCause, HasFuncForm};
ghost use Rattle.cm_tool_builds.specs.FuncOf.{IsFuncOf};
ghost use Rattle.cm_tool_builds.specs.Plans.{IsPlan};
ghost use Rattle.cm_tool_builds.specs.Spills.{HasSpilled, UnlessSpilled};

use crate::fault::{FuncFault, fault_of_brz};
use crate::plan::Plan;
use cm_algo_names::Algorithm;
use cm_bdz::{Bdz, BdzPh, BdzPhScheme, BdzScheme, PartsFault};
use cm_brz::build::brz;
use cm_brz::keys_determine_results;
use cm_chm::{Chm, ChmScheme};
use cm_func::Func;
use cm_graph::Steps;
use cm_io::{Disk, DiskFault, KeyPass};
use cm_tool_cells::build_by;
use std::alloc::Global;
use std::marker::Brand;
use std::sync::ledger::{Blank, Ledger};

/// Builds by BRZ over a pass, with steps that nobody reads. The keys are stored in a spill in the directory, which is handed back to the
/// disk also if the build fails.
fn brz_by<P: KeyPass, D: Disk, L: Ledger>(
    alloc: Global,
    plan: &Plan,
    seeds: &[u32],
    dir: &str,
    keys: &mut P,
    disk: &mut D,
    blank: Blank,
) -> Result<Func, FuncFault>
    requires name { blank.name ≡ L.name }
    requires parts { blank.parts ≡ L.parts }
    requires some { 0 < blank.parts }
    requires plan { IsPlan plan.now }
    requires by { plan.now.algorithm ≡ Brz }
    requires seeds { 0 < length seeds.now }
    ensures told { P.told keys.new ≡ P.told keys.old }
    ensures files { (D.state disk.new).files ≡ (D.state disk.old).files }
    ensures read_faults { (D.state disk.new).read_faults ≡ (D.state disk.old).read_faults }
    ensures cause { HasFuncCause (P.faults keys.old) (P.faults keys.new) (D.state disk.old).write_faults (D.state disk.new).write_faults result }
    ensures made { IfOk result (λ f. ForSome (D.state disk.old).files (λ _. ForSome (P.told keys.old) (λ told. IsFuncOf Brz plan.now.b told plan.now.c seeds.now f))) }
    ensures spilled { IfOk result (λ f. ForSome (D.state disk.old).files (λ _. ForSome (P.told keys.old) (λ told. HasSpilled f told.keys (D.state disk.old).spilled (D.state disk.new).spilled))) }
    ensures valid { IfOk result IsFunction }
    ensures fault { IfErr result (λ e. ForSome (D.state disk.old).files (λ _. ForSome (P.told keys.old) (λ told. FailsFunc Brz plan.now.b told plan.now.c seeds.now e))) }
    ensures form { IfErr result (λ e. HasFuncForm Brz e) }
{
    // Laws, for the proof alone.
    keys_determine_results();
    let spill = match disk.spill(dir) {
        Ok(spill) => spill,
        Err(DiskFault::Memory) => return Err(FuncFault::Memory),
        Err(DiskFault::Failed) => return Err(FuncFault::Spill),
    };
    let mut steps = Steps::<L>::new(blank);
    let (built, spill) = brz(
        alloc,
        keys,
        plan.c,
        plan.b,
        seeds,
        plan.buffer,
        spill,
        &mut steps,
    );
    disk.give_back(spill);
    match built {
        Ok(function) => {
            // The number of buckets shows that the function is valid.
            let _buckets = function.buckets();
            Ok(Func::Brz(function))
        }
        Err(fault) => Err(fault_of_brz(fault)),
    }
}

/// The directory of a spill. A call that names a ledger takes no `&str` as an argument of its own.
#[derive(Clone, Copy)]
struct Dir<'a> {
    path: &'a str,
}

/// Builds the function of the keys of a pass by a plan, with steps that nobody reads.
fn func_by<P: KeyPass, D: Disk, L: Ledger>(
    alloc: Global,
    plan: &Plan,
    seeds: &[u32],
    dir: Dir<'_>,
    keys: &mut P,
    disk: &mut D,
    blank: Blank,
) -> Result<Func, FuncFault>
    requires name { blank.name ≡ L.name }
    requires parts { blank.parts ≡ L.parts }
    requires some { 0 < blank.parts }
    requires plan { IsPlan plan.now }
    requires seeds { 0 < length seeds.now }
    ensures told { P.told keys.new ≡ P.told keys.old }
    ensures files { (D.state disk.new).files ≡ (D.state disk.old).files }
    ensures read_faults { (D.state disk.new).read_faults ≡ (D.state disk.old).read_faults }
    ensures cause { HasFuncCause (P.faults keys.old) (P.faults keys.new) (D.state disk.old).write_faults (D.state disk.new).write_faults result }
    ensures made { IfOk result (λ f. ForSome (D.state disk.old).files (λ _. ForSome (P.told keys.old) (λ told. IsFuncOf plan.now.algorithm plan.now.b told plan.now.c seeds.now f))) }
    ensures spilled { IfOk result (λ f. ForSome (D.state disk.old).files (λ _. ForSome (P.told keys.old) (λ told. HasSpilled f told.keys (D.state disk.old).spilled (D.state disk.new).spilled))) }
    ensures unspilled { UnlessSpilled plan.now.algorithm ((D.state disk.new).spilled ≡ (D.state disk.old).spilled) }
    ensures valid { IfOk result IsFunction }
    ensures fault { IfErr result (λ e. ForSome (D.state disk.old).files (λ _. ForSome (P.told keys.old) (λ told. FailsFunc plan.now.algorithm plan.now.b told plan.now.c seeds.now e))) }
    ensures form { IfErr result (λ e. HasFuncForm plan.now.algorithm e) }
{
    match plan.algorithm {
        Algorithm::Chm => {
            let built = build_by::<_, P, 2, L>(alloc, &ChmScheme {}, keys, plan.c, seeds, blank)?;
            Ok(Func::Chm(Chm::from_built(built)))
        }
        Algorithm::Bdz => {
            let built = build_by::<_, P, 3, L>(alloc, &BdzScheme {}, keys, plan.c, seeds, blank)?;
            match Bdz::from_built(alloc, built, plan.b as u8) {
                Ok(function) => Ok(Func::Bdz(function)),
                Err(PartsFault::Memory) => Err(FuncFault::Memory),
                // A build has as many cells that are not idle as there are keys.
                Err(PartsFault::BadCount) => unreachable!(),
            }
        }
        Algorithm::BdzPh => {
            let built = build_by::<_, P, 3, L>(alloc, &BdzPhScheme {}, keys, plan.c, seeds, blank)?;
            Ok(Func::BdzPh(BdzPh::from_built(built)))
        }
        Algorithm::Brz => match brz_by::<P, D, L>(alloc, plan, seeds, dir.path, keys, disk, blank) {
            Ok(function) => Ok(function),
            Err(fault) => Err(fault),
        },
    }
}

/// Builds the function of the keys of a pass by a plan: that of the first seed of the list that works. By BRZ the keys are stored in a
/// spill in the directory `dir`, which is made first and handed back to the disk at every return; the other algorithms make none. Fails
/// if memory runs out, if there are no keys, if no seed works, if a pass fails or yields another number of keys, and by BRZ if the
/// spill fails or is damaged. The files of the disk stay as they were.
pub fn func_of<P: KeyPass, D: Disk>(
    alloc: Global,
    plan: &Plan,
    seeds: &[u32],
    dir: &str,
    keys: &mut P,
    disk: &mut D,
) -> Result<Func, FuncFault>
    requires plan { IsPlan plan.now }
    requires seeds { 0 < length seeds.now }
    ensures told { P.told keys.new ≡ P.told keys.old }
    ensures files { (D.state disk.new).files ≡ (D.state disk.old).files }
    ensures read_faults { (D.state disk.new).read_faults ≡ (D.state disk.old).read_faults }
    ensures cause { HasFuncCause (P.faults keys.old) (P.faults keys.new) (D.state disk.old).write_faults (D.state disk.new).write_faults result }
    ensures made { IfOk result (λ f. ForSome (D.state disk.old).files (λ _. ForSome (P.told keys.old) (λ told. IsFuncOf plan.now.algorithm plan.now.b told plan.now.c seeds.now f))) }
    ensures spilled { IfOk result (λ f. ForSome (D.state disk.old).files (λ _. ForSome (P.told keys.old) (λ told. HasSpilled f told.keys (D.state disk.old).spilled (D.state disk.new).spilled))) }
    ensures unspilled { UnlessSpilled plan.now.algorithm ((D.state disk.new).spilled ≡ (D.state disk.old).spilled) }
    ensures valid { IfOk result IsFunction }
    ensures fault { IfErr result (λ e. ForSome (D.state disk.old).files (λ _. ForSome (P.told keys.old) (λ told. FailsFunc plan.now.algorithm plan.now.b told plan.now.c seeds.now e))) }
    ensures form { IfErr result (λ e. HasFuncForm plan.now.algorithm e) }
{
    func_by::<P, D, Brand>(
        alloc,
        plan,
        seeds,
        Dir { path: dir },
        keys,
        disk,
        Blank::new(1),
    )
}
