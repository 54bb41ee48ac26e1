//! Tests over generated keys.
ghost use Rattle.std.specs.Prelude.{◌≡◌, ◌≤◌, [], ◌∷◌, None, Some, Ok, IfOk, IfErr, OnOk, true};
ghost use Rattle.std.specs.Option.{ForSome};
ghost use Rattle.cm_algo_names.specs.declared.algorithm.Algorithm.{Algorithm};
ghost use Rattle.cm_func.specs.Functions.{IsFunction, answer_by};
ghost use Rattle.cm_words_values.specs.Limits.{IsBuffer};
ghost use Rattle.cm_words_values.specs.Options.{bits_value, usual_ratio};
ghost use Rattle.cm_io.specs.Causes.{HasCause};
ghost use Rattle.cm_io.specs.States.{IsSent, outside};
ghost use Rattle.cm_io.specs.Writing.{Writes};
ghost use Rattle.cm_spec.specs.declared.limits.TheConstants.{MAX_KEYS};
ghost use Rattle.cm_query.specs.Sums.{answer_sum};
ghost use Rattle.cm_tool_builds.specs.Faults.{HasFuncCause, HasFuncForm};
ghost use Rattle.cm_tool_building.specs.Leaves.{HasOutCause, HasStopCause, KeepsOut};
ghost use Rattle.cm_tool_builds.specs.Plans.{IsPlan};
ghost use Rattle.cm_tool_builds.specs.Spills.{HasSpilled, UnlessSpilled};
ghost use Rattle.cm_tool.specs.Spills.{TestSpilled, TestsSpilled};
ghost use Rattle.cm_tool.specs.TestEnds.{EndsTest, FailsTest, HasTestForm, StopsSpilling, Tests};
ghost use Rattle.cm_tool.specs.Tested.{generated, line_text, test_plan, test_result, tested_by, usual_b};
ghost use Rattle.cm_words.specs.Limits.{IsTest};

use crate::program::PROGRAM;
use crate::reports::fault_of;
use cm_algo_names::Algorithm;
use cm_dump::saved_len;
use cm_func::Func;
use cm_io::{Disk, Failed, KeyPass, Sink, write_pieces};
use cm_keys::{Keys, LINE_END};
use cm_keys_made::MadeKeys;
use cm_query::sum_answers;
use cm_tool_building::stop_of;
use cm_tool_builds::{FuncFault, Plan, func_of};
use cm_tool_cells::seeds;
use cm_tool_files::reload;
use cm_tool_stops::{Names, Stop, report, send_text};
use cm_words::TestJob;
use itoa::Buffer;
use std::alloc::Global;

/// A pass over n generated keys.
fn generated_pass(n: u32) -> Keys<MadeKeys>
    requires some { 1 ≤ n }
    requires few { n ≤ MAX_KEYS }
    ensures told { ⟦<Keys<MadeKeys> as KeyPass>⟧.told result ≡ Some (generated n) }
    ensures place { ⟦<Keys<MadeKeys> as KeyPass>⟧.place result ≡ 0 }
    ensures usable { ⟦<Keys<MadeKeys> as KeyPass>⟧.usable result ≡ true }
    ensures faults { ⟦<Keys<MadeKeys> as KeyPass>⟧.faults result ≡ 0 }
{
    Keys::new(MadeKeys::new(n), None, LINE_END)
}

/// The default ratio of vertices to keys, in millionths.
fn ratio_by(algorithm: Algorithm) -> u32
    ensures ratio { result ≡ usual_ratio algorithm }
{
    match algorithm {
        Algorithm::Chm => 2_090_000,
        Algorithm::Bdz | Algorithm::BdzPh | Algorithm::Brz => 1_230_000,
    }
}

/// The default parameter b.
fn b_by(algorithm: Algorithm) -> u16
    ensures b { result ≡ usual_b algorithm }
    ensures asked { bits_value true algorithm None ≡ Ok result }
{
    match algorithm {
        Algorithm::Bdz => 7,
        Algorithm::Brz => 128,
        Algorithm::Chm | Algorithm::BdzPh => 0,
    }
}

/// How an algorithm is tested.
fn plan_by(algorithm: Algorithm, buffer: u32) -> Plan
    requires buffer { IsBuffer buffer }
    ensures plan { result ≡ test_plan algorithm buffer }
    ensures valid { IsPlan result }
{
    Plan {
        algorithm,
        c: ratio_by(algorithm),
        b: b_by(algorithm),
        buffer,
    }
}

/// Builds the function of an algorithm over the generated keys of a job.
fn build_generated<D: Disk>(
    alloc: Global,
    job: &TestJob,
    algorithm: Algorithm,
    disk: &mut D,
) -> Result<Func, FuncFault>
    requires job { IsTest job.now }
    ensures files { (D.state disk.new).files ≡ (D.state disk.old).files }
    ensures read_faults { (D.state disk.new).read_faults ≡ (D.state disk.old).read_faults }
    ensures cause { HasFuncCause 0 0 (D.state disk.old).write_faults (D.state disk.new).write_faults result }
    ensures made { IfOk result (λ f. ForSome (D.state disk.old).files (λ _. test_result job.now algorithm ≡ Ok f)) }
    ensures spilled { IfOk result (λ f. ForSome (D.state disk.old).files (λ _. HasSpilled f (generated job.now.keys).keys (D.state disk.old).spilled (D.state disk.new).spilled)) }
    ensures unspilled { UnlessSpilled algorithm ((D.state disk.new).spilled ≡ (D.state disk.old).spilled) }
    ensures valid { IfOk result IsFunction }
    ensures fault { IfErr result (λ e. ForSome (D.state disk.old).files (λ _. FailsTest job.now algorithm e)) }
    ensures form { IfErr result (λ e. HasFuncForm algorithm e) }
{
    // A law, for the proof alone.
    cm_keys_made::laws::lines();
    let mut keys = generated_pass(job.keys);
    let tried = seeds(job.seed, job.count);
    let built = func_of(
        alloc,
        &plan_by(algorithm, job.buffer),
        tried.as_slice(),
        job.dir.as_str(),
        &mut keys,
        disk,
    );
    // The text of the keys never fails.
    let _text = keys.into_source();
    match built {
        Ok(function) => Ok(function),
        Err(fault) => Err(fault),
    }
}

/// The sum of a function's answers to n generated keys. A key without an answer counts 0.
fn generated_sum(function: &Func, n: u32) -> u64
    requires some { 1 ≤ n }
    requires few { n ≤ MAX_KEYS }
    ensures sum { result ≡ answer_sum (answer_by function.now) (generated n).keys }
{
    // A law, for the proof alone.
    cm_keys_made::laws::lines();
    let mut keys = generated_pass(n);
    let summed = sum_answers(function, &mut keys);
    // The text of the keys never fails.
    let _text = keys.into_source();
    match summed {
        Ok(sum) => sum,
        Err(_) => unreachable!(),
    }
}

/// Prints the line of an algorithm and flushes out.
fn print_line<O: Sink>(
    algorithm: Algorithm,
    n: u32,
    bytes: u64,
    sum: u64,
    out: &mut O,
) -> Result<(), Failed>
    ensures text { Writes (O.state out.old).written (O.state out.new).written (line_text algorithm n bytes sum) result }
    ensures cause { HasCause (O.state out.old).faults (O.state out.new).faults result }
    ensures sent { IsSent (O.state out.old) (O.state out.new) }
{
    let mut keys = Buffer::new();
    let mut len = Buffer::new();
    let mut total = Buffer::new();
    let written = write_pieces(
        out,
        &[
            algorithm.name().as_bytes(),
            b" ",
            keys.format(n).as_bytes(),
            b" ",
            len.format(bytes).as_bytes(),
            b" ",
            total.format(sum).as_bytes(),
            b"\n",
        ],
    );
    send_text(written, out)
}

/// Tests an algorithm: builds, saves and loads a function, looks up every key and prints the line, or the report if there is no function.
fn test_algorithm<D: Disk, O: Sink>(
    alloc: Global,
    job: &TestJob,
    algorithm: Algorithm,
    disk: &mut D,
    out: &mut O,
) -> Result<(), Stop>
    requires job { IsTest job.now }
    ensures files { (D.state disk.new).files ≡ (D.state disk.old).files }
    ensures read_faults { (D.state disk.new).read_faults ≡ (D.state disk.old).read_faults }
    ensures cause { HasStopCause 0 0 (D.state disk.old).write_faults (D.state disk.new).write_faults result }
    ensures out_cause { HasOutCause (O.state out.old).faults (O.state out.new).faults result }
    ensures form { IfErr result (HasTestForm algorithm) }
    ensures spilled { OnOk result (ForSome (D.state disk.old).files (λ _. TestSpilled job.now algorithm (D.state disk.old).spilled (D.state disk.new).spilled)) }
    ensures out { IfErr result (KeepsOut (O.state out.old).written (O.state out.new).written) }
    ensures sent { (O.state out.old).waits ≡ 0 → IsSent (O.state out.old) (O.state out.new) }
    ensures ends { ForSome (D.state disk.old).files (λ files. EndsTest (tested_by job.now files (algorithm ∷ [])) (O.state out.old).written (O.state out.new).written result) }
{
    let function = match build_generated(alloc, job, algorithm, disk) {
        Ok(function) => function,
        Err(fault) => return Err(stop_of(fault_of(fault), out)),
    };
    let bytes = saved_len(&function);
    let Ok(loaded) = reload(alloc, function) else {
        return Err(Stop::Memory);
    };
    let sum = generated_sum(&loaded, job.keys);
    match print_line(algorithm, job.keys, bytes, sum, out) {
        Ok(()) => Ok(()),
        Err(Failed) => Err(Stop::WriteOut),
    }
}

/// Tests some algorithms in their order, until one of them stops.
fn test_each<D: Disk, O: Sink>(
    alloc: Global,
    job: &TestJob,
    algorithms: &[Algorithm],
    disk: &mut D,
    out: &mut O,
) -> Result<(), Stop>
    requires job { IsTest job.now }
    ensures files { (D.state disk.new).files ≡ (D.state disk.old).files }
    ensures read_faults { (D.state disk.new).read_faults ≡ (D.state disk.old).read_faults }
    ensures cause { HasStopCause 0 0 (D.state disk.old).write_faults (D.state disk.new).write_faults result }
    ensures out_cause { HasOutCause (O.state out.old).faults (O.state out.new).faults result }
    ensures form { IfErr result (λ stop. (algorithm : Algorithm) × HasTestForm algorithm stop) }
    ensures spilled { OnOk result (ForSome (D.state disk.old).files (λ _. TestsSpilled job.now algorithms.now (D.state disk.old).spilled (D.state disk.new).spilled)) }
    ensures spilling { IfErr result (λ stop. ForSome (D.state disk.old).files (λ files. StopsSpilling job.now files algorithms.now (O.state out.old).written (O.state out.new).written stop)) }
    ensures sent { (O.state out.old).waits ≡ 0 → IsSent (O.state out.old) (O.state out.new) }
    ensures ends { ForSome (D.state disk.old).files (λ files. EndsTest (tested_by job.now files algorithms.now) (O.state out.old).written (O.state out.new).written result) }
{
    for algorithm in algorithms {
        match test_algorithm(alloc, job, *algorithm, disk, out) {
            Ok(()) => {}
            Err(stop) => return Err(stop),
        }
    }
    Ok(())
}

/// Runs a test, and returns its status.
pub(crate) fn run_test<D: Disk, O: Sink, E: Sink>(
    alloc: Global,
    job: &TestJob,
    disk: &mut D,
    out: &mut O,
    err: &mut E,
) -> u8
    requires job { IsTest job.now }
    ensures tests { Tests job.now (outside (D.state disk.old) (O.state out.old) (E.state err.old)) (outside (D.state disk.new) (O.state out.new) (E.state err.new)) result }
{
    let algorithms = [
        Algorithm::Chm,
        Algorithm::Bdz,
        Algorithm::BdzPh,
        Algorithm::Brz,
    ];
    match test_each(alloc, job, &algorithms, disk, out) {
        Ok(()) => 0,
        Err(stop) => {
            let names = Names {
                program: PROGRAM,
                keys: "-T",
                function: "",
            };
            report(stop, &names, job.dir.as_str(), err)
        }
    }
}
