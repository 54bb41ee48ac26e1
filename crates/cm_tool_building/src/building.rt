//! The files of a build, and its steps.
ghost use Rattle.std.specs.Prelude.{◌≡◌, ◌⊎◌, IfOk, IfErr};
ghost use Rattle.std.specs.Option.{ForSome};
ghost use Rattle.cm_io.specs.States.{IsSent};
ghost use Rattle.cm_keys.specs.declared.keys.TheConstants.{LINE_END};
ghost use Rattle.cm_tool_building.specs.Building.{building};
ghost use Rattle.cm_tool_building.specs.Leaves.{GotReport, IsAllowedEnd, HasKeptOut, HasOutCause, HasStopCause, IsOutCause, IsRefused, KeepsOut, Known, MadeOf, StopsFor};
ghost use Rattle.cm_tool_building.specs.Makes.{stop_from_key};

use crate::{Builder, Fault, Saved};
use cm_io::{Disk, DiskFault, Failed, KeyFault, Sink};
use cm_keys::Keys;
use cm_tool_stops::{Names, Stop, send_text};
use cm_witness_gather::SeedFailure;
use std::alloc::Global;

/// The files of a build, and which lines of the keys file are keys.
#[derive(Clone, Copy)]
pub struct BuildFiles<'a> {
    /// The program, and the paths of the keys file and of the file that is saved.
    pub names: Names<'a>,
    /// The directory of a spill.
    pub dir: &'a str,
    /// How many lines of the keys file are read, or all.
    pub first: Option<u32>,
    /// The byte that ends a line.
    pub end: u8,
}

/// Why a failed pass stops a build.
fn stop_of_key(fault: KeyFault) -> Stop
    ensures stop { result ≡ stop_from_key fault }
{
    match fault {
        KeyFault::Read => Stop::Read,
        KeyFault::TooLong { line } => Stop::TooLong { line },
        KeyFault::TooMany => Stop::TooMany,
    }
}

/// Writes a report to out and flushes it, and returns why the build stops.
fn show<R: Saved, O: Sink>(failure: SeedFailure, report: &R, out: &mut O) -> Stop
    ensures shown { GotReport failure (R.bytes report.now) (O.state out.old).written (O.state out.new).written result }
    ensures cause { IsOutCause (O.state out.old).faults (O.state out.new).faults result }
    ensures sent { IsSent (O.state out.old) (O.state out.new) }
{
    let written = report.save(out);
    match send_text(written, out) {
        Ok(()) => Stop::Refused(failure),
        Err(Failed) => Stop::WriteOut,
    }
}

/// Why a fault stops a build. A report is written to out first.
pub fn stop_of<R: Saved, O: Sink>(fault: Fault<R>, out: &mut O) -> Stop
    ensures stops { StopsFor R.bytes fault (O.state out.old).written (O.state out.new).written result }
    ensures cause { IsOutCause (O.state out.old).faults (O.state out.new).faults result }
    ensures out { KeepsOut (O.state out.old).written (O.state out.new).written result }
    ensures sent { (O.state out.old).waits ≡ 0 → IsSent (O.state out.old) (O.state out.new) }
{
    match fault {
        Fault::Memory => Stop::Memory,
        Fault::NoKeys => Stop::NoKeys,
        Fault::Refused { failure, report } => show(failure, &report, out),
        Fault::Key(fault) => stop_of_key(fault),
        Fault::TooLarge { line } => Stop::TooLarge { line },
        Fault::Changed { first, now } => Stop::Changed { first, now },
        Fault::Spill => Stop::Spill,
        Fault::SpillDamaged {
            offset,
            expected,
            found,
        } => Stop::SpillDamaged {
            offset,
            expected,
            found,
        },
    }
}

/// Makes something of a keys file. A spill is made after the keys file is opened. If nothing can be made of the keys, out gets the
/// report.
pub(crate) fn make_of<B: Builder, D: Disk, O: Sink>(
    alloc: Global,
    builder: &B,
    files: &BuildFiles<'_>,
    disk: &mut D,
    out: &mut O,
) -> Result<B::Made, Stop>
    requires ready { (B.meaning builder.now).ready }
    requires end { (files.now.end ≡ LINE_END) ⊎ (files.now.end ≡ 0) }
    ensures files { (D.state disk.new).files ≡ (D.state disk.old).files }
    ensures cause { HasStopCause (D.state disk.old).read_faults (D.state disk.new).read_faults (D.state disk.old).write_faults (D.state disk.new).write_faults result }
    ensures made { IfOk result (λ made. ForSome (D.state disk.old).files (λ known.
        MadeOf (building files.now (B.meaning builder.now) B.Made.bytes) known made)) }
    ensures makes { IfOk result (λ made. ForSome (D.state disk.old).files (λ known.
        Known (building files.now (B.meaning builder.now) B.Made.bytes) known made (D.state disk.old).spilled (D.state disk.new).spilled)) }
    ensures refused { IfErr result (λ stop. ForSome (D.state disk.old).files (λ known.
        IsRefused (building files.now (B.meaning builder.now) B.Made.bytes) known (O.state out.old).written (O.state out.new).written stop)) }
    ensures unspilled { ((B.meaning builder.now).uses_spill → ⊥) → (D.state disk.new).spilled ≡ (D.state disk.old).spilled }
    ensures form { IsAllowedEnd (B.meaning builder.now).may_stop result }
    ensures out { HasKeptOut (O.state out.old).written (O.state out.new).written result }
    ensures out_cause { HasOutCause (O.state out.old).faults (O.state out.new).faults result }
    ensures sent { (O.state out.old).waits ≡ 0 → IsSent (O.state out.old) (O.state out.new) }
{
    let reader = match disk.open(files.names.keys) {
        Ok(reader) => reader,
        Err(DiskFault::Memory) => return Err(Stop::Memory),
        Err(DiskFault::Failed) => return Err(Stop::Read),
    };
    let mut keys = Keys::new(reader, files.first, files.end);
    let outcome = builder.make(alloc, &mut keys, disk);
    disk.shut(keys.into_source());
    match outcome {
        Ok(made) => Ok(made),
        Err(fault) => Err(stop_of(fault, out)),
    }
}
