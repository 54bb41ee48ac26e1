//! Builds.
ghost use Rattle.std.specs.Prelude.{◌≡◌, ◌⊎◌, IfOk, Ok};
ghost use Rattle.std.specs.Option.{ForSome};
ghost use Rattle.cm_io.specs.States.{IsSent, outside};
ghost use Rattle.cm_keys.specs.declared.keys.TheConstants.{LINE_END};
ghost use Rattle.cm_tool_building.specs.Building.{building};
ghost use Rattle.cm_tool_building.specs.Builds.{Builds};
ghost use Rattle.cm_tool_building.specs.Leaves.{IsAllowedEnd, HasKeptOut, HasOutCause, HasStopCause, Known, Leaves};

use crate::Builder;
use crate::building::{BuildFiles, make_of};
use crate::storing::store_file;
use cm_io::{Disk, DiskFault, Sink};
use cm_tool_stops::{Stop, report};
use std::alloc::Global;

/// Makes something of a keys file, and saves it. Its file is created only after it was made.
fn build_file<B: Builder, D: Disk, O: Sink>(
    alloc: Global,
    builder: &B,
    files: &BuildFiles<'_>,
    disk: &mut D,
    out: &mut O,
) -> Result<B::Made, Stop>
    requires ready { (B.meaning builder.now).ready }
    requires end { (files.now.end ≡ LINE_END) ⊎ (files.now.end ≡ 0) }
    ensures cause { HasStopCause (D.state disk.old).read_faults (D.state disk.new).read_faults (D.state disk.old).write_faults (D.state disk.new).write_faults result }
    ensures leaves { Leaves (building files.now (B.meaning builder.now) B.Made.bytes) (D.state disk.old).files (D.state disk.new).files (O.state out.old).written (O.state out.new).written result }
    ensures makes { IfOk result (λ made. ForSome (D.state disk.old).files (λ known.
        Known (building files.now (B.meaning builder.now) B.Made.bytes) known made (D.state disk.old).spilled (D.state disk.new).spilled)) }
    ensures unspilled { ((B.meaning builder.now).uses_spill → ⊥) → (D.state disk.new).spilled ≡ (D.state disk.old).spilled }
    ensures form { IsAllowedEnd (B.meaning builder.now).may_stop result }
    ensures out { HasKeptOut (O.state out.old).written (O.state out.new).written result }
    ensures out_cause { HasOutCause (O.state out.old).faults (O.state out.new).faults result }
    ensures sent { (O.state out.old).waits ≡ 0 → IsSent (O.state out.old) (O.state out.new) }
{
    let made = match make_of(alloc, builder, files, disk, out) {
        Ok(made) => made,
        Err(stop) => return Err(stop),
    };
    match store_file(files.names.function, &made, disk) {
        Ok(()) => Ok(made),
        Err(DiskFault::Memory) => Err(Stop::Memory),
        Err(DiskFault::Failed) => Err(Stop::Write),
    }
}

/// Runs a build, and returns its status: 0 what was made is saved; 1 the keys are refused, and out has the report; 4 the keys file can't
/// be opened, read or rewound; 5 the file can't be created, written or closed, the spill can't be used, or out can't be written; 6 out of
/// memory; 7 the keys or the spill changed between passes; 8 no keys, a line that is too long, too many keys, or records that take more
/// bytes than a store may have.
pub fn build<B: Builder, D: Disk, O: Sink, E: Sink>(
    alloc: Global,
    builder: &B,
    files: &BuildFiles<'_>,
    disk: &mut D,
    out: &mut O,
    err: &mut E,
) -> u8
    requires ready { (B.meaning builder.now).ready }
    requires end { (files.now.end ≡ LINE_END) ⊎ (files.now.end ≡ 0) }
    ensures builds { Builds (building files.now (B.meaning builder.now) B.Made.bytes) (outside (D.state disk.old) (O.state out.old) (E.state err.old)) (outside (D.state disk.new) (O.state out.new) (E.state err.new)) result }
{
    match build_file(alloc, builder, files, disk, out) {
        Ok(made) => {
            builder.say(&made, err);
            0
        }
        Err(stop) => report(stop, &files.names, files.dir, err),
    }
}
