//! Upgrades of function files.
ghost use Rattle.cm_io.specs.States.{SinkState, outside};
ghost use Rattle.cm_tool.specs.Upgrading.{Upgrades};

use crate::program::PROGRAM;
use cm_io::{Disk, Sink};
use cm_tool_files::upgrade_file;
use cm_tool_stops::{Names, report_upgrade};
use cm_words::UpgradeJob;
use std::alloc::Global;

/// Runs an upgrade, and returns its status. Nothing is written to out.
pub(crate) fn run_upgrade<D: Disk, E: Sink>(
    alloc: Global,
    job: &UpgradeJob,
    disk: &mut D,
    err: &mut E,
) -> u8
    ensures upgrades { (out : SinkState) → Upgrades job.now (outside (D.state disk.old) out (E.state err.old)) (outside (D.state disk.new) out (E.state err.new)) result }
{
    match upgrade_file(alloc, job.function.as_str(), disk) {
        Ok(()) => 0,
        Err(stop) => {
            let names = Names {
                program: PROGRAM,
                keys: "",
                function: job.function.as_str(),
            };
            report_upgrade(stop, &names, err)
        }
    }
}
