//! A report that is read from a file.
ghost use Rattle.std.specs.Prelude.{◌≡◌, IfOk};
ghost use Rattle.std.specs.Option.{ForSome};
ghost use Rattle.cm_judge.specs.Leaves.{LoadsReport};
ghost use Rattle.cm_witness_report.specs.Reading.{HasReportCause, said_of};
ghost use Rattle.cm_witness_report.specs.Reports.{IsReport};

use cm_io::{Disk, DiskFault};
use cm_witness_report::{Report, ReportFault, read_report};
use std::alloc::Global;

/// Reads the report of a path, and shuts its file. `Read` says that the file can't be opened or read.
pub(crate) fn load_report<D: Disk>(
    alloc: Global,
    path: &str,
    disk: &mut D,
) -> Result<Report, ReportFault>
    ensures files { (D.state disk.new).files ≡ (D.state disk.old).files }
    ensures spilled { (D.state disk.new).spilled ≡ (D.state disk.old).spilled }
    ensures write_faults { (D.state disk.new).write_faults ≡ (D.state disk.old).write_faults }
    ensures cause { HasReportCause (D.state disk.old).read_faults (D.state disk.new).read_faults result }
    ensures valid { IfOk result (λ report. IsReport (said_of report)) }
    ensures loads { ForSome (D.state disk.old).files (λ files. LoadsReport files path.now result) }
{
    let mut reader = match disk.open(path) {
        Ok(reader) => reader,
        Err(DiskFault::Memory) => return Err(ReportFault::Memory),
        Err(DiskFault::Failed) => return Err(ReportFault::Read),
    };
    let loaded = read_report(alloc, &mut reader);
    disk.shut(reader);
    loaded
}
