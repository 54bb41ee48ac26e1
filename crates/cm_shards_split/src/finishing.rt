//! The end of a split.
ghost use Rattle.std.specs.Prelude.{◌≡◌, Option, None, Some};
ghost use Rattle.std.specs.Option.{ForSome};
ghost use Rattle.cm_io.specs.Files.{Files};
ghost use Rattle.cm_io.specs.declared.key_pass.KeyFault.{KeyFault};
ghost use Rattle.cm_shards_split.specs.Leaves.{HasEndedOf, LeavesFiles, LeavesRest};
ghost use Rattle.cm_shards_split.specs.Names.{counts_path as counts_path_of};
ghost use Rattle.cm_shards_split.specs.Parts.{AreHeld, AreNew};
ghost use Rattle.cm_shards_split.specs.Streaming.{HasSplitCause};
ghost use Rattle.cm_shards_words.specs.Limits.{IsSplitJob};
ghost use Rattle.cm_shards_words.specs.declared.jobs.SplitJob.{SplitJob as Job};

use crate::counts::Counts;
use crate::part::Part;
use crate::parts::{flush_parts, new_parts};
use crate::paths::counts_path;
use crate::splitting::split_source;
use crate::stop::SplitStop;
use cm_io::DiskFault;
use cm_io_append::AppendDisk;
use cm_shards_words::SplitJob;
use cm_tool_building::store_file;
use std::alloc::Global;

/// Writes what waits after the last line before a fault.
fn write_rest<D: AppendDisk>(parts: &mut [Part], disk: &mut D) -> Result<(), SplitStop>
    requires held { AreHeld parts.old (D.state disk.old).files }
    ensures leaves { (job : Job) (base : Option Files) (fault : Option KeyFault) → HasEndedOf job base fault parts.old (D.state disk.old).files
        → ForSome base (λ files. LeavesRest job files (D.state disk.new).files fault result) }
    ensures spilled { (D.state disk.new).spilled ≡ (D.state disk.old).spilled }
    ensures read_faults { (D.state disk.new).read_faults ≡ (D.state disk.old).read_faults }
    ensures cause { HasSplitCause 0 0 (D.state disk.old).write_faults (D.state disk.new).write_faults result }
{
    match flush_parts(parts, disk) {
        Ok(()) => Ok(()),
        Err(DiskFault::Memory) => Err(SplitStop::Memory),
        Err(DiskFault::Failed) => Err(SplitStop::Write),
    }
}

/// Writes what waits after the last line, and then the counts.
fn write_whole<D: AppendDisk>(
    counts: &str,
    parts: &mut [Part],
    disk: &mut D,
) -> Result<(), SplitStop>
    requires held { AreHeld parts.old (D.state disk.old).files }
    ensures leaves { (job : Job) (base : Option Files) → counts.now ≡ counts_path_of job.dir → HasEndedOf job base None parts.old (D.state disk.old).files
        → ForSome base (λ files. LeavesFiles job files (D.state disk.new).files result) }
    ensures spilled { (D.state disk.new).spilled ≡ (D.state disk.old).spilled }
    ensures read_faults { (D.state disk.new).read_faults ≡ (D.state disk.old).read_faults }
    ensures cause { HasSplitCause 0 0 (D.state disk.old).write_faults (D.state disk.new).write_faults result }
{
    match flush_parts(parts, disk) {
        Ok(()) => {}
        Err(DiskFault::Memory) => return Err(SplitStop::Memory),
        Err(DiskFault::Failed) => return Err(SplitStop::Write),
    }
    match store_file(counts, &Counts { parts }, disk) {
        Ok(()) => Ok(()),
        Err(DiskFault::Memory) => Err(SplitStop::Memory),
        Err(DiskFault::Failed) => Err(SplitStop::Write),
    }
}

/// Splits the lines of the keys file of a job, and writes all that waits, and the counts.
fn split_parts<D: AppendDisk>(
    job: &SplitJob,
    counts: &str,
    parts: &mut [Part],
    disk: &mut D,
) -> Result<(), SplitStop>
    requires job { IsSplitJob job.now }
    requires counts { counts.now ≡ counts_path_of job.now.dir }
    requires new { AreNew job.now.dir job.now.shards parts.old }
    ensures leaves { ForSome (D.state disk.old).files (λ files. LeavesFiles job.now files (D.state disk.new).files result) }
    ensures spilled { (D.state disk.new).spilled ≡ (D.state disk.old).spilled }
    ensures cause { HasSplitCause (D.state disk.old).read_faults (D.state disk.new).read_faults (D.state disk.old).write_faults (D.state disk.new).write_faults result }
{
    match split_source(job, counts, parts, disk) {
        Ok(()) => write_whole(counts, parts, disk),
        Err(SplitStop::TooLong { line }) => match write_rest(parts, disk) {
            Ok(()) => Err(SplitStop::TooLong { line }),
            Err(stop) => Err(stop),
        },
        Err(SplitStop::TooMany) => match write_rest(parts, disk) {
            Ok(()) => Err(SplitStop::TooMany),
            Err(stop) => Err(stop),
        },
        Err(SplitStop::Memory) => Err(SplitStop::Memory),
        Err(SplitStop::Read) => Err(SplitStop::Read),
        Err(SplitStop::Write) => Err(SplitStop::Write),
    }
}

/// Splits the lines of the keys file of a job into the files of its folder. The memory of all that waits is taken first.
pub(crate) fn split_files<D: AppendDisk>(
    alloc: Global,
    job: &SplitJob,
    disk: &mut D,
) -> Result<(), SplitStop>
    requires job { IsSplitJob job.now }
    ensures leaves { ForSome (D.state disk.old).files (λ files. LeavesFiles job.now files (D.state disk.new).files result) }
    ensures spilled { (D.state disk.new).spilled ≡ (D.state disk.old).spilled }
    ensures cause { HasSplitCause (D.state disk.old).read_faults (D.state disk.new).read_faults (D.state disk.old).write_faults (D.state disk.new).write_faults result }
{
    let Ok(counts) = counts_path(alloc, job.dir.as_str()) else {
        return Err(SplitStop::Memory);
    };
    let Ok(mut parts) = new_parts(alloc, job.dir.as_str(), job.shards) else {
        return Err(SplitStop::Memory);
    };
    split_parts(job, counts.as_str(), &mut parts, disk)
}
