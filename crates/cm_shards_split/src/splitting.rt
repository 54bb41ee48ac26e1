//! The lines of a keys file, split into the files of a folder.
ghost use Rattle.std.specs.Prelude.{◌≡◌, ◌⊎◌, List, ℕ, Option, IsTrue, OnOk};
ghost use Rattle.std.specs.Option.{ForSome};
ghost use Rattle.cm_io.specs.Files.{Files};
ghost use Rattle.cm_keys.specs.Streams.{told_by};
ghost use Rattle.cm_shards_split.specs.Leaves.{LeavesLines, LeavesSource, plan_of, stop_from_disk};
ghost use Rattle.cm_shards_split.specs.Names.{counts_path as counts_path_of};
ghost use Rattle.cm_shards_split.specs.Parts.{AreNew};
ghost use Rattle.cm_shards_split.specs.Streaming.{HasSplitCause};
ghost use Rattle.cm_shards_words.specs.Limits.{IsSplitJob};

use crate::creating::create_checked;
use crate::part::Part;
use crate::stop::SplitStop;
use crate::streaming::stream;
use cm_io::{DiskFault, Source};
use cm_io_append::AppendDisk;
use cm_keys::Lines;
use cm_route::{ROUTE_SEED, Route};
use cm_shards_words::SplitJob;

/// Why a file can't be created or written.
pub(crate) fn stop_of(fault: DiskFault) -> SplitStop
    ensures stop { result ≡ stop_from_disk fault }
{
    match fault {
        DiskFault::Memory => SplitStop::Memory,
        DiskFault::Failed => SplitStop::Write,
    }
}

/// Creates the files, none of which may be the keys file, and puts each line into its shard.
fn split_lines<S: Source, D: AppendDisk>(
    lines: &mut Lines<S>,
    job: &SplitJob,
    counts: &str,
    parts: &mut [Part],
    disk: &mut D,
) -> Result<(), SplitStop>
    requires usable { IsTrue lines.old.usable }
    requires start { lines.old.count ≡ 0 }
    requires job { IsSplitJob job.now }
    requires counts { counts.now ≡ counts_path_of job.now.dir }
    requires new { AreNew job.now.dir job.now.shards parts.old }
    ensures leaves { LeavesLines (plan_of job.now (D.state disk.old).files) (told_by lines.old) parts.new (D.state disk.new).files result }
    ensures bytes { lines.new.bytes ≡ lines.old.bytes }
    ensures spilled { (D.state disk.new).spilled ≡ (D.state disk.old).spilled }
    ensures read_faults { (D.state disk.new).read_faults ≡ (D.state disk.old).read_faults }
    ensures cause { HasSplitCause lines.old.faults lines.new.faults (D.state disk.old).write_faults (D.state disk.new).write_faults result }
{
    match create_checked(job.keys.as_str(), counts, parts, disk) {
        Ok(()) => {}
        Err(DiskFault::Memory) => return Err(SplitStop::Memory),
        Err(DiskFault::Failed) => return Err(SplitStop::Write),
    }
    let route = Route::new(ROUTE_SEED, job.shards);
    stream(lines, parts, &route, job.end, disk)
}

/// Opens the keys file, creates the files, and puts each line into its shard.
pub(crate) fn split_source<D: AppendDisk>(
    job: &SplitJob,
    counts: &str,
    parts: &mut [Part],
    disk: &mut D,
) -> Result<(), SplitStop>
    requires job { IsSplitJob job.now }
    requires counts { counts.now ≡ counts_path_of job.now.dir }
    requires new { AreNew job.now.dir job.now.shards parts.old }
    ensures leaves { LeavesSource job.now (D.state disk.old).files parts.new (D.state disk.new).files result }
    ensures spilled { (D.state disk.new).spilled ≡ (D.state disk.old).spilled }
    ensures cause { HasSplitCause (D.state disk.old).read_faults (D.state disk.new).read_faults (D.state disk.old).write_faults (D.state disk.new).write_faults result }
{
    let reader = match disk.open(job.keys.as_str()) {
        Ok(reader) => reader,
        Err(DiskFault::Memory) => return Err(SplitStop::Memory),
        Err(DiskFault::Failed) => return Err(SplitStop::Read),
    };
    let mut lines = Lines::new(reader, job.first, job.end);
    let end = split_lines(&mut lines, job, counts, parts, disk);
    disk.shut(lines.into_source());
    end
}
