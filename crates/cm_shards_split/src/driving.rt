//! A split.
ghost use Rattle.cm_io.specs.States.{SinkState, outside};
ghost use Rattle.cm_shards_split.specs.Splits.{Splits, frame_of};
ghost use Rattle.cm_shards_words.specs.Limits.{IsSplitJob};
ghost use Rattle.cm_tool_stops.specs.Does.{Does};

use crate::finishing::split_files;
use crate::overwriting::makes_keys;
use crate::reporting::report_stop;
use crate::stop::SplitStop;
use cm_io::Sink;
use cm_io_append::AppendDisk;
use cm_shards_words::{SplitJob, report_overwriting};
use std::alloc::Global;

/// Splits the lines of a keys file that is none of the files to be made.
fn split_keys<D: AppendDisk, E: Sink>(
    alloc: Global,
    job: &SplitJob,
    disk: &mut D,
    err: &mut E,
) -> u8
    requires job { IsSplitJob job.now }
    ensures splits { (out : SinkState) → Does (frame_of job.now) (outside (D.state disk.old) out (E.state err.old)) (outside (D.state disk.new) out (E.state err.new)) result }
{
    match split_files(alloc, job, disk) {
        Ok(()) => 0,
        Err(stop) => report_stop(stop, job, err),
    }
}

/// Splits the lines of a keys file into shards, and returns the status: 0 the files of the shards have all lines, and that of the counts
/// how many each has; 4 the keys file can't be opened or read; 5 a file can't be created, written or synced, or the keys file is one of
/// those to be made; 6 out of memory; 8 a line that is too long, or too many lines: the files of the shards have the lines before it. The
/// keys file is read once. No file is made before it is open and the memory of all buffers is taken.
pub fn split_job<D: AppendDisk, E: Sink>(
    alloc: Global,
    job: &SplitJob,
    disk: &mut D,
    err: &mut E,
) -> u8
    requires job { IsSplitJob job.now }
    ensures splits { (out : SinkState) → Splits job.now (outside (D.state disk.old) out (E.state err.old)) (outside (D.state disk.new) out (E.state err.new)) result }
{
    match makes_keys(alloc, job) {
        Ok(false) => split_keys(alloc, job, disk, err),
        Ok(true) => report_overwriting(job.keys.as_str(), err),
        Err(_) => report_stop(SplitStop::Memory, job, err),
    }
}
