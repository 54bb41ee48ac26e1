//! A join.
ghost use Rattle.cm_io.specs.States.{SinkState, outside};
ghost use Rattle.cm_shards_join.specs.Joins.{Joins, JoinsFunctions};
ghost use Rattle.cm_shards_words.specs.Limits.{IsJoinJob};

use crate::inputs::replaces_input;
use crate::reporting::report_stop;
use crate::stop::JoinStop;
use crate::storing::join_files;
use cm_io::Sink;
use cm_io_append::AppendDisk;
use cm_shards_words::{JoinJob, report_overwriting};
use std::alloc::Global;

/// Joins the functions of a job whose manifest is none of the files that are read.
fn join_functions<D: AppendDisk, E: Sink>(
    alloc: Global,
    job: &JoinJob,
    disk: &mut D,
    err: &mut E,
) -> u8
    requires job { IsJoinJob job.now }
    ensures joins { (out : SinkState) → JoinsFunctions job.now (outside (D.state disk.old) out (E.state err.old)) (outside (D.state disk.new) out (E.state err.new)) result }
{
    match join_files(alloc, job, disk) {
        Ok(()) => 0,
        Err(stop) => report_stop(&stop, job, err),
    }
}

/// Joins the functions of a job, and saves the manifest of them. Returns the status: 0 it is saved; 3 a function file is refused, or the
/// counts are others; 4 a function file or the counts can't be opened or read; 5 the manifest can't be created, written or synced, or would
/// take the place of a file that is read; 6 out of memory. The manifest is created only after all functions and the counts were checked.
pub fn join_job<D: AppendDisk, E: Sink>(
    alloc: Global,
    job: &JoinJob,
    disk: &mut D,
    err: &mut E,
) -> u8
    requires job { IsJoinJob job.now }
    ensures joins { (out : SinkState) → Joins job.now (outside (D.state disk.old) out (E.state err.old)) (outside (D.state disk.new) out (E.state err.new)) result }
{
    match replaces_input(alloc, job) {
        Ok(false) => join_functions(alloc, job, disk, err),
        Ok(true) => report_overwriting(job.manifest.as_str(), err),
        Err(_) => report_stop(&JoinStop::Memory, job, err),
    }
}
