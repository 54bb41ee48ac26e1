//! The top call.
ghost use Rattle.std.specs.Prelude.{map, string_bytes};
ghost use Rattle.cm_io.specs.States.{outside};
ghost use Rattle.cm_shards.specs.Runs.{Runs};
ghost use Rattle.cm_shards_words.specs.Meaning.{job_of};

use cm_io::Sink;
use cm_io_append::AppendDisk;
use cm_shards_join::join_job;
use cm_shards_query::ask_job;
use cm_shards_split::split_job;
use cm_shards_words::{PROGRAM, ShardsJob, read_words};
use cm_tool_stops::report_usage;
use std::alloc::Global;

/// The whole program: reads the arguments, of which the first is its name, and splits the keys file that they name into shards, joins the
/// function files that they name, or answers the keys of the file that they name by the functions of a manifest. Returns the status: 0 it
/// is done, and in a query each key has a number; 1 a key has no number, or a test found the functions at fault; 2 the arguments ask for no
/// job; 3 a manifest, a function file or the counts are refused; 4 a file can't be opened or read; 5 a file can't be created, written or
/// synced, or would take the place of one that is read, or out can't be written; 6 out of memory; 8 a line that is too long, or too many
/// lines.
pub fn shards_run<D: AppendDisk, O: Sink, E: Sink>(
    alloc: Global,
    words: &[String],
    disk: &mut D,
    out: &mut O,
    err: &mut E,
) -> u8
    // What a run does to disk, out and err, clause by clause: the theorem of the program.
    ensures runs { Runs (job_of (map string_bytes words.now)) (outside (D.state disk.old) (O.state out.old) (E.state err.old)) (outside (D.state disk.new) (O.state out.new) (E.state err.new)) result }
{
    match read_words(alloc, words) {
        Ok(ShardsJob::Split(job)) => split_job(alloc, &job, disk, err),
        Ok(ShardsJob::Join(job)) => join_job(alloc, &job, disk, err),
        Ok(ShardsJob::Ask(job)) => ask_job(alloc, &job, disk, out, err),
        Err(fault) => report_usage(PROGRAM, "", fault, err),
    }
}
