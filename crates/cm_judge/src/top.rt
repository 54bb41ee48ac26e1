//! The top call.
ghost use Rattle.std.specs.Prelude.{map, string_bytes};
ghost use Rattle.cm_io.specs.States.{outside};
ghost use Rattle.cm_judge.specs.Runs.{Runs};
ghost use Rattle.cm_judge_words.specs.Meaning.{job_of};

use crate::driving::judge_job;
use crate::program::PROGRAM;
use cm_io::{Disk, Sink};
use cm_judge_words::read_words;
use cm_tool_stops::report_usage;
use std::alloc::Global;

/// The whole program: reads the arguments, of which the first is its name, and judges the report that they name by the keys of the file
/// that they name. Returns the status: 2 if the arguments ask for no job, and else that of `judge_job`.
pub fn judge_run<D: Disk, O: Sink, E: Sink>(
    alloc: Global,
    words: &[String],
    disk: &mut D,
    out: &mut O,
    err: &mut E,
) -> u8
    // What a run does to disk, out and err, clause by clause: the theorem of the program.
    ensures runs { Runs (job_of (map string_bytes words.now)) (outside (D.state disk.old) (O.state out.old) (E.state err.old)) (outside (D.state disk.new) (O.state out.new) (E.state err.new)) result }
{
    match read_words(alloc, words) {
        Ok(job) => judge_job(alloc, &job, disk, out, err),
        Err(fault) => report_usage(PROGRAM, "", fault, err),
    }
}
