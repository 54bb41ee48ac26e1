//! The top call.
ghost use Rattle.std.specs.Prelude.{map, string_bytes};
ghost use Rattle.cm_io.specs.States.{outside};
ghost use Rattle.cm_store_dump.specs.Runs.{Runs};
ghost use Rattle.cm_store_words.specs.Meaning.{job_of};

use crate::building::run_build;
use crate::looking::run_look;
use cm_io::{Disk, Sink};
use cm_store_values::PROGRAM;
use cm_store_words::{StoreJob, read_words};
use cm_tool_stops::report_usage;
use std::alloc::Global;

/// The whole program: reads the arguments, of which the first is its name, and builds the store that they ask for, or writes the values of
/// the keys in the one that they name. Returns the status: 0 the store is saved, or each key has a value; 1 no seed of the list yields an
/// index, as for equal keys, or a key has no value; 2 the arguments ask for no job; 3 the store file is none; 4 a file can't be opened or
/// read; 5 the store file can't be created, written or closed, or out can't be written; 6 out of memory; 8 no lines in a build, a line that
/// is too long, too many lines, or records that are too large.
pub fn store_run<D: Disk, O: Sink, E: Sink>(
    alloc: Global,
    words: &[String],
    disk: &mut D,
    out: &mut O,
    err: &mut E,
) -> u8
    // What a run does to disk, out and err, clause by clause: the theorem of the program.
    ensures runs { Runs (job_of (map string_bytes words.now)) (outside (D.state disk.old) (O.state out.old) (E.state err.old)) (outside (D.state disk.new) (O.state out.new) (E.state err.new)) result }
{
    match read_words(alloc, words) {
        Ok(StoreJob::Build(job)) => run_build(alloc, job, disk, out, err),
        Ok(StoreJob::Look(job)) => run_look(alloc, &job, disk, out, err),
        Err(fault) => report_usage(PROGRAM, "", fault, err),
    }
}
