//! The top call.
ghost use Rattle.std.specs.Prelude.{map, string_bytes};
ghost use Rattle.cm_filter_dump.specs.Runs.{Runs};
ghost use Rattle.cm_filter_words.specs.Meaning.{job_of};
ghost use Rattle.cm_io.specs.States.{outside};

use crate::building::run_build;
use crate::program::PROGRAM;
use crate::testing::run_test;
use cm_filter_words::{FilterJob, read_words};
use cm_io::{Disk, Sink};
use cm_tool_stops::report_usage;
use std::alloc::Global;

/// The whole program: reads the arguments, of which the first is its name, and builds the filter that they ask for, or writes the keys
/// that hold in the one that they name. Returns the status: 0 the filter is saved, or all keys hold; 1 no seed of the list yields a filter,
/// as for equal keys, or a key doesn't hold; 2 the arguments ask for no job; 3 the filter file is none; 4 a file can't be opened, read or
/// rewound; 5 the filter file can't be created, written or closed, or out can't be written; 6 out of memory; 7 the keys changed between
/// passes; 8 no keys in a build, a line that is too long, or too many keys.
pub fn filter_run<D: Disk, O: Sink, E: Sink>(
    alloc: Global,
    words: &[String],
    disk: &mut D,
    out: &mut O,
    err: &mut E,
) -> u8
    // What a run does to disk, out and err, clause by clause: the theorem of the program.
    ensures runs { Runs (job_of (map string_bytes words.now)) (outside (D.state disk.old) (O.state out.old) (E.state err.old)) (outside (D.state disk.new) (O.state out.new) (E.state err.new)) result }
{
    match read_words(alloc, words) {
        Ok(FilterJob::Build(job)) => run_build(alloc, job, disk, out, err),
        Ok(FilterJob::Test(job)) => run_test(alloc, &job, disk, out, err),
        Err(fault) => report_usage(PROGRAM, "", fault, err),
    }
}
