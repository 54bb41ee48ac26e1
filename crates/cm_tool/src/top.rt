//! The top call.
ghost use Rattle.std.specs.Prelude.{map, string_bytes};
ghost use Rattle.cm_io.specs.States.{outside};
ghost use Rattle.cm_tool.specs.Runs.{Runs};
ghost use Rattle.cm_words.specs.Meaning.{job_of};

use crate::building::run_build;
use crate::program::{HINT, PROGRAM};
use crate::querying::run_query;
use crate::testing::run_test;
use crate::texts::{print_help, print_version};
use crate::upgrading::run_upgrade;
use cm_io::{Disk, Sink};
use cm_tool_stops::{end_of_text, report_usage};
use cm_words::{Job, read_words};
use std::alloc::Global;

/// Runs the job that the arguments of a command line ask for, and returns the status: 0 done; 1 no seed of the list yields a function,
/// or a query met an unknown key or a repeated value; 2 the arguments ask for no job; 3 the function file is no dump; 4 a file can't be
/// opened, read or rewound; 5 the function file can't be created, written or closed, the spill of BRZ can't be made, written or read, or
/// out can't be written; 6 out of memory; 7 the keys changed between passes, or other bytes were read from the spill than were written
/// to it; 8 no keys in a build, a line that is too long, or too many keys.
pub fn run<D: Disk, O: Sink, E: Sink>(
    alloc: Global,
    words: &[String],
    disk: &mut D,
    out: &mut O,
    err: &mut E,
) -> u8
    // What a run does to disk, out and err, clause by clause: the theorem of the program.
    ensures runs { Runs (job_of (map string_bytes words.now)) (outside (D.state disk.old) (O.state out.old) (E.state err.old)) (outside (D.state disk.new) (O.state out.new) (E.state err.new)) result }
{
    match read_words(alloc, words) {
        Ok(Job::Help) => {
            let printed = print_help(out);
            end_of_text(PROGRAM, printed, out, err)
        }
        Ok(Job::Version) => {
            let printed = print_version(out);
            end_of_text(PROGRAM, printed, out, err)
        }
        Ok(Job::Build(job)) => run_build(alloc, job, disk, out, err),
        Ok(Job::Query(job)) => run_query(alloc, &job, disk, out, err),
        Ok(Job::Test(job)) => run_test(alloc, &job, disk, out, err),
        Ok(Job::Upgrade(job)) => run_upgrade(alloc, &job, disk, err),
        Err(fault) => report_usage(PROGRAM, HINT, fault, err),
    }
}
