//! Queries.
ghost use Rattle.cm_io.specs.States.{outside};
ghost use Rattle.cm_tool.specs.Asking.{asking_of};
ghost use Rattle.cm_tool_asking.specs.Asks.{Asks};
ghost use Rattle.cm_words.specs.Limits.{IsQuery};

use crate::program::PROGRAM;
use cm_io::{Disk, Sink};
use cm_tool_asking::{AskFiles, ask};
use cm_tool_files::AskedFunc;
use cm_tool_stops::Names;
use cm_words::QueryJob;
use std::alloc::Global;

/// Runs a query, and returns its status.
pub(crate) fn run_query<D: Disk, O: Sink, E: Sink>(
    alloc: Global,
    job: &QueryJob,
    disk: &mut D,
    out: &mut O,
    err: &mut E,
) -> u8
    requires job { IsQuery job.now }
    ensures asks { Asks (asking_of job.now) (outside (D.state disk.old) (O.state out.old) (E.state err.old)) (outside (D.state disk.new) (O.state out.new) (E.state err.new)) result }
{
    let files = AskFiles {
        names: Names {
            program: PROGRAM,
            keys: job.keys.as_str(),
            function: job.function.as_str(),
        },
        first: job.first,
        end: job.end,
    };
    ask::<AskedFunc, D, O, E>(alloc, &files, disk, out, err)
}
