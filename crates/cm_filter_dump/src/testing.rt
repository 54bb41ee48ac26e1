//! Tests of keys.
ghost use Rattle.cm_filter_dump.specs.Asked.{asking_of};
ghost use Rattle.cm_filter_words.specs.Limits.{IsFilterTest};
ghost use Rattle.cm_io.specs.States.{outside};
ghost use Rattle.cm_tool_asking.specs.Asks.{Asks};

use crate::files::FilterFile;
use crate::program::PROGRAM;
use cm_filter_words::FilterTest;
use cm_io::{Disk, Sink};
use cm_tool_asking::{AskFiles, ask};
use cm_tool_stops::Names;
use std::alloc::Global;

/// Runs a test of keys, and returns its status.
pub(crate) fn run_test<D: Disk, O: Sink, E: Sink>(
    alloc: Global,
    job: &FilterTest,
    disk: &mut D,
    out: &mut O,
    err: &mut E,
) -> u8
    requires job { IsFilterTest job.now }
    ensures asks { Asks (asking_of job.now) (outside (D.state disk.old) (O.state out.old) (E.state err.old)) (outside (D.state disk.new) (O.state out.new) (E.state err.new)) result }
{
    let files = AskFiles {
        names: Names {
            program: PROGRAM,
            keys: job.keys.as_str(),
            function: job.filter.as_str(),
        },
        first: job.first,
        end: job.end,
    };
    ask::<FilterFile, D, O, E>(alloc, &files, disk, out, err)
}
