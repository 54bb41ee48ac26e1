//! Look-ups.
ghost use Rattle.cm_io.specs.States.{outside};
ghost use Rattle.cm_store_dump.specs.Asked.{asking_of};
ghost use Rattle.cm_store_words.specs.Limits.{IsStoreLook};
ghost use Rattle.cm_tool_asking.specs.Asks.{Asks};

use crate::files::StoreFile;
use cm_io::{Disk, Sink};
use cm_store_values::PROGRAM;
use cm_store_words::StoreLook;
use cm_tool_asking::{AskFiles, ask};
use cm_tool_stops::Names;
use std::alloc::Global;

/// Runs a look-up, and returns its status.
pub(crate) fn run_look<D: Disk, O: Sink, E: Sink>(
    alloc: Global,
    job: &StoreLook,
    disk: &mut D,
    out: &mut O,
    err: &mut E,
) -> u8
    requires job { IsStoreLook job.now }
    ensures asks { Asks (asking_of job.now) (outside (D.state disk.old) (O.state out.old) (E.state err.old)) (outside (D.state disk.new) (O.state out.new) (E.state err.new)) result }
{
    let files = AskFiles {
        names: Names {
            program: PROGRAM,
            keys: job.keys.as_str(),
            function: job.store.as_str(),
        },
        first: job.first,
        end: job.end,
    };
    ask::<StoreFile, D, O, E>(alloc, &files, disk, out, err)
}
