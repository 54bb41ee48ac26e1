//! A query or a test.
ghost use Rattle.std.specs.Prelude.{◌≡◌};
ghost use Rattle.cm_io.specs.States.{outside};
ghost use Rattle.cm_shards_query.specs.Asks.{AsksShards};
ghost use Rattle.cm_shards_words.specs.Limits.{IsAskJob};
ghost use Rattle.cm_tool_asking.specs.Asking.{status_by};

use crate::asking::ask_files;
use crate::reporting::report_stop;
use cm_io::{Disk, Notes, Sink};
use cm_shards_words::AskJob;
use std::alloc::Global;

/// The status of a job that came to its end.
fn status(complete: bool) -> u8
    ensures status { result ≡ status_by complete }
{
    if complete { 0 } else { 1 }
}

/// Runs a query or a test, and returns its status: 0 each line has a number, and in a test all numbers differ and there are as many lines
/// as keys; 1 that is not so; 3 the manifest or a function file has bytes that it can't have, or is another; 4 the manifest, a function
/// or the keys file can't be opened or read; 5 out can't be written; 6 out of memory; 8 a line that is too long, or too many lines. The
/// manifest and all functions are loaded before the keys file is opened.
pub fn ask_job<D: Disk, O: Sink, E: Sink>(
    alloc: Global,
    job: &AskJob,
    disk: &mut D,
    out: &mut O,
    err: &mut E,
) -> u8
    requires job { IsAskJob job.now }
    ensures asks { AsksShards job.now (outside (D.state disk.old) (O.state out.old) (E.state err.old)) (outside (D.state disk.new) (O.state out.new) (E.state err.new)) result }
{
    let mut notes = Notes::new();
    match ask_files(alloc, job, disk, out, err, &mut notes) {
        Ok(complete) => status(complete),
        Err(stop) => report_stop(&stop, job, err, &mut notes),
    }
}
