//! Queries.
ghost use Rattle.std.specs.Prelude.{◌≡◌, ◌⊎◌};
ghost use Rattle.cm_io.specs.States.{outside};
ghost use Rattle.cm_keys.specs.declared.keys.TheConstants.{LINE_END};
ghost use Rattle.cm_tool_asking.specs.Asking.{asking, status_by};
ghost use Rattle.cm_tool_asking.specs.Asks.{Asks};

use crate::Asked;
use crate::asking::{AskFiles, ask_file};
use cm_io::{Disk, Notes, Sink};
use cm_tool_stops::report_query;
use std::alloc::Global;

/// The status of a query that came to its end.
fn status(complete: bool) -> u8
    ensures status { result ≡ status_by complete }
{
    if complete { 0 } else { 1 }
}

/// Runs a query, and returns its status: 0 nothing is amiss with the keys; 1 something is; 3 the file that is asked has bytes that it
/// can't have; 4 it or the keys file can't be opened or read; 5 out can't be written; 6 out of memory; 8 a line that is too long, or too
/// many keys. The file that is asked is loaded before the keys file is opened.
pub fn ask<A: Asked, D: Disk, O: Sink, E: Sink>(
    alloc: Global,
    files: &AskFiles<'_>,
    disk: &mut D,
    out: &mut O,
    err: &mut E,
) -> u8
    requires end { (files.now.end ≡ LINE_END) ⊎ (files.now.end ≡ 0) }
    ensures asks { Asks (asking files.now A.meaning A.Fault.message) (outside (D.state disk.old) (O.state out.old) (E.state err.old)) (outside (D.state disk.new) (O.state out.new) (E.state err.new)) result }
{
    let mut notes = Notes::new();
    match ask_file::<A, D, O, E>(alloc, files, disk, out, err, &mut notes) {
        Ok(complete) => status(complete),
        Err(stop) => report_query(&stop, &files.names, err, &mut notes),
    }
}
