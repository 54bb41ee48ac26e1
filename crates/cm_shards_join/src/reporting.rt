//! Why functions are not joined, said on err.
ghost use Rattle.std.specs.Prelude.{◌≡◌, false};
ghost use Rattle.cm_io.specs.Noting.{Noted};
ghost use Rattle.cm_io.specs.States.{IsSent};
ghost use Rattle.cm_shards_join.specs.Texts.{message_of, status_of};
ghost use Rattle.cm_tool_stops.specs.Ends.{Says};

use crate::stop::JoinStop;
use cm_io::{Notes, Sink};
use cm_shards_words::{
    JoinJob, note_bad_dump, note_file, note_line, note_no_memory, note_unread, note_unwritten,
};

/// Says why functions are not joined, and returns the status of that.
pub(crate) fn report_stop<E: Sink>(stop: &JoinStop, job: &JoinJob, err: &mut E) -> u8
    ensures status { result ≡ status_of stop.now }
    ensures says { Says (E.state err.old) (E.state err.new) (message_of job.now stop.now) }
    ensures sent { IsSent (E.state err.old) (E.state err.new) }
{
    let mut notes = Notes::new();
    explain(stop, job, err, &mut notes);
    status(stop)
}

/// Notes why functions are not joined.
fn explain<E: Sink>(stop: &JoinStop, job: &JoinJob, err: &mut E, notes: &mut Notes)
    ensures noted { Noted notes.old notes.new (E.state err.old) (E.state err.new) (message_of job.now stop.now) }
    ensures sent { notes.new ≡ false → (E.state err.new).waits ≡ 0 }
{
    match stop {
        JoinStop::Memory => note_no_memory(err, notes),
        JoinStop::Read { path } => note_unread(path.as_str(), err, notes),
        JoinStop::BadName { path } => note_file(path.as_str(), b": bad name\n", err, notes),
        JoinStop::BadDump { path, fault } => note_bad_dump(path.as_str(), *fault, err, notes),
        JoinStop::Another { path } => {
            note_file(path.as_str(), b": another algorithm\n", err, notes);
        }
        JoinStop::BadCounts { path, line } => {
            let before = b": another count at line ";
            note_line(path.as_str(), before, *line, b"\n", err, notes);
        }
        JoinStop::Write => note_unwritten(job.manifest.as_str(), err, notes),
    }
}

/// The status of a join that stopped.
fn status(stop: &JoinStop) -> u8
    ensures status { result ≡ status_of stop.now }
{
    match stop {
        JoinStop::Memory => 6,
        JoinStop::Read { path: _ } => 4,
        JoinStop::BadName { path: _ }
        | JoinStop::BadDump { path: _, fault: _ }
        | JoinStop::Another { path: _ }
        | JoinStop::BadCounts { path: _, line: _ } => 3,
        JoinStop::Write => 5,
    }
}
