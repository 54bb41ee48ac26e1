//! Why a split stopped, said on err.
ghost use Rattle.std.specs.Prelude.{◌≡◌, false};
ghost use Rattle.cm_io.specs.Noting.{Noted};
ghost use Rattle.cm_io.specs.States.{IsSent};
ghost use Rattle.cm_shards_split.specs.Stops.{stop_message, stop_status};
ghost use Rattle.cm_tool_stops.specs.Ends.{Says};

use crate::stop::SplitStop;
use cm_io::{Notes, Sink};
use cm_shards_words::{
    SplitJob, note_long_line, note_many_lines, note_no_memory, note_unread, note_unwritten,
};

/// Says why a split stopped, and returns the status of that.
pub(crate) fn report_stop<E: Sink>(stop: SplitStop, job: &SplitJob, err: &mut E) -> u8
    ensures status { result ≡ stop_status stop }
    ensures says { Says (E.state err.old) (E.state err.new) (stop_message job.now stop) }
    ensures sent { IsSent (E.state err.old) (E.state err.new) }
{
    let mut notes = Notes::new();
    explain(stop, job, err, &mut notes);
    status(stop)
}

/// Notes why a split stopped.
fn explain<E: Sink>(stop: SplitStop, job: &SplitJob, err: &mut E, notes: &mut Notes)
    ensures noted { Noted notes.old notes.new (E.state err.old) (E.state err.new) (stop_message job.now stop) }
    ensures sent { notes.new ≡ false → (E.state err.new).waits ≡ 0 }
{
    let keys = job.keys.as_str();
    match stop {
        SplitStop::Memory => note_no_memory(err, notes),
        SplitStop::Read => note_unread(keys, err, notes),
        SplitStop::Write => note_unwritten(job.dir.as_str(), err, notes),
        SplitStop::TooLong { line } => note_long_line(keys, line, err, notes),
        SplitStop::TooMany => note_many_lines(keys, err, notes),
    }
}

/// The status of a split that stopped.
fn status(stop: SplitStop) -> u8
    ensures status { result ≡ stop_status stop }
{
    match stop {
        SplitStop::Read => 4,
        SplitStop::Write => 5,
        SplitStop::Memory => 6,
        SplitStop::TooLong { line: _ } | SplitStop::TooMany => 8,
    }
}
