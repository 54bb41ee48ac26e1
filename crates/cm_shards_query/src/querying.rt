//! The numbers of lines, written.
ghost use Rattle.std.specs.Prelude.{◌≡◌, ◌<◌, ℕ, List, IsTrue, false};
ghost use Rattle.std.specs.Option.{ForSome};
ghost use Rattle.cm_io.specs.Noting.{Noted};
ghost use Rattle.cm_io.specs.States.{IsSent};
ghost use Rattle.cm_keys.specs.Streams.{told_by};
ghost use Rattle.cm_keys.specs.declared.lines.LineFault.TheVariants as line_fault;
ghost use Rattle.cm_keys.specs.declared.lines.TheConstants.{MAX_LINES};
ghost use Rattle.cm_shards_files.specs.Shards.{number_in};
ghost use Rattle.cm_shards_query.specs.Leaves.{EndsQuery, HasLinesCause, stop_from_line};
ghost use Rattle.cm_shards_query.specs.Written.{number_replies};
ghost use Rattle.cm_tool_asking.specs.Leaves.{wrote};

use crate::batch::Batch;
use crate::stop::LinesStop;
use crate::writing::note_key;
use cm_io::{Failed, KeyBuf, Notes, Sink, Source};
use cm_keys::{LineFault, Lines};
use cm_query::write_line;
use cm_shards_files::Shards;
use itoa::Buffer;

/// What keeps lines from their end, by the fault after this many lines.
pub(crate) fn stop_of_line(fault: LineFault, count: u64) -> LinesStop
    requires long { fault ≡ line_fault.TooLong → count < MAX_LINES }
    ensures stop { result ≡ stop_from_line count fault }
{
    match fault {
        LineFault::Read => LinesStop::Read,
        LineFault::TooLong => LinesStop::TooLong { line: count + 1 },
        LineFault::TooMany => LinesStop::TooMany,
    }
}

/// Looks up each line of a source, of which none was yielded. If it has a number, the line, an arrow, the number and the byte `end` go to
/// out; if it has none, a note with its line goes to err. Returns whether all lines have a number. Fails exactly if the lines or out do,
/// and allocates no memory. Buffered lines are taken and looked up several at a time, after all text of earlier lines was written. Out is
/// flushed before a line is read that is not buffered, so no text is left in its buffer at the end or if a read fails.
pub(crate) fn write_numbers<S: Source, O: Sink, E: Sink>(
    shards: &Shards,
    lines: &mut Lines<S>,
    end: u8,
    out: &mut O,
    err: &mut E,
    notes: &mut Notes,
) -> Result<bool, LinesStop>
    requires usable { IsTrue lines.old.usable }
    requires start { lines.old.count ≡ 0 }
    ensures cause { HasLinesCause lines.old.faults lines.new.faults (O.state out.old).faults (O.state out.new).faults result }
    ensures says { (text : List ℕ) × Noted notes.old notes.new (E.state err.old) (E.state err.new) text }

    // The buffer of out is empty, unless out failed, and that of err, unless a note failed.
    ensures sent { (O.state out.old).waits ≡ 0 → IsSent (O.state out.old) (O.state out.new) }
    ensures notes_sent { (notes.old ≡ false → (E.state err.old).waits ≡ 0) → notes.new ≡ false → (E.state err.new).waits ≡ 0 }

    // Over known lines.
    ensures ends { ForSome (told_by lines.old) (λ told. (text : List ℕ) × Noted notes.old notes.new (E.state err.old) (E.state err.new) text
        × EndsQuery (number_replies (number_in shards.now) end) told (wrote (O.state out.old).written (O.state out.new).written text) result) }
{
    let mut complete = true;
    let mut room = KeyBuf::new();
    let mut batch = Batch::new();
    let mut buffer = Buffer::new();
    'lines: loop {
        match batch.refill(shards, lines, &mut room) {
            Ok(true) => {}
            Ok(false) => return Ok(complete),
            Err(fault) => return Err(stop_of_line(fault, lines.count())),
        }
        let number = batch.number();
        let sends = batch.reads_next(lines);
        match write_line(out, batch.key(), number, end, sends, &mut buffer) {
            Ok(()) => {}
            Err(Failed) => return Err(LinesStop::Write),
        }
        note_key(err, notes, batch.line(), number);
        complete &= number.is_some();
        batch.pass();
    }
}
