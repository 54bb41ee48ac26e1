//! The files of a query or a test, and its steps.
ghost use Rattle.std.specs.Prelude.{◌≡◌, ℕ, List, [], IsTrue, true};
ghost use Rattle.std.specs.Option.{ForSome};
ghost use Rattle.cm_io.specs.Noting.{Noted};
ghost use Rattle.cm_keys.specs.Streams.{told_by};
ghost use Rattle.cm_shards_files.specs.Loading.{ChangesNoFile};
ghost use Rattle.cm_shards_query.specs.Leaves.{EndsJob, EndsKeys, EndsLines, HasStopCause, LeavesErr, LeavesOut, stop_from_lines};
ghost use Rattle.cm_shards_query.specs.Verdicts.{verdict_status};
ghost use Rattle.cm_shards_query.specs.Written.{numbers_of};
ghost use Rattle.cm_shards_words.specs.Limits.{IsAskJob};
ghost use Rattle.cm_tool_asking.specs.Asking.{status_by};
ghost use Rattle.cm_tool_asking.specs.Leaves.{wrote};

use crate::marks::Marks;
use crate::printing::print_verdict;
use crate::querying::write_numbers;
use crate::stop::{AskStop, LinesStop};
use crate::testing::test_numbers;
use crate::verdict::Verdict;
use cm_io::{Disk, DiskFault, Failed, Notes, Sink, Source};
use cm_keys::Lines;
use cm_shards_files::{Shards, load_shards};
use cm_shards_words::AskJob;
use std::alloc::Global;

/// What is asked: the functions of a manifest, for the lines of a job.
#[derive(Clone, Copy)]
struct Question<'a> {
    shards: &'a Shards,
    job: &'a AskJob,
}

/// Why lines that were not all answered stop a job.
fn stop_of_lines(stop: LinesStop) -> AskStop
    ensures stop { result ≡ stop_from_lines stop }
{
    match stop {
        LinesStop::Read => AskStop::Read,
        LinesStop::Write => AskStop::Write,
        LinesStop::TooLong { line } => AskStop::TooLong { line },
        LinesStop::TooMany => AskStop::TooMany,
    }
}

/// Whether a verdict says that nothing is amiss.
fn holds(verdict: Verdict) -> bool
    ensures holds { status_by result ≡ verdict_status verdict }
{
    match verdict {
        Verdict::Holds => true,
        Verdict::Unknown { line: _ } => false,
        Verdict::Repeated { line: _, value: _ } => false,
        Verdict::Count { lines: _, keys: _ } => false,
    }
}

/// Tests lines, and prints the verdict. Memory is allocated before the first line.
fn test_lines<S: Source, O: Sink>(
    alloc: Global,
    shards: &Shards,
    lines: &mut Lines<S>,
    out: &mut O,
) -> Result<bool, AskStop>
    requires usable { IsTrue lines.old.usable }
    requires start { lines.old.count ≡ 0 }
    ensures cause { HasStopCause lines.old.faults lines.new.faults (O.state out.old).faults (O.state out.new).faults result }
    ensures out { LeavesOut (O.state out.old) (O.state out.new) result }
    ensures ends { ForSome (told_by lines.old) (λ told. (end : ℕ) → EndsLines true end (numbers_of shards.now) told (wrote (O.state out.old).written (O.state out.new).written []) result) }
{
    let mut marks = match Marks::new(alloc, shards.total()) {
        Ok(marks) => marks,
        Err(_) => return Err(AskStop::Memory),
    };
    match test_numbers(shards, &mut marks, lines) {
        Ok(verdict) => match print_verdict(verdict, out) {
            Ok(()) => Ok(holds(verdict)),
            Err(Failed) => Err(AskStop::Write),
        },
        Err(stop) => Err(stop_of_lines(stop)),
    }
}

/// Tests lines, or writes their numbers.
fn answer_lines<S: Source, O: Sink, E: Sink>(
    alloc: Global,
    question: &Question<'_>,
    lines: &mut Lines<S>,
    out: &mut O,
    err: &mut E,
    notes: &mut Notes,
) -> Result<bool, AskStop>
    requires usable { IsTrue lines.old.usable }
    requires start { lines.old.count ≡ 0 }
    ensures cause { HasStopCause lines.old.faults lines.new.faults (O.state out.old).faults (O.state out.new).faults result }
    ensures out { LeavesOut (O.state out.old) (O.state out.new) result }
    ensures err { LeavesErr notes.old notes.new (E.state err.old) (E.state err.new) }
    ensures ends { ForSome (told_by lines.old) (λ told. (text : List ℕ) × Noted notes.old notes.new (E.state err.old) (E.state err.new) text
        × EndsLines question.now.job.now.test question.now.job.now.end (numbers_of question.now.shards.now) told (wrote (O.state out.old).written (O.state out.new).written text) result) }
{
    if question.job.test {
        return test_lines(alloc, question.shards, lines, out);
    }
    match write_numbers(question.shards, lines, question.job.end, out, err, notes) {
        Ok(complete) => Ok(complete),
        Err(stop) => Err(stop_of_lines(stop)),
    }
}

/// Asks the functions of shards for the lines of the keys file.
fn ask_keys<D: Disk, O: Sink, E: Sink>(
    alloc: Global,
    question: &Question<'_>,
    disk: &mut D,
    out: &mut O,
    err: &mut E,
    notes: &mut Notes,
) -> Result<bool, AskStop>
    requires job { IsAskJob question.now.job.now }
    ensures disk { ChangesNoFile (D.state disk.old) (D.state disk.new) }
    ensures cause { HasStopCause (D.state disk.old).read_faults (D.state disk.new).read_faults (O.state out.old).faults (O.state out.new).faults result }
    ensures out { LeavesOut (O.state out.old) (O.state out.new) result }
    ensures err { LeavesErr notes.old notes.new (E.state err.old) (E.state err.new) }
    ensures told { ForSome (D.state disk.old).files (λ files. (text : List ℕ) × Noted notes.old notes.new (E.state err.old) (E.state err.new) text
        × EndsKeys question.now.job.now question.now.shards.now files (wrote (O.state out.old).written (O.state out.new).written text) result) }
{
    let job = question.job;
    let reader = match disk.open(job.keys.as_str()) {
        Ok(reader) => reader,
        Err(DiskFault::Memory) => return Err(AskStop::Memory),
        Err(DiskFault::Failed) => return Err(AskStop::Read),
    };
    let mut lines = Lines::new(reader, job.first, job.end);
    let asked = answer_lines(alloc, question, &mut lines, out, err, notes);
    disk.shut(lines.into_source());
    asked
}

/// Loads the functions of the manifest, and asks them for the lines of the keys file.
pub(crate) fn ask_files<D: Disk, O: Sink, E: Sink>(
    alloc: Global,
    job: &AskJob,
    disk: &mut D,
    out: &mut O,
    err: &mut E,
    notes: &mut Notes,
) -> Result<bool, AskStop>
    requires job { IsAskJob job.now }
    ensures disk { ChangesNoFile (D.state disk.old) (D.state disk.new) }
    ensures cause { HasStopCause (D.state disk.old).read_faults (D.state disk.new).read_faults (O.state out.old).faults (O.state out.new).faults result }
    ensures out { LeavesOut (O.state out.old) (O.state out.new) result }
    ensures err { LeavesErr notes.old notes.new (E.state err.old) (E.state err.new) }
    ensures told { ForSome (D.state disk.old).files (λ files. (text : List ℕ) × Noted notes.old notes.new (E.state err.old) (E.state err.new) text
        × EndsJob job.now files (wrote (O.state out.old).written (O.state out.new).written text) result) }
{
    match load_shards(alloc, job.manifest.as_str(), disk) {
        Ok(shards) => {
            let question = Question {
                shards: &shards,
                job,
            };
            ask_keys(alloc, &question, disk, out, err, notes)
        }
        Err(fault) => Err(AskStop::Load(fault)),
    }
}
