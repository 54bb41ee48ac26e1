//! A job of the judge.
ghost use Rattle.std.specs.Prelude.{◌≡◌};
ghost use Rattle.cm_io.specs.States.{outside};
ghost use Rattle.cm_judge.specs.Judges.{Judges};
ghost use Rattle.cm_judge.specs.Outcomes.{verdict_status};
ghost use Rattle.cm_judge_words.specs.Limits.{IsJudgeJob};

use crate::judging::judge_files;
use crate::printing::print_verdict;
use crate::reporting::{report_stop, report_unwritten};
use cm_io::{Disk, Failed, Sink};
use cm_judge_reports::Verdict;
use cm_judge_words::JudgeJob;
use std::alloc::Global;

/// The status of a verdict that was printed.
fn status(verdict: Verdict) -> u8
    ensures status { result ≡ verdict_status verdict }
{
    match verdict {
        Verdict::Holds => 0,
        Verdict::Fails(_) => 1,
    }
}

/// Judges the report of a job by its keys, prints the verdict, and returns the status: 0 the report is true; 1 it is false; 3 the file is
/// no report; 4 the report or the keys file can't be opened or read; 5 out can't be written; 6 out of memory; 7 the keys changed between
/// passes; 8 no key, a line that is too long, or too many keys. The report is read once, and shut before the keys file is opened.
pub fn judge_job<D: Disk, O: Sink, E: Sink>(
    alloc: Global,
    job: &JudgeJob,
    disk: &mut D,
    out: &mut O,
    err: &mut E,
) -> u8
    requires job { IsJudgeJob job.now }
    ensures judges { Judges job.now (outside (D.state disk.old) (O.state out.old) (E.state err.old)) (outside (D.state disk.new) (O.state out.new) (E.state err.new)) result }
{
    match judge_files(alloc, job, disk) {
        Ok(verdict) => match print_verdict(verdict, out) {
            Ok(()) => status(verdict),
            Err(Failed) => report_unwritten(err),
        },
        Err(stop) => report_stop(stop, job, err),
    }
}
