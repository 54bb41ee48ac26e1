//! Why there is no verdict, said on err.
ghost use Rattle.std.specs.Prelude.{◌≡◌};
ghost use Rattle.cm_io.specs.States.{IsSent};
ghost use Rattle.cm_judge.specs.Leaves.{stop_from_judge, stop_from_report, stop_message, stop_status};
ghost use Rattle.cm_judge.specs.Texts.{program};
ghost use Rattle.cm_tool_stops.specs.Ends.{Says};
ghost use Rattle.cm_tool_stops.specs.Messages.{cannot_write_out};

use crate::program::PROGRAM;
use crate::stop::{BadReport, JudgeStop};
use cm_io::{KeyFault, Notes, Sink};
use cm_judge_reports::JudgeFault;
use cm_judge_words::JudgeJob;
use cm_tool_stops::{Names, QueryStop, Stop, report, report_query, say};
use cm_witness_report::ReportFault;

/// Why a report that could not be read stops a job.
fn stop_of_report(fault: ReportFault) -> QueryStop<BadReport>
    ensures stop { result ≡ stop_from_report fault }
{
    match fault {
        ReportFault::Memory => QueryStop::Memory,
        ReportFault::Read => QueryStop::NoFunction,
        ReportFault::Bad { line } => QueryStop::BadFile {
            fault: BadReport { line },
        },
    }
}

/// Why keys by which nothing was judged stop a job.
fn stop_of_judge(fault: JudgeFault) -> Stop
    ensures stop { result ≡ stop_from_judge fault }
{
    match fault {
        JudgeFault::Memory => Stop::Memory,
        JudgeFault::NoKeys => Stop::NoKeys,
        JudgeFault::Key(KeyFault::Read) => Stop::Read,
        JudgeFault::Key(KeyFault::TooLong { line }) => Stop::TooLong { line },
        JudgeFault::Key(KeyFault::TooMany) => Stop::TooMany,
        JudgeFault::Changed { first, now } => Stop::Changed { first, now },
    }
}

/// Says why there is no verdict, and returns the status of that.
pub(crate) fn report_stop<E: Sink>(stop: JudgeStop, job: &JudgeJob, err: &mut E) -> u8
    ensures status { result ≡ stop_status stop }
    ensures says { Says (E.state err.old) (E.state err.new) (stop_message job.now stop) }
    ensures sent { IsSent (E.state err.old) (E.state err.new) }
{
    let names = Names {
        program: PROGRAM,
        keys: job.keys.as_str(),
        function: job.report.as_str(),
    };
    match stop {
        JudgeStop::Report(fault) => {
            let mut notes = Notes::new();
            report_query(&stop_of_report(fault), &names, err, &mut notes)
        }
        JudgeStop::Keys(fault) => report(stop_of_judge(fault), &names, "", err),
    }
}

/// Says that out can't be written, and returns the status of that.
pub(crate) fn report_unwritten<E: Sink>(err: &mut E) -> u8
    ensures status { result ≡ 5 }
    ensures says { Says (E.state err.old) (E.state err.new) (cannot_write_out program) }
    ensures sent { IsSent (E.state err.old) (E.state err.new) }
{
    say(
        err,
        &[PROGRAM.as_bytes(), b": cannot write standard output\n"],
    );
    5
}
