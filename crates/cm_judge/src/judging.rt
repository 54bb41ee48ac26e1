//! A verdict on the report of a file, by the keys of another.
ghost use Rattle.std.specs.Prelude.{◌≡◌, IfErr};
ghost use Rattle.std.specs.Option.{ForSome};
ghost use Rattle.cm_judge.specs.Leaves.{EndDiffers, EndsFiles, EndsKeys, HasStopCause};
ghost use Rattle.cm_judge_reports.specs.Faults.{HasJudgeCause, NumbersDiffer};
ghost use Rattle.cm_witness_report.specs.Reading.{said_of};
ghost use Rattle.cm_witness_report.specs.Reports.{IsReport};
ghost use Rattle.cm_judge_words.specs.Limits.{IsJudgeJob};

use crate::loading::load_report;
use crate::stop::JudgeStop;
use cm_io::{Disk, DiskFault, KeyFault};
use cm_judge_reports::{JudgeFault, Settings, Verdict, judge};
use cm_judge_verdict::holds_if_true;
use cm_judge_words::JudgeJob;
use cm_keys::{Keys, numbering};
use cm_witness_report::Report;
use std::alloc::Global;

/// Judges a report by the keys of the keys file. `Read` says that the file can't be opened, read or rewound.
fn judge_keys<D: Disk>(
    alloc: Global,
    report: &Report,
    job: &JudgeJob,
    disk: &mut D,
) -> Result<Verdict, JudgeFault>
    requires report { IsReport (said_of report.now) }
    requires job { IsJudgeJob job.now }
    ensures files { (D.state disk.new).files ≡ (D.state disk.old).files }
    ensures spilled { (D.state disk.new).spilled ≡ (D.state disk.old).spilled }
    ensures write_faults { (D.state disk.new).write_faults ≡ (D.state disk.old).write_faults }
    ensures cause { HasJudgeCause (D.state disk.old).read_faults (D.state disk.new).read_faults result }
    ensures numbers { IfErr result NumbersDiffer }
    ensures ends { ForSome (D.state disk.old).files (λ files. EndsKeys job.now (said_of report.now) files result) }
{
    // Laws, for the proof alone.
    holds_if_true();
    numbering();
    let reader = match disk.open(job.keys.as_str()) {
        Ok(reader) => reader,
        Err(DiskFault::Memory) => return Err(JudgeFault::Memory),
        Err(DiskFault::Failed) => return Err(JudgeFault::Key(KeyFault::Read)),
    };
    let settings = Settings { c: job.c, b: job.b };
    let mut keys = Keys::new(reader, job.first, job.end);
    let judged = judge(alloc, report, &mut keys, &settings);
    disk.shut(keys.into_source());
    judged
}

/// Reads the report, and judges it by the keys. The report is shut before the keys file is opened.
pub(crate) fn judge_files<D: Disk>(
    alloc: Global,
    job: &JudgeJob,
    disk: &mut D,
) -> Result<Verdict, JudgeStop>
    requires job { IsJudgeJob job.now }
    ensures files { (D.state disk.new).files ≡ (D.state disk.old).files }
    ensures spilled { (D.state disk.new).spilled ≡ (D.state disk.old).spilled }
    ensures write_faults { (D.state disk.new).write_faults ≡ (D.state disk.old).write_faults }
    ensures cause { HasStopCause (D.state disk.old).read_faults (D.state disk.new).read_faults result }
    ensures numbers { EndDiffers result }
    ensures ends { ForSome (D.state disk.old).files (λ files. EndsFiles job.now files result) }
{
    let report = match load_report(alloc, job.report.as_str(), disk) {
        Ok(report) => report,
        Err(fault) => return Err(JudgeStop::Report(fault)),
    };
    match judge_keys(alloc, &report, job, disk) {
        Ok(verdict) => Ok(verdict),
        Err(fault) => Err(JudgeStop::Keys(fault)),
    }
}
