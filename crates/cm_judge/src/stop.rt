//! Why there is no verdict.

use cm_io::{Notes, Sink};
use cm_judge_reports::JudgeFault;
use cm_tool_stops::{Explained, Names};
use cm_witness_report::ReportFault;
use itoa::Buffer;

/// Why there is no verdict on a report.
#[derive(Clone, Copy)]
pub enum JudgeStop {
    /// The report can't be opened or read, or is none, or memory ran out before it was read.
    Report(ReportFault),
    /// The keys file can't be opened or read, or has keys that no report is judged by, or memory ran out.
    Keys(JudgeFault),
}

/// A file that is no report.
#[derive(Clone, Copy)]
pub struct BadReport {
    /// The first line, from 1, at which it is none.
    pub line: u32,
}

impl Explained for BadReport {
    ghost use Rattle.cm_judge.specs.Texts.{bad_report};

    ghost message = { λ fault names. bad_report names.program names.function fault.line };

    fn explain<E: Sink>(&self, names: &Names<'_>, err: &mut E, notes: &mut Notes) {
        let mut buffer = Buffer::new();
        let line = buffer.format(self.line).as_bytes();
        let program = names.program.as_bytes();
        let file = names.function.as_bytes();
        notes.note_pieces(
            err,
            &[program, b": ", file, b": bad report at line ", line, b"\n"],
        );
    }
}
