//! The text of a verdict.
ghost use Rattle.std.specs.Prelude.{◌≡◌, [], ◌∷◌, OnOk, decimal};
ghost use Rattle.cm_io.specs.Causes.{HasCause};
ghost use Rattle.cm_io.specs.Writing.{Writes, joined};
ghost use Rattle.cm_judge.specs.Texts.{verdict_text};
ghost use Rattle.cm_judge_verdict.specs.declared.verdict.Verdict.TheVariants.{Fails};

use cm_io::{Failed, Sink, write_pieces};
use cm_judge_reports::{Reason, Verdict};
use cm_tool_stops::send_text;
use itoa::Buffer;

/// Writes a text with a number in it.
fn write_number<O: Sink>(
    before: &[u8],
    number: u32,
    after: &[u8],
    out: &mut O,
) -> Result<(), Failed>
    ensures text { Writes (O.state out.old).written (O.state out.new).written (joined (before.now ∷ decimal number ∷ after.now ∷ [])) result }
    ensures cause { HasCause (O.state out.old).faults (O.state out.new).faults result }
{
    let mut buffer = Buffer::new();
    let digits = buffer.format(number).as_bytes();
    write_pieces(out, &[before, digits, after])
}

/// Writes why a report is false.
fn write_reason<O: Sink>(reason: Reason, out: &mut O) -> Result<(), Failed>
    ensures text { Writes (O.state out.old).written (O.state out.new).written (verdict_text (Fails reason)) result }
    ensures cause { HasCause (O.state out.old).faults (O.state out.new).faults result }
{
    match reason {
        Reason::NoBucket => out.write(b"false: no such bucket\n"),
        Reason::NoKey { line } => write_number(b"false: line ", line, b" is no key\n", out),
        Reason::Ends { line } => write_number(b"false: line ", line, b" has other vertices\n", out),
        Reason::Once { vertex } => write_number(
            b"false: vertex ",
            vertex,
            b" is touched once\n",
            out,
        ),
        Reason::Missing { line } => write_number(b"false: line ", line, b" is missing\n", out),
        Reason::Count { count } => write_number(b"false: the bucket has ", count, b" keys\n", out),
        Reason::NoPair { line } => write_number(b"false: pair of line ", line, b"\n", out),
    }
}

/// Writes a verdict.
fn write_verdict<O: Sink>(verdict: Verdict, out: &mut O) -> Result<(), Failed>
    ensures text { Writes (O.state out.old).written (O.state out.new).written (verdict_text verdict) result }
    ensures cause { HasCause (O.state out.old).faults (O.state out.new).faults result }
{
    match verdict {
        Verdict::Holds => out.write(b"true\n"),
        Verdict::Fails(reason) => write_reason(reason, out),
    }
}

/// Prints a verdict, and flushes out. Fails exactly if out does, which has then taken a prefix of the text. Allocates no memory.
pub(crate) fn print_verdict<O: Sink>(verdict: Verdict, out: &mut O) -> Result<(), Failed>
    ensures text { Writes (O.state out.old).written (O.state out.new).written (verdict_text verdict) result }
    ensures cause { HasCause (O.state out.old).faults (O.state out.new).faults result }
    ensures sent { OnOk result ((O.state out.new).waits ≡ 0) }
{
    let written = write_verdict(verdict, out);
    send_text(written, out)
}
