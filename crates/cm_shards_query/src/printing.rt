//! The text of a verdict.
ghost use Rattle.std.specs.Prelude.{◌≡◌, OnOk};
ghost use Rattle.cm_io.specs.Causes.{HasCause};
ghost use Rattle.cm_io.specs.Writing.{Writes};
ghost use Rattle.cm_shards_query.specs.Texts.{verdict_text};

use crate::verdict::Verdict;
use cm_io::{Failed, Sink, write_pieces};
use cm_tool_stops::send_text;
use itoa::Buffer;

/// Writes a verdict.
fn write_verdict<O: Sink>(verdict: Verdict, out: &mut O) -> Result<(), Failed>
    ensures text { Writes (O.state out.old).written (O.state out.new).written (verdict_text verdict) result }
    ensures cause { HasCause (O.state out.old).faults (O.state out.new).faults result }
{
    let mut first = Buffer::new();
    let mut second = Buffer::new();
    match verdict {
        Verdict::Holds => out.write(b"true\n"),
        Verdict::Unknown { line } => {
            let line = first.format(line).as_bytes();
            write_pieces(out, &[b"false: line ", line, b": key is unknown\n"])
        }
        Verdict::Repeated { line, value } => {
            let line = first.format(line).as_bytes();
            let value = second.format(value).as_bytes();
            write_pieces(
                out,
                &[b"false: line ", line, b": value ", value, b" is repeated\n"],
            )
        }
        Verdict::Count { lines, keys } => {
            let lines = first.format(lines).as_bytes();
            let keys = second.format(keys).as_bytes();
            write_pieces(out, &[b"false: ", lines, b" keys, not ", keys, b"\n"])
        }
    }
}

/// Prints a verdict, and flushes out. Fails exactly if out does, which has then taken a prefix of the text. Allocates no memory.
pub(crate) fn print_verdict<O: Sink>(verdict: Verdict, out: &mut O) -> Result<(), Failed>
    ensures text { Writes (O.state out.old).written (O.state out.new).written (verdict_text verdict) result }
    ensures cause { HasCause (O.state out.old).faults (O.state out.new).faults result }
    ensures sent { OnOk result ((O.state out.new).waits ≡ 0) }
{
    let written = write_verdict(verdict, out);
    send_text(written, out)
}
