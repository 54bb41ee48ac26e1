//! The end of a program that prints a text.
ghost use Rattle.std.specs.Prelude.{◌≡◌, ◌<◌, ◌^◌, ◌↔◌, ◌⊎◌, ℕ, List, OnOk, Option, take};
ghost use Rattle.cm_io.specs.Causes.{HasCause};
ghost use Rattle.cm_io.specs.States.{IsSent, SinkState};
ghost use Rattle.cm_io.specs.Writing.{Writes, then_bytes};
ghost use Rattle.cm_tool_stops.specs.Ends.{IsPrintMessage, Says};

use crate::reporting::say;
use cm_io::{Failed, Sink};

/// Flushes out after a text was printed.
pub fn send_text<O: Sink>(printed: Result<(), Failed>, out: &mut O) -> Result<(), Failed>
    ensures text { (text : List ℕ) (old : Option (List ℕ)) → Writes old (O.state out.old).written text printed → Writes old (O.state out.new).written text result }
    ensures cause { (before : ℕ) → HasCause before (O.state out.old).faults printed → HasCause before (O.state out.new).faults result }
    ensures sent { OnOk result ((O.state out.new).waits ≡ 0) }
{
    match printed {
        Ok(()) => out.write(&[]),
        Err(Failed) => Err(Failed),
    }
}

/// Flushes out after a program has printed a text, and returns the status.
pub fn end_of_text<O: Sink, E: Sink>(
    program: &str,
    printed: Result<(), Failed>,
    out: &mut O,
    err: &mut E,
) -> u8
    ensures status { (result ≡ 0) ⊎ (result ≡ 5) }
    ensures front { (text : List ℕ) (old : Option (List ℕ)) → Writes old (O.state out.old).written text printed → (n : ℕ) × ((O.state out.new).written ≡ then_bytes old (take n text)) }
    ensures whole { result ≡ 0 → (text : List ℕ) (old : Option (List ℕ)) → Writes old (O.state out.old).written text printed → (O.state out.new).written ≡ then_bytes old text }
    ensures cause { (before : ℕ) → before < 2 ^ 63 → HasCause before (O.state out.old).faults printed → (result ≡ 5) ↔ (before < (O.state out.new).faults) }
    ensures sent { (before : SinkState) → HasCause before.faults (O.state out.old).faults printed → IsSent before (O.state out.new) }
    ensures err_sent { (E.state err.old).waits ≡ 0 → IsSent (E.state err.old) (E.state err.new) }
    ensures done { result ≡ 0 → ((E.state err.new).written ≡ (E.state err.old).written) × ((E.state err.new).faults ≡ (E.state err.old).faults) }
    ensures err { (text : List ℕ) × IsPrintMessage program.now result text × Says (E.state err.old) (E.state err.new) text }
{
    match send_text(printed, out) {
        Ok(()) => 0,
        Err(Failed) => {
            say(
                err,
                &[program.as_bytes(), b": cannot write standard output\n"],
            );
            5
        }
    }
}
