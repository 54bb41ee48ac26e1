//! One line of a source, read as what it says.
ghost use Rattle.std.specs.Prelude.{◌≡◌, ◌++◌, IfOk, IfSome, OnOk, drop};
ghost use Rattle.std.specs.Option.{ForSome};
ghost use Rattle.cm_io.specs.Causes.{HasCause};
ghost use Rattle.cm_witness_report.specs.Parts.{head_at, next_edge as next_edge_at, next_pair as next_pair_at};
ghost use Rattle.cm_witness_report.specs.Reports.{ComesNext, IsHead, IsPairAfter};
ghost use Rattle.cm_witness_report.specs.Windows.{HasEnded, TakesLine, waiting};

use crate::parts::{Head, first_line, next_edge, next_pair};
use crate::window::Window;
use cm_io::{Failed, Source};
use cm_witness_gather::{CoreEdge, Pair};

/// Reads the first line of a report, if there is one. Fails exactly if the source does.
pub(crate) fn read_head<S: Source>(
    window: &mut Window,
    source: &mut S,
) -> Result<Option<Head>, Failed>
    requires ended { HasEnded window.old.ended (S.told source.old) (S.place source.old) }
    ensures told { S.told source.new ≡ S.told source.old }
    ensures ended { OnOk result (HasEnded window.new.ended (S.told source.new) (S.place source.new)) }
    ensures valid { IfOk result (λ found. IfSome found IsHead) }
    ensures takes { IfOk result (λ found. ForSome (S.told source.old) (λ bytes.
        TakesLine head_at (waiting window.old.buf window.old.from window.old.until ++ drop (S.place source.old) bytes)
        (waiting window.new.buf window.new.from window.new.until ++ drop (S.place source.new) bytes) found)) }
    ensures cause { HasCause (S.faults source.old) (S.faults source.new) result }
{
    window.fill(source)?;
    let line = window.line();
    let found = first_line(line);
    let n = line.len();
    window.skip(n);
    Ok(found)
}

/// Reads the line of the next edge, after one of the line `last`, if there is one; `left` others come after it. Fails exactly if the
/// source does.
pub(crate) fn read_edge<S: Source>(
    window: &mut Window,
    source: &mut S,
    third: bool,
    last: u32,
    left: u32,
) -> Result<Option<CoreEdge>, Failed>
    requires ended { HasEnded window.old.ended (S.told source.old) (S.place source.old) }
    ensures told { S.told source.new ≡ S.told source.old }
    ensures ended { OnOk result (HasEnded window.new.ended (S.told source.new) (S.place source.new)) }
    ensures valid { IfOk result (λ found. IfSome found (ComesNext third last)) }
    ensures takes { IfOk result (λ found. ForSome (S.told source.old) (λ bytes.
        TakesLine (next_edge_at third last left) (waiting window.old.buf window.old.from window.old.until ++ drop (S.place source.old) bytes)
        (waiting window.new.buf window.new.from window.new.until ++ drop (S.place source.new) bytes) found)) }
    ensures cause { HasCause (S.faults source.old) (S.faults source.new) result }
{
    window.fill(source)?;
    let line = window.line();
    let found = next_edge(third, last, left, line);
    let n = line.len();
    window.skip(n);
    Ok(found)
}

/// Reads the line of the next pair, after one with the later line `last`, if there is one. Fails exactly if the source does.
pub(crate) fn read_pair<S: Source>(
    window: &mut Window,
    source: &mut S,
    last: u32,
) -> Result<Option<Pair>, Failed>
    requires ended { HasEnded window.old.ended (S.told source.old) (S.place source.old) }
    ensures told { S.told source.new ≡ S.told source.old }
    ensures ended { OnOk result (HasEnded window.new.ended (S.told source.new) (S.place source.new)) }
    ensures valid { IfOk result (λ found. IfSome found (IsPairAfter last)) }
    ensures takes { IfOk result (λ found. ForSome (S.told source.old) (λ bytes.
        TakesLine (next_pair_at last) (waiting window.old.buf window.old.from window.old.until ++ drop (S.place source.old) bytes)
        (waiting window.new.buf window.new.from window.new.until ++ drop (S.place source.new) bytes) found)) }
    ensures cause { HasCause (S.faults source.old) (S.faults source.new) result }
{
    window.fill(source)?;
    let line = window.line();
    let found = next_pair(last, line);
    let n = line.len();
    window.skip(n);
    Ok(found)
}
