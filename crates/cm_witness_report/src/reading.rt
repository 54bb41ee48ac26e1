//! A report, read line by line.
ghost use Rattle.std.specs.Prelude.{◌≡◌, ◌++◌, ◌<◌, ◌≤◌, ◌+◌, Err, IfErr, IfOk, OnOk, length, drop};
ghost use Rattle.std.specs.Option.{ForSome};
ghost use Rattle.cm_spec.specs.declared.limits.TheConstants.{MAX_EDGES};
ghost use Rattle.cm_witness_gather.specs.Gathers.{has_third};
ghost use Rattle.cm_witness_report.specs.Lines.{lines_in};
ghost use Rattle.cm_witness_report.specs.Reading.{HasReportCause, Tells, edges_from, pairs_from, reading_of, rest_from, said_of};
ghost use Rattle.cm_witness_report.specs.Reports.{AreEdges, ArePairs, IsHead, IsReport};
ghost use Rattle.cm_witness_report.specs.Windows.{HasEnded, waiting};
ghost use Rattle.cm_witness_report.specs.declared.report.ReportFault.{ReportFault};

use crate::parts::Head;
use crate::report::{Report, ReportFault};
use crate::steps::{read_edge, read_head, read_pair};
use crate::window::Window;
use cm_io::{Failed, Source};
use cm_spec::MAX_EDGES;
use cm_witness_gather::{Algorithm, Certificate, CoreEdge, Pair};
use std::alloc::Global;

/// Whether the edges of an algorithm have a third end.
fn has_third_end(algorithm: Algorithm) -> bool
    ensures { result ≡ has_third algorithm }
{
    match algorithm {
        Algorithm::Chm => false,
        Algorithm::Bdz | Algorithm::BdzPh | Algorithm::Brz => true,
    }
}

/// Reads the lines of `count` edges, which begin at line 2. Memory is allocated as they come. Fails with `Read` exactly if the source does.
fn read_edges<S: Source>(
    alloc: Global,
    window: &mut Window,
    source: &mut S,
    third: bool,
    count: u32,
) -> Result<Vec<CoreEdge>, ReportFault>
    requires few { count ≤ MAX_EDGES }
    requires ended { HasEnded window.old.ended (S.told source.old) (S.place source.old) }
    ensures told { S.told source.new ≡ S.told source.old }
    ensures ended { OnOk result (HasEnded window.new.ended (S.told source.new) (S.place source.new)) }
    ensures edges { IfOk result (λ v. AreEdges third 0 v.items) }
    ensures many { IfOk result (λ v. length v.items ≡ count) }
    ensures exact { ForSome (S.told source.old) (λ bytes. Tells
        (λ v. (v.items, lines_in (waiting window.new.buf window.new.from window.new.until ++ drop (S.place source.new) bytes))) result
        (edges_from third 0 2 count (lines_in (waiting window.old.buf window.old.from window.old.until ++ drop (S.place source.old) bytes)))) }
    ensures cause { HasReportCause (S.faults source.old) (S.faults source.new) result }
    ensures memory { result ≡ Err ReportFault.Memory → ForSome (S.told source.old) (λ bytes.
        IfErr (edges_from third 0 2 count (lines_in (waiting window.old.buf window.old.from window.old.until ++ drop (S.place source.old) bytes))) (λ line. 2 < line)) }
{
    let mut edges = Vec::new(alloc);
    let mut last = 0;
    for done in 0..count {
        match read_edge(window, source, third, last, count - 1 - done) {
            Err(Failed) => return Err(ReportFault::Read),
            Ok(None) => return Err(ReportFault::Bad { line: 2 + done }),
            Ok(Some(edge)) => {
                last = edge.line;
                match edges.push(edge) {
                    Ok(()) => {}
                    Err(_) => return Err(ReportFault::Memory),
                }
            }
        }
    }
    Ok(edges)
}

/// Reads the lines of pairs up to the end of the source, of which the first is line `start`. Memory is allocated as they come. Fails with
/// `Read` exactly if the source does.
fn read_pairs<S: Source>(
    alloc: Global,
    window: &mut Window,
    source: &mut S,
    start: u32,
) -> Result<Vec<Pair>, ReportFault>
    requires few { start ≤ 2 + MAX_EDGES }
    requires ended { HasEnded window.old.ended (S.told source.old) (S.place source.old) }
    ensures told { S.told source.new ≡ S.told source.old }
    ensures pairs { IfOk result (λ v. ArePairs 0 v.items) }
    ensures few { IfOk result (λ v. length v.items ≤ MAX_EDGES) }
    ensures exact { ForSome (S.told source.old) (λ bytes. Tells (λ v. v.items) result
        (pairs_from 0 start MAX_EDGES (lines_in (waiting window.old.buf window.old.from window.old.until ++ drop (S.place source.old) bytes)))) }
    ensures cause { HasReportCause (S.faults source.old) (S.faults source.new) result }
    ensures memory { result ≡ Err ReportFault.Memory → ForSome (S.told source.old) (λ bytes.
        IfErr (pairs_from 0 start MAX_EDGES (lines_in (waiting window.old.buf window.old.from window.old.until ++ drop (S.place source.old) bytes))) (λ line. start < line)) }
{
    let mut pairs = Vec::new(alloc);
    let mut last = 0;
    for done in 0..MAX_EDGES {
        match window.has_ended(source) {
            Err(Failed) => return Err(ReportFault::Read),
            Ok(true) => return Ok(pairs),
            Ok(false) => {}
        }
        match read_pair(window, source, last) {
            Err(Failed) => return Err(ReportFault::Read),
            Ok(None) => return Err(ReportFault::Bad { line: start + done }),
            Ok(Some(pair)) => {
                last = pair.again;
                match pairs.push(pair) {
                    Ok(()) => {}
                    Err(_) => return Err(ReportFault::Memory),
                }
            }
        }
    }
    match window.has_ended(source) {
        Err(Failed) => Err(ReportFault::Read),
        Ok(true) => Ok(pairs),
        Ok(false) => Err(ReportFault::Bad {
            line: start + MAX_EDGES,
        }),
    }
}

/// Reads what comes after this first line of a report. Fails with `Read` exactly if the source does.
fn read_rest<S: Source>(
    alloc: Global,
    window: &mut Window,
    source: &mut S,
    head: Head,
) -> Result<Report, ReportFault>
    requires head { IsHead head }
    requires ended { HasEnded window.old.ended (S.told source.old) (S.place source.old) }
    ensures told { S.told source.new ≡ S.told source.old }
    ensures valid { IfOk result (λ report. IsReport (said_of report)) }
    ensures exact { ForSome (S.told source.old) (λ bytes. Tells said_of result
        (rest_from head (lines_in (waiting window.old.buf window.old.from window.old.until ++ drop (S.place source.old) bytes)))) }
    ensures cause { HasReportCause (S.faults source.old) (S.faults source.new) result }
    ensures memory { result ≡ Err ReportFault.Memory → ForSome (S.told source.old) (λ bytes.
        IfErr (rest_from head (lines_in (waiting window.old.buf window.old.from window.old.until ++ drop (S.place source.old) bytes))) (λ line. 2 < line)) }
{
    match head {
        Head::Core {
            algorithm,
            place,
            seed,
            count,
        } => {
            let third = has_third_end(algorithm);
            let edges = match read_edges(alloc, window, source, third, count) {
                Ok(edges) => edges,
                Err(fault) => return Err(fault),
            };
            match read_pairs(alloc, window, source, 2 + count) {
                Ok(equal) => Ok(Report::Core(Certificate {
                    algorithm,
                    seed,
                    place,
                    edges,
                    equal,
                })),
                Err(fault) => Err(fault),
            }
        }
        Head::Overfull {
            seed,
            bucket,
            count,
        } => match read_pairs(alloc, window, source, 2) {
            Ok(equal) => Ok(Report::Overfull {
                seed,
                bucket,
                count,
                equal,
            }),
            Err(fault) => Err(fault),
        },
    }
}

/// Reads the report that the bytes of a source are the text of. The source has to be at its start; it is read once. Returns `Bad` exactly
/// if the bytes are no report, with the first line at which they are none, `Read` exactly if the source fails, and `Memory` only if memory
/// runs out after the first two lines, neither of which is bad.
pub fn read_report<S: Source>(alloc: Global, source: &mut S) -> Result<Report, ReportFault>
    requires start { ForSome (S.told source.old) (λ _. S.place source.old ≡ 0) }
    ensures told { S.told source.new ≡ S.told source.old }
    ensures valid { IfOk result (λ report. IsReport (said_of report)) }
    ensures exact { ForSome (S.told source.old) (λ bytes. Tells said_of result (reading_of bytes)) }
    ensures cause { HasReportCause (S.faults source.old) (S.faults source.new) result }
    ensures memory { result ≡ Err ReportFault.Memory → ForSome (S.told source.old) (λ bytes. IfErr (reading_of bytes) (λ line. 2 < line)) }
{
    let mut window = Window::new();
    match read_head(&mut window, source) {
        Err(Failed) => Err(ReportFault::Read),
        Ok(None) => Err(ReportFault::Bad { line: 1 }),
        Ok(Some(head)) => read_rest(alloc, &mut window, source, head),
    }
}
