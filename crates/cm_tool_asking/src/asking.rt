//! The files of a query, and its steps.
ghost use Rattle.std.specs.Prelude.{◌≡◌, ◌⊎◌, ℕ, List, IfErr, false};
ghost use Rattle.std.specs.Option.{ForSome};
ghost use Rattle.cm_io.specs.Noting.{Noted};
ghost use Rattle.cm_io.specs.States.{IsSent};
ghost use Rattle.cm_keys.specs.declared.keys.TheConstants.{LINE_END};
ghost use Rattle.cm_tool_asking.specs.Asking.{asking};
ghost use Rattle.cm_tool_asking.specs.Leaves.{EndsKeys, EndsQuery, HasStopCause, KeepsOut, stop_from_load, stop_from_query, wrote};

use crate::loading::load_file;
use crate::{Asked, Unloaded};
use cm_io::{Disk, DiskFault, KeyFault, Notes, Sink};
use cm_keys::Keys;
use cm_query_batch::QueryFault;
use cm_tool_stops::{Names, QueryStop};
use std::alloc::Global;

/// The files of a query, which lines of the keys file are keys, and which byte ends them and the lines on out.
#[derive(Clone, Copy)]
pub struct AskFiles<'a> {
    /// The program, and the paths of the keys file and of the file that is asked.
    pub names: Names<'a>,
    /// How many lines of the keys file are read, or all.
    pub first: Option<u32>,
    /// The byte that ends a line.
    pub end: u8,
}

/// Why a failed load stops a query.
fn stop_of_load<F>(fault: Unloaded<F>) -> QueryStop<F>
    ensures stop { result ≡ stop_from_load fault }
{
    match fault {
        Unloaded::Memory => QueryStop::Memory,
        Unloaded::Read => QueryStop::NoFunction,
        Unloaded::Bad(fault) => QueryStop::BadFile { fault },
    }
}

/// Why a failed query of a pass stops a query.
fn stop_of_query<F>(fault: QueryFault) -> QueryStop<F>
    ensures stop { result ≡ stop_from_query fault }
{
    match fault {
        QueryFault::Memory => QueryStop::Memory,
        QueryFault::Key(KeyFault::Read) => QueryStop::Read,
        QueryFault::Key(KeyFault::TooLong { line }) => QueryStop::TooLong { line },
        QueryFault::Key(KeyFault::TooMany) => QueryStop::TooMany,
        QueryFault::Write => QueryStop::Write,
    }
}

/// Asks what was loaded for the keys of the keys file.
fn ask_keys<A: Asked, D: Disk, O: Sink, E: Sink>(
    alloc: Global,
    loaded: &A,
    files: &AskFiles<'_>,
    disk: &mut D,
    out: &mut O,
    err: &mut E,
    notes: &mut Notes,
) -> Result<bool, QueryStop<A::Fault>>
    requires end { (files.now.end ≡ LINE_END) ⊎ (files.now.end ≡ 0) }
    ensures files { (D.state disk.new).files ≡ (D.state disk.old).files }
    ensures spilled { (D.state disk.new).spilled ≡ (D.state disk.old).spilled }
    ensures write_faults { (D.state disk.new).write_faults ≡ (D.state disk.old).write_faults }
    ensures cause { HasStopCause (D.state disk.old).read_faults (D.state disk.new).read_faults (O.state out.old).faults (O.state out.new).faults result }
    ensures out { IfErr result (KeepsOut (O.state out.old).written (O.state out.new).written) }
    ensures sent { (O.state out.old).waits ≡ 0 → IsSent (O.state out.old) (O.state out.new) }
    ensures notes_sent { (notes.old ≡ false → (E.state err.old).waits ≡ 0) → notes.new ≡ false → (E.state err.new).waits ≡ 0 }
    ensures says { (text : List ℕ) × Noted notes.old notes.new (E.state err.old) (E.state err.new) text }
    ensures told { ForSome (D.state disk.old).files (λ known. (text : List ℕ) × Noted notes.old notes.new (E.state err.old) (E.state err.new) text
        × EndsKeys (asking files.now A.meaning A.Fault.message) loaded.now known (wrote (O.state out.old).written (O.state out.new).written text) result) }
{
    let reader = match disk.open(files.names.keys) {
        Ok(reader) => reader,
        Err(DiskFault::Memory) => return Err(QueryStop::Memory),
        Err(DiskFault::Failed) => return Err(QueryStop::Read),
    };
    let mut pass = Keys::new(reader, files.first, files.end);
    let asked = loaded.answer(alloc, &mut pass, files.end, out, err, notes);
    disk.shut(pass.into_source());
    match asked {
        Ok(complete) => Ok(complete),
        Err(fault) => Err(stop_of_query(fault)),
    }
}

/// Loads the file that is asked, and asks it for the keys of the keys file.
pub(crate) fn ask_file<A: Asked, D: Disk, O: Sink, E: Sink>(
    alloc: Global,
    files: &AskFiles<'_>,
    disk: &mut D,
    out: &mut O,
    err: &mut E,
    notes: &mut Notes,
) -> Result<bool, QueryStop<A::Fault>>
    requires end { (files.now.end ≡ LINE_END) ⊎ (files.now.end ≡ 0) }
    ensures files { (D.state disk.new).files ≡ (D.state disk.old).files }
    ensures spilled { (D.state disk.new).spilled ≡ (D.state disk.old).spilled }
    ensures write_faults { (D.state disk.new).write_faults ≡ (D.state disk.old).write_faults }
    ensures cause { HasStopCause (D.state disk.old).read_faults (D.state disk.new).read_faults (O.state out.old).faults (O.state out.new).faults result }
    ensures out { IfErr result (KeepsOut (O.state out.old).written (O.state out.new).written) }
    ensures sent { (O.state out.old).waits ≡ 0 → IsSent (O.state out.old) (O.state out.new) }
    ensures notes_sent { (notes.old ≡ false → (E.state err.old).waits ≡ 0) → notes.new ≡ false → (E.state err.new).waits ≡ 0 }
    ensures says { (text : List ℕ) × Noted notes.old notes.new (E.state err.old) (E.state err.new) text }
    ensures told { ForSome (D.state disk.old).files (λ known. (text : List ℕ) × Noted notes.old notes.new (E.state err.old) (E.state err.new) text
        × EndsQuery (asking files.now A.meaning A.Fault.message) known (wrote (O.state out.old).written (O.state out.new).written text) result) }
{
    match load_file::<A, D>(alloc, files.names.function, disk) {
        Ok(loaded) => ask_keys(alloc, &loaded, files, disk, out, err, notes),
        Err(fault) => Err(stop_of_load(fault)),
    }
}
