//! The calls that are to fail, each listed by its kind and its number among the calls of that kind, from 0.
ghost use Rattle.std.specs.Prelude.{◌≡◌, ◌↔◌, IsTrue, IfOk, Contains};
ghost use Rattle.cm_io.specs.Counts.{counted};
ghost use Rattle.cm_outer.specs.DiskCalls.{numbers};
ghost use Rattle.cm_io_memory.specs.MemSources.{new_source};
ghost use Rattle.cm_io_memory.specs.MemSinks.{new_sink};
ghost use Rattle.cm_io_memory.specs.MemSpills.{new_spill};

use crate::DiskCall;
use cm_io_memory::{MemSink, MemSource, MemSpill};
use std::alloc::{AllocError, Global};

/// Counts one more call of a kind, and returns whether it is listed.
pub(crate) fn next_is_listed(listed: &[(DiskCall, u64)], kind: DiskCall, calls: &mut u64) -> bool
    ensures listed { IsTrue result ↔ Contains listed.now (kind, calls.old) }
    ensures count { calls.new ≡ counted calls.old }
{
    let number = *calls;
    *calls = calls.saturating_add(1);
    listed.contains(&(kind, number))
}

/// The numbers that are listed for a kind.
fn numbers_of(
    alloc: Global,
    listed: &[(DiskCall, u64)],
    kind: DiskCall,
) -> Result<Vec<u64>, AllocError>
    ensures numbers { IfOk result (λ found. found.items ≡ numbers kind listed.now) }
{
    let mut found = Vec::new(alloc);
    for call in listed {
        if call.0 == kind {
            found.push(call.1)?;
        }
    }
    Ok(found)
}

/// A reader over a copy of these bytes, which fails in its listed calls.
pub(crate) fn source_of(
    alloc: Global,
    bytes: &[u8],
    listed: &[(DiskCall, u64)],
) -> Result<MemSource, AllocError>
    ensures source { IfOk result (λ source. source ≡ new_source bytes.now
        (numbers DiskCall.Read listed.now) (numbers DiskCall.Rewind listed.now)) }
{
    let bytes = bytes.to_vec(alloc)?;
    let read_fails = numbers_of(alloc, listed, DiskCall::Read)?;
    let rewind_fails = numbers_of(alloc, listed, DiskCall::Rewind)?;
    Ok(MemSource::new(bytes, read_fails, rewind_fails))
}

/// A writer with room for `room` bytes, which fails in its listed calls.
pub(crate) fn sink_of(
    alloc: Global,
    room: usize,
    listed: &[(DiskCall, u64)],
) -> Result<MemSink, AllocError>
    ensures sink { IfOk result (λ sink. sink ≡ new_sink room (numbers DiskCall.Write listed.now)) }
{
    let write_fails = numbers_of(alloc, listed, DiskCall::Write)?;
    MemSink::new(alloc, room, write_fails)
}

/// A spill with room for `room` bytes, which fails in its listed calls.
pub(crate) fn spill_of(
    alloc: Global,
    room: usize,
    listed: &[(DiskCall, u64)],
) -> Result<MemSpill, AllocError>
    ensures spill { IfOk result (λ spill. spill ≡ new_spill room
        (numbers DiskCall.Append listed.now) (numbers DiskCall.ReadAt listed.now)) }
{
    let append_fails = numbers_of(alloc, listed, DiskCall::Append)?;
    let read_fails = numbers_of(alloc, listed, DiskCall::ReadAt)?;
    MemSpill::new(alloc, room, append_fails, read_fails)
}
