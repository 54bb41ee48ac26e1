//! The lines of a pass, read as records.
ghost use Rattle.std.specs.Prelude.{◌≡◌, IfErr, IfOk, IsTrue};
ghost use Rattle.std.specs.Option.{ForSome};
ghost use Rattle.cm_store_records.specs.Reads.{FailsReading, HasReadCause, HasReadFailure, HoldsLines};

use crate::limits::{HEAD_LEN, MAX_RECORD_BYTES};
use crate::parts::split;
use crate::records::Records;
use cm_io::{KeyBuf, KeyFault, KeyPass};
use std::alloc::{AllocError, Global};

/// Why lines were not read as records.
#[derive(Clone, Copy, Debug, PartialEq, Eq)]
pub enum ReadFault {
    /// Out of memory.
    Memory,
    /// The pass over the lines failed.
    Key(KeyFault),
    /// The records up to this line, the first such, take more than `MAX_RECORD_BYTES` bytes.
    TooLarge { line: u32 },
}

/// Reads the lines of a pass at its start as records. Memory is allocated as lines are read. Returns `TooLarge` at the first line up to
/// which the records take more than `MAX_RECORD_BYTES` bytes, `Key` if the pass fails before, and `Memory` only if memory runs out.
pub fn read_records<P: KeyPass>(alloc: Global, lines: &mut P) -> Result<Records, ReadFault>
    requires usable { IsTrue (P.usable lines.old) }
    requires start { P.place lines.old ≡ 0 }
    ensures told { P.told lines.new ≡ P.told lines.old }
    ensures cause { HasReadCause (P.faults lines.old) (P.faults lines.new) result }
    ensures failed { IfErr result (HasReadFailure (P.failure lines.new) (P.last lines.new)) }
    ensures holds { IfOk result (λ records. ForSome (P.told lines.old) (λ told. HoldsLines told records)) }
    ensures fails { IfErr result (λ fault. ForSome (P.told lines.old) (λ told. FailsReading told fault)) }
{
    let mut records = Records::new(alloc);
    let mut line = KeyBuf::new();
    'lines: loop {
        match lines.next(&mut line) {
            Ok(true) => {}
            Ok(false) => return Ok(records),
            Err(fault) => return Err(ReadFault::Key(fault)),
        }
        let parts = split(line.as_slice());
        let size = HEAD_LEN + parts.key.len() + parts.value.len();
        if MAX_RECORD_BYTES - records.size() < size {
            return Err(ReadFault::TooLarge { line: lines.line() });
        }
        match records.push(lines.line(), parts) {
            Ok(()) => {}
            Err(AllocError) => return Err(ReadFault::Memory),
        }
    }
}
