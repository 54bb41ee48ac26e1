//! Records in memory.
ghost use Rattle.std.specs.Prelude.{◌≡◌, ◌+◌, ◌++◌, ◌<◌, ◌≤◌, ◌∷◌, [], length, vec_capacity, vec_len, OnOk};
ghost use Rattle.cm_io.specs.declared.key_pass.TheConstants.{MAX_KEY_LEN};
ghost use Rattle.cm_spec.specs.declared.limits.TheConstants.{MAX_KEYS};
ghost use Rattle.cm_store_records.specs.RecordPass.{HoldsRecords, keyed, line_before};
ghost use Rattle.cm_store_records.specs.Reads.{RecordBytes};
ghost use Rattle.cm_store_records.specs.Records.{Record, record_bytes, record_size};
ghost use Rattle.cm_store_records.specs.declared.limits.TheConstants.{MAX_RECORD_BYTES};

use crate::keys::RecordKeys;
use crate::limits::HEAD_LEN;
use crate::parts::Parts;
use std::alloc::{AllocError, Global};
use std::marker::Model;

/// Records in memory: their bytes, one record after another, and the line of each.
#[derive(Drop)]
pub struct Records {
    bytes: Vec<u8>,
    lines: Vec<u32>,
}

impl Model for Records {
    ghost use Rattle.cm_store_records.specs.RecordPass.{HoldsRecords};
    ghost use Rattle.cm_store_records.specs.Reads.{RecordBytes};

    ghost Value = { RecordBytes };

    ghost view = { λ r. record { bytes = r.bytes.items; lines = r.lines.items } };

    ghost invariant = { λ r. HoldsRecords r.lines.items r.bytes.items };
}

/// Appends bytes for which there is room.
fn append(bytes: &mut Vec<u8>, part: &[u8])
    requires room { vec_len bytes.old + length part.now ≤ vec_capacity bytes.old }
    ensures bytes { bytes.new.items ≡ bytes.old.items ++ part.now }
    ensures len { vec_len bytes.new ≡ vec_len bytes.old + length part.now }
    ensures room { vec_capacity bytes.old ≤ vec_capacity bytes.new }
{
    if bytes.extend_from_slice(part).is_err() {
        unreachable!();
    }
}

impl Records {
    /// No records.
    pub(crate) fn new(alloc: Global) -> Records
        ensures state { result ≡ record { bytes = []; lines = [] } }
    {
        Records {
            bytes: Vec::new(alloc),
            lines: Vec::new(alloc),
        }
    }

    /// How many records there are: `MAX_KEYS` at most.
    pub fn count(&self) -> u32
        ensures count { result ≡ length self.now.lines }
        ensures few { result ≤ MAX_KEYS }
    {
        self.lines.len() as u32
    }

    /// How many bytes they take: `MAX_RECORD_BYTES` at most.
    pub fn size(&self) -> usize
        ensures size { result ≡ length self.now.bytes }
        ensures few { result ≤ MAX_RECORD_BYTES }
    {
        self.bytes.len()
    }

    /// Adds the record of a later line. Fails if memory runs out.
    pub(crate) fn push(&mut self, line: u32, parts: Parts<'_>) -> Result<(), AllocError>
        requires few { length self.old.lines < MAX_KEYS }
        requires rises { line_before self.old.lines (length self.old.lines) < line }
        requires short { length parts.key.now + length parts.value.now ≤ MAX_KEY_LEN }
        requires fits { length self.old.bytes + record_size (record { key = parts.key.now; value = parts.value.now }) ≤ MAX_RECORD_BYTES }
        ensures bytes { OnOk result (self.new.bytes ≡ self.old.bytes ++ record_bytes (record { key = parts.entry.key.now; value = parts.entry.value.now })) }
        ensures lines { OnOk result (self.new.lines ≡ self.old.lines ++ line ∷ []) }
    {
        let size = HEAD_LEN + parts.key.len() + parts.value.len();
        self.bytes.reserve(size)?;
        self.lines.push(line)?;
        append(&mut self.bytes, &(parts.key.len() as u16).to_le_bytes());
        append(&mut self.bytes, &(parts.value.len() as u16).to_le_bytes());
        append(&mut self.bytes, parts.key);
        append(&mut self.bytes, parts.value);
        Ok(())
    }

    /// A pass over the keys of the records with their lines, at its start.
    pub fn keys(&self) -> RecordKeys<'_>
        ensures pass { result ≡ record { keys = keyed self.now.lines self.now.bytes; given = 0 } }
    {
        RecordKeys::new(&self.bytes, &self.lines)
    }

    /// The bytes of the records, one after another.
    pub fn bytes(&self) -> &[u8]
        ensures bytes { result.now ≡ self.now.bytes }
        ensures holds { HoldsRecords self.now.lines self.now.bytes }
    {
        &self.bytes
    }

    /// The bytes of the records, one after another, in their memory. That of the lines is freed.
    pub fn into_bytes(self) -> Vec<u8>
        ensures bytes { result.items ≡ self.bytes }
        ensures holds { HoldsRecords self.lines self.bytes }
    {
        self.bytes
    }
}
