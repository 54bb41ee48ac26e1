//! The pass over the keys of records.
ghost use Rattle.std.specs.Prelude.{◌≡◌};
ghost use Rattle.cm_store_records.specs.RecordPass.{AreRecords, RecordPass, keyed};

use crate::limits::HEAD_LEN;
use crate::parts::record_at;
use cm_io::{KeyBuf, KeyFault, KeyPass};
use std::marker::Model;

/// A pass over the keys of records in memory, with their lines: each key is buffered, and no call fails.
#[derive(Drop)]
pub struct RecordKeys<'a> {
    bytes: &'a [u8],
    lines: &'a [u32],
    given: usize,
    // Where the next record begins.
    at: usize,
}

impl<'a> Model for RecordKeys<'a> {
    ghost use Rattle.cm_store_records.specs.RecordPass.{IsRecordPass, RecordPass, keyed};

    ghost Value = { RecordPass };

    ghost view = { λ r. record { keys = keyed r.lines.now r.bytes.now; given = r.given } };

    ghost invariant = { λ r. IsRecordPass r.lines.now r.bytes.now r.given r.at };
}

impl<'a> RecordKeys<'a> {
    /// The pass over the keys of the records that bytes begin with, one for each of these lines, at its start.
    pub(crate) fn new(bytes: &'a [u8], lines: &'a [u32]) -> RecordKeys<'a>
        requires records { AreRecords lines.now bytes.now }
        ensures pass { result ≡ record { keys = keyed lines.now bytes.now; given = 0 } }
    {
        RecordKeys {
            bytes,
            lines,
            given: 0,
            at: 0,
        }
    }
}

impl KeyPass for RecordKeys<'_> {
    ghost use Rattle.std.specs.Prelude.{◌≡◌, ◌<◌, ◌+◌, [], length, map, take, true, None, Some, slice_index_or};
    ghost use Rattle.cm_store_records.specs.RecordPass.{line_before};

    ghost told = { λ r. Some (record { keys = r.keys; fault = None }) };

    ghost place = { λ r. r.given };

    ghost last = { λ r. line_before (map (λ key. key.0) r.keys) r.given };

    ghost usable = { λ _. true };

    ghost faults = { λ _. 0 };

    ghost failure = { λ _. None };

    ghost gave = { λ r keys. keys ≡ take r.given r.keys };

    ghost at_end = { λ r. r.given ≡ length r.keys };

    ghost stands = { λ r key. (r.given < length r.keys) × (key ≡ (slice_index_or r.keys r.given (0, [])).1) };

    ghost next_line = { λ r. line_before (map (λ key. key.0) r.keys) (r.given + 1) };

    fn usable(&self) -> bool {
        true
    }

    #[tactic(auto, using(crate::specs::PassLaws::has_record, crate::specs::PassLaws::keyed_long, crate::specs::PassLaws::keyed_lines))]
    fn next(&mut self, key: &mut KeyBuf) -> Result<bool, KeyFault> {
        if self.given == self.lines.len() {
            return Ok(false);
        }
        let Some(record) = record_at(self.bytes, self.at) else {
            unreachable!();
        };
        key.clear();
        if key.try_extend_from_slice(record.key).is_err() {
            unreachable!();
        }
        self.given += 1;
        self.at += HEAD_LEN + record.key.len() + record.value.len();
        Ok(true)
    }

    #[tactic(auto, using(crate::specs::PassLaws::has_record, crate::specs::PassLaws::keyed_long, crate::specs::PassLaws::keyed_lines))]
    fn peek(&self) -> Option<(u32, &[u8])> {
        if self.given == self.lines.len() {
            return None;
        }
        let Some(record) = record_at(self.bytes, self.at) else {
            unreachable!();
        };
        Some((self.lines[self.given], record.key))
    }

    #[tactic(auto, using(crate::specs::PassLaws::has_record, crate::specs::PassLaws::keyed_long, crate::specs::PassLaws::keyed_lines))]
    fn pass(&mut self, _len: usize) {
        let Some(record) = record_at(self.bytes, self.at) else {
            unreachable!();
        };
        self.given += 1;
        self.at += HEAD_LEN + record.key.len() + record.value.len();
    }

    fn hash_four(&mut self, _seed: u32) -> Option<[[u32; 3]; 4]> {
        None
    }

    fn rewind(&mut self) -> Result<(), KeyFault> {
        self.given = 0;
        self.at = 0;
        Ok(())
    }

    #[tactic(auto, using(crate::specs::PassLaws::has_record, crate::specs::PassLaws::keyed_long, crate::specs::PassLaws::keyed_lines))]
    fn line(&self) -> u32 {
        self.lines[self.given - 1]
    }
}
