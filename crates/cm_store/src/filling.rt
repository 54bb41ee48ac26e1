//! The places of records in memory.
ghost use Rattle.std.specs.Prelude.{◌≡◌, ◌<◌, None, length, IfOk};
ghost use Rattle.cm_bdz.specs.Functions.{bdz_answer};
ghost use Rattle.cm_bdz.specs.Numbering.{AnswersApart};
ghost use Rattle.cm_store.specs.Stores.{bad_record, places_of};
ghost use Rattle.cm_store_records.specs.RecordPass.{keyed};
ghost use Rattle.cm_store_records.specs.Records.{records_in};

use crate::numbering::number_at;
use cm_bdz::Bdz;
use cm_bits::{Cells, Plain};
use cm_store_records::Records;
use std::alloc::{AllocError, Global};

/// The offsets of records by the numbers of their keys, all of which differ.
pub(crate) fn places_of(alloc: Global, index: &Bdz, records: &Records) -> Result<Plain, AllocError>
    requires count { length records.now.lines ≡ index.now.keys }
    requires some { 0 < index.now.keys }
    requires apart { AnswersApart (keyed records.now.lines records.now.bytes) (bdz_answer index.now) index.now.keys }
    ensures bound { IfOk result (λ places. ⟦<Plain as Cells>⟧.bound_of places ≡ length records.now.bytes) }
    ensures places { IfOk result (λ places. ⟦<Plain as Cells>⟧.cells places ≡ places_of index.now (records_in (length records.now.lines) records.now.bytes)) }
    ensures sound { IfOk result (λ places. bad_record (record { index = index.now; places = ⟦<Plain as Cells>⟧.cells places; bytes = records.now.bytes }) ≡ None) }
{
    let bytes = records.bytes();
    let count = records.count();
    let mut places = Plain::zeroed(alloc, count, bytes.len() as u32)?;
    let mut at = 0;
    'records: for i in 0..count {
        let Some(numbered) = number_at(index, bytes, at) else {
            unreachable!();
        };
        let Some(number) = numbered.number else {
            unreachable!();
        };
        places.set(number, at as u32);
        at = numbered.next;
    }
    Ok(places)
}
