//! The items of a store file, each read at its offset and checked, with the faults of the file.
ghost use Rattle.std.specs.Prelude.{◌≡◌, ◌≢◌, ◌+◌, ◌<◌, ◌≤◌, ◌^◌, Err, IfOk, OnOk, length};
ghost use Rattle.std.specs.Option.{ForSome};
ghost use Rattle.cm_dump_items.specs.Reading.{IsAt, end_at, item_at};
ghost use Rattle.cm_store_file.specs.Headers.{header_at};
ghost use Rattle.cm_store_file.specs.Loads.{HasStoreCause, IsRead};
ghost use Rattle.cm_store_file.specs.Steps.{lifted};
ghost use Rattle.cm_store_file.specs.declared.fault.StoreLoad.{StoreLoad};
ghost use Rattle.cm_store_file.specs.declared.header.TheConstants.{HEADER_LEN};
ghost use Rattle.cm_store_records.specs.declared.limits.TheConstants.{MAX_RECORD_BYTES};

use crate::fault::{StoreLoad, named};
use crate::header::{Header, read_header};
use cm_dump_items::{end, long_item};
use cm_io::Source;
use std::alloc::Global;

/// The header of the file, whose bytes a source at its start has.
pub(crate) fn header<S: Source>(source: &mut S) -> Result<Header, StoreLoad>
    requires at { IsAt (S.told source.old) (S.place source.old) 0 }
    ensures told { S.told source.new ≡ S.told source.old }
    ensures at { OnOk result (IsAt (S.told source.new) (S.place source.new) HEADER_LEN) }
    ensures records { IfOk result (λ h. (1 ≤ h.records) × (h.records ≤ MAX_RECORD_BYTES)) }
    ensures exact { ForSome (S.told source.old) (λ bytes. IsRead (λ h. h) result (lifted (header_at bytes))) }
    ensures cause { HasStoreCause (S.faults source.old) (S.faults source.new) result }
    ensures memory { result ≢ Err StoreLoad.Memory }
{
    match read_header(source) {
        Ok(header) => Ok(header),
        Err(fault) => Err(named(fault)),
    }
}

/// The item of `n` bytes at this offset, in bytes from 0, where the source stands. Memory is allocated as bytes are read, whatever `n` is.
pub(crate) fn item<S: Source>(
    alloc: Global,
    source: &mut S,
    at: u64,
    n: u64,
) -> Result<Vec<u8>, StoreLoad>
    requires room { at + n < 2 ^ 62 }
    requires at { IsAt (S.told source.old) (S.place source.old) at }
    ensures told { S.told source.new ≡ S.told source.old }
    ensures at { OnOk result (IsAt (S.told source.new) (S.place source.new) (at + n)) }
    ensures size { IfOk result (λ v. length v.items ≡ n) }
    ensures exact { ForSome (S.told source.old) (λ bytes. IsRead (λ v. v.items) result (lifted (item_at bytes at n))) }
    ensures cause { HasStoreCause (S.faults source.old) (S.faults source.new) result }
{
    match long_item(alloc, source, at, n) {
        Ok(item) => Ok(item),
        Err(fault) => Err(named(fault)),
    }
}

/// Checks that no byte is at this offset, in bytes from 0, where the source stands.
pub(crate) fn last<S: Source>(source: &mut S, at: u64) -> Result<(), StoreLoad>
    requires at { IsAt (S.told source.old) (S.place source.old) at }
    ensures told { S.told source.new ≡ S.told source.old }
    ensures exact { ForSome (S.told source.old) (λ bytes. IsRead (λ x. x) result (lifted (end_at bytes at))) }
    ensures cause { HasStoreCause (S.faults source.old) (S.faults source.new) result }
    ensures memory { result ≢ Err StoreLoad.Memory }
{
    match end(source, at) {
        Ok(()) => Ok(()),
        Err(fault) => Err(named(fault)),
    }
}
