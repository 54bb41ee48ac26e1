//! The store whose file a source has.
ghost use Rattle.std.specs.Prelude.{◌≡◌, ◌≢◌, ◌+◌, ◌*◌, ◌<◌, ◌≤◌, ◌^◌, ℕ, Err, IfOk, IsOk, OnOk, length};
ghost use Rattle.std.specs.Option.{ForSome};
ghost use Rattle.cm_dump_items.specs.Reading.{IsAt};
ghost use Rattle.cm_bdz.specs.Functions.{IsBdz};
ghost use Rattle.cm_spec.specs.declared.limits.TheConstants.{MAX_KEYS};
ghost use Rattle.cm_store.specs.Stores.{IsStore};
ghost use Rattle.cm_store_file.specs.Headers.{header_at};
ghost use Rattle.cm_store_file.specs.Loads.{HasStoreCause, IsLoaded, IsRead};
ghost use Rattle.cm_store_file.specs.StoreFiles.{index_at, index_in, places_at, places_in, store_at, store_unless};
ghost use Rattle.cm_store_file.specs.declared.fault.StoreLoad.{StoreLoad};
ghost use Rattle.cm_store_file.specs.declared.header.TheConstants.{HEADER_LEN};
ghost use Rattle.cm_store_records.specs.declared.limits.TheConstants.{MAX_RECORD_BYTES};

use crate::fault::StoreLoad;
use crate::header::{HEADER_LEN, Header};
use crate::items::{header, item, last};
use cm_bdz::Bdz;
use cm_bits::{Cells, ImageFault, Plain};
use cm_dump::{Func, LoadFault, load};
use cm_io::Source;
use cm_io_memory::MemSource;
use cm_store::{PlacesFault, Store};
use std::alloc::Global;

/// The index whose dump these bytes are.
fn index_of(alloc: Global, bytes: Vec<u8>) -> Result<Bdz, StoreLoad>
    ensures exact { IsRead (λ f. f) result (index_in bytes.items) }
    ensures valid { IfOk result (λ f. IsBdz f) }
    ensures cause { (n : ℕ) → HasStoreCause n n result }
{
    let mut source = MemSource::new(bytes, Vec::new(alloc), Vec::new(alloc));
    match load(alloc, &mut source) {
        Ok(Func::Bdz(index)) => Ok(index),
        Ok(_) => Err(StoreLoad::BadIndex),
        // No read of these bytes fails.
        Err(LoadFault::Memory | LoadFault::Read) => Err(StoreLoad::Memory),
        Err(_) => Err(StoreLoad::BadIndex),
    }
}

/// The index, which has this many bytes after the header.
#[tactic(auto, unfolding(crate::specs::StoreFiles::index_at))]
fn read_index<S: Source>(alloc: Global, source: &mut S, len: u32) -> Result<Bdz, StoreLoad>
    requires at { IsAt (S.told source.old) (S.place source.old) HEADER_LEN }
    ensures told { S.told source.new ≡ S.told source.old }
    ensures at { OnOk result (IsAt (S.told source.new) (S.place source.new) (HEADER_LEN + len)) }
    ensures exact { ForSome (S.told source.old) (λ bytes. IsRead (λ f. f) result (index_at bytes len)) }
    ensures valid { IfOk result (λ f. IsBdz f) }
    ensures cause { HasStoreCause (S.faults source.old) (S.faults source.new) result }
{
    let bytes = item(alloc, source, HEADER_LEN, len as u64)?;
    index_of(alloc, bytes)
}

/// The `n` places below the bound, whose image these bytes are.
fn places_of(alloc: Global, n: u32, bound: u32, image: Vec<u8>) -> Result<Plain, StoreLoad>
    requires few { n ≤ MAX_KEYS }
    requires some { 1 ≤ bound }
    requires whole { length image.items ≡ 4 * n }
    ensures bound { IfOk result (λ t. ⟦<Plain as Cells>⟧.bound_of t ≡ bound) }
    ensures size { IfOk result (λ t. length (⟦<Plain as Cells>⟧.cells t) ≡ n) }
    ensures exact { IsRead (λ t. ⟦<Plain as Cells>⟧.cells t) result (places_in n bound image.items) }
    ensures cause { (k : ℕ) → HasStoreCause k k result }
{
    match Plain::from_bytes(alloc, n, bound, image) {
        Ok(places) => Ok(places),
        Err(ImageFault::Memory) => Err(StoreLoad::Memory),
        Err(ImageFault::BadCell { cell }) => Err(StoreLoad::BadPlace { place: cell }),
        Err(ImageFault::BadPadding { byte: _ }) => unreachable!(),
    }
}

/// The `n` places below the bound, whose image begins at this offset, in bytes from 0, where the source stands.
#[tactic(auto, unfolding(crate::specs::StoreFiles::places_at))]
fn read_places<S: Source>(
    alloc: Global,
    source: &mut S,
    at: u64,
    n: u32,
    bound: u32,
) -> Result<Plain, StoreLoad>
    requires few { n ≤ MAX_KEYS }
    requires some { 1 ≤ bound }
    requires short { at < 2 ^ 60 }
    requires at { IsAt (S.told source.old) (S.place source.old) at }
    ensures told { S.told source.new ≡ S.told source.old }
    ensures at { OnOk result (IsAt (S.told source.new) (S.place source.new) (at + 4 * n)) }
    ensures bound { IfOk result (λ t. ⟦<Plain as Cells>⟧.bound_of t ≡ bound) }
    ensures size { IfOk result (λ t. length (⟦<Plain as Cells>⟧.cells t) ≡ n) }
    ensures exact { ForSome (S.told source.old) (λ bytes. IsRead (λ t. ⟦<Plain as Cells>⟧.cells t) result (places_at bytes at n bound)) }
    ensures cause { HasStoreCause (S.faults source.old) (S.faults source.new) result }
{
    let image = item(alloc, source, at, 4 * n as u64)?;
    places_of(alloc, n, bound, image)
}

/// The store of its parts, unless something is wrong with the records.
fn store_of(index: Bdz, places: Plain, bytes: Vec<u8>) -> Result<Store, StoreLoad>
    requires count { length (⟦<Plain as Cells>⟧.cells places) ≡ index.keys }
    requires size { (1 ≤ length bytes.items) × (length bytes.items ≤ MAX_RECORD_BYTES) }
    requires bound { ⟦<Plain as Cells>⟧.bound_of places ≡ length bytes.items }
    requires valid { IsBdz index }
    ensures exact { IsRead (λ s. s) result (store_unless (record { index = index; places = ⟦<Plain as Cells>⟧.cells places; bytes = bytes.items })) }
    ensures valid { IfOk result (λ s. IsStore s × IsBdz s.index) }
    ensures cause { (n : ℕ) → HasStoreCause n n result }
    ensures memory { result ≢ Err StoreLoad.Memory }
{
    match Store::from_parts(index, places, bytes) {
        Ok(store) => Ok(store),
        Err(PlacesFault::BadRecord { at }) => Err(StoreLoad::BadRecord { at: at as u64 }),
    }
}

/// The store of a header and an index, whose file ends with the source. The records stay where they were read.
#[tactic(auto, unfolding(crate::specs::StoreFiles::store_at))]
fn read_store<S: Source>(
    alloc: Global,
    source: &mut S,
    header: Header,
    index: Bdz,
) -> Result<Store, StoreLoad>
    requires records { (1 ≤ header.records) × (header.records ≤ MAX_RECORD_BYTES) }
    requires index { IsBdz index }
    requires at { IsAt (S.told source.old) (S.place source.old) (HEADER_LEN + header.index) }
    ensures told { S.told source.new ≡ S.told source.old }
    ensures exact { ForSome (S.told source.old) (λ bytes. IsRead (λ s. s) result (store_at bytes header index)) }
    ensures valid { IfOk result (λ s. IsStore s × IsBdz s.index) }
    ensures cause { HasStoreCause (S.faults source.old) (S.faults source.new) result }
{
    let keys = index.keys();
    let at = HEADER_LEN + header.index as u64;
    let from = at + 4 * keys as u64;
    let places = read_places(alloc, source, at, keys, header.records)?;
    let bytes = item(alloc, source, from, header.records as u64)?;
    let store = match store_of(index, places, bytes) {
        Ok(store) => store,
        Err(fault) => return Err(fault),
    };
    match last(source, from + header.records as u64) {
        Ok(()) => Ok(store),
        Err(fault) => Err(fault),
    }
}

/// Loads a store from a source at its start: the one whose file all the bytes are. Returns `Read` exactly if the source fails, and
/// `Memory` only if memory runs out after a header without a fault. Any other error is the first fault of the bytes. Memory is allocated
/// as bytes are read, whatever the header claims.
#[tactic(auto, unfolding(crate::specs::StoreFiles::store_in))]
pub fn load_store<S: Source>(alloc: Global, source: &mut S) -> Result<Store, StoreLoad>
    requires start { ForSome (S.told source.old) (λ _. S.place source.old ≡ 0) }
    ensures told { S.told source.new ≡ S.told source.old }
    ensures spelled { ForSome (S.told source.old) (λ bytes. IsLoaded (λ s. s) bytes result) }
    ensures valid { IfOk result (λ s. IsStore s × IsBdz s.index) }
    ensures cause { HasStoreCause (S.faults source.old) (S.faults source.new) result }
    ensures memory { result ≡ Err StoreLoad.Memory → ForSome (S.told source.old) (λ bytes. IsOk (header_at bytes)) }
{
    let header = header(source)?;
    let index = read_index(alloc, source, header.index)?;
    read_store(alloc, source, header, index)
}
