//! A store of records.
ghost use Rattle.std.specs.Prelude.{◌≡◌, ◌<◌, ◌≤◌, Err, MatchOption, None, Some, count_by, length, slice_index, IfErr, IfOk, IfSome};
ghost use Rattle.cm_bdz.specs.Functions.{bdz_answer};
ghost use Rattle.cm_bdz.specs.Numbering.{AnswersApart};
ghost use Rattle.cm_spec.specs.Bdz.{bdz_size};
ghost use Rattle.cm_spec.specs.Cells.{is_busy};
ghost use Rattle.cm_spec.specs.Rule.{IsRatio};
ghost use Rattle.cm_spec.specs.declared.limits.TheConstants.{MAX_KEYS};
ghost use Rattle.cm_store.specs.Faults.{place_of};
ghost use Rattle.cm_store.specs.Stores.{IsStore, bad_record, look, places_of};
ghost use Rattle.cm_store_records.specs.RecordPass.{keyed};
ghost use Rattle.cm_store_records.specs.Records.{records_in};
ghost use Rattle.cm_store_records.specs.declared.limits.TheConstants.{MAX_RECORD_BYTES};

use crate::{checking, filling};
use cm_algo_scheme::{Built, answer};
use cm_bdz::{Bdz, PartsFault};
use cm_bits::{Cells, Crumbs, Plain};
use cm_store_records::{Records, record_at};
use std::alloc::{AllocError, Global};
use std::marker::Model;

/// Why parts make no store.
#[derive(Clone, Copy, Debug, PartialEq, Eq)]
pub enum PlacesFault {
    /// The first offset, in bytes from 0, at which something is wrong with the records: one isn't whole or is missing, or its place is
    /// elsewhere, or bytes follow the last.
    BadRecord { at: u32 },
}

/// A store of records. Clauses see its index, the offsets of its records by the answers of their keys, and the bytes of the records. No
/// look-up takes memory.
#[derive(Drop)]
pub struct Store {
    index: Bdz,
    places: Plain,
    bytes: Vec<u8>,
}

impl Model for Store {
    ghost use Rattle.std.specs.Prelude.{◌≡◌, length};
    ghost use Rattle.cm_store.specs.Stores.{IsStore, Store};

    ghost Value = { Store };

    ghost view = { λ s. record { index = s.index; places = ⟦<Plain as Cells>⟧.cells s.places; bytes = s.bytes.items } };

    ghost invariant = { λ s. IsStore (record { index = s.index; places = ⟦<Plain as Cells>⟧.cells s.places; bytes = s.bytes.items })
        × (⟦<Plain as Cells>⟧.bound_of s.places ≡ length s.bytes.items) };
}

impl Store {
    /// The store of records over the result of a build of their keys by BDZ, with an index that has ranks of every `2^b`-th cell, with b
    /// from 3 to 10. The answers of the keys are below their number, and no two are the same. Fails if memory runs out.
    pub fn from_records(
        alloc: Global,
        records: Records,
        built: Built<Crumbs>,
        b: u8,
    ) -> Result<Store, AllocError>
        requires keys { (1 ≤ built.m) × (built.m ≤ MAX_KEYS) }
        requires count { length records.lines ≡ built.m }
        requires ratio { IsRatio built.c }
        requires size { length (⟦<Crumbs as Cells>⟧.cells built.cells) ≡ bdz_size built.m built.c }
        requires busy { count_by (is_busy 3) (⟦<Crumbs as Cells>⟧.cells built.cells) ≡ built.m }
        requires b { (3 ≤ b) × (b ≤ 10) }
        requires apart { AnswersApart (keyed records.lines records.bytes) (bdz_answer (record { keys = built.m; ratio = built.c; seed = built.seed; shift = b; cells = ⟦<Crumbs as Cells>⟧.cells built.cells })) built.m }
        ensures index { IfOk result (λ s. s.index ≡ record { keys = built.m; ratio = built.c; seed = built.seed; shift = b; cells = ⟦<Crumbs as Cells>⟧.cells built.cells }) }
        ensures places { IfOk result (λ s. s.places ≡ places_of s.index (records_in (length records.lines) records.bytes)) }
        ensures bytes { IfOk result (λ s. s.bytes ≡ records.bytes) }
        ensures valid { IfOk result IsStore }
    {
        let index = match Bdz::from_built(alloc, built, b) {
            Ok(index) => index,
            Err(PartsFault::Memory) => return Err(AllocError),
            Err(PartsFault::BadCount) => unreachable!(),
        };
        let places = filling::places_of(alloc, &index, &records)?;
        Ok(Store {
            index,
            places,
            bytes: records.into_bytes(),
        })
    }

    /// The store of its parts: an index, as many places as it has keys, and from 1 to `MAX_RECORD_BYTES` bytes, whose number is the bound of
    /// the places. Returns the first offset at which something is wrong with the bytes, if something is.
    pub fn from_parts(index: Bdz, places: Plain, bytes: Vec<u8>) -> Result<Store, PlacesFault>
        requires count { length (⟦<Plain as Cells>⟧.cells places) ≡ index.keys }
        requires size { (1 ≤ length bytes.items) × (length bytes.items ≤ MAX_RECORD_BYTES) }
        requires bound { ⟦<Plain as Cells>⟧.bound_of places ≡ length bytes.items }
        ensures parts { IfOk result (λ s. s ≡ record { index = index; places = ⟦<Plain as Cells>⟧.cells places; bytes = bytes.items }) }
        ensures sound { IfOk result (λ s. bad_record s ≡ None) }
        ensures bad { IfErr result (λ fault. bad_record (record { index = index; places = ⟦<Plain as Cells>⟧.cells places; bytes = bytes.items }) ≡ Some (place_of fault)) }
    {
        match checking::bad_record(&index, &places, &bytes) {
            Some(at) => Err(PlacesFault::BadRecord { at: at as u32 }),
            None => Ok(Store {
                index,
                places,
                bytes,
            }),
        }
    }

    /// The value of a key, lent where it stands, or none if no record has this key.
    pub fn look(&self, key: &[u8]) -> Option<&[u8]>
        ensures value { MatchOption result (look self.now key.now ≡ None) (λ value. look self.now key.now ≡ Some value.now) }
    {
        self.look_at(answer(&self.index, key), key)
    }

    /// The value of a key by the number that the index has for it.
    pub fn look_at(&self, number: Option<u32>, key: &[u8]) -> Option<&[u8]>
        requires number { number ≡ bdz_answer self.now.index key.now }
        requires inside { IfSome number (λ v. v < self.now.index.keys) }
        ensures value { MatchOption result (look self.now key.now ≡ None) (λ value. look self.now key.now ≡ Some value.now) }
    {
        let at = self.places.get(number?);
        let Some(record) = record_at(&self.bytes, at as usize) else {
            unreachable!();
        };
        if record.key == key {
            Some(record.value)
        } else {
            None
        }
    }

    /// The index of its keys.
    pub fn index(&self) -> &Bdz
        ensures index { result.now ≡ self.now.index }
        ensures store { IsStore self.now }
    {
        &self.index
    }

    /// The offsets of its records by the answers of their keys.
    pub fn places(&self) -> &Plain
        ensures places { ⟦<Plain as Cells>⟧.cells result.now ≡ self.now.places }
        ensures bound { ⟦<Plain as Cells>⟧.bound_of result.now ≡ length self.now.bytes }
    {
        &self.places
    }

    /// The offset of the record whose key has this answer, below the number of keys.
    pub fn place(&self, v: u32) -> u32
        requires inside { v < self.now.index.keys }
        ensures place { result ≡ slice_index self.now.places v }
    {
        self.places.get(v)
    }

    /// The bytes of its records, one after another, in the order of their lines.
    pub fn bytes(&self) -> &[u8]
        ensures bytes { result.now ≡ self.now.bytes }
    {
        &self.bytes
    }
}
