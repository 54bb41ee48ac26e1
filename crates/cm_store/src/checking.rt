//! Whether bytes are records, each of which is looked up where it stands.
ghost use Rattle.std.specs.Prelude.{◌≡◌, ◌<◌, ◌≤◌, All, None, Some, length, nat_eq, IfSome};
ghost use Rattle.std.specs.Option.{option_and_then, option_eq};
ghost use Rattle.cm_store.specs.Numbers.{astray_of};
ghost use Rattle.cm_store.specs.Stores.{bad_record, place_at};

use crate::numbering::{MOST, Numbered, number_some};
use arrayvec::ArrayVec;
use cm_bdz::Bdz;
use cm_bits::{Cells, Plain};

/// Whether a record at this offset, whose key has this number, is looked up there.
fn stands_at(places: &Plain, number: Option<u32>, at: usize) -> bool
    requires below { IfSome number (λ v. v < length (⟦<Plain as Cells>⟧.cells places.now)) }
    ensures stands { result ≡ option_eq nat_eq (option_and_then (place_at (⟦<Plain as Cells>⟧.cells places.now)) number) (Some at) }
{
    match number {
        Some(v) => places.get(v) as usize == at,
        None => false,
    }
}

/// The offset of the first of some records, of which the first begins at the given one, that is looked up elsewhere.
fn first_astray(places: &Plain, some: &[Numbered], at: usize) -> Option<usize>
    requires below { All (λ n. IfSome n.number (λ v. v < length (⟦<Plain as Cells>⟧.cells places.now))) some.now }
    ensures astray { result ≡ astray_of (⟦<Plain as Cells>⟧.cells places.now) at some.now }
{
    let mut from = at;
    'records: for numbered in some {
        if !stands_at(places, numbered.number, from) {
            return Some(from);
        }
        from = numbered.next;
    }
    None
}

/// The first offset at which something is wrong with bytes that records are to be, one for each key of an index, by their places. Some
/// records are numbered before their places are read, so that the cache misses of these overlap.
pub(crate) fn bad_record(index: &Bdz, places: &Plain, bytes: &[u8]) -> Option<usize>
    requires count { length (⟦<Plain as Cells>⟧.cells places.now) ≡ index.now.keys }
    ensures bad { result ≡ bad_record (record { index = index.now; places = ⟦<Plain as Cells>⟧.cells places.now; bytes = bytes.now }) }
    ensures inside { IfSome result (λ at. at ≤ length bytes.now) }
{
    let mut some = ArrayVec::<Numbered, MOST>::new();
    let mut at = 0;
    let mut left = index.keys();
    'records: while left > 0 {
        let next = number_some(index, bytes, at, left, &mut some);
        if some.is_empty() {
            return Some(at);
        }
        if let Some(astray) = first_astray(places, some.as_slice(), at) {
            return Some(astray);
        }
        left -= some.len() as u32;
        at = next;
    }
    if at == bytes.len() { None } else { Some(at) }
}
