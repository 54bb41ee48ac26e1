//! The cells of an image that is read from a file.
ghost use Rattle.std.specs.Prelude.{◌≡◌, ◌+◌, ◌<◌, ◌≤◌, ◌^◌, ℕ, List, Ok, OnOk, IfErr, IfOk, length};
ghost use Rattle.std.specs.Option.{ForSome};
ghost use Rattle.cm_bits.specs.declared.TheConstants.{MAX_CELLS};
ghost use Rattle.cm_dump_items.specs.Reading.{Answers, IsAt, HasLoadCause, item_at};
ghost use Rattle.cm_spec.specs.Lists.{list_of};
ghost use Rattle.cm_dump_images.specs.Images.{IsCellsFault, fault_at, image_at};
ghost use Rattle.cm_dump_images.specs.Places.{AreNear, IsPlace};

use cm_bits::{Cells, ImageFault};
use cm_dump_items::{LoadFault, long_item};
use cm_io::Source;
use std::alloc::Global;

/// The fault of the image that begins at this offset, in bytes from 0.
pub(crate) fn placed<C: Cells>(at: u64, bound: u32, fault: ImageFault) -> LoadFault
    requires at { at < 2 ^ 60 }
    requires fit { C.fits bound }
    requires place { IsPlace (C.cell_place bound) fault }
    ensures { result ≡ fault_at at (C.cell_place bound) fault }
{
    match fault {
        ImageFault::Memory => LoadFault::Memory,
        ImageFault::BadCell { cell } => LoadFault::BadCell {
            at: at + C::cell_byte(bound, cell),
        },
        ImageFault::BadPadding { byte } => LoadFault::BadPadding { at: at + byte },
    }
}

/// The `n` cells below the bound, whose image begins at this offset of a file, in bytes from 0, and is these bytes. Refuses them with the
/// first fault of the image.
#[tactic(auto, unfolding(crate::specs::Images::image_at))]
pub fn cells_from<C: Cells + Drop>(
    alloc: Global,
    at: u64,
    n: u32,
    bound: u32,
    image: Vec<u8>,
) -> Result<C, LoadFault>
    requires n { n ≤ MAX_CELLS }
    requires fit { C.fits bound }
    requires near { AreNear (C.image_size n bound) (C.cell_place bound) (C.image_fault n bound) }
    requires short { at < 2 ^ 60 }
    requires whole { length image.items ≡ C.image_size n bound }
    ensures bound { IfOk result (λ t. C.bound_of t ≡ bound) }
    ensures size { IfOk result (λ t. length (C.cells t) ≡ n) }
    ensures exact { (bytes : List ℕ) → item_at bytes at (C.image_size n bound) ≡ Ok image.items → Answers (λ t. list_of (C.image_byte bound (C.cells t)) (C.image_size n bound)) result (image_at bytes at (C.image_size n bound) (C.cell_place bound) (C.image_fault n bound)) }
    ensures cause { (k : ℕ) → HasLoadCause k k result }
    ensures kind { IfErr result (IsCellsFault (C.image_fault n bound)) }
{
    match C::from_bytes(alloc, n, bound, image) {
        Ok(cells) => Ok(cells),
        Err(fault) => Err(placed::<C>(at, bound, fault)),
    }
}

/// The `n` cells below the bound, whose image begins at this offset, in bytes from 0, where the source stands. Returns `Read` exactly if
/// the source fails, and `Memory` only if memory runs out. Any other error is the first fault of the image.
#[tactic(auto, unfolding(crate::specs::Images::image_at))]
pub fn read_cells<C: Cells + Drop, S: Source>(
    alloc: Global,
    source: &mut S,
    at: u64,
    n: u32,
    bound: u32,
) -> Result<C, LoadFault>
    requires n { n ≤ MAX_CELLS }
    requires fit { C.fits bound }
    requires room { C.image_size n bound < 2 ^ 33 }
    requires near { AreNear (C.image_size n bound) (C.cell_place bound) (C.image_fault n bound) }
    requires short { at < 2 ^ 60 }
    requires at { IsAt (S.told source.old) (S.place source.old) at }
    ensures told { S.told source.new ≡ S.told source.old }
    ensures at { OnOk result (IsAt (S.told source.new) (S.place source.new) (at + C.image_size n bound)) }
    ensures bound { IfOk result (λ t. C.bound_of t ≡ bound) }
    ensures size { IfOk result (λ t. length (C.cells t) ≡ n) }
    ensures exact { ForSome (S.told source.old) (λ bytes. Answers (λ t. list_of (C.image_byte bound (C.cells t)) (C.image_size n bound)) result (image_at bytes at (C.image_size n bound) (C.cell_place bound) (C.image_fault n bound))) }
    ensures cause { HasLoadCause (S.faults source.old) (S.faults source.new) result }
    ensures kind { IfErr result (IsCellsFault (C.image_fault n bound)) }
{
    let len = C::image_len(n, bound);
    let bytes = match long_item(alloc, source, at, len) {
        Ok(bytes) => bytes,
        Err(fault) => return Err(fault),
    };
    match cells_from(alloc, at, n, bound, bytes) {
        Ok(cells) => Ok(cells),
        Err(fault) => Err(fault),
    }
}
