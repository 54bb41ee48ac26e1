//! The image of a table in a file whose bytes are lent, without a copy.
ghost use Rattle.std.specs.Prelude.{◌≡◌, ◌+◌, ◌<◌, ◌≤◌, ◌^◌, OnOk, IfErr, IfOk, length};
ghost use Rattle.cm_bits.specs.Bound.{AllBelow};
ghost use Rattle.cm_bits.specs.Fault.{bytes_number, field_cells};
ghost use Rattle.cm_dump_items.specs.Reading.{Answers, IsByteFault};
ghost use Rattle.cm_spec.specs.Image.{fields_len, packed_len, width_of};
ghost use Rattle.cm_spec.specs.declared.limits.TheConstants.{MAX_KEYS, MAX_VERTICES};
ghost use Rattle.cm_dump_images.specs.Images.{fields_at, packed_at};

use crate::reader::placed;
use cm_bits::packed::{Packed, Packing};
use cm_bits::{Cells, Fields, LentDigits, LentFields};
use cm_dump_items::{LoadFault, lent_item};

/// The image of `n` cells, as digits of a packing's base, which begins at this offset of a file, in bytes from 0. All its bytes are
/// checked. Returns their first fault.
#[tactic(auto, unfolding(crate::specs::Images::image_at), using(crate::specs::ImageLaws::packed_near, crate::specs::ImageLaws::packed_short, crate::specs::ImageLaws::packed_refused))]
pub fn lent_packed<'a, B: Packing>(file: &'a [u8], at: u64, n: u32) -> Result<&'a [u8], LoadFault>
    requires n { n ≤ MAX_VERTICES }
    requires at { at < 2 ^ 60 }
    ensures inside { OnOk result (at + packed_len B.PER_BYTE n ≤ length file.now) }
    ensures len { IfOk result (λ image. length image.now ≡ packed_len B.PER_BYTE n) }
    ensures exact { Answers (λ image. image.now) result (packed_at file.now at B.BASE B.PER_BYTE n) }
    ensures kind { IfErr result IsByteFault }
{
    let image = match lent_item(file, at, Packed::<B>::image_len(n, B::BASE)) {
        Ok(image) => image,
        Err(fault) => return Err(fault),
    };
    match LentDigits::<B>::of(n, image) {
        Ok(_) => Ok(image),
        Err(fault) => Err(placed::<Packed<B>>(at, B::BASE, fault)),
    }
}

/// The image of `n` cells below the bound, which begins at this offset of a file, in bytes from 0. All its bytes are checked. Returns
/// their first fault.
#[tactic(auto, unfolding(crate::specs::Images::image_at), using(crate::specs::ImageLaws::fields_near, crate::specs::ImageLaws::cells_near, crate::specs::ImageLaws::fields_refused))]
pub fn lent_fields<'a>(file: &'a [u8], at: u64, n: u32, bound: u32) -> Result<&'a [u8], LoadFault>
    requires n { n ≤ MAX_VERTICES }
    requires bound { (1 ≤ bound) × (bound ≤ MAX_KEYS) }
    requires at { at < 2 ^ 60 }
    ensures inside { OnOk result (at + fields_len (width_of bound) n ≤ length file.now) }
    ensures len { IfOk result (λ image. length image.now ≡ fields_len (width_of bound) n) }
    ensures below { IfOk result (λ image. AllBelow bound (field_cells (width_of bound) n (bytes_number image.now))) }
    ensures exact { Answers (λ image. image.now) result (fields_at file.now at n bound) }
    ensures kind { IfErr result IsByteFault }
{
    let image = match lent_item(file, at, Fields::image_len(n, bound)) {
        Ok(image) => image,
        Err(fault) => return Err(fault),
    };
    match LentFields::of(n, bound, image) {
        Ok(_) => Ok(image),
        Err(fault) => Err(placed::<Fields>(at, bound, fault)),
    }
}
