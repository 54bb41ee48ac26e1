//! The items of a bucket at its offset in a dump.
ghost use Rattle.std.specs.Prelude.{◌≡◌, ◌+◌, ◌<◌, ◌≤◌, ◌^◌, OnOk, IfErr, IfOk, drop, length, take};
ghost use Rattle.std.specs.Int.{byte_len, w32};
ghost use Rattle.cm_dump.specs.Forms.{form_of};
ghost use Rattle.cm_dump.specs.Spelling.{most_seed};
ghost use Rattle.cm_dump_items.specs.Reading.{Answers, IsByteFault, field_at};
ghost use Rattle.cm_spec.specs.declared.limits.TheConstants.{MAX_BUCKET};

use cm_dump::{Version, greatest_seed, size_in, size_len};
use cm_dump_items::{LoadFault, number_of};

/// The bytes from this offset of a dump on: as many as are there, and at most `most`.
pub fn bytes_from<'a>(dump: &'a [u8], at: u64, most: u64) -> &'a [u8]
    requires inside { at ≤ length dump.now }
    ensures bytes { result.now ≡ take (length result.now) (drop at dump.now) }
    ensures inside { at + length result.now ≤ length dump.now }
    ensures few { length result.now ≤ most }
    ensures all { length result.now < most → length dump.now ≡ at + length result.now }
{
    let rest = &dump[at as usize..];
    let len = (rest.len() as u64).min(most);
    &rest[..len as usize]
}

/// The number of keys of the bucket at this offset.
pub(crate) fn size_at(dump: &[u8], at: u64, version: Version) -> Result<u16, LoadFault>
    requires at { at < 2 ^ 60 }
    requires inside { at ≤ length dump.now }
    ensures inside { OnOk result (at + byte_len (form_of version).size ≤ length dump.now) }
    ensures few { IfOk result (λ size. size ≤ MAX_BUCKET) }
    ensures exact { Answers (λ x. x) result (field_at (form_of version).size dump.now at 0 (form_of version).most_size) }
    ensures kind { IfErr result IsByteFault }
{
    size_in(bytes_from(dump, at, 2), at, version)
}

/// The seed of the bucket at this offset, which has `size` keys.
pub(crate) fn seed_at(dump: &[u8], at: u64, version: Version, size: u16) -> Result<u32, LoadFault>
    requires at { at < 2 ^ 60 }
    requires inside { at + byte_len (form_of version).size ≤ length dump.now }
    ensures inside { OnOk result (at + (byte_len (form_of version).size + 4) ≤ length dump.now) }
    ensures unseeded { size ≡ 0 → IfOk result (λ seed. seed ≡ 0) }
    ensures exact { Answers (λ x. x) result (field_at w32 dump.now (at + byte_len (form_of version).size) 0 (most_seed size)) }
    ensures kind { IfErr result IsByteFault }
{
    let from = at + size_len(version);
    number_of(bytes_from(dump, from, 4), from, 0, greatest_seed(size))
}
