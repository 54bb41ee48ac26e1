//! The items of a bucket of a function by BRZ, for readers.
ghost use Rattle.std.specs.Prelude.{◌≡◌, ◌+◌, ◌<◌, ◌≤◌, ◌^◌, ℕ, List, OnOk, IfErr, IfOk, length};
ghost use Rattle.std.specs.Int.{byte_len};
ghost use Rattle.cm_brz_func.specs.Functions.{bucket_cells};
ghost use Rattle.cm_spec.specs.declared.limits.TheConstants.{MAX_BUCKET};
ghost use Rattle.cm_dump_items.specs.Reading.{Answers, HasLoadCause, IsByteFault, IsPart, field_at};
ghost use Rattle.cm_spec.specs.Rule.{IsRatio};
ghost use Rattle.cm_dump.specs.Forms.{form_of};
ghost use Rattle.cm_dump.specs.Spelling.{is_off, most_seed};

use crate::LoadFault;
use crate::versions::Version;
use cm_algo_scheme::Scheme;
use cm_bdz::BdzScheme;
use cm_brz_func::MAX_BUCKET;
use cm_dump_items::{byte_of, short_of};

/// Whether `held` keys in the buckets that were read are too many for a function of `keys` keys, or too few if `left`, the number of
/// further buckets, is 0.
pub fn is_off(keys: u32, held: u32, left: u32) -> bool
    ensures { result ≡ is_off keys held left }
{
    held > keys || left == 0 && held < keys
}

/// The number of keys of a bucket, at this offset and the start of the part: one byte in version 1, two bytes up to `MAX_BUCKET` in
/// version 2.
pub fn size_in(part: &[u8], at: u64, version: Version) -> Result<u16, LoadFault>
    requires room { at + length part.now < 2 ^ 62 }
    ensures inside { OnOk result (byte_len (form_of version).size ≤ length part.now) }
    ensures few { IfOk result (λ size. size ≤ MAX_BUCKET) }
    ensures exact { (bytes : List ℕ) (room : ℕ) → byte_len (form_of version).size ≤ room → IsPart bytes at room part.now → Answers (λ x. x) result (field_at (form_of version).size bytes at 0 (form_of version).most_size) }
    ensures cause { (n : ℕ) → HasLoadCause n n result }
    ensures kind { IfErr result IsByteFault }
{
    match version {
        Version::One => match byte_of(part, at, 0, u8::MAX) {
            Ok(size) => Ok(size as u16),
            Err(fault) => Err(fault),
        },
        Version::Two => short_of(part, at, 0, MAX_BUCKET as u16),
    }
}

/// The greatest seed of a bucket of `size` keys.
pub fn greatest_seed(size: u16) -> u32
    ensures { result ≡ most_seed size }
{
    if size == 0 { 0 } else { u32::MAX }
}

/// How many cells a bucket of `size` keys has.
pub fn cells_of(size: u16, c: u32) -> u32
    requires ratio { IsRatio c }
    ensures { result ≡ bucket_cells size c }
{
    if size == 0 {
        0
    } else {
        BdzScheme {}.size(size as u32, c)
    }
}
