//! The fields of a file whose bytes are lent, each read at its offset and checked.
ghost use Rattle.std.specs.Prelude.{◌≡◌, ◌+◌, ◌<◌, ◌≤◌, ◌^◌, IfErr, IfOk, IsTrue, IsUtf8, OnOk, length};
ghost use Rattle.cm_dump_items.specs.Reading.{Answers, IsByteFault, field_at, item_at};
ghost use Rattle.cm_shards_manifest.specs.Fields.{is_width, width_of};
ghost use Rattle.cm_shards_manifest.specs.ManifestItems.{name_at};

use cm_dump_items::{LoadFault, lent_item};
use std::str;

/// The number in `n` bytes at an offset of a file, which are 1, 2, 4 or 8; the lowest byte comes first. Returns `BadField` if it is not from
/// `low` to `high`, and `Truncated` if the file ends before it does.
#[tactic(auto, unfolding(cm_dump_items::specs::Reading::field_at))]
pub(crate) fn field(file: &[u8], at: u64, n: u64, low: u64, high: u64) -> Result<u64, LoadFault>
    requires room { at < 2 ^ 62 }
    requires width { IsTrue (is_width n) }
    ensures inside { OnOk result (at + n ≤ length file.now) }
    ensures range { IfOk result (λ x. (low ≤ x) × (x ≤ high)) }
    ensures exact { Answers (λ x. x) result (field_at (width_of n) file.now at low high) }
    ensures kind { IfErr result IsByteFault }
{
    let item = lent_item(file, at, n)?;
    let mut buf = [0; 8];
    buf[..n as usize].copy_from_slice(item);
    let x = u64::from_le_bytes(buf);
    if low <= x && x <= high {
        Ok(x)
    } else {
        Err(LoadFault::BadField { at })
    }
}

/// The text of `n` bytes at an offset of a file. Returns `BadField` if they aren't UTF-8, and `Truncated` if the file ends before they do.
#[tactic(auto, unfolding(crate::specs::ManifestItems::name_at))]
pub(crate) fn text<'a>(file: &'a [u8], at: u64, n: u64) -> Result<&'a str, LoadFault>
    requires room { at + n < 2 ^ 63 }
    ensures inside { OnOk result (at + n ≤ length file.now) }
    ensures size { IfOk result (λ text. length text.now ≡ n) }
    ensures utf8 { IfOk result (λ text. IsUtf8 text.now) }
    ensures exact { Answers (λ text. text.now) result (name_at file.now at n) }
{
    let item = lent_item(file, at, n)?;
    match str::from_utf8(item) {
        Ok(text) => Ok(text),
        Err(_) => Err(LoadFault::BadField { at }),
    }
}

/// The digest at an offset of a file. Returns `Truncated` if the file ends before it does.
pub(crate) fn digest(file: &[u8], at: u64) -> Result<[u8; 32], LoadFault>
    requires room { at < 2 ^ 62 }
    ensures inside { OnOk result (at + 32 ≤ length file.now) }
    ensures exact { Answers (λ d. d) result (item_at file.now at 32) }
{
    let mut digest = [0; 32];
    digest.copy_from_slice(lent_item(file, at, 32)?);
    Ok(digest)
}
