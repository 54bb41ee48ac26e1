//! The items of a file whose bytes are lent, without a copy.
ghost use Rattle.std.specs.Prelude.{◌≡◌, ◌+◌, ◌<◌, ◌≤◌, ◌^◌, OnOk, IfErr, IfOk, drop, length, take};
ghost use Rattle.cm_dump_items.specs.Reading.{Answers, IsByteFault, end_at, item_at};

use crate::LoadFault;

/// The item of `n` bytes at this offset of a file, in bytes from 0. Returns `Truncated` if the file ends before the item does.
#[tactic(auto, unfolding(crate::specs::Reading::item_at))]
pub fn lent_item<'a>(file: &'a [u8], at: u64, n: u64) -> Result<&'a [u8], LoadFault>
    requires room { at + n < 2 ^ 63 }
    ensures inside { OnOk result (at + n ≤ length file.now) }
    ensures item { IfOk result (λ item. item.now ≡ take n (drop at file.now)) }
    ensures size { IfOk result (λ item. length item.now ≡ n) }
    ensures exact { Answers (λ item. item.now) result (item_at file.now at n) }
    ensures kind { IfErr result IsByteFault }
{
    let len = file.len() as u64;
    if len < at + n {
        Err(LoadFault::Truncated { at: len })
    } else {
        let rest = &file[at as usize..];
        Ok(&rest[..n as usize])
    }
}

/// Checks that no byte is at this offset of a file, in bytes from 0. Returns `Trailing` if one is.
#[tactic(auto, unfolding(crate::specs::Reading::end_at))]
pub fn lent_end(file: &[u8], at: u64) -> Result<(), LoadFault>
    ensures exact { Answers (λ x. x) result (end_at file.now at) }
    ensures kind { IfErr result IsByteFault }
{
    if at < file.len() as u64 {
        Err(LoadFault::Trailing)
    } else {
        Ok(())
    }
}
