//! The items of a part of a file that is in memory. Each is read at the start of the bytes that are left, whose offset is known.
ghost use Rattle.std.specs.Prelude.{◌≡◌, ◌≢◌, ◌+◌, ◌<◌, ◌≤◌, ◌^◌, ℕ, List, Err, OnOk, IfErr, IfOk, length, take};
ghost use Rattle.std.specs.Int.{w8, w16, w32};
ghost use Rattle.cm_dump_items.specs.Reading.{Answers, HasLoadCause, IsByteFault, IsItemFault, IsPart, field_at, item_at};
ghost use Rattle.cm_dump_items.specs.declared.fault.LoadFault.{LoadFault};

use crate::LoadFault;
use cm_bits::SPARE;
use std::alloc::Global;

/// The fault of an item that is cut off, in a part that begins at this offset, in bytes from 0.
fn cut(part: &[u8], at: u64) -> LoadFault
    requires room { at + length part.now < 2 ^ 63 }
    ensures { result ≡ LoadFault.Truncated (at + length part.now) }
{
    LoadFault::Truncated {
        at: at + part.len() as u64,
    }
}

/// Fills the buffer with the first bytes of a part that begins at this offset, in bytes from 0.
fn item_of(part: &[u8], at: u64, buf: &mut [u8]) -> Result<(), LoadFault>
    requires room { at + length part.now < 2 ^ 63 }
    ensures inside { OnOk result (length buf.old ≤ length part.now) }
    ensures exact { (bytes : List ℕ) (room : ℕ) → length buf.old ≤ room → IsPart bytes at room part.now → Answers (λ _. buf.new) result (item_at bytes at (length buf.old)) }
    ensures cause { (n : ℕ) → HasLoadCause n n result }
    ensures memory { result ≢ Err LoadFault.Memory }
    ensures kind { IfErr result IsItemFault }
    ensures bytes { IfErr result IsByteFault }
{
    let n = buf.len();
    if part.len() < n {
        return Err(cut(part, at));
    }
    buf.copy_from_slice(&part[..n]);
    Ok(())
}

/// The first byte of a part that begins at this offset, in bytes from 0. Returns `BadField` if it is not from `low` to `high`, and
/// `Truncated` if the part is empty.
#[tactic(auto, unfolding(crate::specs::Reading::field_at))]
pub fn byte_of(part: &[u8], at: u64, low: u8, high: u8) -> Result<u8, LoadFault>
    requires room { at + length part.now < 2 ^ 63 }
    ensures inside { OnOk result (1 ≤ length part.now) }
    ensures range { IfOk result (λ b. (low ≤ b) × (b ≤ high)) }
    ensures exact { (bytes : List ℕ) (room : ℕ) → 1 ≤ room → IsPart bytes at room part.now → Answers (λ b. b) result (field_at w8 bytes at low high) }
    ensures cause { (n : ℕ) → HasLoadCause n n result }
    ensures memory { result ≢ Err LoadFault.Memory }
    ensures kind { IfErr result IsItemFault }
    ensures bytes { IfErr result IsByteFault }
{
    let mut buf = [0; 1];
    match item_of(part, at, &mut buf) {
        Ok(()) => {}
        Err(fault) => return Err(fault),
    }
    let b = buf[0];
    if low <= b && b <= high {
        Ok(b)
    } else {
        Err(LoadFault::BadField { at })
    }
}

/// The number in the first two bytes of a part that begins at this offset, in bytes from 0; the lowest byte comes first. Returns
/// `BadField` if it is not from `low` to `high`, and `Truncated` if the part has fewer bytes.
#[tactic(auto, unfolding(crate::specs::Reading::field_at))]
pub fn short_of(part: &[u8], at: u64, low: u16, high: u16) -> Result<u16, LoadFault>
    requires room { at + length part.now < 2 ^ 63 }
    ensures inside { OnOk result (2 ≤ length part.now) }
    ensures range { IfOk result (λ x. (low ≤ x) × (x ≤ high)) }
    ensures exact { (bytes : List ℕ) (room : ℕ) → 2 ≤ room → IsPart bytes at room part.now → Answers (λ x. x) result (field_at w16 bytes at low high) }
    ensures cause { (n : ℕ) → HasLoadCause n n result }
    ensures memory { result ≢ Err LoadFault.Memory }
    ensures kind { IfErr result IsItemFault }
    ensures bytes { IfErr result IsByteFault }
{
    let mut buf = [0; 2];
    match item_of(part, at, &mut buf) {
        Ok(()) => {}
        Err(fault) => return Err(fault),
    }
    let x = u16::from_le_bytes(buf);
    if low <= x && x <= high {
        Ok(x)
    } else {
        Err(LoadFault::BadField { at })
    }
}

/// The number in the first four bytes of a part that begins at this offset, in bytes from 0; the lowest byte comes first. Returns
/// `BadField` if it is not from `low` to `high`, and `Truncated` if the part has fewer bytes.
#[tactic(auto, unfolding(crate::specs::Reading::field_at))]
pub fn number_of(part: &[u8], at: u64, low: u32, high: u32) -> Result<u32, LoadFault>
    requires room { at + length part.now < 2 ^ 63 }
    ensures inside { OnOk result (4 ≤ length part.now) }
    ensures range { IfOk result (λ x. (low ≤ x) × (x ≤ high)) }
    ensures exact { (bytes : List ℕ) (room : ℕ) → 4 ≤ room → IsPart bytes at room part.now → Answers (λ x. x) result (field_at w32 bytes at low high) }
    ensures cause { (n : ℕ) → HasLoadCause n n result }
    ensures memory { result ≢ Err LoadFault.Memory }
    ensures kind { IfErr result IsItemFault }
    ensures bytes { IfErr result IsByteFault }
{
    let mut buf = [0; 4];
    match item_of(part, at, &mut buf) {
        Ok(()) => {}
        Err(fault) => return Err(fault),
    }
    let x = u32::from_le_bytes(buf);
    if low <= x && x <= high {
        Ok(x)
    } else {
        Err(LoadFault::BadField { at })
    }
}

/// The first `n` bytes of a part that begins at this offset, in bytes from 0, which are not copied. Returns `Truncated` if the part has
/// fewer bytes.
pub fn lent_of<'a>(part: &'a [u8], at: u64, n: u64) -> Result<&'a [u8], LoadFault>
    requires room { at + length part.now < 2 ^ 63 }
    ensures inside { OnOk result (n ≤ length part.now) }
    ensures item { IfOk result (λ item. item.now ≡ take n part.now) }
    ensures size { IfOk result (λ item. length item.now ≡ n) }
    ensures exact { (bytes : List ℕ) (room : ℕ) → n ≤ room → IsPart bytes at room part.now → Answers (λ item. item.now) result (item_at bytes at n) }
    ensures kind { IfErr result IsByteFault }
{
    if (part.len() as u64) < n {
        Err(cut(part, at))
    } else {
        Ok(&part[..n as usize])
    }
}

/// A copy of the first `n` bytes of a part that begins at this offset, in bytes from 0, with room for `SPARE` more. Returns `Truncated` if
/// the part has fewer bytes, and `Memory` only if memory runs out.
pub fn bytes_of(alloc: Global, part: &[u8], at: u64, n: usize) -> Result<Vec<u8>, LoadFault>
    requires room { at + length part.now < 2 ^ 62 }
    ensures inside { OnOk result (n ≤ length part.now) }
    ensures size { IfOk result (λ v. length v.items ≡ n) }
    ensures exact { (bytes : List ℕ) (room : ℕ) → n ≤ room → IsPart bytes at room part.now → Answers (λ v. v.items) result (item_at bytes at n) }
    ensures cause { (k : ℕ) → HasLoadCause k k result }
{
    if part.len() < n {
        return Err(cut(part, at));
    }
    let mut item = match Vec::with_capacity(alloc, n + SPARE) {
        Ok(item) => item,
        Err(_) => return Err(LoadFault::Memory),
    };
    match item.extend_from_slice(&part[..n]) {
        Ok(()) => Ok(item),
        Err(_) => Err(LoadFault::Memory),
    }
}
