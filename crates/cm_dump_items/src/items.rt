//! The items of a file, each read at its offset and checked. A read from a source that stands there returns the item, or the first fault
//! of the bytes.
ghost use Rattle.std.specs.Prelude.{◌≡◌, ◌≢◌, ◌+◌, ◌<◌, ◌≤◌, ◌^◌, Err, OnOk, IfErr, IfOk, length};
ghost use Rattle.std.specs.Int.{w8, w32};
ghost use Rattle.std.specs.Option.{ForSome};
ghost use Rattle.cm_io.specs.Causes.{HasCause};
ghost use Rattle.cm_dump_items.specs.Reading.{Answers, Fills, HasLoadCause, IsAt, IsEndFault, IsItemFault, end_at, field_at, item_at};
ghost use Rattle.cm_dump_items.specs.declared.fault.LoadFault.{LoadFault};

use crate::LoadFault;
use crate::part::{byte_of, number_of};
use cm_io::{Failed, Source};

/// Fills the buffer from this offset on, in bytes from 0, where the source stands, and returns how many bytes were read: fewer than the
/// buffer has room for only if the source ends. Fails exactly if the source does.
pub fn fill<S: Source>(source: &mut S, at: u64, buf: &mut [u8]) -> Result<usize, Failed>
    requires room { at + length buf.old < 2 ^ 63 }
    requires at { IsAt (S.told source.old) (S.place source.old) at }
    ensures told { S.told source.new ≡ S.told source.old }
    ensures inside { IfOk result (λ got. got ≤ length buf.old) }
    ensures at { IfOk result (λ got. IsAt (S.told source.new) (S.place source.new) (at + got)) }
    ensures fills { IfOk result (λ got. ForSome (S.told source.old) (λ bytes. Fills bytes at got buf.new)) }
    ensures cause { HasCause (S.faults source.old) (S.faults source.new) result }
{
    let mut got = 0;
    while got < buf.len() {
        match source.read(&mut buf[got..]) {
            Err(Failed) => return Err(Failed),
            Ok(0) => return Ok(got),
            Ok(n) => got += n,
        }
    }
    Ok(got)
}

/// Fills the buffer with the item at this offset, in bytes from 0, where the source stands. Returns `Truncated` if the bytes end before the
/// item does, and `Read` exactly if the source fails.
pub fn item<S: Source>(source: &mut S, at: u64, buf: &mut [u8]) -> Result<(), LoadFault>
    requires room { at + length buf.old < 2 ^ 63 }
    requires at { IsAt (S.told source.old) (S.place source.old) at }
    ensures told { S.told source.new ≡ S.told source.old }
    ensures at { OnOk result (IsAt (S.told source.new) (S.place source.new) (at + length buf.old)) }
    ensures exact { ForSome (S.told source.old) (λ bytes. Answers (λ _. buf.new) result (item_at bytes at (length buf.old))) }
    ensures cause { HasLoadCause (S.faults source.old) (S.faults source.new) result }
    ensures memory { result ≢ Err LoadFault.Memory }
    ensures kind { IfErr result IsItemFault }
{
    let got = match fill(source, at, buf) {
        Ok(got) => got,
        Err(Failed) => return Err(LoadFault::Read),
    };
    if got < buf.len() {
        Err(LoadFault::Truncated {
            at: at + got as u64,
        })
    } else {
        Ok(())
    }
}

/// The byte at this offset, in bytes from 0, where the source stands. Returns `BadField` if it is not from `low` to `high`, `Truncated` if
/// the bytes end here, and `Read` exactly if the source fails.
#[tactic(auto, unfolding(crate::specs::Reading::field_at))]
pub fn byte<S: Source>(source: &mut S, at: u64, low: u8, high: u8) -> Result<u8, LoadFault>
    requires room { at + 1 < 2 ^ 63 }
    requires at { IsAt (S.told source.old) (S.place source.old) at }
    ensures told { S.told source.new ≡ S.told source.old }
    ensures at { OnOk result (IsAt (S.told source.new) (S.place source.new) (at + 1)) }
    ensures range { IfOk result (λ b. (low ≤ b) × (b ≤ high)) }
    ensures exact { ForSome (S.told source.old) (λ bytes. Answers (λ b. b) result (field_at w8 bytes at low high)) }
    ensures cause { HasLoadCause (S.faults source.old) (S.faults source.new) result }
    ensures memory { result ≢ Err LoadFault.Memory }
    ensures kind { IfErr result IsItemFault }
{
    let mut buf = [0; 1];
    item(source, at, &mut buf)?;
    byte_of(&buf, at, low, high)
}

/// The number in the four bytes at this offset, in bytes from 0, where the source stands; the lowest byte comes first. Returns `BadField`
/// if it is not from `low` to `high`, `Truncated` if the bytes end before it does, and `Read` exactly if the source fails.
#[tactic(auto, unfolding(crate::specs::Reading::field_at))]
pub fn number<S: Source>(source: &mut S, at: u64, low: u32, high: u32) -> Result<u32, LoadFault>
    requires room { at + 4 < 2 ^ 63 }
    requires at { IsAt (S.told source.old) (S.place source.old) at }
    ensures told { S.told source.new ≡ S.told source.old }
    ensures at { OnOk result (IsAt (S.told source.new) (S.place source.new) (at + 4)) }
    ensures range { IfOk result (λ x. (low ≤ x) × (x ≤ high)) }
    ensures exact { ForSome (S.told source.old) (λ bytes. Answers (λ x. x) result (field_at w32 bytes at low high)) }
    ensures cause { HasLoadCause (S.faults source.old) (S.faults source.new) result }
    ensures memory { result ≢ Err LoadFault.Memory }
    ensures kind { IfErr result IsItemFault }
{
    let mut buf = [0; 4];
    item(source, at, &mut buf)?;
    number_of(&buf, at, low, high)
}

/// Checks that no byte is at this offset, in bytes from 0, where the source stands. Returns `Trailing` if one is, and `Read` exactly if the
/// source fails.
#[tactic(auto, unfolding(crate::specs::Reading::end_at))]
pub fn end<S: Source>(source: &mut S, at: u64) -> Result<(), LoadFault>
    requires at { IsAt (S.told source.old) (S.place source.old) at }
    ensures told { S.told source.new ≡ S.told source.old }
    ensures exact { ForSome (S.told source.old) (λ bytes. Answers (λ x. x) result (end_at bytes at)) }
    ensures cause { HasLoadCause (S.faults source.old) (S.faults source.new) result }
    ensures memory { result ≢ Err LoadFault.Memory }
    ensures kind { IfErr result IsEndFault }
{
    let mut buf = [0; 1];
    match source.read(&mut buf) {
        Err(Failed) => Err(LoadFault::Read),
        Ok(0) => Ok(()),
        Ok(_) => Err(LoadFault::Trailing),
    }
}
