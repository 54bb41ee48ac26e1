//! An item of many bytes.
ghost use Rattle.std.specs.Prelude.{◌≡◌, ◌+◌, ◌-◌, ◌<◌, ◌≤◌, ◌^◌, ◌++◌, OnOk, IfErr, IfOk, length, replicate};
ghost use Rattle.std.specs.Option.{ForSome};
ghost use Rattle.cm_dump_items.specs.Reading.{Answers, HasLoadCause, IsAt, IsLongFault, item_at};

use crate::LoadFault;
use crate::items::item;
use cm_bits::SPARE;
use cm_io::Source;
use std::alloc::{AllocError, Global};

/// How many bytes are read at a time.
const CHUNK: u64 = 65_536;

/// The initial capacity in bytes, so that a short item is never moved.
const FIRST: u64 = 524_288;

/// Appends zeros, up to `len` bytes, with room for the bytes that a table keeps past its image.
fn room_for(all: &mut Vec<u8>, len: usize) -> Result<(), AllocError>
    requires more { length all.old.items ≤ len }
    requires few { len < 2 ^ 62 }
    ensures items { OnOk result (all.new.items ≡ all.old.items ++ replicate (len - length all.old.items) 0) }
{
    all.reserve(len - all.len() + SPARE)?;
    all.resize(len, 0)
}

/// The item of `n` bytes at this offset, in bytes from 0, where the source stands, with room for `SPARE` more. Memory is allocated as bytes
/// are read, whatever `n` is. The bytes are read directly into the result. Returns `Truncated` if the bytes end before the item does,
/// `Read` exactly if the source fails, and `Memory` only if memory runs out.
pub fn long_item<S: Source>(
    alloc: Global,
    source: &mut S,
    at: u64,
    n: u64,
) -> Result<Vec<u8>, LoadFault>
    requires room { at + n < 2 ^ 62 }
    requires at { IsAt (S.told source.old) (S.place source.old) at }
    ensures told { S.told source.new ≡ S.told source.old }
    ensures at { OnOk result (IsAt (S.told source.new) (S.place source.new) (at + n)) }
    ensures size { IfOk result (λ v. length v.items ≡ n) }
    ensures exact { ForSome (S.told source.old) (λ bytes. Answers (λ v. v.items) result (item_at bytes at n)) }
    ensures cause { HasLoadCause (S.faults source.old) (S.faults source.new) result }
    ensures kind { IfErr result IsLongFault }
{
    let mut all = match Vec::with_capacity(alloc, n.min(FIRST) as usize + SPARE) {
        Ok(all) => all,
        Err(_) => return Err(LoadFault::Memory),
    };
    let mut done = 0;
    while done < n {
        let want = (n - done).min(CHUNK);
        match room_for(&mut all, (done + want) as usize) {
            Err(_) => return Err(LoadFault::Memory),
            Ok(()) => {}
        }
        match item(source, at + done, &mut all[done as usize..]) {
            Err(fault) => return Err(fault),
            Ok(()) => {}
        }
        done += want;
    }
    Ok(all)
}
