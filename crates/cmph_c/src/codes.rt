//! The codes that calls return.
ghost use Rattle.std.specs.Prelude.{◌≡◌};
ghost use Rattle.cm_dump_items.specs.Reading.{IsByteFault};
ghost use Rattle.cm_keys_lent.specs.declared.ends.EndsFault.{EndsFault};
ghost use Rattle.cmph_c.specs.Codes.{at_only, code_by, ends_code, ends_place, place_by};

use cm_dump_items::LoadFault;
use cm_keys_lent::EndsFault;

/// Done.
pub const OK: u32 = 0;

/// Out of memory.
pub const MEMORY: u32 = 1;

/// The bytes end before the function does, at this offset.
pub const TRUNCATED: u32 = 2;

/// The bytes begin with the magic of no version.
pub const BAD_MAGIC: u32 = 3;

/// There is no algorithm of this number.
pub const BAD_ALGORITHM: u32 = 4;

/// The field at this offset is not in its range.
pub const BAD_FIELD: u32 = 5;

/// The byte at this offset has bits past the last cell that are not zero.
pub const BAD_PADDING: u32 = 6;

/// The cell whose lowest bit or digit is in the byte at this offset is not below its bound.
pub const BAD_CELL: u32 = 7;

/// The cells from this offset on have another count than there are keys.
pub const BAD_COUNT: u32 = 8;

/// The rank at this offset is not that of its cell.
pub const BAD_RANK: u32 = 9;

/// Bytes follow the function.
pub const TRAILING: u32 = 10;

/// The struct holds no function.
pub const NO_FUNCTION: u32 = 11;

/// The end of the key of this index, from 0, is before the end of the key before it or past the bytes, or its key is too long.
pub const BAD_END: u32 = 12;

/// There are more keys than a pass may have.
pub const TOO_MANY_KEYS: u32 = 13;

/// The room is too small: this many bytes, or numbers, are needed.
pub const NO_ROOM: u32 = 14;

/// A number of the plan is not in its range.
pub const BAD_PLAN: u32 = 15;

/// There are no keys.
pub const NO_KEYS: u32 = 16;

/// Two keys are equal: those of these indices, from 0.
pub const EQUAL_KEYS: u32 = 17;

/// No seed works, and no two keys are equal among those that stand in the way under the first.
pub const NO_SEED: u32 = 18;

/// There are no shards, or too many.
pub const BAD_SHARDS: u32 = 19;

/// The spill is too small: this many bytes are needed.
pub const NO_SPILL: u32 = 20;

/// Every seed leaves a bucket with too many keys, and no two keys are equal in the first such bucket under the first seed.
pub const NO_SPLIT: u32 = 21;

/// Where a fault is: an offset in bytes, a number of them, or the index of a key, from 0, as the code says, and the index of the second key of
/// two that are equal.
#[repr(C)]
#[derive(Clone, Copy)]
pub struct Place {
    pub at: u64,
    pub again: u64,
}

/// A place with nothing more to say than a number.
pub(crate) fn at_only(at: u64) -> Place
    ensures place { result ≡ at_only at }
{
    Place { at, again: 0 }
}

/// The code of a fault of bytes, and its offset.
pub(crate) fn code_of(fault: LoadFault) -> (u32, u64)
    requires kind { IsByteFault fault }
    ensures code { result.0 ≡ code_by fault }
    ensures place { result.1 ≡ place_by fault }
{
    match fault {
        LoadFault::Truncated { at } => (TRUNCATED, at),
        LoadFault::BadMagic => (BAD_MAGIC, 0),
        LoadFault::BadAlgorithm => (BAD_ALGORITHM, 8),
        LoadFault::BadField { at } => (BAD_FIELD, at),
        LoadFault::BadPadding { at } => (BAD_PADDING, at),
        LoadFault::BadCell { at } => (BAD_CELL, at),
        LoadFault::BadCount { at } => (BAD_COUNT, at),
        LoadFault::BadRank { at } => (BAD_RANK, at),
        LoadFault::Trailing => (TRAILING, 0),
        LoadFault::Memory | LoadFault::Read => unreachable!(),
    }
}

/// The code of a fault of ends, and the index of the key.
pub(crate) fn ends_code_of(fault: EndsFault) -> (u32, u64)
    ensures code { result.0 ≡ ends_code fault }
    ensures place { result.1 ≡ ends_place fault }
{
    match fault {
        EndsFault::TooMany => (TOO_MANY_KEYS, 0),
        EndsFault::BadEnd { key } => (BAD_END, key as u64),
    }
}
