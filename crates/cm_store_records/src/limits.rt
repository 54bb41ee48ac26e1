//! The form of records, and how many bytes they take at most.
ghost use Rattle.std.specs.Prelude.{◌≡◌};

/// The byte that ends the key of a line.
pub const TAB: u8 = 9;

/// How many bytes of a record stand before its key: the lengths of key and value.
pub const HEAD_LEN: usize = 4;

/// How many bytes all records take at most.
pub const MAX_RECORD_BYTES: usize = 1_073_741_824;

/// A tab ends the key of a line, and records take a gibibyte at most.
pub fn of_records()
    ensures tab { TAB ≡ 9 }
    ensures head { HEAD_LEN ≡ 4 }
    ensures bytes { MAX_RECORD_BYTES ≡ 1073741824 }
{}
