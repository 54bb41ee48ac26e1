//! The key and the value of a line, and of a record in bytes.
ghost use Rattle.std.specs.Prelude.{◌≡◌, ◌+◌, ◌<◌, ◌≤◌, None, Some, drop, length, IfNone, IfSome};
ghost use Rattle.std.specs.Int.{from_le_bytes, w16};
ghost use Rattle.std.specs.Prelude.{take};
ghost use Rattle.cm_store_records.specs.Records.{first_record, record_of, record_with, Record};
ghost use Rattle.cm_store_records.specs.declared.limits.TheConstants.{HEAD_LEN};

use crate::limits::{HEAD_LEN, TAB};
use memchr::memchr;

/// A key and its value, lent where they stand.
#[derive(Clone, Copy)]
pub struct Parts<'a> {
    /// The bytes of the key.
    pub key: &'a [u8],
    /// The bytes of the value.
    pub value: &'a [u8],
}

/// The key and the value of a line: the key stands before its first tab, and the value after that. A line without a tab is a key with an
/// empty value.
pub(crate) fn split(line: &[u8]) -> Parts<'_>
    ensures record { (let r : Record = record { key = result.key.now; value = result.value.now } in r) ≡ record_of line.now }
    ensures short { length result.key.now + length result.value.now ≤ length line.now }
{
    match memchr(TAB, line) {
        Some(i) => Parts {
            key: &line[..i],
            value: &line[i + 1..],
        },
        None => Parts {
            key: line,
            value: &[],
        },
    }
}

/// The number in two bytes, of which the lower comes first.
fn number_at(bytes: &[u8], at: usize) -> usize
    requires inside { at + 2 ≤ length bytes.now }
    ensures number { result ≡ from_le_bytes w16 (take 2 (drop at bytes.now)) }
    ensures short { result < 65536 }
{
    u16::from_le_bytes([bytes[at], bytes[at + 1]]) as usize
}

/// The record that begins at an offset of bytes, or none if no whole record begins there.
pub fn record_at(bytes: &[u8], at: usize) -> Option<Parts<'_>>
    requires inside { at ≤ length bytes.now }
    ensures some { IfSome result (λ r. first_record (drop at bytes.now) ≡ Some (record { key = r.key.now; value = r.value.now })) }
    ensures none { IfNone result (first_record (drop at bytes.now) ≡ None) }
    ensures short { IfSome result (λ r. (length r.key.now < 65536) × (length r.value.now < 65536)) }
    ensures whole { IfSome result (λ r. at + HEAD_LEN + length r.key.now + length r.value.now ≤ length bytes.now) }
{
    if bytes.len() - at < HEAD_LEN {
        return None;
    }
    let key_from = at + HEAD_LEN;
    let value_from = key_from + number_at(bytes, at);
    let until = value_from + number_at(bytes, at + 2);
    if bytes.len() < until {
        return None;
    }
    Some(Parts {
        key: &bytes[key_from..value_from],
        value: &bytes[value_from..until],
    })
}
