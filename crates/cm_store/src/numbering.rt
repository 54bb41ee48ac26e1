//! The numbers of records.
ghost use Rattle.std.specs.Prelude.{◌≡◌, ◌<◌, ◌≤◌, None, [], drop, length, IfNone, IfSome};
ghost use Rattle.cm_bdz.specs.Functions.{bdz_answer};
ghost use Rattle.cm_store_records.specs.Records.{Record, first_record};
ghost use Rattle.cm_store.specs.Numbers.{AreNumbered, IsNumbered};

use arrayvec::ArrayVec;
use cm_algo_scheme::answer;
use cm_bdz::Bdz;
use cm_store_records::{HEAD_LEN, record_at};

/// How many records are numbered at once.
pub const MOST: usize = 32;

/// What the index says of the record at an offset, and where the next begins.
#[derive(Clone, Copy, Default)]
pub struct Numbered {
    /// The number of its key, if it has one.
    pub number: Option<u32>,
    /// The offset of its end.
    pub next: usize,
}

/// The number of the record that begins at an offset, or none if no whole record begins there.
pub(crate) fn number_at(index: &Bdz, bytes: &[u8], at: usize) -> Option<Numbered>
    requires inside { at ≤ length bytes.now }
    ensures some { IfSome result (λ n. IsNumbered index.now bytes.now at n) }
    ensures none { IfNone result (first_record (drop at bytes.now) ≡ None) }
{
    let record = record_at(bytes, at)?;
    Some(Numbered {
        number: answer(index, record.key),
        next: at + HEAD_LEN + record.key.len() + record.value.len(),
    })
}

/// Numbers the records from an offset on, at most `MOST` and at most `count` of them, and returns where the next begins. There are fewer only
/// if no whole record begins there.
pub(crate) fn number_some(
    index: &Bdz,
    bytes: &[u8],
    at: usize,
    count: u32,
    some: &mut ArrayVec<Numbered, MOST>,
) -> usize
    requires inside { at ≤ length bytes.now }
    ensures inside { result ≤ length bytes.now }
    ensures numbered { AreNumbered index.now bytes.now at some.new.items result }
    ensures few { length some.new.items ≤ count }
    ensures none { some.new.items ≡ [] → 0 < count → first_record (drop at bytes.now) ≡ None }
{
    some.clear();
    let mut next = at;
    'records: for i in 0..count.min(MOST as u32) {
        let Some(numbered) = number_at(index, bytes, next) else {
            return next;
        };
        some.push(numbered);
        next = numbered.next;
    }
    next
}
