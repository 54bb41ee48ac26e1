//! Records put into a store of sorted runs and read from it.
ghost use Rattle.std.specs.Prelude.{◌≡◌, [], IfOk, OnOk, None, true, false};
ghost use Rattle.std.specs.Option.{ForSome};
ghost use Rattle.cm_spill.specs.Stores.{IsNextBucket};

use crate::equal::{expect_bytes, expect_equal, expect_text};
use cm_io::{Failed, KeyBuf, Spill};
use cm_outer::MemSpill;
use cm_spill::{Runs, SpillError};
use std::alloc::{AllocError, Global};
use std::test::Fail;

/// A spill of which one byte is read as another, and the bytes from `end` on aren't read. Its contents aren't known.
struct Damaged {
    spill: MemSpill,
    offset: u64,
    byte: u8,
    end: u64,
}

impl Spill for Damaged {
    ghost told = { λ _. None };

    ghost faults = { λ s. s.spill.appended.faults };

    fn append(&mut self, piece: &[u8]) -> Result<(), Failed> {
        self.spill.append(piece)
    }

    fn read_at(&mut self, offset: u64, buf: &mut [u8]) -> Result<usize, Failed> {
        let left = if offset < self.end {
            self.end - offset
        } else {
            0
        };
        let n = self.spill.read_at(offset, buf)?.min(left as usize);
        if offset <= self.offset && self.offset - offset < n as u64 {
            buf[(self.offset - offset) as usize] = self.byte;
        }
        Ok(n)
    }
}

fn new_spill(alloc: Global) -> Result<MemSpill, AllocError>
    ensures empty { IfOk result (λ spill. spill.appended.bytes ≡ []) }
{
    MemSpill::new(alloc, 1_048_576, Vec::new(alloc), Vec::new(alloc))
}

/// Notes of each record of a bucket its line, the first byte of its key and where it ends, and then the end of the bucket or the
/// fault. True if it was the end.
fn note_bucket<P: Spill>(
    alloc: Global,
    text: &mut String,
    runs: &mut Runs<P>,
    bucket: u32,
    key: &mut KeyBuf,
) -> Result<bool, AllocError>
    requires usable { runs.old.usable ≡ true }
    requires sealed { runs.old.sealed ≡ true }
    requires bucket { IsNextBucket runs.old bucket }
    ensures ended { IfOk result (λ ended. ended ≡ true → (runs.new.usable ≡ true) × (runs.new.sealed ≡ true) × (runs.new.bucket ≡ bucket) × (runs.new.ended ≡ true)) }
{
    'records: for _ in 0..4 {
        match runs.next_of(bucket, key) {
            Ok(Some(line)) => {
                let first = first_byte(key);
                let part = format!(in alloc; "{line} {first} {};", runs.read_end())?;
                text.push_str(part.as_str())?;
            }
            Ok(None) => {
                text.push_str("none;")?;
                return Ok(true);
            }
            Err(fault) => {
                let part = format!(in alloc; "{fault};")?;
                text.push_str(part.as_str())?;
                return Ok(false);
            }
        }
    }
    Ok(false)
}

fn first_byte(key: &KeyBuf) -> char {
    match key.first() {
        Some(byte) => *byte as char,
        None => ' ',
    }
}

/// Notes buckets 0 and 1.
fn note_buckets<P: Spill>(
    alloc: Global,
    text: &mut String,
    runs: &mut Runs<P>,
    key: &mut KeyBuf,
) -> Result<(), AllocError>
    requires usable { runs.old.usable ≡ true }
    requires sealed { runs.old.sealed ≡ true }
    requires bucket { runs.old.bucket ≡ 0 }
{
    if note_bucket(alloc, text, runs, 0, key)? {
        note_bucket(alloc, text, runs, 1, key)?;
    }
    Ok(())
}

/// Puts `x` into a bucket and `y` into bucket 0, and seals.
fn put_two<P: Spill>(runs: &mut Runs<P>, bucket: u32) -> Result<(), SpillError>
    requires usable { runs.old.usable ≡ true }
    requires open { runs.old.sealed ≡ false }
    requires new { runs.old.last ≡ 0 }
    ensures ready { OnOk result ((runs.new.usable ≡ true) × (runs.new.sealed ≡ true) × (runs.new.bucket ≡ 0)) }
{
    runs.put(bucket, 1, b"x")?;
    runs.put(0, 2, b"y")?;
    runs.seal()
}

/// What a store over a spill returns after two records were put, the first into a bucket, and the spill.
fn give_two<P: Spill>(alloc: Global, text: &mut String, spill: P, bucket: u32) -> P
    requires empty { ForSome (P.told spill) (λ known. known ≡ []) }
{
    let mut key = KeyBuf::new();
    let mut runs = match Runs::new(alloc, spill, 65_545) {
        Ok(runs) => runs,
        Err(spill) => return spill,
    };
    if put_two(&mut runs, bucket).is_ok() {
        let _ = note_buckets(alloc, text, &mut runs, &mut key);
    }
    runs.into_spill()
}

#[test]
fn two_records(rt: HostRuntime) -> Result<(), Fail> {
    let alloc = rt.alloc();
    let mut text = String::new(alloc);
    let mut spill = give_two(alloc, &mut text, new_spill(alloc)?, 1);
    expect_text(&rt, text.as_str(), "2 y 11;none;1 x 22;none;");
    let mut bytes = [0; 24];
    let n = spill.read_at(0, &mut bytes);
    expect_equal(&rt, &n, &Ok(22));
    expect_bytes(
        &rt,
        &bytes,
        b"\x00\x00\x00\x00\x02\x00\x00\x00\x01\x00y\x01\x00\x00\x00\x01\x00\x00\x00\x01\x00x\x00\x00",
    );
    Ok(())
}

/// What a store returns of the two records, the first in a bucket, if a byte of the spill is read as another, and those from `end` on
/// aren't read.
fn give_damaged(
    alloc: Global,
    bucket: u32,
    offset: u64,
    byte: u8,
    end: u64,
) -> Result<String, AllocError> {
    let mut text = String::new(alloc);
    let spill = Damaged {
        spill: new_spill(alloc)?,
        offset,
        byte,
        end,
    };
    let Damaged {
        spill: _,
        offset: _,
        byte: _,
        end: _,
    } = give_two(alloc, &mut text, spill, bucket);
    Ok(text)
}

/// The bucket of the first record, the place of a wrong byte, the byte, where the spill ends, and what is read.
const DAMAGES: [(u32, u64, u8, u64, &str); 11] = [
    // A key that is too long for its run, line 0, and a line below the one before.
    (
        1,
        19,
        2,
        22,
        "2 y 11;the spill is damaged at 11: 23 in place of 22;",
    ),
    (
        1,
        15,
        0,
        22,
        "2 y 11;none;the spill is damaged at 11: 0 in place of 1;",
    ),
    (
        1,
        11,
        0,
        22,
        "2 y 11;the spill is damaged at 11: 1 in place of 3;",
    ),
    // A first key that is too long, and one that leaves no room for a further header.
    (
        1,
        8,
        2,
        22,
        "2 y 12;the spill is damaged at 12: 30742 in place of 22;",
    ),
    (
        1,
        8,
        3,
        22,
        "2 y 13;the spill is damaged at 13: 23 in place of 22;",
    ),
    // Both records are of bucket 0. The first is read as of bucket 1, and the second is below it then.
    (
        0,
        0,
        1,
        22,
        "none;1 x 11;the spill is damaged at 11: 0 in place of 1;",
    ),
    // The spill ends before a header or a key does.
    (1, 22, 0, 0, "the spill is damaged at 0: 0 in place of 22;"),
    (
        1,
        22,
        0,
        10,
        "the spill is damaged at 0: 10 in place of 22;",
    ),
    (
        1,
        22,
        0,
        11,
        "2 y 11;the spill is damaged at 11: 11 in place of 22;",
    ),
    (
        1,
        22,
        0,
        15,
        "2 y 11;the spill is damaged at 11: 15 in place of 22;",
    ),
    (
        1,
        22,
        0,
        21,
        "2 y 11;none;the spill is damaged at 11: 21 in place of 22;",
    ),
];

#[test]
fn damaged_records(rt: HostRuntime) -> Result<(), Fail> {
    for (bucket, offset, byte, end, text) in &DAMAGES {
        let damaged = give_damaged(rt.alloc(), *bucket, *offset, *byte, *end)?;
        expect_text(&rt, damaged.as_str(), *text);
    }
    Ok(())
}
