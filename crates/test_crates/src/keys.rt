//! The keys of small files, whose lines end with a line feed or with byte 0.
use crate::equal::{expect_equal_at, expect_true};
use cm_io::{KeyBuf, KeyPass};
use cm_keys::{Keys, LINE_END};
use cm_outer::MemSource;
use std::alloc::{AllocError, Global};
use std::process::Abort;
use std::test::Fail;

/// Whether there is another key, which is then in the buffer.
fn has_next<P: KeyPass>(keys: &mut P, key: &mut KeyBuf) -> bool {
    keys.usable() && keys.next(key) == Ok(true)
}

/// Fails the test unless a pass returns these keys and ends.
fn expect_keys<P: KeyPass>(rt: &impl Abort, keys: &mut P, expected: &[&[u8]]) {
    let mut key = KeyBuf::new();
    for bytes in expected {
        expect_true(rt, has_next(keys, &mut key));
        expect_equal_at(rt, &expected, &key.as_slice(), bytes);
    }
    expect_true(rt, !has_next(keys, &mut key));
}

/// Files, whether byte 0 ends a line of theirs, and their keys.
const FILES: [(&[u8], bool, &[&[u8]]); 5] = [
    // A carriage return belongs to its key, and so does a byte 0. A last line needs no end.
    (b"a\r\nb", false, &[b"a\r", b"b"]),
    (b"a\0b\n\0\n\0", false, &[b"a\0b", b"\0", b"\0"]),
    (b"\n\n", false, &[b"", b""]),
    (b"", false, &[]),
    // A line feed belongs to its key.
    (b"a\nb\0\0c\n", true, &[b"a\nb", b"", b"c\n"]),
];

fn check(
    rt: &impl Abort,
    alloc: Global,
    file: &[u8],
    zero: bool,
    expected: &[&[u8]],
) -> Result<(), AllocError> {
    let source = MemSource::new(file.to_vec(alloc)?, Vec::new(alloc), Vec::new(alloc));
    let mut keys = Keys::new(source, None, if zero { 0 } else { LINE_END });
    expect_keys(rt, &mut keys, expected);
    let _source = keys.into_source();
    Ok(())
}

#[test]
fn small_files(rt: HostRuntime) -> Result<(), Fail> {
    for (file, zero, expected) in &FILES {
        check(&rt, rt.alloc(), *file, *zero, *expected)?;
    }
    Ok(())
}
