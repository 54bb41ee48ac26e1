//! Builds over files that change between passes, and over spills with a wrong byte, whose contents are not known.
use crate::cases::{AMPLE, expect_left, run_over};
use crate::equal::expect_equal_at;
use crate::functions::{BRZ_LETTERS, BRZ_TWO, LETTERS};
use cm_outer::BentDisk;
use std::alloc::{AllocError, Global};
use std::process::Abort;
use std::test::Fail;

/// The contents of the file, pass by pass, the place of the spill's byte that reads wrongly and how it reads, the status, out, err, and the
/// function file.
type Row = (
    &'static [&'static str],
    &'static [&'static [u8]],
    (u64, u8),
    u8,
    &'static [u8],
    &'static str,
    Option<&'static [u8]>,
);

const CHM: &[&str] = &["cmph", "-g", "keys"];

const BRZ: &[&str] = &["cmph", "-g", "-a", "brz", "-s", "0", "keys"];

/// A place past the end of each spill here.
const PAST: (u64, u8) = (1000, 1);

const ROWS: [Row; 6] = [
    // The graph of the first seed has equal edges, so there are three passes: one counts the keys, and one for each of two seeds.
    (
        CHM,
        &[b"a\nb\n", b"a\nb\n", b"a\n"],
        PAST,
        7,
        b"",
        "cmph: keys: keys changed: 2, then 1\n",
        None,
    ),
    (
        CHM,
        &[b"a\nb\n", b"a\nb\n", b"a\nb\n"],
        PAST,
        0,
        b"",
        "",
        Some(&LETTERS),
    ),
    // The first record reads back as one of bucket 1, which is not the bucket that is asked for.
    (
        BRZ,
        &[b"\na\n"],
        (0, 1),
        7,
        b"",
        "cmph: .: spill damaged at 0: expected 2, found 0\n",
        None,
    ),
    (BRZ, &[b"\na\n"], PAST, 0, b"", "", Some(&BRZ_TWO)),
    // The key of the second record reads back as `a`, which the records' form can't show. So the bucket holds `a` twice, and has no
    // function. A build that takes the keys from a copy beside the spill returns 0 here.
    (
        BRZ,
        &[b"a\nb\n"],
        (21, b'a'),
        1,
        b"core brz split 0 bucket 0 seed 0 edges 2\nedge 1 2 5 8\nedge 2 2 5 8\nequal 1 2\n",
        "cmph: bucket 0 has no seed with an empty core\n",
        None,
    ),
    (BRZ, &[b"a\nb\n"], PAST, 0, b"", "", Some(&BRZ_LETTERS)),
];

/// A disk with this file and a spill with this wrong byte.
fn disk_of(
    rt: &impl Abort,
    alloc: Global,
    contents: &[&[u8]],
    bent: (u64, u8),
) -> Result<BentDisk, AllocError> {
    let mut passes = Vec::new(alloc);
    for bytes in contents {
        passes.push(bytes.to_vec(alloc)?)?;
    }
    assert!(rt; !passes.is_empty());
    Ok(BentDisk::new(alloc, AMPLE, passes, bent.0, bent.1))
}

#[test]
fn builds(rt: HostRuntime) -> Result<(), Fail> {
    for (words, contents, bent, status, out, err, made) in &ROWS {
        let mut disk = disk_of(&rt, rt.alloc(), *contents, *bent)?;
        let left = run_over(rt.alloc(), *words, &mut disk, AMPLE)?;
        expect_left(&rt, *words, &left, *status, *out, *err);
        expect_equal_at(&rt, err, &disk.made(), made);
    }
    Ok(())
}
