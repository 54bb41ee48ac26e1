//! What splits, joins, queries and tests of shards leave, and what they say if a call of the disk fails.
use crate::equal::expect_equal_at;
use crate::running::{AMPLE, Left, Program, expect_left, run_over};
use crate::shards_bytes::{MANIFEST, ONE, TWO};
use cm_outer::{DiskCall, MemDisk};
use std::alloc::{AllocError, Global};
use std::process::Abort;
use std::test::Fail;

/// Three keys, of which `b` is in the first of two shards and the others are in the second.
const KEYS: &[u8] = b"\na\nb\n";

/// How many keys each shard has.
const COUNTS: &[u8] = b"1\n2\n";

/// What the files that a run makes hold before it.
const OLDER: &[u8] = b"older";

/// The numbers of the keys.
const NUMBERS: &[u8] = b" -> 1\na -> 2\nb -> 0\n";

const SPLIT: &[&str] = &["cmph_shards", "-n", "2", "-d", "d", "keys"];

const JOIN: &[&str] = &["cmph_shards", "-j", "-m", "d/new", "-d", "c", "d/0", "d/1"];

const QUERY: &[&str] = &["cmph_shards", "-m", "d/all", "keys"];

const TEST: &[&str] = &["cmph_shards", "-t", "-m", "d/all", "keys"];

const KEYS_UNREAD: &str = "cmph_shards: keys: cannot read\n";

const SPLIT_UNWRITTEN: &str = "cmph_shards: d: cannot write\n";

const FIRST_UNREAD: &str = "cmph_shards: d/0: cannot read\n";

const SECOND_UNREAD: &str = "cmph_shards: d/1: cannot read\n";

const COUNTS_UNREAD: &str = "cmph_shards: c/counts: cannot read\n";

const JOIN_UNWRITTEN: &str = "cmph_shards: d/new: cannot write\n";

const MANIFEST_UNREAD: &str = "cmph_shards: d/all: cannot read\n";

const OUT_UNWRITTEN: &str = "cmph_shards: cannot write standard output\n";

/// More calls of a kind than a run makes.
const MOST_CALLS: u64 = 100;

/// Runs in which nothing fails: the arguments, what out gets, and the files that are made with what they hold.
const SOUND: [(&[&str], &[u8], &[(&str, &[u8])]); 4] = [
    (
        SPLIT,
        b"",
        &[
            ("d/shard-0000", b"b\n"),
            ("d/shard-0001", b"\na\n"),
            ("d/counts", COUNTS),
        ],
    ),
    (JOIN, b"", &[("d/new", &MANIFEST)]),
    (QUERY, NUMBERS, &[]),
    (TEST, b"true\n", &[]),
];

/// Calls of the disk that fail in turn: the arguments, the kind of call, the status, and what is said if the first, the second and so on
/// fails. Each later one fails as the last of these.
const FAULTS: [(&[&str], DiskCall, u8, &[&str]); 15] = [
    (SPLIT, DiskCall::Open, 4, &[KEYS_UNREAD]),
    (SPLIT, DiskCall::Read, 4, &[KEYS_UNREAD]),
    (SPLIT, DiskCall::CheckDistinct, 5, &[SPLIT_UNWRITTEN]),
    (SPLIT, DiskCall::Create, 5, &[SPLIT_UNWRITTEN]),
    (SPLIT, DiskCall::Extend, 5, &[SPLIT_UNWRITTEN]),
    (
        JOIN,
        DiskCall::Open,
        4,
        &[FIRST_UNREAD, SECOND_UNREAD, COUNTS_UNREAD],
    ),
    (JOIN, DiskCall::Read, 4, &[FIRST_UNREAD]),
    (JOIN, DiskCall::CheckDistinct, 5, &[JOIN_UNWRITTEN]),
    (JOIN, DiskCall::Create, 5, &[JOIN_UNWRITTEN]),
    (JOIN, DiskCall::Write, 5, &[JOIN_UNWRITTEN]),
    (JOIN, DiskCall::Close, 5, &[JOIN_UNWRITTEN]),
    (
        QUERY,
        DiskCall::Open,
        4,
        &[MANIFEST_UNREAD, FIRST_UNREAD, SECOND_UNREAD, KEYS_UNREAD],
    ),
    (
        QUERY,
        DiskCall::Read,
        4,
        &[
            MANIFEST_UNREAD,
            MANIFEST_UNREAD,
            MANIFEST_UNREAD,
            FIRST_UNREAD,
        ],
    ),
    (
        TEST,
        DiskCall::Open,
        4,
        &[MANIFEST_UNREAD, FIRST_UNREAD, SECOND_UNREAD, KEYS_UNREAD],
    ),
    (
        TEST,
        DiskCall::Read,
        4,
        &[
            MANIFEST_UNREAD,
            MANIFEST_UNREAD,
            MANIFEST_UNREAD,
            FIRST_UNREAD,
        ],
    ),
];

/// Runs for which files or out have too little room, in bytes: the arguments, both rooms, what out gets, and what is said.
const FULL: [(&[&str], usize, usize, &[u8], &str); 4] = [
    (SPLIT, 3, AMPLE, b"", SPLIT_UNWRITTEN),
    (JOIN, 169, AMPLE, b"", JOIN_UNWRITTEN),
    (QUERY, AMPLE, 4, b" -> ", OUT_UNWRITTEN),
    (TEST, AMPLE, 4, b"true", OUT_UNWRITTEN),
];

/// The files before a run, on a disk whose files have this room.
fn files(alloc: Global, room: usize) -> Result<MemDisk, AllocError> {
    let mut disk = MemDisk::new(alloc, room);
    for (path, bytes) in &[
        ("keys", KEYS),
        ("d/0", &ONE),
        ("d/1", &TWO),
        ("d/all", &MANIFEST),
        ("d/counts", OLDER),
        ("d/new", OLDER),
        ("c/counts", COUNTS),
    ] {
        disk.put(*path, *bytes)?;
    }
    Ok(disk)
}

/// The text of a call, or the last text if there is none.
fn text_of<'a>(texts: &[&'a str], number: u64) -> &'a str {
    match texts.get(number as usize).or(texts.last()) {
        Some(text) => *text,
        None => "",
    }
}

/// Fails the test unless a file is as before the run, or has a prefix of these bytes.
fn expect_prefix(rt: &impl Abort, words: &[&str], disk: &MemDisk, path: &str, whole: &[u8]) {
    let found = disk.get(path).unwrap_or(OLDER);
    let fits = found == OLDER || whole.starts_with(found);
    expect_equal_at(rt, &(words, path), &fits, &true);
}

/// Fails the test unless a run that failed says so, counts faults of its kind alone, and leaves prefixes of what it makes.
fn expect_failed(
    rt: &impl Abort,
    words: &[&str],
    left: &Left,
    end: (u8, &[u8], &str),
    disk: &MemDisk,
) {
    expect_left(rt, words, left, end);
    let faults = (disk.read_faults() > 0, disk.write_faults() > 0);
    expect_equal_at(rt, &words, &faults, &(end.0 == 4, end.0 == 5));
    expect_prefix(rt, words, disk, "d/counts", b"");
    expect_prefix(rt, words, disk, "d/shard-0000", b"b\n");
    expect_prefix(rt, words, disk, "d/shard-0001", b"\na\n");
    expect_prefix(rt, words, disk, "d/new", &MANIFEST);
}

#[test]
fn sound_runs(rt: HostRuntime) -> Result<(), Fail> {
    for (words, out, made) in &SOUND {
        let mut disk = files(rt.alloc(), AMPLE)?;
        let left = run_over(Program::Shards, rt.alloc(), *words, &mut disk, AMPLE)?;
        expect_left(&rt, *words, &left, (0, *out, ""));
        for (path, bytes) in *made {
            expect_equal_at(&rt, path, &disk.get(*path), &Some(*bytes));
        }
    }
    Ok(())
}

/// Each call of a kind fails, until a run makes no further one.
#[test]
fn faults(rt: HostRuntime) -> Result<(), Fail> {
    for (words, call, status, texts) in &FAULTS {
        let mut failed = 0;
        for number in 0..MOST_CALLS {
            let mut disk = files(rt.alloc(), AMPLE)?;
            disk.fail(*call, number)?;
            let left = run_over(Program::Shards, rt.alloc(), *words, &mut disk, AMPLE)?;
            if left.status == 0 {
                // No call failed that was passed over.
                let faults = (disk.read_faults(), disk.write_faults());
                expect_equal_at(&rt, &(*words, *call), &faults, &(0, 0));
                break;
            }
            let end = (*status, b"".as_slice(), text_of(*texts, number));
            expect_failed(&rt, *words, &left, end, &disk);
            failed = number + 1;
        }
        let all = failed >= texts.len() as u64 && failed < MOST_CALLS;
        expect_equal_at(&rt, &(*words, *call), &all, &true);
    }
    Ok(())
}

#[test]
fn full_disks(rt: HostRuntime) -> Result<(), Fail> {
    for (words, room, out_room, out, err) in &FULL {
        let mut disk = files(rt.alloc(), *room)?;
        let left = run_over(Program::Shards, rt.alloc(), *words, &mut disk, *out_room)?;
        expect_left(&rt, *words, &left, (5, *out, *err));
    }
    Ok(())
}
