//! Stores that are built over a few lines, keys that are looked up in them, and arguments and files by which nothing is done.
use crate::running::{Given, Program, expect_run, sound};
use crate::store_bytes::{AFTER_LAST_SEED, BAD_PLACE, ONE, SECOND_SEED, SPARSE, TWO};
use cm_outer::DiskCall;
use std::test::Fail;

/// The empty key with the value `x`, and `a` with `yz`.
const TWO_LINES: &[u8] = b"\tx\na\tyz\n";

/// The arguments of a build under seed 0.
const BUILD: &[&str] = &["cmph_store", "-g", "-s", "0", "keys"];

/// The arguments of a look-up.
const LOOK_UP: &[&str] = &["cmph_store", "keys"];

/// The report of a build over two lines with the empty key, and what is said after it.
const TWO_EQUAL: &[u8] = b"core bdz seed 0 edges 2\nedge 1 1 4 7\nedge 2 1 4 7\nequal 1 2\n";

const NO_SEED: &str = "cmph_store: no seed of the list gives an empty core\n";

/// A file that is longer than each store file here.
const OLDER: &[u8] = &[b'x'; 100];

const BAD_STORE: &str = "cmph_store: keys.rec: bad store\n";

/// Stores: the arguments, the lines, and the store file.
const BUILDS: [(&[&str], &[u8], &[u8]); 8] = [
    (BUILD, TWO_LINES, &TWO),
    (BUILD, b"\tx\na\tyz", &TWO),
    (BUILD, b"\tx", &ONE),
    (&["cmph_store", "-zg", "-s0", "keys"], b"\tx\0a\tyz\0", &TWO),
    (
        &["cmph_store", "-g", "-s0", "-k", "1", "keys"],
        TWO_LINES,
        &ONE,
    ),
    (
        &["cmph_store", "-g", "-s0", "-c", "3", "-b", "3", "keys"],
        TWO_LINES,
        &SPARSE,
    ),
    (
        &["cmph_store", "-g", "-s0", "-r", "2", "keys"],
        b"b\t1\np\n",
        &SECOND_SEED,
    ),
    (
        &["cmph_store", "-g", "-s4294967295", "keys"],
        b"c\t1\nm\t\n",
        &AFTER_LAST_SEED,
    ),
];

/// A look-up: the arguments, the keys, the store file, the status, the lines of the keys that are known, and the notes of the others.
type LookUp = (
    &'static [&'static str],
    &'static [u8],
    &'static [u8],
    u8,
    &'static [u8],
    &'static str,
);

const LOOK_UPS: [LookUp; 9] = [
    (
        LOOK_UP,
        b"a\nb\n",
        &TWO,
        1,
        b"a\tyz\n",
        "cmph_store: line 2: key is unknown\n",
    ),
    (LOOK_UP, b"a\n\na", &TWO, 0, b"a\tyz\n\tx\na\tyz\n", ""),
    (LOOK_UP, b"", &TWO, 0, b"", ""),
    // A key with byte 9 is looked up whole.
    (
        LOOK_UP,
        b"a\tyz\na\t\n\n",
        &TWO,
        1,
        b"\tx\n",
        "cmph_store: line 1: key is unknown\ncmph_store: line 2: key is unknown\n",
    ),
    (LOOK_UP, b"p\nb\n", &SECOND_SEED, 0, b"p\t\nb\t1\n", ""),
    (LOOK_UP, b"a\n", &SPARSE, 0, b"a\tyz\n", ""),
    (
        &["cmph_store", "-z", "keys"],
        b"a\0a\n\0",
        &TWO,
        1,
        b"a\tyz\0",
        "cmph_store: line 2: key is unknown\n",
    ),
    (
        &["cmph_store", "-k", "1", "keys"],
        b"a\nb\n",
        &TWO,
        0,
        b"a\tyz\n",
        "",
    ),
    // What is of builds alone changes nothing.
    (
        &["cmph_store", "-b3", "-c2", "-s5", "-r1", "keys"],
        b"a\n",
        &TWO,
        0,
        b"a\tyz\n",
        "",
    ),
];

/// Runs in which nothing is built and no value is written: the arguments, the keys file and the store file, if they are there, the status,
/// and what is said.
const STOPS: [(&[&str], Option<&[u8]>, Option<&[u8]>, u8, &str); 10] = [
    (LOOK_UP, Some(b"a\n"), Some(&BAD_PLACE), 3, BAD_STORE),
    (
        BUILD,
        Some(b""),
        Some(OLDER),
        8,
        "cmph_store: keys: no keys\n",
    ),
    (
        BUILD,
        None,
        Some(OLDER),
        4,
        "cmph_store: keys: cannot read\n",
    ),
    (
        LOOK_UP,
        None,
        None,
        4,
        "cmph_store: keys.rec: cannot read\n",
    ),
    (
        LOOK_UP,
        None,
        Some(&TWO),
        4,
        "cmph_store: keys: cannot read\n",
    ),
    // The store file is read first.
    (LOOK_UP, None, Some(b""), 3, BAD_STORE),
    (LOOK_UP, None, Some(OLDER), 3, BAD_STORE),
    (
        &["cmph_store", "-m", "set", "keys"],
        Some(b"a\n"),
        Some(&TWO),
        4,
        "cmph_store: set: cannot read\n",
    ),
    (
        &["cmph_store", "-m", "keys.rec", "none"],
        Some(b"a\n"),
        Some(&TWO),
        4,
        "cmph_store: none: cannot read\n",
    ),
    (
        &["cmph_store", "-m", "keys", "keys.rec"],
        Some(TWO_LINES),
        Some(&TWO),
        3,
        "cmph_store: keys: bad store\n",
    ),
];

/// Builds that are refused: the arguments, the lines, and the report.
const REFUSALS: [(&[&str], &[u8], &[u8]); 3] = [
    (BUILD, b"\t1\n\n", TWO_EQUAL),
    (&["cmph_store", "-gzs0", "keys"], b"\0\tx\0", TWO_EQUAL),
    (
        &["cmph_store", "-g", "-s0", "-r1", "keys"],
        b"b\t1\np\n",
        b"core bdz seed 0 edges 2\nedge 1 2 3 8\nedge 2 2 3 8\n",
    ),
];

/// Arguments that ask for no job, and what is said of them.
const ARGUMENTS: [(&[&str], &str); 6] = [
    (&["cmph_store"], "cmph_store: bad arguments\n"),
    (&["cmph_store", "-g"], "cmph_store: bad arguments\n"),
    (
        &["cmph_store", "-b", "11", "keys"],
        "cmph_store: bad value of -b\n",
    ),
    (
        &["cmph_store", "-k", "0", "keys"],
        "cmph_store: bad value of -k\n",
    ),
    (
        &["cmph_store", "-g", "-s-1", "-r1001", "keys"],
        "cmph_store: bad value of -r\n",
    ),
    (
        &["cmph_store", "-s-1", "-r0", "-k0", "-cx", "keys"],
        "cmph_store: bad value of -c\n",
    ),
];

/// Calls of the disk that fail: the arguments, the keys, the store file, the call, the status, and what is said.
const FAULTS: [(&[&str], &[u8], &[u8], (DiskCall, u64), u8, &str); 5] = [
    (
        BUILD,
        TWO_LINES,
        OLDER,
        (DiskCall::Read, 0),
        4,
        "cmph_store: keys: cannot read\n",
    ),
    (
        BUILD,
        TWO_LINES,
        OLDER,
        (DiskCall::Create, 0),
        5,
        "cmph_store: keys.rec: cannot write\n",
    ),
    (
        LOOK_UP,
        b"a\n",
        &TWO,
        (DiskCall::Open, 0),
        4,
        "cmph_store: keys.rec: cannot read\n",
    ),
    (
        LOOK_UP,
        b"a\n",
        &TWO,
        (DiskCall::Open, 1),
        4,
        "cmph_store: keys: cannot read\n",
    ),
    (
        LOOK_UP,
        b"a\n",
        &TWO,
        (DiskCall::Read, 0),
        4,
        "cmph_store: keys.rec: cannot read\n",
    ),
];

/// Each build, in place of a longer store file.
#[test]
fn builds(rt: HostRuntime) -> Result<(), Fail> {
    for (words, lines, file) in &BUILDS {
        let given = sound(*words, Some(*lines), Some(OLDER));
        expect_run(
            &rt,
            rt.alloc(),
            Program::Store,
            &given,
            (0, b"", ""),
            Some(*file),
        )?;
    }
    Ok(())
}

/// Which keys are known, and with which values.
#[test]
fn look_ups(rt: HostRuntime) -> Result<(), Fail> {
    for (words, keys, store, status, out, err) in &LOOK_UPS {
        let given = sound(*words, Some(*keys), Some(*store));
        let end = (*status, *out, *err);
        expect_run(&rt, rt.alloc(), Program::Store, &given, end, None)?;
    }
    Ok(())
}

/// Files that are not there or are no store.
#[test]
fn stops(rt: HostRuntime) -> Result<(), Fail> {
    for (words, keys, store, status, err) in &STOPS {
        let given = sound(*words, *keys, *store);
        let end = (*status, b"".as_slice(), *err);
        expect_run(&rt, rt.alloc(), Program::Store, &given, end, None)?;
    }
    Ok(())
}

/// A build that is refused leaves an older store file as it was, and so do arguments that ask for no job.
#[test]
fn refusals(rt: HostRuntime) -> Result<(), Fail> {
    for (words, lines, report) in &REFUSALS {
        let given = sound(*words, Some(*lines), Some(OLDER));
        let end = (1, *report, NO_SEED);
        expect_run(&rt, rt.alloc(), Program::Store, &given, end, None)?;
    }
    for (words, err) in &ARGUMENTS {
        let given = sound(*words, Some(TWO_LINES), Some(OLDER));
        let end = (2, b"".as_slice(), *err);
        expect_run(&rt, rt.alloc(), Program::Store, &given, end, None)?;
    }
    Ok(())
}

/// A call of the disk fails, or out has too little room.
#[test]
fn faults(rt: HostRuntime) -> Result<(), Fail> {
    for (words, keys, store, call, status, err) in &FAULTS {
        let given = Given {
            fails: Some(*call),
            ..sound(*words, Some(*keys), Some(*store))
        };
        let end = (*status, b"".as_slice(), *err);
        expect_run(&rt, rt.alloc(), Program::Store, &given, end, None)?;
    }
    let given = Given {
        room: 3,
        ..sound(LOOK_UP, Some(b"a\n"), Some(&TWO))
    };
    let end = (
        5,
        b"a\ty".as_slice(),
        "cmph_store: cannot write standard output\n",
    );
    expect_run(&rt, rt.alloc(), Program::Store, &given, end, None)?;
    Ok(())
}
