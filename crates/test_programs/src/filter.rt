//! Filters that are built over a few keys, keys that hold in them, and arguments and files by which nothing is done.
use crate::filter_bytes::{
    AFTER_LAST_SEED, GREATEST, GREATEST_WIDE, NARROW, NARROW_PADDED, ONE, SECOND_SEED, TRIPLE, TWO,
    WIDE,
};
use crate::running::{Given, Program, expect_changed, expect_run, sound};
use cm_outer::DiskCall;
use std::test::Fail;

/// The empty key and `a`.
const TWO_KEYS: &[u8] = b"\na\n";

/// The arguments of a build under seed 0.
const BUILD: &[&str] = &["cmph_filter", "-g", "-s", "0", "keys"];

/// The arguments of a test of keys.
const TEST: &[&str] = &["cmph_filter", "keys"];

/// The report of a build over two empty keys, and what is said after it.
const TWO_EQUAL: &[u8] = b"core bdz seed 0 edges 2\nedge 1 1 4 7\nedge 2 1 4 7\nequal 1 2\n";

const NO_SEED: &str = "cmph_filter: no seed of the list gives an empty core\n";

/// A file that is longer than each filter file here.
const OLDER: &[u8] = &[b'x'; 100];

/// Filters: the arguments, the keys, and the filter file.
const BUILDS: [(&[&str], &[u8], &[u8]); 10] = [
    (BUILD, TWO_KEYS, &TWO),
    (BUILD, b"\n", &ONE),
    (BUILD, b"\na", &TWO),
    (
        &["cmph_filter", "-g", "-s0", "-w", "1", "keys"],
        TWO_KEYS,
        &NARROW,
    ),
    (
        &["cmph_filter", "-g", "-s0", "-w", "16", "keys"],
        TWO_KEYS,
        &WIDE,
    ),
    (&["cmph_filter", "-zg", "-s0", "keys"], b"\0a\0", &TWO),
    (
        &["cmph_filter", "-g", "-s0", "-k", "1", "keys"],
        TWO_KEYS,
        &ONE,
    ),
    (
        &["cmph_filter", "-g", "-s0", "-c", "3", "keys"],
        TWO_KEYS,
        &TRIPLE,
    ),
    (
        &["cmph_filter", "-g", "-s0", "-r", "2", "keys"],
        b"b\np\n",
        &SECOND_SEED,
    ),
    (
        &["cmph_filter", "-g", "-s4294967295", "keys"],
        b"c\nm\n",
        &AFTER_LAST_SEED,
    ),
];

/// Tests of keys: the arguments, the keys, the filter file, the status, and the lines of the keys that hold.
const TESTS: [(&[&str], &[u8], &[u8], u8, &[u8]); 11] = [
    (TEST, b"a\n\n", &TWO, 0, b"a\n\n"),
    (TEST, b"a\n", &ONE, 1, b""),
    (TEST, b"\na\n\n", &ONE, 1, b"\n\n"),
    (TEST, b"", &TWO, 0, b""),
    (TEST, b"a", &TWO, 0, b"a\n"),
    // With one bit every other key holds.
    (TEST, b"b\nc\n", &NARROW, 0, b"b\nc\n"),
    (TEST, b"b\n\nc\na\n", &WIDE, 1, b"\na\n"),
    (&["cmph_filter", "-z", "keys"], b"a\0\0", &TWO, 0, b"a\0\0"),
    (&["cmph_filter", "-z", "keys"], b"a\n\0", &TWO, 1, b""),
    (
        &["cmph_filter", "-k", "1", "keys"],
        b"\na\n",
        &ONE,
        0,
        b"\n",
    ),
    // What is of builds alone changes nothing.
    (
        &["cmph_filter", "-w3", "-c2", "-s5", "-r1", "keys"],
        b"a\n",
        &TWO,
        0,
        b"a\n",
    ),
];

const CUT_AT_24: &str = "cmph_filter: keys.flt: bad dump: truncated at 24\n";

/// Runs in which nothing is built and no key is written: the arguments, the keys and the filter file, if they are there, the status, and
/// what is said.
const STOPS: [(&[&str], Option<&[u8]>, Option<&[u8]>, u8, &str); 15] = [
    // Headers that claim the most cells that there may be, and have none. No memory is taken for the claim.
    (TEST, None, Some(&GREATEST), 3, CUT_AT_24),
    (TEST, None, Some(&GREATEST_WIDE), 3, CUT_AT_24),
    (
        TEST,
        None,
        Some(&NARROW_PADDED),
        3,
        "cmph_filter: keys.flt: bad dump: bad padding at 25\n",
    ),
    (
        BUILD,
        Some(b""),
        Some(OLDER),
        8,
        "cmph_filter: keys: no keys\n",
    ),
    (
        BUILD,
        None,
        Some(OLDER),
        4,
        "cmph_filter: keys: cannot read\n",
    ),
    (BUILD, None, None, 4, "cmph_filter: keys: cannot read\n"),
    (
        TEST,
        Some(TWO_KEYS),
        None,
        4,
        "cmph_filter: keys.flt: cannot read\n",
    ),
    (
        TEST,
        None,
        Some(&TWO),
        4,
        "cmph_filter: keys: cannot read\n",
    ),
    (TEST, None, None, 4, "cmph_filter: keys.flt: cannot read\n"),
    (
        TEST,
        None,
        Some(b""),
        3,
        "cmph_filter: keys.flt: bad dump: truncated at 0\n",
    ),
    (
        TEST,
        None,
        Some(OLDER),
        3,
        "cmph_filter: keys.flt: bad dump: bad magic\n",
    ),
    (
        &["cmph_filter", "-m", "set", "keys"],
        Some(TWO_KEYS),
        Some(&TWO),
        4,
        "cmph_filter: set: cannot read\n",
    ),
    (
        &["cmph_filter", "-m", "keys.flt", "none"],
        Some(TWO_KEYS),
        Some(&TWO),
        4,
        "cmph_filter: none: cannot read\n",
    ),
    (
        &["cmph_filter", "-g", "none"],
        Some(TWO_KEYS),
        Some(&TWO),
        4,
        "cmph_filter: none: cannot read\n",
    ),
    // A filter file as the file of keys: the whole is one key.
    (
        &["cmph_filter", "-zm", "keys", "keys.flt"],
        Some(b"x"),
        Some(&TWO),
        3,
        "cmph_filter: keys: bad dump: truncated at 1\n",
    ),
];

/// Builds that are refused: the arguments, the keys, and the report.
const REFUSALS: [(&[&str], &[u8], &[u8]); 4] = [
    (BUILD, b"\n\n", TWO_EQUAL),
    (&["cmph_filter", "-gzs0", "keys"], b"\0\0", TWO_EQUAL),
    (
        &["cmph_filter", "-g", "-s0", "-w1", "-r1000", "keys"],
        b"\n\n",
        TWO_EQUAL,
    ),
    (
        &["cmph_filter", "-g", "-s0", "-r1", "keys"],
        b"b\np\n",
        b"core bdz seed 0 edges 2\nedge 1 2 3 8\nedge 2 2 3 8\n",
    ),
];

/// Arguments that ask for no job, and what is said of them.
const ARGUMENTS: [(&[&str], &str); 8] = [
    (&["cmph_filter"], "cmph_filter: bad arguments\n"),
    (&["cmph_filter", "-g"], "cmph_filter: bad arguments\n"),
    (
        &["cmph_filter", "-g", "-w", "17", "keys"],
        "cmph_filter: bad value of -w\n",
    ),
    (
        &["cmph_filter", "-k", "0", "keys"],
        "cmph_filter: bad value of -k\n",
    ),
    (
        &["cmph_filter", "-g", "-r", "1001", "keys"],
        "cmph_filter: bad value of -r\n",
    ),
    (
        &["cmph_filter", "-g", "-c", "0.999999", "keys"],
        "cmph_filter: bad value of -c\n",
    ),
    (
        &["cmph_filter", "-g", "-s", "4294967296", "keys"],
        "cmph_filter: bad value of -s\n",
    ),
    (
        &["cmph_filter", "-w0", "-s-1", "-r0", "-k0", "-cx", "keys"],
        "cmph_filter: bad value of -c\n",
    ),
];

/// Calls of the disk that fail: the arguments, the keys, the filter file, the call, the status, and what is said.
const FAULTS: [(&[&str], &[u8], &[u8], (DiskCall, u64), u8, &str); 6] = [
    (
        BUILD,
        TWO_KEYS,
        OLDER,
        (DiskCall::Read, 0),
        4,
        "cmph_filter: keys: cannot read\n",
    ),
    (
        BUILD,
        TWO_KEYS,
        OLDER,
        (DiskCall::Rewind, 0),
        4,
        "cmph_filter: keys: cannot read\n",
    ),
    (
        BUILD,
        TWO_KEYS,
        OLDER,
        (DiskCall::Create, 0),
        5,
        "cmph_filter: keys.flt: cannot write\n",
    ),
    (
        TEST,
        TWO_KEYS,
        &TWO,
        (DiskCall::Open, 0),
        4,
        "cmph_filter: keys.flt: cannot read\n",
    ),
    (
        TEST,
        TWO_KEYS,
        &TWO,
        (DiskCall::Open, 1),
        4,
        "cmph_filter: keys: cannot read\n",
    ),
    (
        TEST,
        TWO_KEYS,
        &TWO,
        (DiskCall::Read, 0),
        4,
        "cmph_filter: keys.flt: cannot read\n",
    ),
];

/// Each build, in place of a longer filter file.
#[test]
fn builds(rt: HostRuntime) -> Result<(), Fail> {
    for (words, keys, file) in &BUILDS {
        let given = sound(*words, Some(*keys), Some(OLDER));
        expect_run(
            &rt,
            rt.alloc(),
            Program::Filter,
            &given,
            (0, b"", ""),
            Some(*file),
        )?;
    }
    Ok(())
}

/// Which keys hold.
#[test]
fn tests(rt: HostRuntime) -> Result<(), Fail> {
    for (words, keys, filter, status, out) in &TESTS {
        let given = sound(*words, Some(*keys), Some(*filter));
        expect_run(
            &rt,
            rt.alloc(),
            Program::Filter,
            &given,
            (*status, *out, ""),
            None,
        )?;
    }
    Ok(())
}

/// Files that are not there or hold nothing.
#[test]
fn stops(rt: HostRuntime) -> Result<(), Fail> {
    for (words, keys, filter, status, err) in &STOPS {
        let given = sound(*words, *keys, *filter);
        expect_run(
            &rt,
            rt.alloc(),
            Program::Filter,
            &given,
            (*status, b"", *err),
            None,
        )?;
    }
    Ok(())
}

/// A build that is refused leaves an older filter file as it was, and so do arguments that ask for no job.
#[test]
fn refusals(rt: HostRuntime) -> Result<(), Fail> {
    for (words, keys, report) in &REFUSALS {
        let given = sound(*words, Some(*keys), Some(OLDER));
        let end = (1, *report, NO_SEED);
        expect_run(&rt, rt.alloc(), Program::Filter, &given, end, None)?;
    }
    for (words, err) in &ARGUMENTS {
        let given = sound(*words, Some(TWO_KEYS), Some(OLDER));
        let end = (2, b"".as_slice(), *err);
        expect_run(&rt, rt.alloc(), Program::Filter, &given, end, None)?;
    }
    Ok(())
}

/// A call of the disk fails, or out has too little room.
#[test]
fn faults(rt: HostRuntime) -> Result<(), Fail> {
    for (words, keys, filter, call, status, err) in &FAULTS {
        let given = Given {
            fails: Some(*call),
            ..sound(*words, Some(*keys), Some(*filter))
        };
        let end = (*status, b"".as_slice(), *err);
        expect_run(&rt, rt.alloc(), Program::Filter, &given, end, None)?;
    }
    let given = Given {
        room: 2,
        ..sound(TEST, Some(TWO_KEYS), Some(&TWO))
    };
    let end = (
        5,
        b"\na".as_slice(),
        "cmph_filter: cannot write standard output\n",
    );
    expect_run(&rt, rt.alloc(), Program::Filter, &given, end, None)?;
    Ok(())
}

/// A line that is too long after `a` and the empty key: a build stops, and a test has written the keys before it.
#[test]
fn long_line(rt: HostRuntime) -> Result<(), Fail> {
    let mut keys = vec![in rt.alloc(); b'b'; 65_539]?;
    keys[0] = b'a';
    keys[1] = b'\n';
    keys[2] = b'\n';
    let err = "cmph_filter: keys: line 3 is too long\n";
    let build = sound(BUILD, Some(&keys), Some(&TWO));
    let end = (8, b"".as_slice(), err);
    expect_run(&rt, rt.alloc(), Program::Filter, &build, end, None)?;
    let test = sound(TEST, Some(&keys), Some(&TWO));
    let end = (8, b"a\n\n".as_slice(), err);
    expect_run(&rt, rt.alloc(), Program::Filter, &test, end, None)?;
    Ok(())
}

/// The keys of a build are counted first, and then others come.
#[test]
fn keys_that_change(rt: HostRuntime) -> Result<(), Fail> {
    let contents = [TWO_KEYS, TWO_KEYS, b"\na\n\n\n"];
    let err = "cmph_filter: keys: keys changed: 2, then 3\n";
    expect_changed(&rt, rt.alloc(), Program::Filter, BUILD, &contents, err)?;
    Ok(())
}
