//! What the judge of reports says of small reports, and of arguments and files that are none.
use crate::running::{Given, Program, expect_changed, expect_run, sound};
use cm_outer::DiskCall;
use std::test::Fail;

/// The report of a build over two empty keys.
const TWO: &[u8] = b"core chm seed 0 edges 2\nedge 1 4 1\nedge 2 4 1\nequal 1 2\n";

/// Two empty keys.
const EMPTIES: &[u8] = b"\n\n";

/// Three empty keys, and `a` in the second line.
const EMPTIES_AND_A: &[u8] = b"\na\n\n\n";

/// The report of a build by BRZ over two keys `a`.
const TWICE: &[u8] =
    b"core brz split 0 bucket 0 seed 0 edges 2\nedge 1 2 5 8\nedge 2 2 5 8\nequal 1 2\n";

/// The arguments of most runs.
const PLAIN: &[&str] = &["cmph_judge", "report", "keys"];

/// Reports and keys, each with the status and the output of its verdict.
const VERDICTS: [(&[u8], &[u8], u8, &[u8]); 11] = [
    (TWO, EMPTIES, 0, b"true\n"),
    (
        b"core chm seed 0 edges 2\nedge 1 4 1\nedge 2 4 1\n",
        EMPTIES,
        1,
        b"false: pair of line 2\n",
    ),
    (
        b"core chm seed 0 edges 1\nedge 2 4 1\n",
        EMPTIES,
        1,
        b"false: vertex 1 is touched once\n",
    ),
    (
        b"core chm seed 0 edges 2\nedge 1 1 7\nedge 3 1 7\nequal 1 3\n",
        EMPTIES_AND_A,
        1,
        b"false: line 4 is missing\n",
    ),
    (TWO, b"\n", 1, b"false: line 2 is no key\n"),
    (TWO, b"\n\nx\n", 1, b"false: line 1 has other vertices\n"),
    (
        b"core bdz seed 0 edges 2\nedge 1 1 4 7\nedge 2 1 4 7\nequal 1 2\n",
        EMPTIES,
        0,
        b"true\n",
    ),
    (
        b"core bdz_ph seed 0 edges 2\nedge 1 1 4 7\nedge 2 1 4 7\nequal 1 2\n",
        EMPTIES,
        0,
        b"true\n",
    ),
    (TWICE, b"a\na\n", 0, b"true\n"),
    (
        b"core brz split 0 bucket 1 seed 0 edges 1\nedge 1 2 5 8\n",
        b"a\na\n",
        1,
        b"false: no such bucket\n",
    ),
    (
        b"overfull brz seed 0 bucket 0 keys 1024\n",
        EMPTIES,
        1,
        b"false: no such bucket\n",
    ),
];

/// Files that are no report, keys by which nothing is judged, and files that are not there.
const STOPS: [(Option<&[u8]>, Option<&[u8]>, u8, &str); 7] = [
    (
        Some(b""),
        Some(EMPTIES),
        3,
        "cmph_judge: report: bad report at line 1\n",
    ),
    // A line without its end.
    (
        Some(b"core chm seed 0 edges 1\nedge 1 4 1"),
        Some(EMPTIES),
        3,
        "cmph_judge: report: bad report at line 2\n",
    ),
    // The head names the most edges that a report may have, and two follow.
    (
        Some(b"core chm seed 0 edges 67108864\nedge 1 4 1\nedge 2 4 1\n"),
        None,
        3,
        "cmph_judge: report: bad report at line 4\n",
    ),
    (Some(TWO), Some(b""), 8, "cmph_judge: keys: no keys\n"),
    (None, Some(EMPTIES), 4, "cmph_judge: report: cannot read\n"),
    (Some(TWO), None, 4, "cmph_judge: keys: cannot read\n"),
    (None, None, 4, "cmph_judge: report: cannot read\n"),
];

/// Arguments and keys, each with the status and the output of its run, to out and to err.
const ARGUMENTS: [(&[&str], &[u8], u8, &[u8], &str); 9] = [
    (
        &["cmph_judge", "-k", "2", "report", "keys"],
        b"\n\nx\n",
        0,
        b"true\n",
        "",
    ),
    (
        &["cmph_judge", "-z", "report", "keys"],
        b"\0\0",
        0,
        b"true\n",
        "",
    ),
    (
        &["cmph_judge", "-c", "2.09", "-b", "700", "report", "keys"],
        EMPTIES,
        0,
        b"true\n",
        "",
    ),
    (
        &["cmph_judge", "-c", "3", "report", "keys"],
        EMPTIES,
        1,
        b"false: line 1 has other vertices\n",
        "",
    ),
    (
        &["cmph_judge", "-k", "1", "report", "keys"],
        EMPTIES,
        1,
        b"false: line 2 is no key\n",
        "",
    ),
    (
        &["cmph_judge", "report"],
        EMPTIES,
        2,
        b"",
        "cmph_judge: bad arguments\n",
    ),
    (
        &["cmph_judge", "-h"],
        EMPTIES,
        2,
        b"",
        "cmph_judge: bad arguments\n",
    ),
    (
        &["cmph_judge", "-k", "0", "-b", "63", "report", "keys"],
        EMPTIES,
        2,
        b"",
        "cmph_judge: bad value of -b\n",
    ),
    (
        &["cmph_judge", "-c", "10.1", "report", "keys"],
        EMPTIES,
        2,
        b"",
        "cmph_judge: bad value of -c\n",
    ),
];

/// Each verdict.
#[test]
fn verdicts(rt: HostRuntime) -> Result<(), Fail> {
    for (report, keys, status, out) in &VERDICTS {
        let given = sound(PLAIN, Some(*keys), Some(*report));
        let end = (*status, *out, "");
        expect_run(&rt, rt.alloc(), Program::Judge, &given, end, None)?;
    }
    Ok(())
}

#[test]
fn stops(rt: HostRuntime) -> Result<(), Fail> {
    for (report, keys, status, err) in &STOPS {
        let given = sound(PLAIN, *keys, *report);
        let end = (*status, b"".as_slice(), *err);
        expect_run(&rt, rt.alloc(), Program::Judge, &given, end, None)?;
    }
    Ok(())
}

/// What options do, and arguments that ask for no job.
#[test]
fn arguments(rt: HostRuntime) -> Result<(), Fail> {
    for (words, keys, status, out, err) in &ARGUMENTS {
        let given = sound(*words, Some(*keys), Some(TWO));
        let end = (*status, *out, *err);
        expect_run(&rt, rt.alloc(), Program::Judge, &given, end, None)?;
    }
    Ok(())
}

/// Calls of the disk that fail, and what is said.
const FAULTS: [(DiskCall, u64, &str); 4] = [
    (DiskCall::Open, 0, "cmph_judge: report: cannot read\n"),
    (DiskCall::Open, 1, "cmph_judge: keys: cannot read\n"),
    (DiskCall::Read, 0, "cmph_judge: report: cannot read\n"),
    (DiskCall::Rewind, 0, "cmph_judge: keys: cannot read\n"),
];

/// A call of the disk fails, or out has too little room.
#[test]
fn faults(rt: HostRuntime) -> Result<(), Fail> {
    let plain = sound(PLAIN, Some(EMPTIES), Some(TWO));
    for (call, number, err) in &FAULTS {
        let given = Given {
            fails: Some((*call, *number)),
            ..plain
        };
        let end = (4, b"".as_slice(), *err);
        expect_run(&rt, rt.alloc(), Program::Judge, &given, end, None)?;
    }
    let given = Given { room: 3, ..plain };
    let end = (
        5,
        b"tru".as_slice(),
        "cmph_judge: cannot write standard output\n",
    );
    expect_run(&rt, rt.alloc(), Program::Judge, &given, end, None)?;
    Ok(())
}

/// The report is read first, then the keys are counted, and then others come.
#[test]
fn keys_that_change(rt: HostRuntime) -> Result<(), Fail> {
    let contents = [TWO, EMPTIES, b"\n\n\n\n"];
    let err = "cmph_judge: keys: keys changed: 2, then 3\n";
    expect_changed(&rt, rt.alloc(), Program::Judge, PLAIN, &contents, err)?;
    Ok(())
}
