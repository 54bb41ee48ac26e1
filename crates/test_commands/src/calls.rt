//! Each call of the disk fails in turn.
use crate::cases::{AMPLE, Case, run_over};
use crate::equal::{expect_equal_at, expect_prefix_at};
use crate::functions::{BRZ_TWO, EMPTY_AND_A};
use cm_outer::{DiskCall, MemDisk};
use std::alloc::{AllocError, Global};
use std::process::Abort;
use std::test::Fail;

const KEYS_UNREAD: &str = "cmph: keys: cannot read\n";

const FUNCTION_UNREAD: &str = "cmph: keys.mph: cannot read\n";

const FUNCTION_UNWRITTEN: &str = "cmph: keys.mph: cannot write\n";

const SPILL_UNUSED: &str = "cmph: .: cannot use the spill file\n";

/// More calls of a kind than any command here makes.
const MOST: usize = 64;

/// The status of a command of which a call of this kind fails.
fn status_of(call: DiskCall) -> u8 {
    match call {
        DiskCall::Open | DiskCall::Read | DiskCall::Rewind => 4,
        _ => 5,
    }
}

/// Fails the test unless the function file is as before, or a prefix of the command's own if a call of this kind may leave it begun.
fn expect_file(rt: &impl Abort, case: &Case, call: DiskCall, disk: &MemDisk) {
    if call == DiskCall::Write || call == DiskCall::Close {
        let whole = case.file.unwrap_or(b"");
        if let Some(bytes) = disk.get("keys.mph") {
            expect_prefix_at(rt, &call, bytes, whole);
        }
    } else {
        expect_equal_at(rt, &call, &disk.get("keys.mph"), &case.dump);
    }
}

/// Lets one call fail, and returns whether the command reached it. If so, its message is this one.
fn fail_one(
    rt: &impl Abort,
    alloc: Global,
    case: &Case,
    row: (DiskCall, usize),
    message: &str,
) -> Result<bool, AllocError> {
    let mut disk = case.disk(alloc)?;
    disk.fail(row.0, row.1 as u64)?;
    let left = run_over(alloc, case.words, &mut disk, AMPLE)?;
    if disk.read_faults() == 0 && disk.write_faults() == 0 {
        case.compare(rt, &left, &disk);
        return Ok(false);
    }
    expect_equal_at(rt, &row, &left.err.as_slice(), &message.as_bytes());
    expect_equal_at(rt, &row, &left.status, &status_of(row.0));
    expect_prefix_at(rt, &row, &left.out, case.out);
    expect_file(rt, case, row.0, &disk);
    Ok(true)
}

/// The messages if the calls of a kind fail in turn. If there are more calls, the later ones have the last message.
type Calls = (DiskCall, &'static [&'static str]);

/// Lets the calls of one kind fail in turn, until the command makes fewer. There are as many as messages, or more.
fn fail_kind(rt: &impl Abort, alloc: Global, case: &Case, row: &Calls) -> Result<(), AllocError> {
    let mut message = "no such call";
    for number in 0..MOST {
        message = row.1.get(number).copied().unwrap_or(message);
        if !fail_one(rt, alloc, case, (row.0, number), message)? {
            expect_equal_at(rt, &(row.0, number), &(row.1.len() <= number), &true);
            return Ok(());
        }
    }
    panic!(rt; "too many calls")
}

/// The calls of a build by CHM. It opens its keys file once, reads it in several passes, and then creates, writes and closes its
/// function file.
const CHM_BUILD: [Calls; 9] = [
    (DiskCall::Open, &[KEYS_UNREAD]),
    (DiskCall::Create, &[FUNCTION_UNWRITTEN]),
    (DiskCall::Close, &[FUNCTION_UNWRITTEN]),
    (DiskCall::Spill, &[]),
    (DiskCall::Read, &[KEYS_UNREAD]),
    (DiskCall::Rewind, &[KEYS_UNREAD]),
    (DiskCall::Write, &[FUNCTION_UNWRITTEN]),
    (DiskCall::Append, &[]),
    (DiskCall::ReadAt, &[]),
];

/// The calls of a query. It opens its function file and then its keys file. Reads are counted by reader, and it reads the function file in
/// more pieces than the keys file, so each read that it comes to is first one of the function file.
const CHM_QUERY: [Calls; 9] = [
    (DiskCall::Open, &[FUNCTION_UNREAD, KEYS_UNREAD]),
    (DiskCall::Create, &[]),
    (DiskCall::Close, &[]),
    (DiskCall::Spill, &[]),
    (DiskCall::Read, &[FUNCTION_UNREAD]),
    (DiskCall::Rewind, &[]),
    (DiskCall::Write, &[]),
    (DiskCall::Append, &[]),
    (DiskCall::ReadAt, &[]),
];

/// The calls of a build by BRZ, which uses one spill.
const BRZ_BUILD: [Calls; 9] = [
    (DiskCall::Open, &[KEYS_UNREAD]),
    (DiskCall::Create, &[FUNCTION_UNWRITTEN]),
    (DiskCall::Close, &[FUNCTION_UNWRITTEN]),
    (DiskCall::Spill, &[SPILL_UNUSED]),
    (DiskCall::Read, &[KEYS_UNREAD]),
    (DiskCall::Rewind, &[KEYS_UNREAD]),
    (DiskCall::Write, &[FUNCTION_UNWRITTEN]),
    (DiskCall::Append, &[SPILL_UNUSED]),
    (DiskCall::ReadAt, &[SPILL_UNUSED]),
];

fn fail_each(
    rt: &impl Abort,
    alloc: Global,
    case: &Case,
    rows: &[Calls],
) -> Result<(), AllocError> {
    for row in rows {
        fail_kind(rt, alloc, case, row)?;
    }
    Ok(())
}

#[test]
fn calls(rt: HostRuntime) -> Result<(), Fail> {
    let chm = Case::build(
        &["cmph", "-g", "-s", "0", "keys"],
        b"\na\n",
        "",
        &EMPTY_AND_A,
    );
    fail_each(&rt, rt.alloc(), &chm, &CHM_BUILD)?;
    let answers = b" -> 0\na -> 1\n";
    let query = Case::query(&["cmph", "keys"], b"\na\n", &EMPTY_AND_A, 0, answers, "");
    fail_each(&rt, rt.alloc(), &query, &CHM_QUERY)?;
    let words = &["cmph", "-g", "-a", "brz", "-s", "0", "keys"];
    let brz = Case::build(words, b"\na\n", "", &BRZ_TWO);
    fail_each(&rt, rt.alloc(), &brz, &BRZ_BUILD)?;
    Ok(())
}
