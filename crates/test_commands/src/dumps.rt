//! Queries by function files that are cut off or changed.
use crate::cases::Case;
use crate::commands::QUERY;
use crate::functions::{
    BDZ_ONE_OLD, BDZ_PH_TWO_OLD, BRZ_TWO, BRZ_TWO_OLD, EMPTY_AND_A_OLD, ONE_EMPTY_OLD,
};
use std::alloc::{AllocError, Global};
use std::process::Abort;
use std::test::Fail;

/// The first `len` bytes of a dump, or zeros after them, with some of them changed.
fn changed(
    alloc: Global,
    dump: &[u8],
    len: usize,
    changes: &[(usize, u8)],
) -> Result<Vec<u8>, AllocError> {
    let mut all = dump.to_vec(alloc)?;
    all.resize(len, 0)?;
    for (at, byte) in changes {
        if let Some(b) = all.get_mut(*at) {
            *b = *byte;
        }
    }
    Ok(all)
}

/// A query by a function file fails with this fault, writes nothing to out, and leaves all files as they were.
fn check_fault(rt: &impl Abort, alloc: Global, dump: &[u8], fault: &str) -> Result<(), AllocError> {
    let err = format!(in alloc; "cmph: keys.mph: bad dump: {fault}\n")?;
    Case::query(QUERY, b"\n", dump, 3, b"", err.as_str()).check(rt, alloc)
}

/// Dumps, their length then, the bytes that are changed, and the fault.
const CHANGES: [(&[u8], usize, &[(usize, u8)], &str); 30] = [
    (&BDZ_ONE_OLD, 30, &[], "truncated at 30"),
    (&BDZ_ONE_OLD, 32, &[], "trailing bytes"),
    (&BDZ_ONE_OLD, 31, &[(27, 1)], "bad rank at 27"),
    (&BDZ_ONE_OLD, 31, &[(26, 7)], "bad padding at 26"),
    (&BDZ_ONE_OLD, 31, &[(24, 0xf0)], "bad count at 24"),
    (&BDZ_ONE_OLD, 31, &[(8, 5)], "bad algorithm"),
    (&BDZ_ONE_OLD, 31, &[(9, 2)], "bad field at 9"),
    (&BDZ_ONE_OLD, 0, &[], "truncated at 0"),
    // The padding is found before the count.
    (
        &BDZ_ONE_OLD,
        31,
        &[(24, 0xf0), (26, 7)],
        "bad padding at 26",
    ),
    (&ONE_EMPTY_OLD, 25, &[(7, 0x33)], "bad magic"),
    (&ONE_EMPTY_OLD, 25, &[(9, 1)], "bad field at 9"),
    (&ONE_EMPTY_OLD, 25, &[(24, 1)], "bad cell at 24"),
    (&ONE_EMPTY_OLD, 25, &[(24, 8)], "bad padding at 24"),
    // No keys, and 16,777,217.
    (&ONE_EMPTY_OLD, 25, &[(12, 0)], "bad field at 12"),
    (&ONE_EMPTY_OLD, 25, &[(15, 1)], "bad field at 12"),
    // 999,999 and 10,000,001 millionths.
    (
        &ONE_EMPTY_OLD,
        25,
        &[(16, 0x3f), (17, 0x42), (18, 0x0f)],
        "bad field at 16",
    ),
    (
        &ONE_EMPTY_OLD,
        25,
        &[(16, 0x81), (17, 0x96), (18, 0x98)],
        "bad field at 16",
    ),
    (&BRZ_TWO_OLD, 32, &[(9, 176)], "bad field at 9"),
    (&BRZ_TWO_OLD, 32, &[(24, 1)], "bad count at 24"),
    (&BRZ_TWO_OLD, 32, &[(24, 3)], "bad count at 24"),
    (&BRZ_TWO_OLD, 32, &[(29, 0xf3)], "bad count at 29"),
    (&BRZ_TWO_OLD, 32, &[(31, 7)], "bad padding at 31"),
    (&BDZ_PH_TWO_OLD, 26, &[(24, 0xf3)], "bad cell at 24"),
    (&BDZ_PH_TWO_OLD, 26, &[(25, 0x51)], "bad padding at 25"),
    // In version 2 a bucket has 701 keys on average, or 1,024 keys.
    (&BRZ_TWO, 33, &[(10, 0xbd), (11, 2)], "bad field at 10"),
    (&BRZ_TWO, 33, &[(24, 0), (25, 4)], "bad field at 24"),
    (&BRZ_TWO, 32, &[], "truncated at 32"),
    (&BRZ_TWO, 34, &[], "trailing bytes"),
    // Headers that claim the most cells that there may be, in each version, and have none. No memory is taken for the claim.
    (
        &EMPTY_AND_A_OLD,
        24,
        &[(12, 0), (15, 1), (16, 0x80), (17, 0x96), (18, 0x98)],
        "truncated at 24",
    ),
    (
        &EMPTY_AND_A_OLD,
        24,
        &[
            (7, 0x32),
            (12, 0),
            (15, 4),
            (16, 0x80),
            (17, 0x96),
            (18, 0x98),
        ],
        "truncated at 24",
    ),
];

#[test]
fn changes(rt: HostRuntime) -> Result<(), Fail> {
    for (dump, len, changes, fault) in &CHANGES {
        let bytes = changed(rt.alloc(), *dump, *len, *changes)?;
        check_fault(&rt, rt.alloc(), &bytes, *fault)?;
    }
    Ok(())
}

const DUMPS: [&[u8]; 4] = [
    &EMPTY_AND_A_OLD,
    &BDZ_ONE_OLD,
    &BDZ_PH_TWO_OLD,
    &BRZ_TWO_OLD,
];

/// Each proper prefix is cut off at its end.
fn check_prefixes(rt: &impl Abort, alloc: Global, dump: &[u8]) -> Result<(), AllocError> {
    for len in 0..dump.len() {
        let fault = format!(in alloc; "truncated at {len}")?;
        check_fault(rt, alloc, &dump[..len], fault.as_str())?;
    }
    Ok(())
}

#[test]
fn prefixes(rt: HostRuntime) -> Result<(), Fail> {
    for dump in &DUMPS {
        check_prefixes(&rt, rt.alloc(), *dump)?;
    }
    Ok(())
}
