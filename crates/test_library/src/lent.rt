//! Keys in memory: their function is built into a buffer, and read in it without a copy.
ghost use Rattle.std.specs.Prelude.{◌≡◌, ◌≢◌};
ghost use Rattle.cm_lib.specs.Terms.{Brz, IsPlan};

use crate::equal::expect_equal;
use cm_lib::{
    Algorithm, Answers, FuncFault, LentFault, LentKeys, MIN_BYTES, MIN_WIDTH, OpenFault, Plan,
    answers_into, build_brz_into, build_into, open,
};
use std::alloc::{AllocError, Global};
use std::process::Abort;
use std::test::Fail;

/// How many keys are built over.
const MANY: u32 = 1000;

/// The bytes of `count` keys of 4 to 17 bytes, no two equal, and their ends.
fn keys_of(alloc: Global, count: u32) -> Result<(Vec<u8>, Vec<u64>), AllocError> {
    let mut bytes = Vec::new(alloc);
    let mut ends = Vec::new(alloc);
    for i in 0..count {
        for _ in 0..i % 14 {
            bytes.push(b'k')?;
        }
        bytes.extend_from_slice(&i.to_le_bytes())?;
        ends.push(bytes.len() as u64)?;
    }
    Ok((bytes, ends))
}

/// A plan by an algorithm.
fn plan_by(algorithm: Algorithm) -> Plan
    requires unspilled { algorithm ≢ Brz }
    ensures algorithm { result.algorithm ≡ algorithm }
    ensures valid { IsPlan result }
{
    Plan {
        algorithm,
        c: 2_100_000,
        b: 7,
        buffer: MIN_BYTES,
    }
}

/// The seeds that are tried.
const SEEDS: [u32; 16] = [0, 1, 2, 3, 4, 5, 6, 7, 8, 9, 10, 11, 12, 13, 14, 15];

/// A build of keys in memory.
fn built(
    alloc: Global,
    algorithm: Algorithm,
    keys: &mut LentKeys<'_>,
    room: &mut [u8],
) -> Result<usize, LentFault>
    requires unspilled { algorithm ≢ Brz }
{
    let plan = plan_by(algorithm);
    build_into(alloc, &plan, &SEEDS, keys, room)
}

/// Whether no two of the numbers are the same, and all are below the bound.
fn are_apart(alloc: Global, numbers: &[u32], bound: u32) -> Result<bool, AllocError> {
    let mut seen = vec![in alloc; false; bound as usize]?;
    for number in numbers {
        match seen.get_mut(*number as usize) {
            Some(place) => {
                if *place {
                    return Ok(false);
                }
                *place = true;
            }
            None => return Ok(false),
        }
    }
    Ok(true)
}

/// A plan by BRZ, with buckets of 64 keys on average.
fn plan_by_brz() -> Plan
    ensures algorithm { result.algorithm ≡ Brz }
    ensures valid { IsPlan result }
{
    Plan {
        algorithm: Algorithm::Brz,
        c: 2_100_000,
        b: MIN_WIDTH,
        buffer: MIN_BYTES,
    }
}

/// The same by BRZ, with the keys in a lent spill.
fn built_by_brz(
    alloc: Global,
    keys: &mut LentKeys<'_>,
    spill: &mut [u8],
    room: &mut [u8],
) -> Result<usize, LentFault> {
    let plan = plan_by_brz();
    build_brz_into(alloc, &plan, &SEEDS, keys, spill, room)
}

/// Opens a dump, and numbers the keys in one batch: no two numbers are the same. The index has room for sixteen buckets.
fn expect_numbers(
    rt: &impl Abort,
    alloc: Global,
    dump: &[u8],
    keys: &LentKeys<'_>,
) -> Result<(), AllocError> {
    let mut index = [0u64; 16];
    let Ok(lent) = open(dump, &mut index) else {
        panic!(rt; "not opened");
    };
    let mut numbers = vec![in alloc; 0u32; MANY as usize]?;
    assert!(rt; keys.count() <= numbers.len());
    answers_into(&lent, keys, &mut numbers);
    expect_equal(rt, &are_apart(alloc, &numbers, lent.span())?, &true);
    Ok(())
}

/// Builds over many keys, and numbers them.
fn check(rt: &impl Abort, alloc: Global, algorithm: Algorithm) -> Result<(), AllocError>
    requires unspilled { algorithm ≢ Brz }
{
    let (bytes, ends) = keys_of(alloc, MANY)?;
    let Ok(mut keys) = LentKeys::new(&bytes, &ends) else {
        panic!(rt; "no keys");
    };
    let mut room = vec![in alloc; 0u8; 8192]?;
    let Ok(len) = built(alloc, algorithm, &mut keys, &mut room) else {
        panic!(rt; "not built");
    };
    room.truncate(len);
    expect_numbers(rt, alloc, &room, &keys)
}

#[test]
fn many_keys(rt: HostRuntime) -> Result<(), Fail> {
    check(&rt, rt.alloc(), Algorithm::Chm)?;
    check(&rt, rt.alloc(), Algorithm::Bdz)?;
    check(&rt, rt.alloc(), Algorithm::BdzPh)?;
    Ok(())
}

/// Whether a dump needs sixteen places in the index.
fn needs_sixteen(dump: &[u8]) -> bool {
    matches!(
        open(dump, &mut [0; 15]),
        Err(OpenFault::Room { needed: 16 })
    )
}

/// By BRZ 1,000 keys are in 16 buckets.
#[test]
fn many_keys_by_brz(rt: HostRuntime) -> Result<(), Fail> {
    let alloc = rt.alloc();
    let (bytes, ends) = keys_of(alloc, MANY)?;
    let Ok(mut keys) = LentKeys::new(&bytes, &ends) else {
        panic!(rt; "no keys");
    };
    let mut room = vec![in alloc; 0u8; 8192]?;
    let mut spill = vec![in alloc; 0u8; 32_768]?;
    let Ok(len) = built_by_brz(alloc, &mut keys, &mut spill, &mut room) else {
        panic!(rt; "not built");
    };
    room.truncate(len);
    expect_equal(&rt, &needs_sixteen(&room), &true);
    expect_numbers(&rt, alloc, &room, &keys)?;
    Ok(())
}

/// The end of a build: how many bytes were written or are needed, or how many pairs of equal keys there are.
fn end_of(outcome: Result<usize, LentFault>) -> (&'static str, u64) {
    match outcome {
        Ok(len) => ("built", len as u64),
        Err(LentFault::Room { needed }) => ("room", needed),
        Err(LentFault::Spill { needed }) => ("spill", needed),
        Err(LentFault::Build(FuncFault::NoKeys)) => ("no keys", 0),
        Err(LentFault::Build(FuncFault::Cored(shown))) => ("core", shown.equal.len() as u64),
        Err(LentFault::Build(FuncFault::Overfull { equal, .. })) => {
            ("overfull", equal.len() as u64)
        }
        Err(_) => ("another fault", 0),
    }
}

/// The end of a build by BDZ into a room of so many bytes.
fn end_by_bdz(
    alloc: Global,
    bytes: &[u8],
    ends: &[u64],
    room: usize,
) -> Result<(&'static str, u64), AllocError> {
    let mut room = vec![in alloc; 0u8; room]?;
    match LentKeys::new(bytes, ends) {
        Ok(mut keys) => Ok(end_of(built(alloc, Algorithm::Bdz, &mut keys, &mut room))),
        Err(_) => Ok(("bad ends", 0)),
    }
}

/// Keys, how many bytes the room has, and the end of the build.
const ENDS: [(&[u8], &[u64], usize, (&str, u64)); 5] = [
    (b"aa", &[1, 1, 2], 64, ("core", 1)),
    (b"", &[], 64, ("no keys", 0)),
    (b"a", &[1], 30, ("room", 31)),
    (b"a", &[1], 31, ("built", 31)),
    (b"abc", &[2, 1], 64, ("bad ends", 0)),
];

/// The end of a build by BRZ with a spill of so many bytes, and without room for its dump.
fn end_by_brz(
    alloc: Global,
    bytes: &[u8],
    ends: &[u64],
    spill: usize,
) -> Result<(&'static str, u64), AllocError> {
    let mut spill = vec![in alloc; 0u8; spill]?;
    match LentKeys::new(bytes, ends) {
        Ok(mut keys) => Ok(end_of(built_by_brz(alloc, &mut keys, &mut spill, &mut []))),
        Err(_) => Ok(("bad ends", 0)),
    }
}

/// The same by BRZ: one bucket of one key has a dump of 33 bytes.
const ENDS_BY_BRZ: [(&[u8], &[u64], usize, (&str, u64)); 4] = [
    (b"aa", &[1, 2], 21, ("spill", 22)),
    (b"aa", &[1, 2], 22, ("core", 1)),
    (b"", &[], 0, ("no keys", 0)),
    (b"a", &[1], 11, ("room", 33)),
];

/// 1,100 keys of which all except the first are equal, too many for a bucket.
fn end_of_equal_keys(alloc: Global) -> Result<(&'static str, u64), AllocError> {
    let bytes = vec![in alloc; b'k'; 1099]?;
    let mut ends = Vec::new(alloc);
    for end in 0..1100u64 {
        ends.push(end)?;
    }
    end_by_brz(alloc, &bytes, &ends, 12_099)
}

#[test]
fn ends(rt: HostRuntime) -> Result<(), Fail> {
    for (bytes, ends, room, end) in &ENDS {
        expect_equal(&rt, &end_by_bdz(rt.alloc(), *bytes, *ends, *room)?, end);
    }
    for (bytes, ends, spill, end) in &ENDS_BY_BRZ {
        expect_equal(&rt, &end_by_brz(rt.alloc(), *bytes, *ends, *spill)?, end);
    }
    expect_equal(&rt, &end_of_equal_keys(rt.alloc())?, &("overfull", 1098));
    Ok(())
}
