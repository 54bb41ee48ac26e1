//! Builds, queries, upgrades and commands that make no function file, each by its row of a table.
use crate::cases::{Case, run_over};
use crate::equal::expect_true;
use crate::functions::{
    BDZ_ONE, BDZ_ONE_OLD, BDZ_PH_TWO, BDZ_PH_TWO_OLD, BDZ_TWO, BRZ_TWO, BRZ_TWO_OLD, EMPTY_AND_A,
    EMPTY_AND_A_OLD, HALVES, LETTERS, ONE_EMPTY, ONE_EMPTY_NEXT,
};
use std::alloc::{AllocError, Global};
use std::test::Fail;

const PLAIN: &[&str] = &["cmph", "-g", "keys"];

const SEEDED: &[&str] = &["cmph", "-g", "-s", "0", "keys"];

const BDZ: &[&str] = &["cmph", "-g", "-a", "bdz", "-s", "0", "keys"];

const BDZ_PH: &[&str] = &["cmph", "-g", "-a", "bdz_ph", "-s", "0", "keys"];

const BRZ: &[&str] = &["cmph", "-g", "-a", "brz", "-s", "0", "keys"];

pub(crate) const QUERY: &[&str] = &["cmph", "keys"];

const UPGRADE: &[&str] = &["cmph", "-u", "keys"];

/// Builds: the arguments, the keys, what is said, and the function file.
const BUILDS: [(&[&str], &[u8], &str, &[u8]); 16] = [
    (PLAIN, b"a\nb\n", "", &LETTERS),
    (PLAIN, b"a\nb", "", &LETTERS),
    (SEEDED, b"\n", "", &ONE_EMPTY),
    (SEEDED, b"\na\n", "", &EMPTY_AND_A),
    (BDZ, b"\n", "", &BDZ_ONE),
    (BDZ, b"\na\n", "", &BDZ_TWO),
    (BDZ_PH, b"\na\n", "", &BDZ_PH_TWO),
    (BRZ, b"\na\n", "", &BRZ_TWO),
    (
        &["cmph", "-g", "-s", "0", "-k", "1", "keys"],
        b"\na\n",
        "",
        &ONE_EMPTY,
    ),
    (
        &["cmph", "-g", "-c", "1.5", "-s", "0", "keys"],
        b"a\nb\n",
        "",
        &HALVES,
    ),
    // `-b` has no effect if ranks are not sampled.
    (
        &["cmph", "-g", "-b", "11", "keys"],
        b"\n",
        "",
        &ONE_EMPTY_NEXT,
    ),
    (
        &["cmph", "-vv", "-g", "-a", "bdz", "-s0", "keys"],
        b"\na\n",
        "cmph: bdz keys 2 cells 9 seed 0\n",
        &BDZ_TWO,
    ),
    (
        &["cmph", "-g", "-a", "bdz_ph", "-s=0", "-v", "keys"],
        b"\na\n",
        "cmph: bdz_ph keys 2 cells 9 seed 0\n",
        &BDZ_PH_TWO,
    ),
    (
        &[
            "cmph", "-g", "-v", "-a", "brz", "-s", "0", "-M", "2", "-d", "dir", "keys",
        ],
        b"\na\n",
        "cmph: brz keys 2 buckets 1 seed 0\n",
        &BRZ_TWO,
    ),
    // Keys that end with byte 0, of which one is a line feed.
    (
        &["cmph", "-z", "-g", "-s", "0", "keys"],
        b"\0a\0",
        "",
        &EMPTY_AND_A,
    ),
    (
        &["cmph", "-z", "-g", "-s", "0", "keys"],
        b"\n",
        "",
        &ONE_EMPTY,
    ),
];

#[test]
fn builds(rt: HostRuntime) -> Result<(), Fail> {
    for (words, keys, err, file) in &BUILDS {
        Case::build(*words, *keys, *err, *file).check(&rt, rt.alloc())?;
    }
    let named = Case {
        path: "f",
        ..Case::build(
            &[
                "cmph", "-v", "-g", "-f", "jenkins", "-s", "0", "-m", "f", "keys",
            ],
            b"\na\n",
            "cmph: chm keys 2 cells 5 seed 0\n",
            &EMPTY_AND_A,
        )
    };
    named.check(&rt, rt.alloc())?;
    Ok(())
}

const REPEATED: &str = "cmph: line 2: value 0 is repeated\n";

/// Queries: the arguments, the keys, the function file, the status, out and err.
const QUERIES: [(&[&str], &[u8], &[u8], u8, &[u8], &str); 12] = [
    (QUERY, b"\na\n", &EMPTY_AND_A, 0, b" -> 0\na -> 1\n", ""),
    (QUERY, b"\na", &EMPTY_AND_A_OLD, 0, b" -> 0\na -> 1\n", ""),
    (QUERY, b"\na\n", &BDZ_TWO, 0, b" -> 0\na -> 1\n", ""),
    (QUERY, b"\na\n", &BDZ_PH_TWO, 0, b" -> 1\na -> 2\n", ""),
    (QUERY, b"\na\n", &BRZ_TWO, 0, b" -> 0\na -> 1\n", ""),
    (QUERY, b"\na\n", &BRZ_TWO_OLD, 0, b" -> 0\na -> 1\n", ""),
    (QUERY, b"\n\n", &ONE_EMPTY, 1, b" -> 0\n -> 0\n", REPEATED),
    (QUERY, b"\n\n", &BDZ_ONE_OLD, 1, b" -> 0\n -> 0\n", REPEATED),
    (QUERY, b"", &ONE_EMPTY, 0, b"", ""),
    (
        &["cmph", "-k", "1", "-m", "keys.mph", "keys"],
        b"\na\n",
        &EMPTY_AND_A,
        0,
        b" -> 0\n",
        "",
    ),
    (
        &["cmph", "-z", "keys"],
        b"\0a\0",
        &EMPTY_AND_A,
        0,
        b" -> 0\0a -> 1\0",
        "",
    ),
    (QUERY, b"a\0b\n", &ONE_EMPTY, 0, b"a\0b -> 0\n", ""),
];

#[test]
fn queries(rt: HostRuntime) -> Result<(), Fail> {
    for (words, keys, dump, status, out, err) in &QUERIES {
        Case::query(*words, *keys, *dump, *status, *out, *err).check(&rt, rt.alloc())?;
    }
    Ok(())
}

const NO_SEED: &str = "cmph: no seed of the list gives an empty core\n";

const TWO_EMPTY: &str = "core chm seed 0 edges 2\nedge 1 4 1\nedge 2 4 1\nequal 1 2\n";

const ONE_BUCKET: &str =
    "core brz split 0 bucket 0 seed 0 edges 2\nedge 1 1 4 7\nedge 2 1 4 7\nequal 1 2\n";

const NO_FILE: &str = "cmph: no keys file\n";

const USAGE: &str = "cmph: bad arguments; cmph -h shows the usage\n";

const HELP: &str =
    "usage: cmph [-v] [-h] [-V] [-z] [-k nkeys] [-f hash] [-g [-c c] [-s seed] [-r seeds]] [-a algorithm] [-M MB] [-b b] [-d dir] [-m file.mph] keysfile\n       cmph -T nkeys [-s seed] [-r seeds] [-M MB] [-d dir]\n       cmph -u [-m file.mph] [keysfile]\nalgorithms: chm bdz bdz_ph brz\nhash functions: jenkins\n";

/// Commands that make no function file: the arguments, the keys, the status, out and err.
const OTHERS: [(&[&str], &[u8], u8, &str, &str); 22] = [
    (SEEDED, b"\n\n", 1, TWO_EMPTY, NO_SEED),
    (
        &["cmph", "-g", "-s", "0", "-r", "1", "keys"],
        b"\n\n",
        1,
        TWO_EMPTY,
        NO_SEED,
    ),
    (
        PLAIN,
        b"\n\n",
        1,
        "core chm seed 1 edges 2\nedge 1 3 4\nedge 2 3 4\nequal 1 2\n",
        NO_SEED,
    ),
    // The edge of `a` is peeled. A later line is paired with the first that has the key, and not with the nearest.
    (
        &["cmph", "-g", "-s", "0", "-r", "1", "keys"],
        b"\na\n\n\n",
        1,
        "core chm seed 0 edges 3\nedge 1 1 7\nedge 3 1 7\nedge 4 1 7\nequal 1 3\nequal 1 4\n",
        NO_SEED,
    ),
    // No keys are equal, and two vertices are too few under every seed.
    (
        &["cmph", "-g", "-c", "1", "-s", "0", "-r", "3", "keys"],
        b"\na\n",
        1,
        "core chm seed 0 edges 2\nedge 1 1 0\nedge 2 1 0\n",
        NO_SEED,
    ),
    (
        &["cmph", "-g", "-c", "1.5", "-s", "0", "-r", "1", "keys"],
        b"a\nb\n",
        1,
        "core chm seed 0 edges 2\nedge 1 2 0\nedge 2 2 0\n",
        NO_SEED,
    ),
    (
        BDZ,
        b"\n\n",
        1,
        "core bdz seed 0 edges 2\nedge 1 1 4 7\nedge 2 1 4 7\nequal 1 2\n",
        NO_SEED,
    ),
    (
        &["cmph", "-g", "-a", "brz", "-s", "0", "-r", "1", "keys"],
        b"\n\n",
        1,
        ONE_BUCKET,
        "cmph: bucket 0 has no seed with an empty core\n",
    ),
    (PLAIN, b"", 8, "", "cmph: keys: no keys\n"),
    (BRZ, b"", 8, "", "cmph: keys: no keys\n"),
    (QUERY, b"\n", 4, "", "cmph: keys.mph: cannot read\n"),
    (
        &["cmph", "-T", "1"],
        b"",
        0,
        "chm 1 25 0\nbdz 1 31 0\nbdz_ph 1 26 2\nbrz 1 33 0\n",
        "",
    ),
    (&["cmph", "-h"], b"", 0, HELP, ""),
    (&["cmph", "-V"], b"", 0, "cmph 2\n", ""),
    (&["cmph"], b"", 2, "", NO_FILE),
    (&["cmph", "-g"], b"", 2, "", NO_FILE),
    (&["cmph", "-u"], b"", 2, "", NO_FILE),
    (&["cmph", "-t", "2", "keys"], b"", 2, "", USAGE),
    (&["cmph", "keys", "keys"], b"", 2, "", USAGE),
    (
        &["cmph", "-f", "md5", "keys"],
        b"",
        2,
        "",
        "cmph: bad value of -f\n",
    ),
    (
        &["cmph", "-g", "-a", "bdz", "-b", "11", "keys"],
        b"",
        2,
        "",
        "cmph: bad value of -b\n",
    ),
    (
        &["cmph", "-k", "0", "keys"],
        b"",
        2,
        "",
        "cmph: bad value of -k\n",
    ),
];

#[test]
fn others(rt: HostRuntime) -> Result<(), Fail> {
    for (words, keys, status, out, err) in &OTHERS {
        Case::new(*words, *keys, *status, out.as_bytes(), *err).check(&rt, rt.alloc())?;
    }
    Ok(())
}

/// Function files in both versions.
const UPGRADES: [(&[u8], &[u8]); 4] = [
    (&EMPTY_AND_A_OLD, &EMPTY_AND_A),
    (&BDZ_ONE_OLD, &BDZ_ONE),
    (&BDZ_PH_TWO_OLD, &BDZ_PH_TWO),
    (&BRZ_TWO_OLD, &BRZ_TWO),
];

/// An upgrade, and another one after it. There is no keys file.
#[test]
fn upgrades(rt: HostRuntime) -> Result<(), Fail> {
    for (old, new) in &UPGRADES {
        for dump in [*old, *new] {
            let upgrade = Case {
                keys: None,
                file: Some(*new),
                ..Case::query(UPGRADE, b"", dump, 0, b"", "")
            };
            upgrade.check(&rt, rt.alloc())?;
        }
    }
    Ok(())
}

/// Too little room on the disk, a keys file that isn't there, and too little room for out.
#[test]
fn faults(rt: HostRuntime) -> Result<(), Fail> {
    let alloc = rt.alloc();
    let unwritten = "cmph: keys.mph: cannot write\n";
    let full = Case {
        disk_room: 24,
        file: Some(&EMPTY_AND_A[..24]),
        ..Case::new(SEEDED, b"\na\n", 5, b"", unwritten)
    };
    full.check(&rt, alloc)?;
    let missing = Case {
        keys: None,
        ..Case::query(PLAIN, b"", b"older", 4, b"", "cmph: keys: cannot read\n")
    };
    missing.check(&rt, alloc)?;
    let unprinted = "cmph: cannot write standard output\n";
    let cut = Case {
        out_room: 9,
        ..Case::query(QUERY, b"\na\n", &EMPTY_AND_A, 5, b" -> 0\na -", unprinted)
    };
    cut.check(&rt, alloc)?;
    Ok(())
}

/// An empty line, and one of this many bytes without its end.
fn two_lines(alloc: Global, len: usize) -> Result<Vec<u8>, AllocError> {
    let mut text = vec![in alloc; b'b'; len]?;
    text.insert(0, b'\n')?;
    Ok(text)
}

/// A line of 65,535 bytes is the longest.
#[test]
fn long_lines(rt: HostRuntime) -> Result<(), Fail> {
    let alloc = rt.alloc();
    let text = two_lines(alloc, 65_535)?;
    let first = Case::build(SEEDED, &text, "", b"");
    let mut disk = first.disk(alloc)?;
    expect_true(&rt, run_over(alloc, SEEDED, &mut disk, 0)?.status == 0);
    let repeated = run_over(alloc, QUERY, &mut disk, 100_000)?;
    expect_true(
        &rt,
        repeated.status == 0 && repeated.out.len() == 65_535 + 12,
    );
    let longer = two_lines(alloc, 65_536)?;
    let message = "cmph: keys: line 2 is too long\n";
    Case::new(SEEDED, &longer, 8, b"", message).check(&rt, alloc)?;
    Case::query(QUERY, &longer, &ONE_EMPTY, 8, b" -> 0\n", message).check(&rt, alloc)?;
    Ok(())
}
