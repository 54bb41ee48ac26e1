//! The lines of a text, numbered, saved and loaded, and texts that have no function.
use crate::equal::expect_equal;
use crate::{loaded, number_of, numbered, saved};
use cm_lib::{Func, FuncFault, KeyFault, LoadFault, MAX_KEY_LEN};
use std::alloc::{AllocError, Global};
use std::test::Fail;

/// The seeds of every build here.
const SEEDS: [u32; 8] = [0, 1, 2, 3, 4, 5, 6, 7];

/// The dump of the function by BDZ of the empty key and `a`: nine vertices, seed 0, and one rank.
const DUMP: [u8; 31] = [
    0x43, 0x4d, 0x50, 0x48, 0x44, 0x4d, 0x50, 0x32, 2, 0, 7, 0, 2, 0, 0, 0, 0xb0, 0xc4, 0x12, 0, 0,
    0, 0, 0, 0xc3, 0xff, 3, 0, 0, 0, 0,
];

/// The numbers of the empty key and of `a`.
fn numbers(function: &Func) -> [Option<u32>; 2] {
    [number_of(function, b""), number_of(function, b"a")]
}

#[test]
fn numbers_survive(rt: HostRuntime) -> Result<(), Fail> {
    let Ok(built) = numbered(rt.alloc(), b"\na", &SEEDS) else {
        panic!(rt; "refused");
    };
    expect_equal(&rt, &numbers(&built), &[Some(0), Some(1)]);
    let bytes = saved(rt.alloc(), &built)?;
    expect_equal(&rt, &bytes.as_slice(), &DUMP.as_slice());
    let Ok(read) = loaded(rt.alloc(), bytes) else {
        panic!(rt; "not loaded");
    };
    expect_equal(&rt, &numbers(&read), &[Some(0), Some(1)]);
    Ok(())
}

/// Why a text has no function: the line that is too long, or the first pair of equal lines.
fn refusal(alloc: Global, text: &[u8]) -> (&'static str, u32, u32) {
    match numbered(alloc, text, &SEEDS) {
        Ok(_) => ("none", 0, 0),
        Err(FuncFault::NoKeys) => ("no keys", 0, 0),
        Err(FuncFault::Key(KeyFault::TooLong { line })) => ("too long", line, 0),
        Err(FuncFault::Cored(shown)) => match shown.equal.first() {
            Some(pair) => ("equal", pair.first, pair.again),
            None => ("core", 0, 0),
        },
        Err(_) => ("another fault", 0, 0),
    }
}

/// A line that is one byte too long, after an empty one.
fn long_line(alloc: Global) -> Result<Vec<u8>, AllocError> {
    let mut text = b"\n".to_vec(alloc)?;
    text.resize(MAX_KEY_LEN + 2, b'a')?;
    Ok(text)
}

#[test]
fn refusals(rt: HostRuntime) -> Result<(), Fail> {
    let alloc = rt.alloc();
    expect_equal(&rt, &refusal(alloc, b""), &("no keys", 0, 0));
    expect_equal(&rt, &refusal(alloc, b"a\nb\na\n"), &("equal", 1, 3));
    let long = long_line(alloc)?;
    expect_equal(&rt, &refusal(alloc, &long), &("too long", 2, 0));
    let fault = loaded(alloc, b"CMPHDMP2".to_vec(alloc)?).err();
    expect_equal(
        &rt,
        &matches!(fault, Some(LoadFault::Truncated { at: 8 })),
        &true,
    );
    Ok(())
}
