//! A test over many generated keys, with a disk in memory.
use crate::cases::{AMPLE, run_over};
use crate::equal::{expect_equal, expect_true};
use cm_outer::MemDisk;
use std::alloc::{AllocError, Global};
use std::process::Abort;
use std::test::Fail;

/// How a test of 100,000 keys begins.
const FIRST: &[u8] =
    b"chm 100000 444149 4999950000\nbdz 100000 34619 4999950000\nbdz_ph 100000 24625 ";

/// What a test of 100,000 keys prints, with a buffer of this size in megabytes.
fn printed(rt: &impl Abort, alloc: Global, megabytes: &str) -> Result<Vec<u8>, AllocError> {
    let words = ["cmph", "-T", "100000", "-r", "1000", "-M", megabytes];
    let mut disk = MemDisk::new(alloc, 8_000_000);
    let left = run_over(alloc, &words, &mut disk, AMPLE)?;
    expect_equal(rt, &left.err.len(), &0);
    expect_equal(rt, &left.status, &0);
    Ok(left.out)
}

/// The functions don't depend on the buffer's size.
#[test]
fn many_keys(rt: HostRuntime) -> Result<(), Fail> {
    let small = printed(&rt, rt.alloc(), "1")?;
    let large = printed(&rt, rt.alloc(), "2")?;
    expect_equal(&rt, &small.as_slice(), &large.as_slice());
    expect_true(&rt, small.starts_with(FIRST));
    expect_true(&rt, small.ends_with(b" 4999950000\n"));
    Ok(())
}
