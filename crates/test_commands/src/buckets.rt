//! Builds by BRZ over equal keys that are too many for a bucket, and as many as one may have.
use crate::cases::Case;
use crate::equal::expect_equal;
use cm_lookup2::words;
use std::alloc::{AllocError, Global};
use std::test::Fail;

const WIDE: &[&str] = &["cmph", "-g", "-a", "brz", "-s", "0", "-b", "175", "keys"];

const WIDEST: &[&str] = &["cmph", "-g", "-a", "brz", "-s", "0", "-b", "700", "keys"];

/// The lines `equal 1 2` to `equal 1 N`, after this text.
fn with_equals(alloc: Global, mut report: String, count: u32) -> Result<String, AllocError> {
    for later in 1..count {
        let line = format!(in alloc; "equal 1 {}\n", later + 1)?;
        report.push_str(line.as_str())?;
    }
    Ok(report)
}

#[test]
fn overfull_bucket(rt: HostRuntime) -> Result<(), Fail> {
    let alloc = rt.alloc();
    // There are two buckets, and all keys are in one, under every seed. This hash value is even.
    expect_equal(&rt, &words(b"", u32::MAX)[2], &0xbb74_2e94);
    let first = String::from_str(alloc, "overfull brz seed 0 bucket 0 keys 1024\n")?;
    let report = with_equals(alloc, first, 1024)?;
    let message = "cmph: every split has a bucket with more than 1023 keys\n";
    Case::new(WIDEST, &[b'\n'; 1024], 1, report.as_bytes(), message).check(&rt, alloc)?;
    Ok(())
}

/// The report on this many empty keys, no more than a bucket may have, of two buckets.
fn core_of(alloc: Global, count: u32) -> Result<String, AllocError> {
    let mut report = format!(in alloc; "core brz split 0 bucket 0 seed 0 edges {count}\n")?;
    for line in 0..count {
        let edge = format!(in alloc; "edge {} 19 136 274\n", line + 1)?;
        report.push_str(edge.as_str())?;
    }
    with_equals(alloc, report, count)
}

#[test]
fn full_bucket(rt: HostRuntime) -> Result<(), Fail> {
    let report = core_of(rt.alloc(), 256)?;
    let message = "cmph: bucket 0 has no seed with an empty core\n";
    Case::new(WIDE, &[b'\n'; 256], 1, report.as_bytes(), message).check(&rt, rt.alloc())?;
    Ok(())
}
