//! A build, queries and an upgrade over real files.
use crate::cases::owned;
use crate::equal::expect_equal;
use crate::functions::{LETTERS, LETTERS_OLD};
use cm_real::{FileDisk, StdSink};
use cm_tool::run;
use std::alloc::{AllocError, AllocGlobal, Global};
use std::fs;
use std::process::Abort;
use std::rt::Files;
use std::test::Fail;

fn path_of(alloc: Global, number: u32) -> Result<String, AllocError> {
    format!(in alloc; "/tmp/cmph-test-{number}")
}

/// A file that no one else has, with these bytes.
fn new_file<R: Files + AllocGlobal>(rt: &R, bytes: &[u8]) -> Result<String, Fail> {
    for number in 0..1000u32 {
        let path = path_of(rt.alloc(), number)?;
        if let Ok(_file) = fs::File::create_new(rt, path.as_str()) {
            fs::write(rt, path.as_str(), bytes)?;
            return Ok(path);
        }
    }
    Ok(String::new(rt.alloc()))
}

/// The status of a run with these arguments, and what out got.
fn run_on<R: Files + AllocGlobal>(rt: &R, words: &[&str]) -> Result<(u8, Vec<u8>), Fail> {
    let words = owned(rt.alloc(), words)?;
    let mut disk = FileDisk::new(rt, rt.alloc(), 1);
    let mut out = StdSink::new(Vec::new(rt.alloc()));
    let mut err = StdSink::new(Vec::new(rt.alloc()));
    let status = run(rt.alloc(), &words, &mut disk, &mut out, &mut err);
    let _err = err.into_parts();
    Ok((status, out.into_parts().0))
}

/// Fails the test unless a run over real files is done, and gives out this.
fn expect_done<R: Files + AllocGlobal + Abort>(
    rt: &R,
    words: &[&str],
    text: &[u8],
) -> Result<(), Fail> {
    let (status, out) = run_on(rt, words)?;
    expect_equal(rt, &(status, out.as_slice()), &(0, text));
    Ok(())
}

/// Fails the test unless a file has these bytes.
fn expect_bytes<R: Files + AllocGlobal + Abort>(
    rt: &R,
    path: &str,
    bytes: &[u8],
) -> Result<(), Fail> {
    expect_equal(rt, &fs::read(rt, path)?.as_slice(), &bytes);
    Ok(())
}

/// Out is flushed by the end of the query.
#[test]
fn real_files(rt: HostRuntime) -> Result<(), Fail> {
    let keys = new_file(&rt, b"a\nb\n")?;
    let function = format!(in rt.alloc(); "{}.mph", keys.as_str())?;
    expect_done(&rt, &["cmph", "-g", keys.as_str()], b"")?;
    expect_bytes(&rt, function.as_str(), &LETTERS)?;
    expect_done(&rt, &["cmph", keys.as_str()], b"a -> 0\nb -> 1\n")?;
    fs::write(&rt, function.as_str(), LETTERS_OLD)?;
    expect_done(&rt, &["cmph", "-u", keys.as_str()], b"")?;
    expect_bytes(&rt, function.as_str(), &LETTERS)?;
    fs::remove_file(&rt, keys.as_str())?;
    fs::remove_file(&rt, function.as_str())?;
    // The file is gone now.
    let (status, _out) = run_on(&rt, &["cmph", "-g", keys.as_str()])?;
    expect_equal(&rt, &status, &4);
    Ok(())
}
