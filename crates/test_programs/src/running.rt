//! Programs that are run by their top calls over disks in memory, and what their runs leave.
use crate::equal::expect_equal_at;
use cm_filter_dump::filter_run;
use cm_io_append::AppendDisk;
use cm_judge::judge_run;
use cm_outer::{BentDisk, DiskCall, MemDisk, MemSink};
use cm_shards::shards_run;
use cm_store_dump::store_run;
use std::alloc::{AllocError, Global};
use std::process::Abort;

/// The room for a file, out and err if nothing is to fail, in bytes.
pub(crate) const AMPLE: usize = 1_000;

/// A program, by its top call.
#[derive(Clone, Copy)]
pub(crate) enum Program {
    Filter,
    Judge,
    Shards,
    Store,
}

/// The file that a program uses beside `keys`.
fn path_of(program: Program) -> &'static str {
    match program {
        Program::Filter => "keys.flt",
        Program::Judge => "report",
        Program::Shards => "d/all",
        Program::Store => "keys.rec",
    }
}

/// The arguments, the file `keys` and the other one before a run, if they are there, the call of the disk that fails, and the room for out.
#[derive(Clone, Copy)]
pub(crate) struct Given<'a> {
    pub words: &'a [&'a str],
    pub keys: Option<&'a [u8]>,
    pub file: Option<&'a [u8]>,
    pub fails: Option<(DiskCall, u64)>,
    pub room: usize,
}

/// A run in which nothing fails.
pub(crate) fn sound<'a>(
    words: &'a [&'a str],
    keys: Option<&'a [u8]>,
    file: Option<&'a [u8]>,
) -> Given<'a> {
    Given {
        words,
        keys,
        file,
        fails: None,
        room: AMPLE,
    }
}

/// What a run leaves: its status, and what out and err got.
#[derive(Drop)]
pub(crate) struct Left {
    pub status: u8,
    out: Vec<u8>,
    err: Vec<u8>,
}

/// Runs a command of a program over a disk, with this room for out.
pub(crate) fn run_over<D: AppendDisk>(
    program: Program,
    alloc: Global,
    words: &[&str],
    disk: &mut D,
    room: usize,
) -> Result<Left, AllocError> {
    let mut owned = Vec::new(alloc);
    for word in words {
        owned.push(String::from_str(alloc, *word)?)?;
    }
    let mut out = MemSink::new(alloc, room, Vec::new(alloc))?;
    let mut err = MemSink::new(alloc, AMPLE, Vec::new(alloc))?;
    let status = match program {
        Program::Filter => filter_run(alloc, &owned, disk, &mut out, &mut err),
        Program::Judge => judge_run(alloc, &owned, disk, &mut out, &mut err),
        Program::Shards => shards_run(alloc, &owned, disk, &mut out, &mut err),
        Program::Store => store_run(alloc, &owned, disk, &mut out, &mut err),
    };
    Ok(Left {
        status,
        out: out.into_bytes(),
        err: err.into_bytes(),
    })
}

/// A disk with the files of a run.
fn disk_for(alloc: Global, program: Program, given: &Given) -> Result<MemDisk, AllocError> {
    let mut disk = MemDisk::new(alloc, AMPLE);
    if let Some(bytes) = given.keys {
        disk.put("keys", bytes)?;
    }
    if let Some(bytes) = given.file {
        disk.put(path_of(program), bytes)?;
    }
    if let Some((call, number)) = given.fails {
        disk.fail(call, number)?;
    }
    Ok(disk)
}

/// Fails the test unless a run has left this: the status, out and err.
pub(crate) fn expect_left(rt: &impl Abort, words: &[&str], left: &Left, end: (u8, &[u8], &str)) {
    let found = (left.status, left.out.as_slice(), left.err.as_slice());
    expect_equal_at(rt, &words, &found, &(end.0, end.1, end.2.as_bytes()));
}

/// Runs a command, and compares all that it leaves. If no other file is made, that one is as before.
pub(crate) fn expect_run(
    rt: &impl Abort,
    alloc: Global,
    program: Program,
    given: &Given,
    end: (u8, &[u8], &str),
    made: Option<&[u8]>,
) -> Result<(), AllocError> {
    let mut disk = disk_for(alloc, program, given)?;
    let left = run_over(program, alloc, given.words, &mut disk, given.room)?;
    expect_left(rt, given.words, &left, end);
    expect_equal_at(rt, &given.words, &disk.get("keys"), &given.keys);
    let found = disk.get(path_of(program));
    expect_equal_at(rt, &given.words, &found, &made.or(given.file));
    Ok(())
}

/// Runs a command over files with these contents, pass by pass, and compares what it leaves: nothing is made.
pub(crate) fn expect_changed(
    rt: &impl Abort,
    alloc: Global,
    program: Program,
    words: &[&str],
    contents: &[&[u8]],
    err: &str,
) -> Result<(), AllocError> {
    let mut passes = Vec::new(alloc);
    for bytes in contents {
        passes.push(bytes.to_vec(alloc)?)?;
    }
    assert!(rt; !passes.is_empty());
    let mut disk = BentDisk::new(alloc, AMPLE, passes, 0, 0);
    let left = run_over(program, alloc, words, &mut disk, AMPLE)?;
    expect_left(rt, words, &left, (7, b"", err));
    expect_equal_at(rt, &words, &disk.made(), &None);
    Ok(())
}
