//! Cases, each a command over a disk in memory with what it returns, writes and leaves.
use crate::equal::expect_equal_at;
use cm_io::Disk;
use cm_outer::{MemDisk, MemSink};
use cm_tool::run;
use std::alloc::{AllocError, Global};
use std::process::Abort;

/// The room for a file, out and err if nothing is to fail, in bytes.
pub(crate) const AMPLE: usize = 1_000_000;

/// A command over a disk with these files, with the room for a file or a spill and for out; and what it returns, writes and leaves.
#[derive(Clone, Copy)]
pub(crate) struct Case<'a> {
    pub words: &'a [&'a str],
    pub keys: Option<&'a [u8]>,
    pub dump: Option<&'a [u8]>,
    pub disk_room: usize,
    pub out_room: usize,
    pub status: u8,
    pub out: &'a [u8],
    pub err: &'a str,
    pub path: &'a str,
    pub file: Option<&'a [u8]>,
}

/// What a run left: its status, and what out and err got.
#[derive(Drop)]
pub(crate) struct Left {
    pub status: u8,
    pub out: Vec<u8>,
    pub err: Vec<u8>,
}

impl<'a> Case<'a> {
    /// A command over a keys file alone that makes no function file.
    pub(crate) fn new(
        words: &'a [&'a str],
        keys: &'a [u8],
        status: u8,
        out: &'a [u8],
        err: &'a str,
    ) -> Case<'a> {
        Case {
            words,
            keys: Some(keys),
            dump: None,
            disk_room: AMPLE,
            out_room: AMPLE,
            status,
            out,
            err,
            path: "keys.mph",
            file: None,
        }
    }

    /// A build that is done, with what it says, and the function file.
    pub(crate) fn build(
        words: &'a [&'a str],
        keys: &'a [u8],
        err: &'a str,
        file: &'a [u8],
    ) -> Case<'a> {
        Case {
            file: Some(file),
            ..Case::new(words, keys, 0, b"", err)
        }
    }

    /// A query of `keys` by this function file, which stays as it is.
    pub(crate) fn query(
        words: &'a [&'a str],
        keys: &'a [u8],
        dump: &'a [u8],
        status: u8,
        out: &'a [u8],
        err: &'a str,
    ) -> Case<'a> {
        Case {
            dump: Some(dump),
            file: Some(dump),
            ..Case::new(words, keys, status, out, err)
        }
    }

    /// A disk with the files of the case.
    pub(crate) fn disk(&self, alloc: Global) -> Result<MemDisk, AllocError> {
        let mut disk = MemDisk::new(alloc, self.disk_room);
        if let Some(bytes) = self.keys {
            disk.put("keys", bytes)?;
        }
        if let Some(bytes) = self.dump {
            disk.put("keys.mph", bytes)?;
        }
        Ok(disk)
    }

    /// Compares what a run has left.
    pub(crate) fn compare(&self, rt: &impl Abort, left: &Left, disk: &MemDisk) {
        expect_left(rt, self.words, left, self.status, self.out, self.err);
        expect_equal_at(rt, &self.words, &disk.get("keys"), &self.keys);
        expect_equal_at(rt, &self.words, &disk.get(self.path), &self.file);
    }

    /// Runs the command, and compares all that is left.
    pub(crate) fn check(&self, rt: &impl Abort, alloc: Global) -> Result<(), AllocError> {
        let mut disk = self.disk(alloc)?;
        let left = run_over(alloc, self.words, &mut disk, self.out_room)?;
        self.compare(rt, &left, &disk);
        Ok(())
    }
}

/// Fails the test unless a run has left this.
pub(crate) fn expect_left(
    rt: &impl Abort,
    words: &[&str],
    left: &Left,
    status: u8,
    out: &[u8],
    err: &str,
) {
    let found = (left.status, left.out.as_slice(), left.err.as_slice());
    expect_equal_at(rt, &words, &found, &(status, out, err.as_bytes()));
}

/// The arguments of a command, with the name of the program as the first.
pub(crate) fn owned(alloc: Global, words: &[&str]) -> Result<Vec<String>, AllocError> {
    let mut owned = Vec::new(alloc);
    for word in words {
        owned.push(String::from_str(alloc, *word)?)?;
    }
    Ok(owned)
}

/// Runs a command over a disk, with this room for out.
pub(crate) fn run_over<D: Disk>(
    alloc: Global,
    words: &[&str],
    disk: &mut D,
    out_room: usize,
) -> Result<Left, AllocError> {
    let words = owned(alloc, words)?;
    let mut out = MemSink::new(alloc, out_room, Vec::new(alloc))?;
    let mut err = MemSink::new(alloc, AMPLE, Vec::new(alloc))?;
    let status = run(alloc, &words, disk, &mut out, &mut err);
    Ok(Left {
        status,
        out: out.into_bytes(),
        err: err.into_bytes(),
    })
}
