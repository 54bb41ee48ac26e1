//! Appends to files in memory, the first bytes of a source, and the uses of disks and spills that real ones are put to as well.
use crate::equal::{expect_bytes, expect_equal};
use cm_io::{Disk, DiskFault, Failed, Sink, Spill};
use cm_io_append::{AppendDisk, read_prefix};
use cm_outer::{BentDisk, DiskCall, MemDisk, MemSource};
use std::test::Fail;

pub fn store<D: Disk>(disk: &mut D, path: &str, bytes: &[u8]) -> Result<(), DiskFault> {
    let mut writer = disk.create(path)?;
    let wrote = writer.write(bytes);
    disk.close(path, writer)?;
    wrote?;
    Ok(())
}

/// Makes an empty file, and appends two pieces to it.
pub fn store_pieces<D: AppendDisk>(
    disk: &mut D,
    path: &str,
    first: &[u8],
    last: &[u8],
) -> Result<(), DiskFault> {
    let writer = disk.create(path)?;
    disk.close(path, writer)?;
    disk.append(path, first, false)?;
    disk.append(path, last, true)
}

/// What four appends to a spill and four reads of it returned, and the bytes of each read.
#[derive(Drop)]
pub struct Uses {
    pub appends: [Result<(), Failed>; 4],
    pub counts: [Result<usize, Failed>; 4],
    pub bufs: [[u8; 4]; 4],
}

impl Uses {
    pub fn new() -> Uses {
        Uses {
            appends: [Err(Failed); 4],
            counts: [Err(Failed); 4],
            bufs: [[0; 4]; 4],
        }
    }

    /// Appends three pieces, reads from an inner place, at the end and after it, appends another piece, and reads from an inner place.
    pub fn make<P: Spill>(&mut self, spill: &mut P) {
        self.appends[0] = spill.append(b"abc");
        self.appends[1] = spill.append(b"de");
        self.appends[2] = spill.append(b"f");
        self.counts[0] = spill.read_at(1, &mut self.bufs[0]);
        self.counts[1] = spill.read_at(6, &mut self.bufs[1]);
        self.counts[2] = spill.read_at(9, &mut self.bufs[2]);
        self.appends[3] = spill.append(b"gh");
        self.counts[3] = spill.read_at(5, &mut self.bufs[3]);
    }
}

#[test]
fn files_are_appended_to(rt: HostRuntime) -> Result<(), Fail> {
    let mut disk = MemDisk::new(rt.alloc(), 6);
    let stored = store_pieces(&mut disk, "out", b"abc", b"def");
    expect_equal(&rt, &stored, &Ok(()));
    expect_equal(&rt, &disk.get("out"), &Some(b"abcdef".as_slice()));
    let more = store_pieces(&mut disk, "out", b"abcd", b"efg");
    expect_equal(&rt, &more, &Err(DiskFault::Failed));
    Ok(())
}

#[test]
fn unknown_files_are_appended_to(rt: HostRuntime) -> Result<(), Fail> {
    let alloc = rt.alloc();
    let passes = vec![in alloc; b"a\n".to_vec(alloc)?]?;
    let mut disk = BentDisk::new(alloc, 9, passes, 0, 7);
    let stored = store_pieces(&mut disk, "out", b"abc", b"def");
    expect_equal(&rt, &stored, &Ok(()));
    expect_equal(&rt, &disk.made(), &Some(b"abcdef".as_slice()));
    expect_equal(&rt, &disk.check_distinct("out", "out"), &Ok(()));
    Ok(())
}

/// The second check is listed.
#[test]
fn paths_are_checked(rt: HostRuntime) -> Result<(), Fail> {
    let mut disk = MemDisk::new(rt.alloc(), 6);
    disk.fail(DiskCall::CheckDistinct, 1)?;
    for wanted in [Ok(()), Err(DiskFault::Failed), Ok(())] {
        expect_equal(&rt, &disk.check_distinct("keys", "out"), &wanted);
    }
    expect_equal(&rt, &disk.write_faults(), &1);
    Ok(())
}

/// Two bytes are read, and then the others. The third read fails.
#[test]
fn a_source_is_read_up_to_a_limit(rt: HostRuntime) -> Result<(), Fail> {
    let alloc = rt.alloc();
    let mut source = MemSource::new(b"abc".to_vec(alloc)?, [2].to_vec(alloc)?, Vec::new(alloc));
    let mut bytes = Vec::new(alloc);
    if let Err(fault) = read_prefix(&mut source, 2, &mut bytes) {
        expect_equal(&rt, &Err(fault), &Ok(()));
        return Ok(());
    }
    expect_bytes(&rt, bytes.as_slice(), b"ab");
    let fault = read_prefix(&mut source, usize::MAX, &mut bytes).err();
    expect_equal(&rt, &fault, &Some(DiskFault::Failed));
    expect_bytes(&rt, bytes.as_slice(), b"abc");
    Ok(())
}
