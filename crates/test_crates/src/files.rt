//! Real files, folders and spills, and sinks over std's writers.
use crate::equal::{expect_bytes, expect_equal, expect_true};
use crate::memory::{Uses, store, store_pieces};
use cm_io::{Disk, DiskFault, Failed, Source, Spill, write_pieces};
use cm_io_append::{AppendDisk, read_prefix};
use cm_real::{FileDisk, StdSink};
use std::alloc::{AllocError, AllocGlobal, Global};
use std::fs;
use std::rt::Files;
use std::test::Fail;

fn path_of(alloc: Global, kind: &str, number: u32) -> Result<String, AllocError> {
    format!(in alloc; "/tmp/cm-real-{kind}-{number}")
}

/// An empty file that no one else has.
fn new_file<R: Files + AllocGlobal>(rt: &R) -> Result<String, Fail> {
    for number in 0..1000u32 {
        let path = path_of(rt.alloc(), "test", number)?;
        if let Ok(_file) = fs::File::create_new(rt, path.as_str()) {
            return Ok(path);
        }
    }
    Ok(String::new(rt.alloc()))
}

/// An empty folder that no one else has.
fn new_folder<R: Files + AllocGlobal>(rt: &R) -> Result<String, Fail> {
    for number in 0..1000u32 {
        let path = path_of(rt.alloc(), "folder", number)?;
        if fs::create_dir(rt, path.as_str()).is_ok() {
            return Ok(path);
        }
    }
    Ok(String::new(rt.alloc()))
}

/// What a writer has got after these pieces.
fn sent(alloc: Global, pieces: &[&[u8]]) -> Vec<u8> {
    let mut sink = StdSink::new(Vec::new(alloc));
    let _ = write_pieces(&mut sink, pieces);
    sink.into_parts().0
}

/// Reads two bytes, and then from the start to the end. Without a rewind there is one more byte to read.
fn read_again<S: Source>(reader: &mut S, buf: &mut [u8; 4]) -> [Result<usize, Failed>; 3] {
    let first = reader.read(&mut buf[..2]);
    let _ = reader.rewind();
    let all = reader.read(buf);
    [first, all, reader.read(&mut buf[3..])]
}

#[test]
fn a_file_is_written_and_read(rt: HostRuntime) -> Result<(), Fail> {
    let path = new_file(&rt)?;
    let mut disk = FileDisk::new(&rt, rt.alloc(), 7);
    let stored = store(&mut disk, path.as_str(), b"abc");
    let mut buf = [0u8; 4];
    let mut counts = [Err(Failed); 3];
    if let Ok(mut reader) = disk.open(path.as_str()) {
        counts = read_again(&mut reader, &mut buf);
        disk.shut(reader);
    }
    fs::remove_file(&rt, path.as_str())?;
    expect_equal(&rt, &stored, &Ok(()));
    expect_equal(&rt, &counts, &[Ok(2), Ok(3), Ok(0)]);
    expect_bytes(&rt, buf.as_slice(), b"abc\0");
    expect_true(
        &rt,
        matches!(disk.open(path.as_str()), Err(DiskFault::Failed)),
    );
    Ok(())
}

/// All bytes of a file.
fn whole_file<D: Disk>(alloc: Global, disk: &mut D, path: &str) -> Result<Vec<u8>, DiskFault> {
    let mut reader = disk.open(path)?;
    let mut bytes = Vec::new(alloc);
    let outcome = read_prefix(&mut reader, usize::MAX, &mut bytes);
    disk.shut(reader);
    outcome?;
    Ok(bytes)
}

#[test]
fn a_file_is_appended_to(rt: HostRuntime) -> Result<(), Fail> {
    let path = new_file(&rt)?;
    let mut disk = FileDisk::new(&rt, rt.alloc(), 7);
    let stored = store(&mut disk, path.as_str(), b"an earlier one");
    let pieces = store_pieces(&mut disk, path.as_str(), b"abc", b"def");
    let more = disk.append(path.as_str(), b"gh", false);
    let whole = whole_file(rt.alloc(), &mut disk, path.as_str());
    fs::remove_file(&rt, path.as_str())?;
    expect_equal(&rt, &[stored, pieces, more], &[Ok(()); 3]);
    match whole {
        Ok(bytes) => expect_bytes(&rt, bytes.as_slice(), b"abcdefgh"),
        Err(fault) => expect_equal(&rt, &Err(fault), &Ok(())),
    }
    // A file that isn't there is not made.
    let missing = disk.append(path.as_str(), b"a", true);
    expect_equal(&rt, &missing, &Err(DiskFault::Failed));
    expect_true(&rt, !fs::exists(&rt, path.as_str())?);
    Ok(())
}

/// What checks of a file beside four paths return: of the file itself in another spelling, a hard link to it, a copy, and nothing.
fn checked<D: AppendDisk>(
    alloc: Global,
    disk: &mut D,
    folder: &str,
) -> Result<[Result<(), DiskFault>; 4], AllocError> {
    let read = format!(in alloc; "{folder}/read")?;
    let mut checks = [Ok(()); 4];
    let names = ["./read", "link", "copy", "none"];
    for i in 0..4 {
        let made = format!(in alloc; "{folder}/{}", names[i])?;
        checks[i] = disk.check_distinct(read.as_str(), made.as_str());
    }
    Ok(checks)
}

#[test]
fn paths_that_lead_to_one_file(rt: HostRuntime) -> Result<(), Fail> {
    let folder = new_folder(&rt)?;
    let read = format!(in rt.alloc(); "{}/read", folder.as_str())?;
    let link = format!(in rt.alloc(); "{}/link", folder.as_str())?;
    let copy = format!(in rt.alloc(); "{}/copy", folder.as_str())?;
    fs::write(&rt, read.as_str(), "abc")?;
    fs::hard_link(&rt, read.as_str(), link.as_str())?;
    fs::write(&rt, copy.as_str(), "abc")?;
    let mut disk = FileDisk::new(&rt, rt.alloc(), 7);
    let checks = checked(rt.alloc(), &mut disk, folder.as_str())?;
    let folders = disk.check_distinct(folder.as_str(), folder.as_str());
    fs::remove_dir_all(&rt, folder.as_str())?;
    let failed = Err(DiskFault::Failed);
    expect_equal(&rt, &checks, &[failed, failed, Ok(()), Ok(())]);
    expect_equal(&rt, &folders, &Ok(()));
    Ok(())
}

/// A folder is not read, and a folder that isn't there has no file and no spill.
#[test]
fn folders(rt: HostRuntime) -> Result<(), Fail> {
    let mut disk = FileDisk::new(&rt, rt.alloc(), 7);
    if let Ok(mut reader) = disk.open("/tmp") {
        let count = reader.read(&mut [0u8; 4]);
        disk.shut(reader);
        expect_equal(&rt, &count, &Err(Failed));
    }
    let stored = store(&mut disk, "/tmp/no/such/folder", b"");
    expect_equal(&rt, &stored, &Err(DiskFault::Failed));
    let spill = disk.spill("/tmp/no/such/folder");
    expect_true(&rt, matches!(spill, Err(DiskFault::Failed)));
    Ok(())
}

#[test]
fn a_spill_is_read_from_any_place(rt: HostRuntime) -> Result<(), Fail> {
    let folder = new_folder(&rt)?;
    let path = format!(in rt.alloc(); "{}/cmph-7.spill", folder.as_str())?;
    fs::write(&rt, path.as_str(), "an earlier one")?;
    let mut disk = FileDisk::new(&rt, rt.alloc(), 7);
    let mut uses = Uses::new();
    let mut kept = Vec::new(rt.alloc());
    if let Ok(mut spill) = disk.spill(folder.as_str()) {
        uses.make(&mut spill);
        kept = fs::read(&rt, path.as_str())?;
        disk.give_back(spill);
    }
    let is_there = fs::exists(&rt, path.as_str())?;
    fs::remove_dir(&rt, folder.as_str())?;
    expect_equal(&rt, &uses.appends, &[Ok(()); 4]);
    expect_equal(&rt, &uses.counts, &[Ok(4), Ok(0), Ok(0), Ok(3)]);
    expect_equal(&rt, &uses.bufs, &[*b"bcde", [0; 4], [0; 4], *b"fgh\0"]);
    expect_bytes(&rt, kept.as_slice(), b"abcdefgh");
    expect_true(&rt, !is_there);
    Ok(())
}

/// Pieces wait in the buffer, and one may be larger than it.
#[test]
fn pieces_to_a_writer(rt: HostRuntime) -> Result<(), Fail> {
    let alloc = rt.alloc();
    let larger = vec![in alloc; b'y'; 16385]?;
    let counts = [
        sent(alloc, &[b"a\n", b"b"]).len(),
        sent(alloc, &[b"a\n", b"b", b""]).len(),
        sent(alloc, &[b"ab", &larger[1..]]).len(),
    ];
    expect_equal(&rt, &counts, &[0, 3, 2]);
    let bytes = sent(alloc, &[b"ab", larger.as_slice(), b"c"]);
    expect_equal(&rt, &bytes.len(), &16387);
    expect_true(&rt, bytes.starts_with(b"aby"));
    Ok(())
}
