//! Real files. The contents of the disk are not known here. If those of a file are, a read returns what comes next in it. An
//! interrupted call is repeated.
ghost use Rattle.std.specs.Prelude.{◌≡◌, ◌<◌, ◌≤◌, [], None, Some, Err, IfErr, IfOk, IfSome, OnOk, is_err, length, take, nat_lt, string_bytes};
ghost use Rattle.std.specs.Io.KnownBytes.{Appends, Consumes, IsAtEnd, append_known};
ghost use Rattle.std.specs.Io.Seek.{MovesTo};
ghost use Rattle.std.specs.Option.{ForSome};
ghost use Rattle.cm_io.specs.Causes.{HasCause, HasCloseCause, HasDiskCause, Collects};
ghost use Rattle.cm_io.specs.Counts.{counted, counted_if};
ghost use Rattle.cm_io.specs.Files.{Closes, Creates, Opens};
ghost use Rattle.cm_io_append.specs.Extending.{Extends};
ghost use Rattle.cm_real.specs.Spills.{spill_path_of};

use crate::{FileSpill, StdSink};
use cm_io::{Disk, DiskFault, Failed, Sink, Source, Spill};
use cm_io_append::AppendDisk;
use std::alloc::{AllocError, Global};
use std::fs::OpenFile;
use std::io::{ErrorKind, Read, Seek, SeekFrom, Write};
use std::os::unix::fs::{MetadataExt, OpenOptionsExt};
use std::path::Path;
use std::rt::Files;
use std::{fs, io};

/// A file that is read.
#[derive(Drop)]
pub struct FileReader<F> {
    file: F,
    faults: u64,
}

/// Reads, and returns how many bytes came: none only at the end, or if there is no room.
pub(crate) fn read_some<F: Read>(file: &mut F, buf: &mut [u8]) -> Option<usize>
    ensures bound { IfSome result (λ n. n ≤ length buf.old) }
    ensures bytes { IfSome result (λ n. Consumes (F.remaining file.old) (F.remaining file.new) (take n buf.new)) }
    ensures end { IfSome result (λ n. n ≡ 0 → 0 < length buf.old → IsAtEnd (F.remaining file.new)) }
{
    'tries: for _ in 0..u64::MAX {
        match file.read(buf) {
            Ok(count) => return Some(count),
            Err(error) => {
                if error.kind() != ErrorKind::Interrupted {
                    return None;
                }
            }
        }
    }
    None
}

impl<F: Read + Seek> Source for FileReader<F> {
    ghost told = { λ _. None };

    ghost place = { λ _. 0 };

    ghost faults = { λ s. s.faults };

    fn read(&mut self, buf: &mut [u8]) -> Result<usize, Failed>
        ensures bound { IfOk result (λ n. n ≤ length buf.old) }
        ensures cause { HasCause self.old.faults self.new.faults result }
        ensures bytes { IfOk result (λ n. Consumes (F.remaining self.old.file) (F.remaining self.new.file) (take n buf.new)) }
        ensures end { IfOk result (λ n. n ≡ 0 → 0 < length buf.old → IsAtEnd (F.remaining self.new.file)) }
    {
        match read_some(&mut self.file, buf) {
            Some(count) => Ok(count),
            None => {
                self.faults = self.faults.saturating_add(1);
                Err(Failed)
            }
        }
    }

    fn rewind(&mut self) -> Result<(), Failed>
        ensures cause { HasCause self.old.faults self.new.faults result }
        ensures start { MovesTo (F.stream_position self.old.file) (F.stream_position self.new.file) 0 result }
    {
        match self.file.seek(SeekFrom::Start(0)) {
            Ok(_) => Ok(()),
            Err(_) => {
                self.faults = self.faults.saturating_add(1);
                Err(Failed)
            }
        }
    }
}

/// Opens with these options. An interrupted call is repeated.
fn open_with<R: Files>(rt: &R, options: &fs::OpenOptions, path: &str) -> io::Result<R::File> {
    for _ in 0..u64::MAX {
        match options.open(rt, path) {
            Ok(file) => return Ok(file),
            Err(error) => {
                if error.kind() != ErrorKind::Interrupted {
                    return Err(error);
                }
            }
        }
    }
    Err(io::Error::from(ErrorKind::Interrupted))
}

/// Syncs the file to its disk, and returns whether that worked. A pipe or a device can't be synced, and that is no fault.
fn is_synced<F: OpenFile>(file: &F) -> bool {
    for _ in 0..u64::MAX {
        match file.sync_all() {
            Ok(()) => return true,
            Err(error) => match error.kind() {
                ErrorKind::Interrupted => {}
                ErrorKind::InvalidInput | ErrorKind::Unsupported => return true,
                _ => return false,
            },
        }
    }
    false
}

/// Opens the file of a path, and appends a piece to it. None if that fails: a prefix of the piece may have been appended then.
fn extended<R: Files>(rt: &R, path: &str, piece: &[u8]) -> Option<R::File>
    ensures taken { IfSome result (λ file. (before : R.File) × Appends (R.File.contents before) (R.File.contents file) piece.now) }
{
    let mut options = fs::OpenOptions::new();
    let _ = options.append(true);
    match open_with(rt, &options, path) {
        Ok(mut file) => {
            if file.write_all(piece).is_err() {
                return None;
            }
            Some(file)
        }
        Err(_) => None,
    }
}

/// The metadata of the file that a path leads to, if there is any. An interrupted call is repeated.
fn metadata_of<R: Files>(rt: &R, path: &str) -> Option<fs::Metadata> {
    for _ in 0..u64::MAX {
        match fs::metadata(rt, path) {
            Ok(metadata) => return Some(metadata),
            Err(error) => {
                if error.kind() != ErrorKind::Interrupted {
                    return None;
                }
            }
        }
    }
    None
}

/// Whether both paths lead to the same regular file. Others, as pipes and terminals, may be read and written by one run.
fn lead_to_one_file<R: Files>(rt: &R, path: &str, other: &str) -> bool {
    match (metadata_of(rt, path), metadata_of(rt, other)) {
        (Some(one), Some(two)) => {
            one.is_file() && two.is_file() && one.dev() == two.dev() && one.ino() == two.ino()
        }
        // What isn't there can't be opened, or is created anew.
        _ => false,
    }
}

/// The path of the spill in a directory, for the process with this number.
fn spill_path(alloc: Global, dir: &str, number: u32) -> Result<String, AllocError>
    ensures path { IfOk result (λ path. string_bytes path ≡ spill_path_of dir.now number) }
{
    let name = format!(in alloc; "cmph-{number}.spill")?;
    Ok(Path::new(dir).join(alloc, name)?.into_string())
}

/// The files of the system. A spill is the file `cmph-N.spill` in its directory, where N is the number of the process.
#[derive(Drop)]
pub struct FileDisk<'a, R> {
    rt: &'a R,
    alloc: Global,
    number: u32,
    read_faults: u64,
    write_faults: u64,
}

impl<'a, R: Files> FileDisk<'a, R> {
    /// A disk for the process with this number, of which no call has failed yet.
    pub fn new(rt: &'a R, alloc: Global, number: u32) -> FileDisk<'a, R>
        ensures files { (⟦<FileDisk<'a, R> as Disk>⟧.state result).files ≡ None }
        ensures spilled { (⟦<FileDisk<'a, R> as Disk>⟧.state result).spilled ≡ None }
        ensures read_faults { (⟦<FileDisk<'a, R> as Disk>⟧.state result).read_faults ≡ 0 }
        ensures write_faults { (⟦<FileDisk<'a, R> as Disk>⟧.state result).write_faults ≡ 0 }
        ensures number { result.number ≡ number }
    {
        FileDisk {
            rt,
            alloc,
            number,
            read_faults: 0,
            write_faults: 0,
        }
    }
}

impl<'a, R: Files> Disk for FileDisk<'a, R> {
    type Reader = FileReader<R::File>;

    type Writer = StdSink<R::File>;

    type Spill = FileSpill<R::File>;

    ghost state = { λ d. record { files = None; spilled = None; read_faults = d.read_faults; write_faults = d.write_faults } };

    fn open(&mut self, path: &str) -> Result<FileReader<R::File>, DiskFault>
        ensures write_faults { self.new.write_faults ≡ self.old.write_faults }
        ensures cause { HasDiskCause self.old.read_faults self.new.read_faults result }
        ensures fresh { IfOk result (λ reader. reader.faults ≡ 0) }
        ensures start { IfOk result (λ reader. ForSome (⟦<FileReader<R::File> as Source>⟧.told reader) (λ _. ⟦<FileReader<R::File> as Source>⟧.place reader ≡ 0)) }
        ensures reader { IfOk result (λ reader. ForSome (⟦<FileDisk<'a, R> as Disk>⟧.state self.old).files (λ files.
            Opens files path.now (⟦<FileReader<R::File> as Source>⟧.told reader) (⟦<FileReader<R::File> as Source>⟧.place reader))) }

        // A failure counts once, and nothing else does.
        ensures count { self.new.read_faults ≡ counted_if (is_err result) self.old.read_faults }
    {
        match open_with(self.rt, fs::OpenOptions::new().read(true), path) {
            Ok(file) => Ok(FileReader { file, faults: 0 }),
            Err(_) => {
                self.read_faults = self.read_faults.saturating_add(1);
                Err(DiskFault::Failed)
            }
        }
    }

    fn shut(&mut self, reader: FileReader<R::File>)
        ensures write_faults { self.new.write_faults ≡ self.old.write_faults }
        ensures cause { Collects reader.faults self.old.read_faults self.new.read_faults }

        // A reader that has failed counts once, and nothing else does.
        ensures count { self.new.read_faults ≡ counted_if (nat_lt 0 reader.faults) self.old.read_faults }
    {
        if reader.faults > 0 {
            self.read_faults = self.read_faults.saturating_add(1);
        }
    }

    fn create(&mut self, path: &str) -> Result<StdSink<R::File>, DiskFault>
        ensures files { Creates path.now None None result }
        ensures read_faults { self.new.read_faults ≡ self.old.read_faults }
        ensures cause { HasDiskCause self.old.write_faults self.new.write_faults result }
        ensures fresh { IfOk result (λ writer. writer.faults ≡ 0) }
        ensures empty { IfOk result (λ writer. ForSome (⟦<StdSink<R::File> as Sink>⟧.state writer).written (λ bytes. bytes ≡ [])) }
        ensures writer { IfOk result (λ writer. ForSome (⟦<FileDisk<'a, R> as Disk>⟧.state self.old).files (λ _. (⟦<StdSink<R::File> as Sink>⟧.state writer).written ≡ Some [])) }

        // Nothing is buffered yet.
        ensures waits { IfOk result (λ writer. writer.waiting.items ≡ []) }

        // A failure counts once, and nothing else does.
        ensures count { self.new.write_faults ≡ counted_if (is_err result) self.old.write_faults }
    {
        let mut options = fs::OpenOptions::new();
        let _ = options.write(true).create(true).truncate(true);
        match open_with(self.rt, &options, path) {
            Ok(file) => Ok(StdSink::new(file)),
            Err(_) => {
                self.write_faults = self.write_faults.saturating_add(1);
                Err(DiskFault::Failed)
            }
        }
    }

    fn close(&mut self, _path: &str, writer: StdSink<R::File>) -> Result<(), Failed>
        ensures files { Closes _path.now None None None result }
        ensures read_faults { self.new.read_faults ≡ self.old.read_faults }
        ensures cause { HasCloseCause writer.faults self.old.write_faults self.new.write_faults result }

        // The file has all bytes that the writer had buffered, after those that were there, and no write has failed.
        ensures sent { OnOk result ((file : R.File) × Appends (append_known (R.File.contents writer.writer) writer.waiting.items) (R.File.contents file) []) }
        ensures fine { OnOk result (writer.faults ≡ 0) }

        // A failure counts once, and nothing else does.
        ensures count { self.new.write_faults ≡ counted_if (is_err result) self.old.write_faults }
    {
        match writer.finish() {
            Some(file) if is_synced(&file) => Ok(()),
            _ => {
                self.write_faults = self.write_faults.saturating_add(1);
                Err(Failed)
            }
        }
    }

    fn spill(&mut self, dir: &str) -> Result<FileSpill<R::File>, DiskFault>
        ensures read_faults { self.new.read_faults ≡ self.old.read_faults }
        ensures cause { HasDiskCause self.old.write_faults self.new.write_faults result }
        ensures fresh { IfOk result (λ spill. spill.faults ≡ 0) }
        ensures empty { IfOk result (λ spill. ForSome (⟦<FileSpill<R::File> as Spill>⟧.told spill) (λ bytes. bytes ≡ [])) }
        ensures told { IfOk result (λ spill. ForSome (⟦<FileDisk<'a, R> as Disk>⟧.state self.old).files (λ _. ⟦<FileSpill<R::File> as Spill>⟧.told spill ≡ Some [])) }

        // A failure counts once.
        ensures count { (result ≡ Err DiskFault.Failed) → self.new.write_faults ≡ counted self.old.write_faults }

        // The name has the number of the process.
        ensures path { IfOk result (λ spill. string_bytes spill.path ≡ spill_path_of dir.now self.old.number) }
    {
        let path = spill_path(self.alloc, dir, self.number)?;
        // Removes what an earlier process with this number left.
        let _ = fs::remove_file(self.rt, path.as_str());
        let mut options = fs::OpenOptions::new();
        let _ = options.read(true).write(true).create_new(true);
        // No other user may read the keys in it.
        let _ = options.mode(0o600);
        match open_with(self.rt, &options, path.as_str()) {
            Ok(file) => Ok(FileSpill::new(file, path)),
            Err(_) => {
                self.write_faults = self.write_faults.saturating_add(1);
                Err(DiskFault::Failed)
            }
        }
    }

    fn give_back(&mut self, spill: FileSpill<R::File>)
        ensures read_faults { self.new.read_faults ≡ self.old.read_faults }
        ensures cause { Collects spill.faults self.old.write_faults self.new.write_faults }

        // A spill that has failed counts once, and nothing else does.
        ensures count { self.new.write_faults ≡ counted_if (nat_lt 0 spill.faults) self.old.write_faults }
    {
        let (path, faults) = spill.close();
        let _ = fs::remove_file(self.rt, path.as_str());
        if faults > 0 {
            self.write_faults = self.write_faults.saturating_add(1);
        }
    }
}

impl<'a, R: Files> AppendDisk for FileDisk<'a, R> {
    fn append(&mut self, path: &str, piece: &[u8], last: bool) -> Result<(), DiskFault>
        ensures files { Extends path.now piece.now None None result }
        ensures read_faults { self.new.read_faults ≡ self.old.read_faults }
        ensures cause { HasDiskCause self.old.write_faults self.new.write_faults result }

        // A file has the piece behind the bytes that it had.
        ensures taken { OnOk result ((before : R.File) × (after : R.File) × Appends (R.File.contents before) (R.File.contents after) piece.now) }

        // A failure counts once, and nothing else does.
        ensures count { self.new.write_faults ≡ counted_if (is_err result) self.old.write_faults }
    {
        match extended(self.rt, path, piece) {
            Some(file) if !last || is_synced(&file) => Ok(()),
            _ => {
                self.write_faults = self.write_faults.saturating_add(1);
                Err(DiskFault::Failed)
            }
        }
    }

    fn check_distinct(&mut self, read: &str, made: &str) -> Result<(), DiskFault>
        ensures read_faults { self.new.read_faults ≡ self.old.read_faults }
        ensures cause { HasDiskCause self.old.write_faults self.new.write_faults result }

        // It never fails for memory.
        ensures failed { IfErr result (λ fault. fault ≡ DiskFault.Failed) }

        // A failure counts once, and nothing else does.
        ensures count { self.new.write_faults ≡ counted_if (is_err result) self.old.write_faults }
    {
        if lead_to_one_file(self.rt, read, made) {
            self.write_faults = self.write_faults.saturating_add(1);
            return Err(DiskFault::Failed);
        }
        Ok(())
    }
}
