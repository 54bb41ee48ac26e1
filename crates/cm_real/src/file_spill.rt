//! A file that is appended to and read from any offset. The bytes of a spill are not known here. If those of the file are, an append
//! adds the piece to them, and a read returns what comes next at the offset.
ghost use Rattle.std.specs.Prelude.{◌≡◌, ◌≤◌, None, true, false, IfOk, IfSome, OnOk, length};
ghost use Rattle.std.specs.Io.KnownBytes.{Appends};
ghost use Rattle.cm_io.specs.Causes.{HasCause};
ghost use Rattle.cm_io.specs.Writing.{Writes};
ghost use Rattle.cm_real.specs.Spills.{AppendsAtEnd, GivesFrom};

use crate::file_disk::read_some;
use cm_io::{Failed, Spill};
use std::io::{Read, Seek, SeekFrom, Write};

/// An open file with its path.
#[derive(Drop)]
pub struct FileSpill<F> {
    file: F,
    path: String,
    // Whether a read may have moved the file away from its end.
    moved: bool,
    faults: u64,
}

impl<F> FileSpill<F> {
    /// A spill on a file that stands at its end.
    pub(crate) fn new(file: F, path: String) -> FileSpill<F>
        ensures path { result.path ≡ path }
        ensures end { result.moved ≡ false }
        ensures faults { result.faults ≡ 0 }
    {
        FileSpill {
            file,
            path,
            moved: false,
            faults: 0,
        }
    }
}

impl<F: Drop> FileSpill<F> {
    /// Closes the file. Returns its path, and how often a call has failed.
    pub(crate) fn close(self) -> (String, u64)
        ensures path { result.0 ≡ self.path }
        ensures faults { result.1 ≡ self.faults }
    {
        let FileSpill {
            file: _,
            path,
            moved: _,
            faults,
        } = self;
        (path, faults)
    }
}

impl<F: Read + Write + Seek> FileSpill<F> {
    /// Writes the piece at the end. The file is moved there only after a read.
    fn write_at_end(&mut self, piece: &[u8]) -> bool
        ensures faults { self.new.faults ≡ self.old.faults }
        ensures end { result ≡ true → self.new.moved ≡ false }
        ensures next { result ≡ true → self.old.moved ≡ false → Appends (F.contents self.old.file) (F.contents self.new.file) piece.now }
        ensures back { result ≡ true → self.old.moved ≡ true → AppendsAtEnd F.stream_position F.stream_bytes F.contents self.old.file self.new.file piece.now }
    {
        if self.moved {
            if self.file.seek(SeekFrom::End(0)).is_err() {
                return false;
            }
            self.moved = false;
        }
        self.file.write_all(piece).is_ok()
    }

    /// Moves the file to the offset, and reads there.
    fn read_from(&mut self, offset: u64, buf: &mut [u8]) -> Option<usize>
        ensures faults { self.new.faults ≡ self.old.faults }
        ensures moved { self.new.moved ≡ true }
        ensures bound { IfSome result (λ n. n ≤ length buf.old) }
        ensures bytes { IfSome result (λ n. GivesFrom F.stream_position F.remaining self.old.file self.new.file offset (length buf.old) n buf.new) }
    {
        self.moved = true;
        self.file.seek(SeekFrom::Start(offset)).ok()?;
        read_some(&mut self.file, buf)
    }
}

impl<F: Read + Write + Seek> Spill for FileSpill<F> {
    ghost told = { λ _. None };

    ghost faults = { λ s. s.faults };

    fn append(&mut self, piece: &[u8]) -> Result<(), Failed>
        ensures bytes { Writes None None piece.now result }
        ensures cause { HasCause self.old.faults self.new.faults result }
        ensures end { OnOk result (self.new.moved ≡ false) }
        ensures next { OnOk result (self.old.moved ≡ false → Appends (F.contents self.old.file) (F.contents self.new.file) piece.now) }
        ensures back { OnOk result (self.old.moved ≡ true → AppendsAtEnd F.stream_position F.stream_bytes F.contents self.old.file self.new.file piece.now) }
    {
        if self.write_at_end(piece) {
            Ok(())
        } else {
            self.faults = self.faults.saturating_add(1);
            Err(Failed)
        }
    }

    fn read_at(&mut self, offset: u64, buf: &mut [u8]) -> Result<usize, Failed>
        ensures bound { IfOk result (λ n. n ≤ length buf.old) }
        ensures cause { HasCause self.old.faults self.new.faults result }
        ensures moved { self.new.moved ≡ true }
        ensures bytes { IfOk result (λ n. GivesFrom F.stream_position F.remaining self.old.file self.new.file offset (length buf.old) n buf.new) }
    {
        match self.read_from(offset, buf) {
            Some(count) => Ok(count),
            None => {
                self.faults = self.faults.saturating_add(1);
                Err(Failed)
            }
        }
    }
}
