//! A disk in memory.
ghost use Rattle.std.specs.Prelude.{◌≡◌, ◌<◌, ◌≤◌, ◌+◌, ◌-◌, ◌↔◌, ◌⊎◌, ◌++◌, ◌∷◌, ◌||◌, [], None, Some, IfErr, IfOk, OnOk, OnErr, IsErr, Contains, is_err, length, min, nat_lt, option_copied, take};
ghost use Rattle.std.specs.FinMap as maps;
ghost use Rattle.std.specs.Option.{ForSome};
ghost use Rattle.cm_io.specs.Causes.{HasDiskCause, Collects, HasCloseCause};
ghost use Rattle.cm_io.specs.Files.{IsThere, Opens, Creates, Closes, file_at};
ghost use Rattle.cm_io.specs.Counts.{counted, counted_if};
ghost use Rattle.cm_io_append.specs.Extending.{Extends, extended};
ghost use Rattle.cm_outer.specs.DiskCalls.{no_calls, numbers};
ghost use Rattle.cm_outer.specs.MemDisks.{is_failed, room_left};
ghost use Rattle.cm_io_memory.specs.MemSources.{new_source};
ghost use Rattle.cm_io_memory.specs.MemSinks.{new_sink};
ghost use Rattle.cm_io_memory.specs.MemSpills.{new_spill};

use crate::DiskCall;
use crate::listed_calls::{next_is_listed, sink_of, source_of, spill_of};
use crate::mem_file::{MemFile, bytes_at, extend_bytes, set_bytes};
use cm_io::{Disk, DiskFault, Failed};
use cm_io_append::AppendDisk;
use cm_io_memory::{MemSink, MemSource, MemSpill};
use std::alloc::{AllocError, Global};
use std::marker::Model;

/// Files in memory. Each writer and each spill has room for `room` bytes, and so has each file that is appended to. An `open` of a path that isn't there fails, and so does each
/// listed call. A call is listed by its kind and its number among the calls of that kind, from 0; one that fails counts too, also if
/// memory ran out.
#[derive(Drop)]
pub struct MemDisk {
    alloc: Global,
    room: usize,
    files: Vec<MemFile>,
    spilled: Option<Vec<u8>>,
    read_faults: u64,
    write_faults: u64,
    listed: Vec<(DiskCall, u64)>,
    opens: u64,
    creates: u64,
    closes: u64,
    extends: u64,
    checks: u64,
    spills: u64,
}

impl Model for MemDisk {
    ghost use Rattle.cm_outer.specs.MemDisks.{DiskInMemory, disk_code};
    ghost use Rattle.cm_outer.specs.MemFiles.{files_of};
    ghost use Rattle.std.specs.Option.{option_map};

    ghost Value = { DiskInMemory };

    ghost coded = { disk_code };

    ghost view = { λ d. record {
      files = files_of d.files.items;
      room = d.room;
      spilled = option_map (λ v. v.items) d.spilled;
      read_faults = d.read_faults;
      write_faults = d.write_faults;
      calls = record { listed = d.listed.items; opens = d.opens; creates = d.creates; closes = d.closes; extends = d.extends; checks = d.checks; spills = d.spills };
    } };
}

impl MemDisk {
    /// A disk with no files, whose writers and spills have room for `room` bytes, and that lists no calls.
    pub fn new(alloc: Global, room: usize) -> MemDisk
        ensures state { result ≡ record { files = maps.empty; room = room; spilled = None; read_faults = 0; write_faults = 0; calls = no_calls } }
    {
        MemDisk {
            alloc,
            room,
            files: Vec::new(alloc),
            spilled: None,
            read_faults: 0,
            write_faults: 0,
            listed: Vec::new(alloc),
            opens: 0,
            creates: 0,
            closes: 0,
            extends: 0,
            checks: 0,
            spills: 0,
        }
    }

    /// Lists one more call that fails: the call with this number, from 0, among the calls of its kind. `Open`, `Create`, `Close`,
    /// `Extend`, `CheckDistinct` and `Spill` are the disk's own calls. The other kinds are counted for each reader, writer or spill by itself, and fail in each that
    /// is made from now on. If memory runs out, the list stays as before.
    pub fn fail(&mut self, call: DiskCall, number: u64) -> Result<(), AllocError>
        ensures ok { OnOk result (self.new ≡ record self.old {
          calls = record self.old.calls { listed = self.old.calls.listed ++ (call, number) ∷ [] };
        }) }
        ensures err { OnErr result (self.new ≡ self.old) }
    {
        self.listed.push((call, number))?;
        Ok(())
    }

    /// How often opening or reading has failed.
    pub fn read_faults(&self) -> u64
        ensures { result ≡ self.now.read_faults }
    {
        self.read_faults
    }

    /// How often creating or writing has failed.
    pub fn write_faults(&self) -> u64
        ensures { result ≡ self.now.write_faults }
    {
        self.write_faults
    }

    /// Makes the path hold these bytes, whatever the room. If memory runs out, the files stay as before.
    pub fn put(&mut self, path: &str, bytes: &[u8]) -> Result<(), AllocError>
        ensures ok { OnOk result (self.new ≡ record self.old {
          files = maps.insert self.old.files path.now bytes.now;
        }) }
        ensures err { OnErr result (self.new ≡ self.old) }
    {
        let bytes = bytes.to_vec(self.alloc)?;
        set_bytes(self.alloc, &mut self.files, path, bytes)
    }

    /// The bytes of a path, if it is there.
    pub fn get(&self, path: &str) -> Option<&[u8]>
        ensures bytes { option_copied result ≡ file_at self.now.files path.now }
    {
        bytes_at(&self.files, path)
    }

    /// Makes the path hold no bytes, and returns a writer for it. If memory runs out, the files stay as before.
    fn created(&mut self, path: &str) -> Result<MemSink, AllocError>
        ensures sink { IfOk result (λ sink. sink ≡ new_sink self.old.room (numbers DiskCall.Write self.old.calls.listed)) }
        ensures ok { OnOk result (self.new ≡ record self.old { files = maps.insert self.old.files path.now [] }) }
        ensures err { OnErr result (self.new ≡ self.old) }
    {
        let sink = sink_of(self.alloc, self.room, &self.listed)?;
        set_bytes(self.alloc, &mut self.files, path, Vec::new(self.alloc))?;
        Ok(sink)
    }

    /// The first of these bytes, as many as have room behind those of a path.
    fn fitting<'a>(&self, path: &str, piece: &'a [u8]) -> &'a [u8]
        ensures fits { result.now ≡ take (room_left path.now self.now) piece.now }
    {
        let len = match bytes_at(&self.files, path) {
            Some(bytes) => bytes.len(),
            None => 0,
        };
        &piece[..self.room.saturating_sub(len).min(piece.len())]
    }
}

impl Disk for MemDisk {
    type Reader = MemSource;

    type Writer = MemSink;

    type Spill = MemSpill;

    ghost state = { λ d. record { files = Some d.files; spilled = d.spilled; read_faults = d.read_faults; write_faults = d.write_faults } };

    fn open(&mut self, path: &str) -> Result<MemSource, DiskFault>
        ensures files { Some self.new.files ≡ Some self.old.files }
        ensures spilled { self.new.spilled ≡ self.old.spilled }
        ensures write_faults { self.new.write_faults ≡ self.old.write_faults }
        ensures cause { HasDiskCause self.old.read_faults self.new.read_faults result }
        ensures fresh { IfOk result (λ reader. reader.faults ≡ 0) }
        ensures start { IfOk result (λ reader. ForSome (Some reader.bytes) (λ _. reader.place ≡ 0)) }
        ensures reader { IfOk result (λ reader. ForSome (Some self.old.files) (λ files.
            Opens files path.now (Some reader.bytes) reader.place)) }

        // Returns `Failed` exactly if it is listed or the path isn't there. The reader fails in its listed calls.
        ensures fails { (result ≡ Err DiskFault.Failed) ↔ (Contains self.old.calls.listed (DiskCall.Open, self.old.calls.opens)
            ⊎ (file_at self.old.files path.now ≡ None)) }
        ensures listed { IfOk result (λ reader. reader ≡ new_source reader.bytes
            (numbers DiskCall.Read self.old.calls.listed) (numbers DiskCall.Rewind self.old.calls.listed)) }
        ensures state { self.new ≡ record self.old {
          read_faults = counted_if (is_failed result) self.old.read_faults;
          calls = record self.old.calls { opens = counted self.old.calls.opens };
        } }
    {
        let listed = next_is_listed(&self.listed, DiskCall::Open, &mut self.opens);
        match bytes_at(&self.files, path) {
            Some(bytes) if !listed => Ok(source_of(self.alloc, bytes, &self.listed)?),
            _ => {
                self.read_faults = self.read_faults.saturating_add(1);
                Err(DiskFault::Failed)
            }
        }
    }

    fn shut(&mut self, reader: MemSource)
        ensures files { Some self.new.files ≡ Some self.old.files }
        ensures spilled { self.new.spilled ≡ self.old.spilled }
        ensures write_faults { self.new.write_faults ≡ self.old.write_faults }
        ensures cause { Collects reader.faults self.old.read_faults self.new.read_faults }

        // Nothing else changes.
        ensures state { self.new ≡ record self.old {
          read_faults = counted_if (nat_lt 0 reader.faults) self.old.read_faults;
        } }
    {
        if reader.has_failed() {
            self.read_faults = self.read_faults.saturating_add(1);
        }
    }

    fn create(&mut self, path: &str) -> Result<MemSink, DiskFault>
        ensures files { Creates path.now (Some self.old.files) (Some self.new.files) result }
        ensures spilled { self.new.spilled ≡ self.old.spilled }
        ensures read_faults { self.new.read_faults ≡ self.old.read_faults }
        ensures cause { HasDiskCause self.old.write_faults self.new.write_faults result }
        ensures fresh { IfOk result (λ writer. writer.faults ≡ 0) }
        ensures empty { IfOk result (λ writer. ForSome (Some writer.bytes) (λ bytes. bytes ≡ [])) }
        ensures writer { IfOk result (λ writer. ForSome (Some self.old.files) (λ _. Some writer.bytes ≡ Some [])) }

        // Returns `Failed` exactly if it is listed, and then the files stay. The writer has the room, and fails in its listed calls.
        ensures fails { (result ≡ Err DiskFault.Failed) ↔ Contains self.old.calls.listed (DiskCall.Create, self.old.calls.creates) }
        ensures listed { IfOk result (λ writer. writer ≡ new_sink self.old.room (numbers DiskCall.Write self.old.calls.listed)) }
        ensures ok { OnOk result (self.new ≡ record self.old {
          files = maps.insert self.old.files path.now [];
          calls = record self.old.calls { creates = counted self.old.calls.creates };
        }) }
        ensures err { OnErr result (self.new ≡ record self.old {
          write_faults = counted_if (is_failed result) self.old.write_faults;
          calls = record self.old.calls { creates = counted self.old.calls.creates };
        }) }
    {
        if next_is_listed(&self.listed, DiskCall::Create, &mut self.creates) {
            self.write_faults = self.write_faults.saturating_add(1);
            return Err(DiskFault::Failed);
        }
        Ok(self.created(path)?)
    }

    fn close(&mut self, path: &str, writer: MemSink) -> Result<(), Failed>
        requires there { IsThere path.now (Some self.old.files) }
        ensures files { Closes path.now (Some writer.bytes) (Some self.old.files) (Some self.new.files) result }
        ensures spilled { self.new.spilled ≡ self.old.spilled }
        ensures read_faults { self.new.read_faults ≡ self.old.read_faults }
        ensures cause { HasCloseCause writer.faults self.old.write_faults self.new.write_faults result }

        // Fails exactly if it is listed, and keeps what was written all the same.
        ensures fails { IsErr result ↔ Contains self.old.calls.listed (DiskCall.Close, self.old.calls.closes) }
        ensures state { self.new ≡ record self.old {
          files = maps.insert self.old.files path.now writer.bytes;
          write_faults = counted_if (is_err result || nat_lt 0 writer.faults) self.old.write_faults;
          calls = record self.old.calls { closes = counted self.old.calls.closes };
        } }
    {
        let listed = next_is_listed(&self.listed, DiskCall::Close, &mut self.closes);
        if listed || writer.has_failed() {
            self.write_faults = self.write_faults.saturating_add(1);
        }
        set_bytes(self.alloc, &mut self.files, path, writer.into_bytes()).unwrap();
        if listed {
            return Err(Failed);
        }
        Ok(())
    }

    fn spill(&mut self, _dir: &str) -> Result<MemSpill, DiskFault>
        ensures files { Some self.new.files ≡ Some self.old.files }
        ensures spilled { self.new.spilled ≡ self.old.spilled }
        ensures read_faults { self.new.read_faults ≡ self.old.read_faults }
        ensures cause { HasDiskCause self.old.write_faults self.new.write_faults result }
        ensures fresh { IfOk result (λ spill. spill.appended.faults ≡ 0) }
        ensures empty { IfOk result (λ spill. ForSome (Some spill.appended.bytes) (λ bytes. bytes ≡ [])) }
        ensures told { IfOk result (λ spill. ForSome (Some self.old.files) (λ _. Some spill.appended.bytes ≡ Some [])) }

        // Returns `Failed` exactly if it is listed. The spill has the room, and fails in its listed calls.
        ensures fails { (result ≡ Err DiskFault.Failed) ↔ Contains self.old.calls.listed (DiskCall.Spill, self.old.calls.spills) }
        ensures listed { IfOk result (λ spill. spill ≡ new_spill self.old.room
            (numbers DiskCall.Append self.old.calls.listed) (numbers DiskCall.ReadAt self.old.calls.listed)) }
        ensures state { self.new ≡ record self.old {
          write_faults = counted_if (is_failed result) self.old.write_faults;
          calls = record self.old.calls { spills = counted self.old.calls.spills };
        } }
    {
        if next_is_listed(&self.listed, DiskCall::Spill, &mut self.spills) {
            self.write_faults = self.write_faults.saturating_add(1);
            return Err(DiskFault::Failed);
        }
        Ok(spill_of(self.alloc, self.room, &self.listed)?)
    }

    fn give_back(&mut self, spill: MemSpill)
        ensures files { Some self.new.files ≡ Some self.old.files }
        ensures spilled { ForSome (Some self.old.files) (λ _. self.new.spilled ≡ Some spill.appended.bytes) }
        ensures read_faults { self.new.read_faults ≡ self.old.read_faults }
        ensures cause { Collects spill.appended.faults self.old.write_faults self.new.write_faults }

        // It keeps what was appended.
        ensures state { self.new ≡ record self.old {
          spilled = Some spill.appended.bytes;
          write_faults = counted_if (nat_lt 0 spill.appended.faults) self.old.write_faults;
        } }
    {
        if spill.has_failed() {
            self.write_faults = self.write_faults.saturating_add(1);
        }
        self.spilled = Some(spill.into_bytes());
    }
}

impl AppendDisk for MemDisk {
    fn append(&mut self, path: &str, piece: &[u8], _last: bool) -> Result<(), DiskFault>
        requires there { IsThere path.now (Some self.old.files) }
        ensures files { Extends path.now piece.now (Some self.old.files) (Some self.new.files) result }
        ensures spilled { self.new.spilled ≡ self.old.spilled }
        ensures read_faults { self.new.read_faults ≡ self.old.read_faults }
        ensures cause { HasDiskCause self.old.write_faults self.new.write_faults result }

        // Returns `Failed` if it is listed, and then appends nothing, and if the piece doesn't fit, and then appends what does.
        ensures listed { Contains self.old.calls.listed (DiskCall.Extend, self.old.calls.extends) →
            (result ≡ Err DiskFault.Failed) × (self.new.files ≡ self.old.files) }
        ensures fits { OnOk result (length piece.now ≤ room_left path.now self.old) }
        ensures full { result ≡ Err DiskFault.Failed → Contains self.old.calls.listed (DiskCall.Extend, self.old.calls.extends)
            ⊎ ((room_left path.now self.old < length piece.now)
            × (Some self.new.files ≡ extended path.now (take (room_left path.now self.old) piece.now) (Some self.old.files))) }
        ensures state { self.new ≡ record self.old {
          files = self.new.files;
          write_faults = counted_if (is_failed result) self.old.write_faults;
          calls = record self.old.calls { extends = counted self.old.calls.extends };
        } }
    {
        if next_is_listed(&self.listed, DiskCall::Extend, &mut self.extends) {
            self.write_faults = self.write_faults.saturating_add(1);
            return Err(DiskFault::Failed);
        }
        let part = self.fitting(path, piece);
        extend_bytes(&mut self.files, path, part)?;
        if part.len() < piece.len() {
            self.write_faults = self.write_faults.saturating_add(1);
            return Err(DiskFault::Failed);
        }
        Ok(())
    }

    fn check_distinct(&mut self, _read: &str, _made: &str) -> Result<(), DiskFault>
        ensures files { Some self.new.files ≡ Some self.old.files }
        ensures spilled { self.new.spilled ≡ self.old.spilled }
        ensures read_faults { self.new.read_faults ≡ self.old.read_faults }
        ensures cause { HasDiskCause self.old.write_faults self.new.write_faults result }

        // There are no links. It fails exactly if it is listed, and never for memory.
        ensures fails { IsErr result ↔ Contains self.old.calls.listed (DiskCall.CheckDistinct, self.old.calls.checks) }
        ensures failed { IfErr result (λ fault. fault ≡ DiskFault.Failed) }
        ensures state { self.new ≡ record self.old {
          write_faults = counted_if (is_err result) self.old.write_faults;
          calls = record self.old.calls { checks = counted self.old.calls.checks };
        } }
    {
        if next_is_listed(&self.listed, DiskCall::CheckDistinct, &mut self.checks) {
            self.write_faults = self.write_faults.saturating_add(1);
            return Err(DiskFault::Failed);
        }
        Ok(())
    }
}
