//! A disk in memory whose files change and whose spills have a byte that reads wrongly. Its files are not known.
ghost use Rattle.std.specs.Prelude.{◌≡◌, ◌<◌, ◌++◌, [], None, Some, IsOk, IfOk, IfErr, OnOk, OnErr, length, map, nat_lt, option_copied, unwrap_or};
ghost use Rattle.std.specs.Option.{ForSome, option_map};
ghost use Rattle.cm_io.specs.Causes.{HasDiskCause, Collects, HasCloseCause};
ghost use Rattle.cm_io.specs.Files.{Creates, Closes};
ghost use Rattle.cm_io.specs.Counts.{counted_if};
ghost use Rattle.cm_io_append.specs.Extending.{Extends};
ghost use Rattle.cm_outer.specs.TurnSources.{new_turns};
ghost use Rattle.cm_io_memory.specs.MemSinks.{new_sink};
ghost use Rattle.cm_outer.specs.BentSpills.{new_bent};

use crate::{BentSpill, TurnSource};
use cm_io::{Disk, DiskFault, Failed};
use cm_io_append::AppendDisk;
use cm_io_memory::MemSink;
use std::alloc::{AllocError, Global};
use std::marker::Model;

/// A disk where each path is a file whose contents change from pass to pass, and where one byte of each spill reads wrongly. Each writer
/// and each spill has room for `room` bytes. The disk's own calls fail only if memory runs out.
#[derive(Drop)]
pub struct BentDisk {
    alloc: Global,
    room: usize,
    passes: Vec<Vec<u8>>,
    place: u64,
    value: u8,
    made: Option<Vec<u8>>,
    write_faults: u64,
}

impl Model for BentDisk {
    ghost use Rattle.std.specs.Prelude.{◌<◌, length, map};
    ghost use Rattle.std.specs.Option.{option_map};
    ghost use Rattle.cm_outer.specs.BentDisks.{BentDiskInMemory};

    ghost Value = { BentDiskInMemory };

    ghost view = { λ d. record {
      passes = map (λ v. v.items) d.passes.items;
      room = d.room;
      place = d.place;
      value = d.value;
      made = option_map (λ v. v.items) d.made;
      write_faults = d.write_faults;
    } };

    ghost invariant = { λ d. 0 < length d.passes.items };
}

impl BentDisk {
    /// A disk whose files have these contents, one entry for each pass and at least one, and whose writers and spills have room for `room`
    /// bytes. The byte at `place`, counted from 0, of each spill reads as `value`.
    pub fn new(alloc: Global, room: usize, passes: Vec<Vec<u8>>, place: u64, value: u8) -> BentDisk
        requires some { 0 < length passes.items }
        ensures state { result ≡ record {
          passes = map (λ v. v.items) passes.items;
          room = room;
          place = place;
          value = value;
          made = None;
          write_faults = 0;
        } }
    {
        BentDisk {
            alloc,
            room,
            passes,
            place,
            value,
            made: None,
            write_faults: 0,
        }
    }

    /// What the writer that was last closed held, if one was closed.
    pub fn made(&self) -> Option<&[u8]>
        ensures made { option_copied result ≡ self.now.made }
    {
        match &self.made {
            Some(bytes) => Some(bytes),
            None => None,
        }
    }
}

impl Disk for BentDisk {
    type Reader = TurnSource;

    type Writer = MemSink;

    type Spill = BentSpill;

    ghost state = { λ d. record { files = None; spilled = None; read_faults = 0; write_faults = d.write_faults } };

    fn open(&mut self, _path: &str) -> Result<TurnSource, DiskFault>
        ensures write_faults { self.new.write_faults ≡ self.old.write_faults }
        ensures cause { HasDiskCause 0 0 result }

        // Returns a reader over a copy of the contents, or fails if memory runs out. Nothing changes.
        ensures reader { IfOk result (λ reader. reader ≡ new_turns self.old.passes) }
        ensures memory { IfErr result (λ fault. fault ≡ DiskFault.Memory) }
        ensures state { self.new ≡ self.old }
    {
        let passes = copied(self.alloc, &self.passes)?;
        Ok(TurnSource::new(passes))
    }

    fn shut(&mut self, _reader: TurnSource)
        ensures write_faults { self.new.write_faults ≡ self.old.write_faults }

        // A reader never fails, so nothing changes.
        ensures state { self.new ≡ self.old }
    {}

    fn create(&mut self, path: &str) -> Result<MemSink, DiskFault>
        ensures files { Creates path.now None None result }
        ensures cause { HasDiskCause self.old.write_faults self.new.write_faults result }
        ensures fresh { IfOk result (λ writer. writer.faults ≡ 0) }
        ensures empty { IfOk result (λ writer. ForSome (Some writer.bytes) (λ bytes. bytes ≡ [])) }

        // Returns a writer with the room, or fails if memory runs out. Nothing changes.
        ensures writer { IfOk result (λ writer. writer ≡ new_sink self.old.room []) }
        ensures memory { IfErr result (λ fault. fault ≡ DiskFault.Memory) }
        ensures state { self.new ≡ self.old }
    {
        Ok(MemSink::new(self.alloc, self.room, Vec::new(self.alloc))?)
    }

    fn close(&mut self, path: &str, writer: MemSink) -> Result<(), Failed>
        ensures files { Closes path.now (Some writer.bytes) None None result }
        ensures cause { HasCloseCause writer.faults self.old.write_faults self.new.write_faults result }

        // Never fails, and keeps what was written.
        ensures fine { IsOk result }
        ensures state { self.new ≡ record self.old {
          made = Some writer.bytes;
          write_faults = counted_if (nat_lt 0 writer.faults) self.old.write_faults;
        } }
    {
        if writer.has_failed() {
            self.write_faults = self.write_faults.saturating_add(1);
        }
        self.made = Some(writer.into_bytes());
        Ok(())
    }

    fn spill(&mut self, _dir: &str) -> Result<BentSpill, DiskFault>
        ensures cause { HasDiskCause self.old.write_faults self.new.write_faults result }
        ensures fresh { IfOk result (λ spill. spill.faults ≡ 0) }

        // Returns a spill with the room and the wrong byte, or fails if memory runs out. Nothing changes.
        ensures spill { IfOk result (λ spill. spill ≡ new_bent self.old.room self.old.place self.old.value) }
        ensures memory { IfErr result (λ fault. fault ≡ DiskFault.Memory) }
        ensures state { self.new ≡ self.old }
    {
        Ok(BentSpill::new(self.alloc, self.room, self.place, self.value)?)
    }

    fn give_back(&mut self, spill: BentSpill)
        ensures cause { Collects spill.faults self.old.write_faults self.new.write_faults }

        // Nothing else changes.
        ensures state { self.new ≡ record self.old {
          write_faults = counted_if (nat_lt 0 spill.faults) self.old.write_faults;
        } }
    {
        if spill.has_failed() {
            self.write_faults = self.write_faults.saturating_add(1);
        }
    }
}

impl AppendDisk for BentDisk {
    fn append(&mut self, path: &str, piece: &[u8], _last: bool) -> Result<(), DiskFault>
        ensures files { Extends path.now piece.now None None result }
        ensures cause { HasDiskCause self.old.write_faults self.new.write_faults result }

        // Appends to what the writer that was last closed held, or fails if memory runs out. Nothing else changes.
        ensures memory { IfErr result (λ fault. fault ≡ DiskFault.Memory) }
        ensures ok { OnOk result (self.new ≡ record self.old { made = Some (unwrap_or self.old.made [] ++ piece.now) }) }
        ensures err { OnErr result (self.new ≡ self.old) }
    {
        append_to(self.alloc, &mut self.made, piece)?;
        Ok(())
    }

    fn check_distinct(&mut self, _read: &str, _made: &str) -> Result<(), DiskFault>
        ensures cause { HasDiskCause self.old.write_faults self.new.write_faults result }

        // Each path has a file of its own, and nothing changes.
        ensures fine { IsOk result }
        ensures state { self.new ≡ self.old }
    {
        Ok(())
    }
}

/// Appends bytes to those that are there, or to none. If memory runs out, they stay as before.
fn append_to(alloc: Global, made: &mut Option<Vec<u8>>, piece: &[u8]) -> Result<(), AllocError>
    ensures ok { OnOk result (option_map (λ v. v.items) made.new ≡ Some (unwrap_or (option_map (λ v. v.items) made.old) [] ++ piece.now)) }
    ensures err { OnErr result (option_map (λ v. v.items) made.new ≡ option_map (λ v. v.items) made.old) }
{
    match made {
        Some(bytes) => {
            bytes.extend_from_slice(piece)?;
            Ok(())
        }
        None => {
            *made = Some(piece.to_vec(alloc)?);
            Ok(())
        }
    }
}

/// A copy of the contents of each pass.
fn copied(alloc: Global, passes: &[Vec<u8>]) -> Result<Vec<Vec<u8>>, AllocError>
    ensures copied { IfOk result (λ copy. map (λ v. v.items) copy.items ≡ map (λ v. v.items) passes.now) }
{
    let mut copy = Vec::new(alloc);
    for entry in passes {
        copy.push(entry.to_vec(alloc)?)?;
    }
    Ok(copy)
}
