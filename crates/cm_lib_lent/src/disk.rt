//! A disk whose one file is a spill in lent room.
ghost use Rattle.std.specs.Prelude.{◌≡◌, ◌<◌, [], None, Some, IfErr, IfOk, IfSome, length, nat_lt};
ghost use Rattle.std.specs.FinMap as maps;
ghost use Rattle.std.specs.Option.{ForSome};
ghost use Rattle.cm_io.specs.Causes.{Collects, HasCloseCause, HasDiskCause};
ghost use Rattle.cm_io.specs.Files.{Closes, Creates, IsThere, Opens};

use crate::spill::LentSpill;
use cm_io::{Disk, DiskFault, Failed};
use cm_io_memory::{MemSink, MemSource};
use std::marker::Model;

/// A disk with no files, and one spill in lent room, which it makes once. Other calls fail.
#[derive(Drop)]
pub(crate) struct LentDisk<'a> {
    fresh: Option<LentSpill<'a>>,
    used: Option<LentSpill<'a>>,
    read_faults: u64,
    write_faults: u64,
}

impl<'a> Model for LentDisk<'a> {
    ghost use Rattle.std.specs.Prelude.{◌≡◌, [], IfSome};
    ghost use Rattle.std.specs.Option.{option_map};
    ghost use Rattle.cm_lib_lent.specs.Spills.{SpillOnly};

    ghost Value = { SpillOnly };

    ghost view = { λ d. record { spilled = option_map (λ s. s.bytes) d.used; read_faults = d.read_faults; write_faults = d.write_faults } };

    ghost invariant = { λ d. IfSome d.fresh (λ s. (s.bytes ≡ []) × (s.faults ≡ 0)) };
}

impl<'a> LentDisk<'a> {
    /// The disk of this room.
    pub(crate) fn new(room: &'a mut [u8]) -> LentDisk<'a>
        ensures state { result ≡ record { spilled = None; read_faults = 0; write_faults = 0 } }
    {
        LentDisk {
            fresh: Some(LentSpill::new(room)),
            used: None,
            read_faults: 0,
            write_faults: 0,
        }
    }
}

impl<'a> Disk for LentDisk<'a> {
    type Reader = MemSource;

    type Writer = MemSink;

    type Spill = LentSpill<'a>;

    ghost state = { λ d. record { files = Some maps.empty; spilled = d.spilled; read_faults = d.read_faults; write_faults = d.write_faults } };

    fn open(&mut self, _path: &str) -> Result<MemSource, DiskFault> {
        self.read_faults = self.read_faults.saturating_add(1);
        Err(DiskFault::Failed)
    }

    fn shut(&mut self, reader: MemSource) {
        if reader.has_failed() {
            self.read_faults = self.read_faults.saturating_add(1);
        }
    }

    fn create(&mut self, _path: &str) -> Result<MemSink, DiskFault> {
        self.write_faults = self.write_faults.saturating_add(1);
        Err(DiskFault::Failed)
    }

    fn close(&mut self, _path: &str, _writer: MemSink) -> Result<(), Failed> {
        // No path is there.
        unreachable!()
    }

    fn spill(&mut self, _dir: &str) -> Result<LentSpill<'a>, DiskFault> {
        match self.fresh.take() {
            Some(spill) => Ok(spill),
            None => {
                self.write_faults = self.write_faults.saturating_add(1);
                Err(DiskFault::Failed)
            }
        }
    }

    fn give_back(&mut self, spill: LentSpill<'a>) {
        if spill.has_failed() {
            self.write_faults = self.write_faults.saturating_add(1);
        }
        self.used = Some(spill);
    }
}
