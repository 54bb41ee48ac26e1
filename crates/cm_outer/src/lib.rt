//! Fakes of what `cm_io` names, in memory: disks, and sources and spills whose contents are not known. What they stand for, and the
//! source, sink and spill in memory that they are made of, are exported too.
#![tactic(auto)]

mod bent_disk;
mod bent_spill;
mod disk_call;
mod listed_calls;
mod mem_disk;
mod mem_file;
mod turn_source;

pub use bent_disk::BentDisk;
pub use bent_spill::BentSpill;
pub use cm_io::{
    Disk, DiskFault, Failed, KeyBuf, KeyFault, KeyPass, MAX_KEY_LEN, MAX_KEYS, Notes, Sink, Source,
    Spill, write_pieces,
};
pub use cm_io_memory::{MemSink, MemSource, MemSpill};
pub use disk_call::DiskCall;
pub use mem_disk::MemDisk;
pub use turn_source::TurnSource;
