//! A source, a sink and a spill in memory.
#![tactic(auto)]

mod mem_sink;
mod mem_source;
mod mem_spill;

pub use mem_sink::MemSink;
pub use mem_source::MemSource;
pub use mem_spill::MemSpill;
