//! The dump of a function, as bytes that are written to a sink and read from a source.
#![tactic(auto)]

mod bucket;
mod buckets;
pub mod examples;
mod front;
mod header;
pub mod laws;
mod ranks;
mod reader;
mod rest;
mod versions;
mod writer;

pub use crate::bucket::{cells_of, greatest_seed, is_off, size_in};
pub use crate::front::{Algorithm, Header, Heading, heading_of};
pub use crate::header::HEADER_LEN;
pub use crate::reader::{Loaded, load, load_versioned};
pub use crate::versions::{Version, front_len, size_len};
pub use crate::writer::{bdz_len, save, save_bdz, saved_len};
pub use cm_dump_items::LoadFault;
pub use cm_func::Func;
