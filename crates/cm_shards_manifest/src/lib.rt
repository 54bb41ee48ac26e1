//! The manifest of functions over shards of keys: what it says, its bytes, and the paths that it names.
#![tactic(auto)]

pub mod examples;
mod fault;
mod fields;
mod header;
pub mod laws;
mod limits;
mod manifest;
mod paths;
mod reader;
mod shard;
mod writer;

pub use crate::fault::{ManifestFault, ManifestUnread};
pub use crate::header::HEADER_LEN;
pub use crate::limits::{MAX_MANIFEST_BYTES, MAX_NAME, read_limit};
pub use crate::manifest::Manifest;
pub use crate::paths::{name_of, path_of};
pub use crate::reader::read_manifest;
pub use crate::shard::Shard;
pub use crate::writer::manifest_file;
pub use cm_algo_names::Algorithm;
