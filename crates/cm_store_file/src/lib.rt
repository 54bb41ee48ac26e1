//! The file of a store of records, as bytes that are written to a sink and read from a source.
#![tactic(auto)]

pub mod examples;
mod fault;
mod header;
mod items;
pub mod laws;
mod reader;
mod writer;

pub use crate::fault::StoreLoad;
pub use crate::reader::load_store;
pub use crate::writer::save_store;
