//! The file of a filter, as bytes that are written to a sink and read from a source.
#![tactic(auto)]

pub mod examples;
mod fault;
mod header;
pub mod laws;
mod reader;
mod writer;

pub use crate::fault::FilterFault;
pub use crate::reader::load_filter;
pub use crate::writer::save_filter;
