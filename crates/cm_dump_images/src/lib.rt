//! The images of tables in a file: written in pieces to a sink, and read from a source at an offset, or from lent bytes.
#![tactic(auto)]

mod image;
mod lent;
mod reader;

pub use crate::image::save_image;
pub use crate::lent::{lent_fields, lent_packed};
pub use crate::reader::{cells_from, read_cells};
