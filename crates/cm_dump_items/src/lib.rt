//! The items of a file, each read at its offset and checked: from a source, from pieces of a source, from a part that is in memory, and from lent bytes.
#![tactic(auto)]

mod bulk;
mod fault;
mod items;
mod lent;
mod part;
mod piece;

pub use crate::bulk::long_item;
pub use crate::fault::LoadFault;
pub use crate::items::{byte, end, fill, item, number};
pub use crate::lent::{lent_end, lent_item};
pub use crate::part::{byte_of, bytes_of, lent_of, number_of, short_of};
pub use crate::piece::{ENOUGH, Piece};
