//! Records, keys with their values, as lines and as bytes in memory, and a pass over their keys.
#![tactic(auto)]

mod keys;
mod limits;
mod parts;
mod read;
mod records;

pub use crate::keys::RecordKeys;
pub use crate::limits::{HEAD_LEN, MAX_RECORD_BYTES, TAB, of_records};
pub use crate::parts::{Parts, record_at};
pub use crate::read::{ReadFault, read_records};
pub use crate::records::Records;
