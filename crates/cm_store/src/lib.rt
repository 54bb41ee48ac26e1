//! A store of records: each key of its records is answered with its value, and any other key with none. An index by BDZ gives each key a
//! number (Botelho, Pagh, Ziviani 2007), a table the place of its record, and the record is compared with the key. A store is built of
//! records, or of lines, by the first seed of a list that works.
#![tactic(auto)]

mod building;
mod checking;
mod filling;
mod numbering;
mod store;

pub use crate::building::{StoreBuildFault, StorePlan, build_store, build_store_of_lines};
pub use crate::store::{PlacesFault, Store};
