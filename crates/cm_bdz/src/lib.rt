//! BDZ and BDZ_PH (Botelho, Pagh, Ziviani 2007): three vertices a key, of which the cells choose one, and no two keys the same.
#![tactic(auto)]

mod answers;
mod bdz;
mod bdz_ph;
mod choice;
pub mod examples;
mod laws;
mod lent;
mod lent_answers;
mod lent_ph;
mod scheme;

pub use crate::bdz::{Bdz, PartsFault};
pub use crate::bdz_ph::BdzPh;
pub use crate::choice::{chosen, chosen_among};
pub use crate::laws::answers_apart;
pub use crate::lent::{BdzParts, LentBdz};
pub use crate::lent_ph::{BdzPhParts, LentBdzPh};
pub use crate::scheme::{BdzPhScheme, BdzScheme, place_in};
