//! A function in the bytes of its dump.

use cm_bdz::{LentBdz, LentBdzPh};
use cm_chm::LentChm;
use cm_dump_brz::LentBrz;

/// A function from keys to numbers, whose cells and ranks are read in the bytes of its dump. What it answers to a
/// key is said by `Answers`: the same as the function that is loaded from the dump, as long as the bytes are not changed. If they are, a
/// key gets any number below the span, or none, and nothing outside the bytes is read.
#[derive(Drop)]
pub enum Lent<'a> {
    /// By CHM: each key that it was built over gets its index, from 0.
    Chm(LentChm<'a>),
    /// By BDZ: the n keys that it was built over get all numbers below n.
    Bdz(LentBdz<'a>),
    /// By BDZ_PH: the keys that it was built over get distinct numbers below its number of cells.
    BdzPh(LentBdzPh<'a>),
    /// By BRZ: the n keys that it was built over get all numbers below n.
    Brz(LentBrz<'a>),
}
