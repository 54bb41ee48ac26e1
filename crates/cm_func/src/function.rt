//! A function of any algorithm.

use cm_bdz::{Bdz, BdzPh};
use cm_brz_func::Brz;
use cm_chm::Chm;

/// A function from keys to numbers by any algorithm, as a build or a function file gives it. What it answers to a key is said by `Answers`.
#[derive(Drop)]
pub enum Func {
    /// By CHM: each key that it was built over gets its index, from 0.
    Chm(Chm),
    /// By BDZ: the n keys that it was built over get all numbers below n.
    Bdz(Bdz),
    /// By BDZ_PH: the keys that it was built over get distinct numbers below its number of cells.
    BdzPh(BdzPh),
    /// By BRZ: the n keys that it was built over get all numbers below n, those of each bucket one after another.
    Brz(Brz),
}
