//! The values of options on a command line: numbers in their ranges and names, or the letter of the option whose value is bad.
#![tactic(auto)]

mod fault;
mod limits;
mod numbers;
mod options;

pub use fault::BadValue;
pub use limits::{LINE_FEED, MAX_SEEDS, MAX_TEST_KEYS, MEGABYTE, ZERO_BYTE, of_options};
pub use numbers::{millionths, whole};
pub use options::{
    algorithm, bits, buffer, count, first, hash, number, optional, ratio, seed, test,
};
