//! Why the value of an option is bad.

/// The value of the option with this letter, in ASCII, is out of form or out of its range.
#[derive(Clone, Copy, Debug, PartialEq, Eq)]
pub struct BadValue {
    pub letter: u8,
}
