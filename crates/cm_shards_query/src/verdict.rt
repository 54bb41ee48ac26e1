//! What a test says of lines.

/// What a test says of lines.
#[derive(Clone, Copy, Debug, PartialEq, Eq)]
pub enum Verdict {
    /// Each line has a number, all numbers differ, and there are as many lines as keys.
    Holds,
    /// The first line at fault, counted from 1, has no number.
    Unknown { line: u64 },
    /// The first line at fault, counted from 1, has the number of an earlier line.
    Repeated { line: u64, value: u64 },
    /// No line is at fault, but the number of lines is not that of the keys.
    Count { lines: u64, keys: u64 },
}
