//! What the judge of reports is asked for.

use cm_words_arguments::Text;

/// A report that is to be judged, by the keys of a file.
#[derive(Debug, Drop)]
pub struct JudgeJob {
    /// The path of the report.
    pub report: Text,
    /// The path of the keys file.
    pub keys: Text,
    /// How many lines of the keys file are read, from 1 to 4,294,967,295, or all.
    pub first: Option<u32>,
    /// The byte that ends a line: `LINE_FEED`, or with `-z` `ZERO_BYTE`.
    pub end: u8,
    /// The ratio of vertices to keys in millionths, from 1,000,000 to 10,000,000, or that of the report's algorithm.
    pub c: Option<u32>,
    /// How many keys a bucket of BRZ has on average, from `MIN_WIDTH` to `MAX_WIDTH`.
    pub b: u16,
}
