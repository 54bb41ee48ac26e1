//! What the program of filters is asked to do.

use cm_words_arguments::Text;

/// A build: a filter over the keys of a file, saved in another.
#[derive(Debug, Drop)]
pub struct FilterBuild {
    /// The path of the keys file.
    pub keys: Text,
    /// The path of the filter file.
    pub filter: Text,
    /// How many lines of the keys file are read, from 1 to 4,294,967,295, or all.
    pub first: Option<u32>,
    /// The byte that ends a line: `LINE_FEED`, or with `-z` `ZERO_BYTE`.
    pub end: u8,
    /// The ratio of vertices to keys in millionths, from 1,000,000 to 10,000,000.
    pub c: u32,
    /// The first seed that is tried.
    pub seed: u32,
    /// How many seeds are tried at most, from 1 to 1,000.
    pub count: u32,
    /// How many bits a fingerprint has, from `MIN_FINGERPRINT` to `MAX_FINGERPRINT`.
    pub w: u8,
}

/// A test of keys: those of a file that hold in a saved filter.
#[derive(Debug, Drop)]
pub struct FilterTest {
    /// The path of the keys file.
    pub keys: Text,
    /// The path of the filter file.
    pub filter: Text,
    /// How many lines of the keys file are read, from 1 to 4,294,967,295, or all.
    pub first: Option<u32>,
    /// The byte that ends a line: `LINE_FEED`, or with `-z` `ZERO_BYTE`.
    pub end: u8,
}

/// What the arguments of a command line ask for.
#[derive(Debug, Drop)]
pub enum FilterJob {
    Build(FilterBuild),
    Test(FilterTest),
}
