//! What the record store is asked to do.

use cm_words_arguments::Text;

/// A build: a store of the records of a file of lines, saved in another.
#[derive(Debug, Drop)]
pub struct StoreBuild {
    /// The path of the file of lines.
    pub lines: Text,
    /// The path of the store file.
    pub store: Text,
    /// How many lines of the file of lines are read, from 1 to 4,294,967,295, or all.
    pub first: Option<u32>,
    /// The byte that ends a line: `LINE_FEED`, or with `-z` `ZERO_BYTE`.
    pub end: u8,
    /// The ratio of vertices to keys in millionths, from 1,000,000 to 10,000,000.
    pub c: u32,
    /// The sampling of ranks in the index, from 3 to 10.
    pub b: u8,
    /// The first seed that is tried.
    pub seed: u32,
    /// How many seeds are tried at most, from 1 to 1,000.
    pub count: u32,
}

/// A look-up: the values of the keys of a file, in a saved store.
#[derive(Debug, Drop)]
pub struct StoreLook {
    /// The path of the keys file.
    pub keys: Text,
    /// The path of the store file.
    pub store: Text,
    /// How many lines of the keys file are read, from 1 to 4,294,967,295, or all.
    pub first: Option<u32>,
    /// The byte that ends a line: `LINE_FEED`, or with `-z` `ZERO_BYTE`.
    pub end: u8,
}

/// What the arguments of a command line ask for.
#[derive(Debug, Drop)]
pub enum StoreJob {
    Build(StoreBuild),
    Look(StoreLook),
}
