//! What the program of shards is asked to do.

use crate::texts::Texts;
use cm_words_arguments::Text;

/// A split: the lines of a keys file, each in the file of its shard.
#[derive(Debug, Drop)]
pub struct SplitJob {
    /// The path of the keys file.
    pub keys: Text,
    /// The path of the folder that gets the files of the shards and of their counts.
    pub dir: Text,
    /// How many shards there are, from 1 to `MAX_SHARDS`.
    pub shards: u32,
    /// How many lines of the keys file are read, from 1 to 4,294,967,295, or all.
    pub first: Option<u32>,
    /// The byte that ends a line: `LINE_FEED`, or with `-z` `ZERO_BYTE`.
    pub end: u8,
}

/// A join: the function files of the shards, in order, described by a manifest.
#[derive(Debug, Drop)]
pub struct JoinJob {
    /// The path of the manifest.
    pub manifest: Text,
    /// The path of the folder with the counts of the split, if they are compared.
    pub dir: Option<Text>,
    /// The paths of the function files, from 1 to `MAX_SHARDS` of them, in the order of the shards.
    pub functions: Texts,
}

/// A query or a test: the numbers of the keys of a file, by the functions of a manifest.
#[derive(Debug, Drop)]
pub struct AskJob {
    /// The path of the manifest.
    pub manifest: Text,
    /// The path of the keys file.
    pub keys: Text,
    /// How many lines of the keys file are read, from 1 to 4,294,967,295, or all.
    pub first: Option<u32>,
    /// The byte that ends a line: `LINE_FEED`, or with `-z` `ZERO_BYTE`.
    pub end: u8,
    /// Whether the numbers are tested, and not written.
    pub test: bool,
}

/// What the arguments of a command line ask for.
#[derive(Debug, Drop)]
pub enum ShardsJob {
    Split(SplitJob),
    Join(JoinJob),
    Ask(AskJob),
}
