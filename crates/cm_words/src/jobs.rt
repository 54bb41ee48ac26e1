//! What the program is asked to do.
use crate::Text;
use cm_algo_names::Algorithm;

/// A build: a function over the keys of a file, saved in another.
#[derive(Debug, Drop)]
pub struct BuildJob {
    /// The path of the keys file.
    pub keys: Text,
    /// The path of the function file.
    pub function: Text,
    /// How many lines of the keys file are read, from 1 to 4,294,967,295, or all.
    pub first: Option<u32>,
    /// The byte that ends a line: `LINE_FEED`, or with `-z` `ZERO_BYTE`.
    pub end: u8,
    /// The algorithm.
    pub algorithm: Algorithm,
    /// The ratio of vertices to keys in millionths, from 1,000,000 to 10,000,000.
    pub c: u32,
    /// BDZ: each 2^b-th vertex has a sampled rank, with b from 3 to 10. BRZ: how many keys a bucket has on average, from
    /// `MIN_WIDTH` to `MAX_WIDTH`. For the other algorithms 0.
    pub b: u16,
    /// The first seed that is tried.
    pub seed: u32,
    /// How many seeds are tried at most, from 1 to 1,000.
    pub count: u32,
    /// The buffer of BRZ in bytes, from 1,048,576 to 1,073,741,824.
    pub buffer: u32,
    /// The directory of BRZ's spill file.
    pub dir: Text,
    /// A successful build is to note one line.
    pub verbose: bool,
}

/// A query: the numbers of a file's keys under a saved function.
#[derive(Debug, Drop)]
pub struct QueryJob {
    /// The path of the keys file.
    pub keys: Text,
    /// The path of the function file.
    pub function: Text,
    /// How many lines of the keys file are read, from 1 to 4,294,967,295, or all.
    pub first: Option<u32>,
    /// The byte that ends a line: `LINE_FEED`, or with `-z` `ZERO_BYTE`.
    pub end: u8,
}

/// A test: builds over generated keys by each algorithm.
#[derive(Debug, Drop)]
pub struct TestJob {
    /// How many keys are generated, from 1 to 16,777,216.
    pub keys: u32,
    /// The first seed that is tried.
    pub seed: u32,
    /// How many seeds are tried at most, from 1 to 1,000.
    pub count: u32,
    /// The buffer of BRZ in bytes, from 1,048,576 to 1,073,741,824.
    pub buffer: u32,
    /// The directory of BRZ's spill file.
    pub dir: Text,
}

/// An upgrade: a saved function, saved again in the format that builds write.
#[derive(Debug, Drop)]
pub struct UpgradeJob {
    /// The path of the function file.
    pub function: Text,
}

/// What the arguments of a command line ask for.
#[derive(Debug, Drop)]
pub enum Job {
    /// The help text.
    Help,
    /// The version text.
    Version,
    Build(BuildJob),
    Query(QueryJob),
    Test(TestJob),
    Upgrade(UpgradeJob),
}
