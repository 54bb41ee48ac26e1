//! What a failed build shows.

use cm_algo_names::Algorithm;

/// A bucket of keys: the seed that split the keys into buckets, and the bucket's number, from 0.
#[derive(Clone, Copy, Debug, PartialEq, Eq)]
pub struct InBucket {
    pub split: u32,
    pub bucket: u32,
}

/// An edge of a 2-core: the line of its key, from 1, and its ends in order. A graph has two ends an edge, a hypergraph three.
#[derive(Clone, Copy, Debug, PartialEq, Eq)]
pub struct CoreEdge {
    pub line: u32,
    pub first: u32,
    pub second: u32,
    pub third: Option<u32>,
}

/// Two equal keys by their lines: the first line that has the key, and a later one.
#[derive(Clone, Copy, Debug, PartialEq, Eq)]
pub struct Pair {
    pub first: u32,
    pub again: u32,
}

/// That the graph of the keys under a seed has a 2-core with edges: all of them by rising line, and the equal keys among
/// theirs by rising later line.
#[derive(Drop)]
pub struct Certificate {
    pub algorithm: Algorithm,
    pub seed: u32,
    /// The bucket, if the keys were split.
    pub place: Option<InBucket>,
    pub edges: Vec<CoreEdge>,
    pub equal: Vec<Pair>,
}

/// Why no certificate was gathered: a pass over as many keys as there are edges failed.
pub use cm_io::PassFault as GatherFault;
