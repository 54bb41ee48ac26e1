//! Why keys have no function.

/// Why keys have no function under any seed of a list.
#[derive(Clone, Copy)]
pub enum SeedFailure {
    /// Under every seed the graph has a 2-core with an edge.
    NoSeed,
    /// By BRZ: so has the graph of the keys of this bucket, counted from 0.
    NoSeedFor { bucket: u32 },
    /// By BRZ: every seed leaves a bucket with more keys than one may have.
    NoSplit,
}
