//! What a report says, and why bytes are none.

use cm_witness_gather::{Certificate, Pair};
use thiserror::Error;

/// What a report shows of a build that was refused.
#[derive(Drop)]
pub enum Report {
    /// A 2-core that has edges: the certificate.
    Core(Certificate),
    /// A bucket with more keys than one may have: the seed that split the keys, the bucket, from 0, its number of keys, and the equal ones
    /// among them by rising later line.
    Overfull {
        seed: u32,
        bucket: u32,
        count: u32,
        equal: Vec<Pair>,
    },
}

/// Why no report was read from a source.
#[derive(Clone, Copy, Debug, PartialEq, Eq, Error)]
pub enum ReportFault {
    /// Out of memory.
    #[error("out of memory")]
    Memory,
    /// The source failed.
    #[error("cannot read")]
    Read,
    /// The bytes are no report: some report begins with the lines before this one, from 1, and none with this line too.
    #[error("bad report at line {line}")]
    Bad { line: u32 },
}
