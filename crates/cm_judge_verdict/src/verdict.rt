//! What is judged, and what the judge says.

/// The options of a build that its report does not name.
#[derive(Clone, Copy, Debug, PartialEq, Eq)]
pub struct Settings {
    /// The ratio of vertices to keys in millionths, or that of the report's algorithm.
    pub c: Option<u32>,
    /// How many keys a bucket has on average.
    pub b: u16,
}

/// Why a report is false. Lines are those of keys, from 1, and vertices are counted from 0.
#[derive(Clone, Copy, Debug, PartialEq, Eq)]
pub enum Reason {
    /// No build reports on this bucket: it is not there, or a core report's has too many keys, or it is not the lowest overfull one.
    NoBucket,
    /// The lowest line of an edge that is no line of a judged key.
    NoKey { line: u32 },
    /// The lowest line of an edge with other vertices than those of the line's key.
    Ends { line: u32 },
    /// The lowest vertex that exactly one edge of the report touches.
    Once { vertex: u32 },
    /// The lowest line of an edge of the 2-core that is not in the report.
    Missing { line: u32 },
    /// The overfull bucket has this number of keys, and not that of the report.
    Count { count: u32 },
    /// The lowest later line of a pair that only one of these has: the report, or the keys.
    NoPair { line: u32 },
}

/// What the judge says of a report.
#[derive(Clone, Copy, Debug, PartialEq, Eq)]
pub enum Verdict {
    /// The report is true.
    Holds,
    /// The report is false, for this reason and perhaps others after it.
    Fails(Reason),
}
