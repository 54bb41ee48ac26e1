//! The length of a header.

/// How many bytes stand before the image of the cells, or before the buckets.
pub const HEADER_LEN: u64 = 24;
