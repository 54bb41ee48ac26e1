//! How a function is built.

use cm_algo_names::Algorithm;

/// How a function is built. `IsPlan` has the ranges of its numbers.
#[derive(Clone, Copy)]
pub struct Plan {
    /// The algorithm.
    pub algorithm: Algorithm,
    /// The ratio of vertices to keys, in millionths.
    pub c: u32,
    /// By BDZ the rank of every `2^b`-th cell is kept, with b from 3 to 10; by BRZ a bucket has b keys on average, from `MIN_WIDTH` to
    /// `MAX_WIDTH`. The other algorithms don't use it.
    pub b: u16,
    /// By BRZ: how many bytes the buffer before the spill has, from `MIN_BYTES` to `MAX_BYTES`.
    pub buffer: u32,
}
