//! The result of a build.

/// A function's parts: the number of keys, the ratio in millionths, the seed and the cells.
#[derive(Drop)]
pub struct Built<T> {
    pub m: u32,
    pub c: u32,
    pub seed: u32,
    pub cells: T,
}
