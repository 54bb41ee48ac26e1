//! How cells are built.

/// How the cells of keys are built. `IsRecipe` has the ranges of its numbers.
#[derive(Clone, Copy)]
pub struct Recipe {
    /// The ratio of vertices to keys in millionths, from 1,000,000 to 10,000,000.
    pub c: u32,
    /// The first seed that is tried.
    pub seed: u32,
    /// How many seeds are tried at most, from 1 to `MAX_SEEDS`.
    pub count: u32,
}
