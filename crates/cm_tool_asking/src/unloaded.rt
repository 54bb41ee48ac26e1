//! Why nothing was loaded.

/// Why nothing was loaded from a file.
#[derive(Drop)]
pub enum Unloaded<F> {
    /// Out of memory.
    Memory,
    /// The file can't be opened or read.
    Read,
    /// Its bytes spell nothing: what is wrong with them.
    Bad(F),
}
