//! The program.

/// The name of the program, with which each of its messages begins.
pub const PROGRAM: &str = "cmph";

/// What follows the message for arguments that `clap` refuses.
pub(crate) const HINT: &str = "; cmph -h shows the usage";
