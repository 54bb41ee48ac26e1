//! What messages name.

/// What messages name: the program, and the paths of its keys file and its function file.
#[derive(Clone, Copy)]
pub struct Names<'a> {
    /// The name of the program, with which each message begins.
    pub program: &'a str,
    /// The path of the keys file.
    pub keys: &'a str,
    /// The path of the function file, or of any other that is saved or asked for keys.
    pub function: &'a str,
}
