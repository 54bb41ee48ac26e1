//! The arguments of a program.

use std::alloc::{Alloc, AllocError, Global};
use std::env;
use std::env::Env;
use std::io::ErrorKind;

/// The arguments of the command line, of which the first is the program's name. If one of them isn't UTF-8, they are read as an unknown
/// option of the program of this name. Fails if memory runs out.
pub fn words_of<R: Env + Alloc<A = Global>>(
    rt: &R,
    program: &str,
) -> Result<Vec<String>, AllocError> {
    let mut words = Vec::new(rt.alloc());
    match env::args(rt) {
        Ok(args) => {
            for word in args {
                words.push(word)?;
            }
            Ok(words)
        }
        Err(e) if e.kind() == ErrorKind::OutOfMemory => Err(AllocError),
        Err(_) => {
            for word in [program, "-?"] {
                words.push(String::from_str(rt.alloc(), word)?)?;
            }
            Ok(words)
        }
    }
}
