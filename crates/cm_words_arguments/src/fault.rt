//! What is wrong with arguments.
ghost use Rattle.std.specs.Prelude.{◌≡◌};
ghost use Rattle.clap.specs.Words.{kind_of};
ghost use Rattle.cm_words_arguments.specs.Refusals.{fault_of_kind};
ghost use Rattle.cm_words_arguments.specs.declared.fault.UsageFault.TheVariants.{BadValue, Memory};

use clap::error::ErrorKind;
use cm_words_values::BadValue as BadOption;
use std::alloc::{AllocError, AllocFailed};
use thiserror::Error;

/// Why the arguments of a command line are no job.
#[derive(Clone, Copy, Debug, PartialEq, Eq, Error)]
pub enum UsageFault {
    /// Out of memory.
    #[error("out of memory")]
    Memory,
    /// They aren't arguments that the command takes: an option that it doesn't have, one without its value or given twice, a file too
    /// many, or none where one is required.
    #[error("bad arguments")]
    Words,
    /// The value of the option with this letter, in ASCII, is out of form or out of its range.
    #[error("bad value of -{}", *letter as char)]
    BadValue { letter: u8 },
    /// The job needs a keys file, and none is named.
    #[error("no keys file")]
    NoFile,
}

impl From<clap::Error> for UsageFault {
    ghost from_gives = { λ e u. u ≡ fault_of_kind (kind_of e) };

    fn from(error: clap::Error) -> Self {
        match error.kind() {
            ErrorKind::OutOfMemory => UsageFault::Memory,
            _ => UsageFault::Words,
        }
    }
}

impl From<BadOption> for UsageFault {
    ghost from_gives = { λ e u. u ≡ BadValue e.letter };

    fn from(bad: BadOption) -> Self {
        UsageFault::BadValue { letter: bad.letter }
    }
}

impl<T: Drop> From<AllocFailed<T>> for UsageFault {
    ghost from_gives = { λ _ u. u ≡ Memory };

    fn from(_: AllocFailed<T>) -> Self {
        UsageFault::Memory
    }
}

impl From<AllocError> for UsageFault {
    ghost from_gives = { λ _ u. u ≡ Memory };

    fn from(_: AllocError) -> Self {
        UsageFault::Memory
    }
}
