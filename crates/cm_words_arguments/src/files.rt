//! The files of a job that makes one of another, or that asks what was made.
ghost use Rattle.std.specs.Prelude.{◌≡◌, ◌⊎◌, Err, IfErr, IfOk, IsOk, Ok};
ghost use Rattle.clap.specs.Words.{found_of, rows_of};
ghost use Rattle.cm_words_arguments.specs.Files.{AreFiles, files_of};
ghost use Rattle.cm_words_values.specs.Limits.{IsFirst};

use crate::{Text, UsageFault, copy, end, path_or, text};
use clap::ArgMatches;
use std::alloc::Global;

/// The files of a job, and which lines are read.
#[derive(Debug, Drop)]
pub struct Files {
    /// The path of the file whose lines are read.
    pub input: Text,
    /// The path of the file that is made, or asked.
    pub made: Text,
    /// How many lines are read, from 1 to 4,294,967,295, or all.
    pub first: Option<u32>,
    /// The byte that ends a line: `LINE_FEED`, or with `-z` `ZERO_BYTE`.
    pub end: u8,
}

/// The files of the arguments, and this number of lines. Unless the file that is made is named, its path is that of the input with this
/// ending. It copies the paths, and fails with `Memory` if memory runs out for that.
pub fn job_files(
    alloc: Global,
    matches: &ArgMatches<'_>,
    ending: &str,
    first: Option<u32>,
) -> Result<Files, UsageFault>
    requires first { IsFirst first }
    ensures files { IfOk result (λ files. Ok files ≡ files_of ending.now first (rows_of (found_of matches.now))) }
    ensures fault { IfErr result (λ fault. (fault ≡ UsageFault.Memory) ⊎ (Err fault ≡ files_of ending.now first (rows_of (found_of matches.now)))) }
    ensures within { IfOk result AreFiles }

    // A fault that was found is never reported as out of memory.
    ensures memory { result ≡ Err UsageFault.Memory → IsOk (files_of ending.now first (rows_of (found_of matches.now))) }
{
    let Some(input) = text(matches, "input") else {
        return Err(UsageFault::Words);
    };
    Ok(Files {
        input: copy(alloc, input)?,
        made: path_or(alloc, text(matches, "made"), input, ending)?,
        first,
        end: end(matches),
    })
}
