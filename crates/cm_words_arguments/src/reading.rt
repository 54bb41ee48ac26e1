//! Reading of arguments by the command of a program, as a job.
ghost use Rattle.std.specs.Prelude.{◌≡◌, ◌⊎◌, Err, IfErr, IfOk, IsOk, List, Ok, map, string_bytes, true};
ghost use Rattle.clap.specs.Words.{App, Row, app_of, found_of, is_simple, is_simple_and_free, rows_of};
ghost use Rattle.cm_words_arguments.specs.Options.{Read};
ghost use Rattle.cm_words_arguments.specs.Refusals.{read_by};

use crate::UsageFault;
use clap::{ArgMatches, Command};
use std::alloc::{AllocError, Global};

/// What reads the arguments of a program.
pub trait Reader {
    /// What they ask for.
    type Job: Drop;

    /// The command that parses them, in clap's terms.
    ghost app: { App };

    /// What the arguments mean that clap found.
    ghost meaning: { List Row → Read Self.Job };

    /// The ranges of a job.
    ghost is_job: { Self.Job → Type 0 };

    /// Clap states what it finds by this command.
    ghost simple: { is_simple app ≡ true };

    /// Clap states what it refuses.
    ghost free: { is_simple_and_free app ≡ true };

    /// The command that parses the arguments. It fails if memory runs out.
    fn command<'a>(alloc: Global) -> Result<Command<'a>, AllocError>
        ensures app { IfOk result (λ r. app_of r ≡ app) };

    /// The job of the arguments that clap found. It copies the paths, and fails with `Memory` if memory runs out for that.
    fn job(alloc: Global, matches: &ArgMatches<'_>) -> Result<Self::Job, UsageFault>
        ensures job { IfOk result (λ job. Ok job ≡ meaning (rows_of (found_of matches.now))) }
        ensures fault { IfErr result (λ fault. (fault ≡ UsageFault.Memory) ⊎ (Err fault ≡ meaning (rows_of (found_of matches.now)))) }
        ensures within { IfOk result is_job }

        // A fault that was found is never reported as out of memory.
        ensures memory { result ≡ Err UsageFault.Memory → IsOk (meaning (rows_of (found_of matches.now))) };
}

/// Reads the arguments of a command line, of which the first is the program's name, as a job. It copies the paths, and fails with
/// `Memory` if memory runs out for that.
pub fn read<R: Reader>(alloc: Global, words: &[String]) -> Result<R::Job, UsageFault>
    ensures job { IfOk result (λ job. Ok job ≡ read_by R.app R.meaning (map (λ w. string_bytes w) words.now)) }
    ensures fault { IfErr result (λ fault. (fault ≡ UsageFault.Memory) ⊎ (Err fault ≡ read_by R.app R.meaning (map (λ w. string_bytes w) words.now))) }
    ensures within { IfOk result R.is_job }
{
    let command = R::command(alloc)?;
    let matches = command.try_get_matches_from(words)?;
    R::job(alloc, &matches)
}
