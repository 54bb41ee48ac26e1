//! The job of the arguments.
ghost use Rattle.std.specs.Prelude.{◌≡◌, ◌⊎◌, Err, IfErr, IfOk, Ok, map, string_bytes};
ghost use Rattle.cm_store_words.specs.Limits.{IsStoreJob};
ghost use Rattle.cm_store_words.specs.Meaning.{job_of};

use crate::jobs::{StoreBuild, StoreJob, StoreLook};
use crate::values::all_values;
use clap::{ArgMatches, Command};
use cm_words_arguments::{Reader, UsageFault, build_command, flag, job_files, read};
use std::alloc::{AllocError, Global};

/// What reads the arguments of `cmph_store`.
struct StoreReader;

impl Reader for StoreReader {
    ghost use Rattle.cm_store_words.specs.Command.{store_app};
    ghost use Rattle.cm_store_words.specs.CommandLaws.{store_app-free, store_app-simple};
    ghost use Rattle.cm_store_words.specs.Limits.{IsStoreJob};
    ghost use Rattle.cm_store_words.specs.Meaning.{job_of_rows};

    type Job = StoreJob;

    ghost app = { store_app };

    ghost meaning = { job_of_rows };

    ghost is_job = { IsStoreJob };

    ghost simple = { store_app-simple };

    ghost free = { store_app-free };

    fn command<'a>(alloc: Global) -> Result<Command<'a>, AllocError> {
        build_command(alloc, "cmph_store", "bits", 'b')
    }

    fn job(alloc: Global, matches: &ArgMatches<'_>) -> Result<StoreJob, UsageFault> {
        let values = all_values(matches)?;
        let files = job_files(alloc, matches, ".rec", values.build.first)?;
        if flag(matches, "generate") {
            Ok(StoreJob::Build(StoreBuild {
                lines: files.input,
                store: files.made,
                first: files.first,
                end: files.end,
                c: values.build.c,
                b: values.b,
                seed: values.build.seed,
                count: values.build.count,
            }))
        } else {
            Ok(StoreJob::Look(StoreLook {
                keys: files.input,
                store: files.made,
                first: files.first,
                end: files.end,
            }))
        }
    }
}

/// Reads the arguments of a command line, of which the first is the program's name, as a job. It copies the paths, and fails with
/// `Memory` if memory runs out for that.
#[tactic(auto, unfolding(crate::specs::Meaning::job_of))]
pub fn read_words(alloc: Global, words: &[String]) -> Result<StoreJob, UsageFault>
    ensures job { IfOk result (λ job. Ok job ≡ job_of (map (λ w. string_bytes w) words.now)) }
    ensures fault { IfErr result (λ fault. (fault ≡ UsageFault.Memory) ⊎ (Err fault ≡ job_of (map (λ w. string_bytes w) words.now))) }
    ensures within { IfOk result IsStoreJob }
{
    read::<StoreReader>(alloc, words)
}
