//! The job of the arguments.
ghost use Rattle.std.specs.Prelude.{◌≡◌, ◌⊎◌, Err, IfErr, IfOk, Ok, map, string_bytes};
ghost use Rattle.cm_filter_words.specs.Limits.{IsFilterJob};
ghost use Rattle.cm_filter_words.specs.Meaning.{job_of};

use crate::jobs::{FilterBuild, FilterJob, FilterTest};
use crate::values::all_values;
use clap::{ArgMatches, Command};
use cm_words_arguments::{Reader, UsageFault, build_command, flag, job_files, read};
use std::alloc::{AllocError, Global};

/// What reads the arguments of `cmph_filter`.
struct FilterReader;

impl Reader for FilterReader {
    ghost use Rattle.cm_filter_words.specs.Command.{filter_app};
    ghost use Rattle.cm_filter_words.specs.CommandLaws.{filter_app-free, filter_app-simple};
    ghost use Rattle.cm_filter_words.specs.Limits.{IsFilterJob};
    ghost use Rattle.cm_filter_words.specs.Meaning.{job_of_rows};

    type Job = FilterJob;

    ghost app = { filter_app };

    ghost meaning = { job_of_rows };

    ghost is_job = { IsFilterJob };

    ghost simple = { filter_app-simple };

    ghost free = { filter_app-free };

    fn command<'a>(alloc: Global) -> Result<Command<'a>, AllocError> {
        build_command(alloc, "cmph_filter", "width", 'w')
    }

    fn job(alloc: Global, matches: &ArgMatches<'_>) -> Result<FilterJob, UsageFault> {
        let values = all_values(matches)?;
        let files = job_files(alloc, matches, ".flt", values.build.first)?;
        if flag(matches, "generate") {
            Ok(FilterJob::Build(FilterBuild {
                keys: files.input,
                filter: files.made,
                first: files.first,
                end: files.end,
                c: values.build.c,
                seed: values.build.seed,
                count: values.build.count,
                w: values.w,
            }))
        } else {
            Ok(FilterJob::Test(FilterTest {
                keys: files.input,
                filter: files.made,
                first: files.first,
                end: files.end,
            }))
        }
    }
}

/// Reads the arguments of a command line, of which the first is the program's name, as a job. It copies the paths, and fails with
/// `Memory` if memory runs out for that.
#[tactic(auto, unfolding(crate::specs::Meaning::job_of))]
pub fn read_words(alloc: Global, words: &[String]) -> Result<FilterJob, UsageFault>
    ensures job { IfOk result (λ job. Ok job ≡ job_of (map (λ w. string_bytes w) words.now)) }
    ensures fault { IfErr result (λ fault. (fault ≡ UsageFault.Memory) ⊎ (Err fault ≡ job_of (map (λ w. string_bytes w) words.now))) }
    ensures within { IfOk result IsFilterJob }
{
    read::<FilterReader>(alloc, words)
}
