//! The job of the arguments.
ghost use Rattle.std.specs.Prelude.{◌≡◌, ◌⊎◌, Err, IfErr, IfOk, Ok, map, string_bytes};
ghost use Rattle.cm_judge_words.specs.Limits.{IsJudgeJob};
ghost use Rattle.cm_judge_words.specs.Meaning.{job_of};

use crate::arguments;
use crate::job::JudgeJob;
use crate::values::all_values;
use clap::{ArgMatches, Command};
use cm_words_arguments::{Reader, UsageFault, copy, end, read, text};
use std::alloc::{AllocError, Global};

/// What reads the arguments of `cmph_judge`.
struct JudgeReader;

impl Reader for JudgeReader {
    ghost use Rattle.cm_judge_words.specs.Command.{judge_app};
    ghost use Rattle.cm_judge_words.specs.CommandLaws.{judge_app-free, judge_app-simple};
    ghost use Rattle.cm_judge_words.specs.Limits.{IsJudgeJob};
    ghost use Rattle.cm_judge_words.specs.Meaning.{job_of_rows};

    type Job = JudgeJob;

    ghost app = { judge_app };

    ghost meaning = { job_of_rows };

    ghost is_job = { IsJudgeJob };

    ghost simple = { judge_app-simple };

    ghost free = { judge_app-free };

    fn command<'a>(alloc: Global) -> Result<Command<'a>, AllocError> {
        arguments::command(alloc)
    }

    fn job(alloc: Global, matches: &ArgMatches<'_>) -> Result<JudgeJob, UsageFault> {
        let values = all_values(matches)?;
        let (Some(report), Some(keys)) = (text(matches, "report"), text(matches, "keys")) else {
            return Err(UsageFault::Words);
        };
        Ok(JudgeJob {
            report: copy(alloc, report)?,
            keys: copy(alloc, keys)?,
            first: values.first,
            end: end(matches),
            c: values.c,
            b: values.b,
        })
    }
}

/// Reads the arguments of a command line, of which the first is the program's name, as a job. It copies the paths, and fails with
/// `Memory` if memory runs out for that.
#[tactic(auto, unfolding(crate::specs::Meaning::job_of))]
pub fn read_words(alloc: Global, words: &[String]) -> Result<JudgeJob, UsageFault>
    ensures job { IfOk result (λ job. Ok job ≡ job_of (map (λ w. string_bytes w) words.now)) }
    ensures fault { IfErr result (λ fault. (fault ≡ UsageFault.Memory) ⊎ (Err fault ≡ job_of (map (λ w. string_bytes w) words.now))) }
    ensures within { IfOk result IsJudgeJob }
{
    read::<JudgeReader>(alloc, words)
}
