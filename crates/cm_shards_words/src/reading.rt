//! The job of the arguments.
ghost use Rattle.std.specs.Prelude.{◌≡◌, ◌≤◌, ◌⊎◌, Err, IfErr, IfOk, IsOk, Ok, length, map, string_bytes};
ghost use Rattle.clap.specs.Words.{found_of, rows_of};
ghost use Rattle.cm_shards_words.specs.Limits.{AreValues, IsAskJob, IsJoinJob, IsShardCount, IsShardsJob, IsSplitJob};
ghost use Rattle.cm_shards_words.specs.Meaning.{ask_of, job_of, job_over, join_of, split_of};
ghost use Rattle.cm_words_values.specs.Limits.{IsFirst};

use crate::arguments;
use crate::files::{files, only};
use crate::jobs::{AskJob, JoinJob, ShardsJob, SplitJob};
use crate::texts::{copy_all, copy_option};
use crate::values::{Values, all_values};
use clap::{ArgMatches, Command};
use cm_route::MAX_SHARDS;
use cm_words_arguments::{Reader, UsageFault, copy, end, flag, read, text};
use std::alloc::{AllocError, Global};

/// The split of the one file into this many shards.
fn split_job(
    alloc: Global,
    matches: &ArgMatches<'_>,
    shards: u32,
    first: Option<u32>,
    files: &[&str],
) -> Result<SplitJob, UsageFault>
    requires shards { IsShardCount shards }
    requires first { IsFirst first }
    ensures job { IfOk result (λ job. Ok job ≡ split_of shards first (map (λ v. v.now) files.now) (rows_of (found_of matches.now))) }
    ensures fault { IfErr result (λ fault. (fault ≡ UsageFault.Memory) ⊎ (Err fault ≡ split_of shards first (map (λ v. v.now) files.now) (rows_of (found_of matches.now)))) }
    ensures within { IfOk result IsSplitJob }
    ensures memory { result ≡ Err UsageFault.Memory → IsOk (split_of shards first (map (λ v. v.now) files.now) (rows_of (found_of matches.now))) }
{
    let (Some(dir), Some(keys)) = (text(matches, "dir"), only(files)) else {
        return Err(UsageFault::Words);
    };
    Ok(SplitJob {
        keys: copy(alloc, keys)?,
        dir: copy(alloc, dir)?,
        shards,
        first,
        end: end(matches),
    })
}

/// The join of the files.
fn join_job(alloc: Global, matches: &ArgMatches<'_>, files: &[&str]) -> Result<JoinJob, UsageFault>
    requires some { 1 ≤ length files.now }
    ensures job { IfOk result (λ job. Ok job ≡ join_of (map (λ v. v.now) files.now) (rows_of (found_of matches.now))) }
    ensures fault { IfErr result (λ fault. (fault ≡ UsageFault.Memory) ⊎ (Err fault ≡ join_of (map (λ v. v.now) files.now) (rows_of (found_of matches.now)))) }
    ensures within { IfOk result IsJoinJob }
    ensures memory { result ≡ Err UsageFault.Memory → IsOk (join_of (map (λ v. v.now) files.now) (rows_of (found_of matches.now))) }
{
    let Some(manifest) = text(matches, "manifest") else {
        return Err(UsageFault::Words);
    };
    if files.len() > MAX_SHARDS as usize {
        return Err(UsageFault::Words);
    }
    Ok(JoinJob {
        manifest: copy(alloc, manifest)?,
        dir: copy_option(alloc, text(matches, "dir"))?,
        functions: copy_all(alloc, files)?,
    })
}

/// The query or the test of the one file.
fn ask_job(
    alloc: Global,
    matches: &ArgMatches<'_>,
    first: Option<u32>,
    files: &[&str],
) -> Result<AskJob, UsageFault>
    requires first { IsFirst first }
    ensures job { IfOk result (λ job. Ok job ≡ ask_of first (map (λ v. v.now) files.now) (rows_of (found_of matches.now))) }
    ensures fault { IfErr result (λ fault. (fault ≡ UsageFault.Memory) ⊎ (Err fault ≡ ask_of first (map (λ v. v.now) files.now) (rows_of (found_of matches.now)))) }
    ensures within { IfOk result IsAskJob }
    ensures memory { result ≡ Err UsageFault.Memory → IsOk (ask_of first (map (λ v. v.now) files.now) (rows_of (found_of matches.now))) }
{
    let (Some(manifest), Some(keys)) = (text(matches, "manifest"), only(files)) else {
        return Err(UsageFault::Words);
    };
    Ok(AskJob {
        manifest: copy(alloc, manifest)?,
        keys: copy(alloc, keys)?,
        first,
        end: end(matches),
        test: flag(matches, "test"),
    })
}

/// The job of these values and files.
fn job_by(
    alloc: Global,
    matches: &ArgMatches<'_>,
    values: Values,
    files: &[&str],
) -> Result<ShardsJob, UsageFault>
    requires values { AreValues values }
    requires some { 1 ≤ length files.now }
    ensures job { IfOk result (λ job. Ok job ≡ job_over values (map (λ v. v.now) files.now) (rows_of (found_of matches.now))) }
    ensures fault { IfErr result (λ fault. (fault ≡ UsageFault.Memory) ⊎ (Err fault ≡ job_over values (map (λ v. v.now) files.now) (rows_of (found_of matches.now)))) }
    ensures within { IfOk result IsShardsJob }
    ensures memory { result ≡ Err UsageFault.Memory → IsOk (job_over values (map (λ v. v.now) files.now) (rows_of (found_of matches.now))) }
{
    if flag(matches, "join") {
        Ok(ShardsJob::Join(join_job(alloc, matches, files)?))
    } else {
        match values.shards {
            Some(shards) => Ok(ShardsJob::Split(split_job(
                alloc,
                matches,
                shards,
                values.first,
                files,
            )?)),
            None => Ok(ShardsJob::Ask(ask_job(alloc, matches, values.first, files)?)),
        }
    }
}

/// What reads the arguments of `cmph_shards`.
struct ShardsReader;

impl Reader for ShardsReader {
    ghost use Rattle.cm_shards_words.specs.Command.{shards_app};
    ghost use Rattle.cm_shards_words.specs.CommandLaws.{shards_app-free, shards_app-simple};
    ghost use Rattle.cm_shards_words.specs.Limits.{IsShardsJob};
    ghost use Rattle.cm_shards_words.specs.Meaning.{job_of_rows};

    type Job = ShardsJob;

    ghost app = { shards_app };

    ghost meaning = { job_of_rows };

    ghost is_job = { IsShardsJob };

    ghost simple = { shards_app-simple };

    ghost free = { shards_app-free };

    fn command<'a>(alloc: Global) -> Result<Command<'a>, AllocError> {
        arguments::command(alloc)
    }

    fn job(alloc: Global, matches: &ArgMatches<'_>) -> Result<ShardsJob, UsageFault> {
        let values = all_values(matches)?;
        let files = files(matches)?;
        job_by(alloc, matches, values, files)
    }
}

/// Reads the arguments of a command line, of which the first is the program's name, as a job. It copies the paths, and fails with
/// `Memory` if memory runs out for that.
#[tactic(auto, unfolding(crate::specs::Meaning::job_of))]
pub fn read_words(alloc: Global, words: &[String]) -> Result<ShardsJob, UsageFault>
    ensures job { IfOk result (λ job. Ok job ≡ job_of (map (λ w. string_bytes w) words.now)) }
    ensures fault { IfErr result (λ fault. (fault ≡ UsageFault.Memory) ⊎ (Err fault ≡ job_of (map (λ w. string_bytes w) words.now))) }
    ensures within { IfOk result IsShardsJob }
{
    read::<ShardsReader>(alloc, words)
}
