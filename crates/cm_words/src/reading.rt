//! The job of the arguments.
ghost use Rattle.std.specs.Prelude.{◌≡◌, ◌⊎◌, Err, IfErr, IfOk, IsNone, IsOk, Ok, codes, false, map, option_map, string_bytes, true};
ghost use Rattle.clap.specs.Words.{first_of, found_of, rows_of};
ghost use Rattle.cm_words_values.specs.Limits.{IsFirst, IsTestSize};
ghost use Rattle.cm_words_arguments.specs.Options.{is_set};
ghost use Rattle.cm_words.specs.Limits.{AreValues, IsBuild, IsJob, IsQuery, IsTest};
ghost use Rattle.cm_words.specs.Meaning.{build_of, directory_of, function_of, job_of, job_over, query_of, test_of, upgrade_over};
ghost use Rattle.cm_words.specs.Options.{is_build};

use crate::values::{Values, all_values};
use crate::{BuildJob, Job, QueryJob, TestJob, Text, UpgradeJob, UsageFault, arguments};
use clap::{ArgMatches, Command};
use cm_words_arguments::{Reader, copy, counted, end, flag, path_or, read, text};
use std::alloc::{AllocError, Global};

/// The path of the function file: the one that is given, or that of the keys file.
fn function(alloc: Global, given: Option<&str>, keys: &str) -> Result<Text, AllocError>
    ensures { IfOk result (λ t. t ≡ function_of (option_map (λ s. s.now) given.entry) keys.now) }
{
    path_or(alloc, given, keys, ".mph")
}

fn directory(alloc: Global, given: Option<&str>) -> Result<Text, AllocError>
    ensures { IfOk result (λ t. t ≡ directory_of (option_map (λ s. s.now) given.entry)) }
{
    match given {
        Some(path) => copy(alloc, path),
        None => copy(alloc, "."),
    }
}

fn build_job(
    alloc: Global,
    matches: &ArgMatches<'_>,
    values: Values,
    keys: &str,
) -> Result<BuildJob, AllocError>
    requires { AreValues true values }
    ensures job { IfOk result (λ job. job ≡ build_of values keys.now (rows_of (found_of matches.now))) }
    ensures within { IfOk result IsBuild }
{
    Ok(BuildJob {
        keys: copy(alloc, keys)?,
        function: function(alloc, text(matches, "function"), keys)?,
        first: values.first,
        end: end(matches),
        algorithm: values.algorithm,
        c: values.ratio,
        b: values.bits,
        seed: values.seed,
        count: values.count,
        buffer: values.buffer,
        dir: directory(alloc, text(matches, "directory"))?,
        verbose: counted(matches, "verbose"),
    })
}

fn query_job(
    alloc: Global,
    matches: &ArgMatches<'_>,
    values: Values,
    keys: &str,
) -> Result<QueryJob, AllocError>
    requires { IsFirst values.first }
    ensures job { IfOk result (λ job. job ≡ query_of values keys.now (rows_of (found_of matches.now))) }
    ensures within { IfOk result IsQuery }
{
    Ok(QueryJob {
        keys: copy(alloc, keys)?,
        function: function(alloc, text(matches, "function"), keys)?,
        first: values.first,
        end: end(matches),
    })
}

fn test_job(
    alloc: Global,
    matches: &ArgMatches<'_>,
    values: Values,
    keys: u32,
) -> Result<TestJob, AllocError>
    requires values { AreValues false values }
    requires keys { IsTestSize keys }
    ensures job { IfOk result (λ job. job ≡ test_of keys values (rows_of (found_of matches.now))) }
    ensures within { IfOk result IsTest }
{
    Ok(TestJob {
        keys,
        seed: values.seed,
        count: values.count,
        buffer: values.buffer,
        dir: directory(alloc, text(matches, "directory"))?,
    })
}

/// An upgrade, if the keys file or the function file is named.
fn upgrade_job(alloc: Global, matches: &ArgMatches<'_>) -> Result<Job, UsageFault>
    ensures job { IfOk result (λ job. Ok job
        ≡ upgrade_over (first_of (codes "function") (rows_of (found_of matches.now))) (first_of (codes "keys") (rows_of (found_of matches.now)))) }
    ensures fault { IfErr result (λ fault. (fault ≡ UsageFault.Memory)
        ⊎ (Err fault ≡ upgrade_over (first_of (codes "function") (rows_of (found_of matches.now))) (first_of (codes "keys") (rows_of (found_of matches.now))))) }
    ensures within { IfOk result IsJob }
    ensures memory { result ≡ Err UsageFault.Memory → IsOk (upgrade_over (first_of (codes "function") (rows_of (found_of matches.now))) (first_of (codes "keys") (rows_of (found_of matches.now)))) }
{
    let given = text(matches, "function");
    let function = match (text(matches, "keys"), given) {
        (Some(keys), given) => function(alloc, given, keys)?,
        (None, Some(path)) => copy(alloc, path)?,
        (None, None) => return Err(UsageFault::NoFile),
    };
    Ok(Job::Upgrade(UpgradeJob { function }))
}

/// A build or a query, if the keys file is named.
fn file_job(alloc: Global, matches: &ArgMatches<'_>, values: Values) -> Result<Job, UsageFault>
    requires values { AreValues (is_build (rows_of (found_of matches.now))) values }
    requires no_test { IsNone (first_of (codes "test") (rows_of (found_of matches.now))) }
    requires no_upgrade { is_set (codes "upgrade") (rows_of (found_of matches.now)) ≡ false }
    ensures job { IfOk result (λ job. Ok job
        ≡ job_over (first_of (codes "keys") (rows_of (found_of matches.now))) values (rows_of (found_of matches.now))) }
    ensures fault { IfErr result (λ fault. (fault ≡ UsageFault.Memory)
        ⊎ (Err fault ≡ job_over (first_of (codes "keys") (rows_of (found_of matches.now))) values (rows_of (found_of matches.now)))) }
    ensures within { IfOk result IsJob }
    ensures memory { result ≡ Err UsageFault.Memory → IsOk (job_over (first_of (codes "keys") (rows_of (found_of matches.now))) values (rows_of (found_of matches.now))) }
{
    let Some(keys) = text(matches, "keys") else {
        return Err(UsageFault::NoFile);
    };
    if flag(matches, "generate") {
        Ok(Job::Build(build_job(alloc, matches, values, keys)?))
    } else {
        Ok(Job::Query(query_job(alloc, matches, values, keys)?))
    }
}

/// What reads the arguments of `cmph`.
struct CmphReader;

impl Reader for CmphReader {
    ghost use Rattle.cm_words.specs.Command.{cmph_app};
    ghost use Rattle.cm_words.specs.CommandLaws.{cmph_app-free, cmph_app-simple};
    ghost use Rattle.cm_words.specs.Limits.{IsJob};
    ghost use Rattle.cm_words.specs.Meaning.{job_of_rows};

    type Job = Job;

    ghost app = { cmph_app };

    ghost meaning = { job_of_rows };

    ghost is_job = { IsJob };

    ghost simple = { cmph_app-simple };

    ghost free = { cmph_app-free };

    fn command<'a>(alloc: Global) -> Result<Command<'a>, AllocError> {
        arguments::command(alloc)
    }

    fn job(alloc: Global, matches: &ArgMatches<'_>) -> Result<Job, UsageFault> {
        if flag(matches, "help") {
            return Ok(Job::Help);
        }
        if flag(matches, "version") {
            return Ok(Job::Version);
        }
        let values = all_values(matches)?;
        if let Some(keys) = values.test {
            return Ok(Job::Test(test_job(alloc, matches, values, keys)?));
        }
        if flag(matches, "upgrade") {
            return upgrade_job(alloc, matches);
        }
        file_job(alloc, matches, values)
    }
}

/// Reads the arguments of a command line, of which the first is the program's name, as a job. It copies the paths, and fails with
/// `Memory` if memory runs out for that.
#[tactic(auto, unfolding(crate::specs::Meaning::job_of))]
pub fn read_words(alloc: Global, words: &[String]) -> Result<Job, UsageFault>
    ensures job { IfOk result (λ job. Ok job ≡ job_of (map (λ w. string_bytes w) words.now)) }
    ensures fault { IfErr result (λ fault. (fault ≡ UsageFault.Memory)
        ⊎ (Err fault ≡ job_of (map (λ w. string_bytes w) words.now))) }
    ensures within { IfOk result IsJob }
{
    read::<CmphReader>(alloc, words)
}
