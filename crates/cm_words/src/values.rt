//! The values of the options.
ghost use Rattle.std.specs.Prelude.{◌≡◌, IfOk, IsNone, codes};
ghost use Rattle.clap.specs.Words.{found_of, first_of, rows_of};
ghost use Rattle.cm_words.specs.Limits.{AreValues};
ghost use Rattle.cm_words.specs.Options.{is_build, values_of};

use clap::ArgMatches;
use cm_algo_names::Algorithm;
use cm_words_arguments::{flag, text};
use cm_words_values::{BadValue, algorithm, bits, buffer, count, first, hash, ratio, seed, test};

/// The values of the options that are tested.
#[derive(Clone, Copy, Debug)]
pub struct Values {
    pub algorithm: Algorithm,
    pub bits: u16,
    /// In millionths.
    pub ratio: u32,
    pub first: Option<u32>,
    /// In bytes.
    pub buffer: u32,
    pub count: u32,
    pub seed: u32,
    /// How many keys a test generates, if it is one.
    pub test: Option<u32>,
}

/// Whether the job is a build: it generates a function file, and is neither a test nor an upgrade.
pub fn builds(matches: &ArgMatches<'_>) -> bool
    ensures { result ≡ is_build (rows_of (found_of matches.now)) }
{
    flag(matches, "generate") && text(matches, "test").is_none() && !flag(matches, "upgrade")
}

/// The values of all options, or the first that is bad in the order of the letters.
pub fn all_values(matches: &ArgMatches<'_>) -> Result<Values, BadValue>
    ensures values { result ≡ values_of (rows_of (found_of matches.now)) }
    ensures within { IfOk result (AreValues (is_build (rows_of (found_of matches.now)))) }
    ensures no_test { IfOk result (λ v. IsNone v.test → IsNone (first_of (codes "test") (rows_of (found_of matches.now)))) }
{
    let algorithm = algorithm(text(matches, "algorithm"))?;
    let bits = bits(text(matches, "bits"), builds(matches), algorithm)?;
    let ratio = ratio(text(matches, "ratio"), algorithm)?;
    hash(text(matches, "hash"))?;
    Ok(Values {
        algorithm,
        bits,
        ratio,
        first: first(text(matches, "first"))?,
        buffer: buffer(text(matches, "buffer"))?,
        count: count(text(matches, "count"))?,
        seed: seed(text(matches, "seed"))?,
        test: test(text(matches, "test"))?,
    })
}
