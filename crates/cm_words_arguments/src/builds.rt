//! The values of the options that builds by the graphs of BDZ share, whatever they make.
ghost use Rattle.std.specs.Prelude.{◌≡◌, IfOk};
ghost use Rattle.clap.specs.Words.{found_of, rows_of};
ghost use Rattle.cm_words_arguments.specs.Builds.{AreBuildValues, build_values_of};

use crate::text;
use clap::ArgMatches;
use cm_algo_names::Algorithm;
use cm_words_values::{BadValue, count, first, ratio, seed};

/// The values of the options of a build.
#[derive(Clone, Copy, Debug)]
pub struct BuildValues {
    /// The ratio of vertices to keys in millionths.
    pub c: u32,
    /// How many lines of a file are read, or all.
    pub first: Option<u32>,
    /// How many seeds are tried at most.
    pub count: u32,
    /// The first seed that is tried.
    pub seed: u32,
}

/// The values of these options, or the first that is bad in the order of the letters.
pub fn build_values(matches: &ArgMatches<'_>) -> Result<BuildValues, BadValue>
    ensures values { result ≡ build_values_of (rows_of (found_of matches.now)) }
    ensures within { IfOk result AreBuildValues }
{
    let c = ratio(text(matches, "ratio"), Algorithm::Bdz)?;
    let first = first(text(matches, "first"))?;
    let count = count(text(matches, "count"))?;
    let seed = seed(text(matches, "seed"))?;
    Ok(BuildValues {
        c,
        first,
        count,
        seed,
    })
}
