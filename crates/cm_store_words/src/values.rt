//! The values of the options.
ghost use Rattle.std.specs.Prelude.{◌≡◌, IfOk};
ghost use Rattle.clap.specs.Words.{found_of, rows_of};
ghost use Rattle.cm_store_words.specs.Limits.{AreValues};
ghost use Rattle.cm_store_words.specs.Options.{values_of};

use clap::ArgMatches;
use cm_algo_names::Algorithm;
use cm_words_arguments::{BuildValues, build_values, text};
use cm_words_values::{BadValue, bits};

/// The values of the options that are tested.
#[derive(Clone, Copy, Debug)]
pub struct Values {
    /// The sampling of ranks in the index.
    pub b: u8,
    /// Those of any build.
    pub build: BuildValues,
}

/// The values of all options, or the first that is bad in the order of the letters.
pub fn all_values(matches: &ArgMatches<'_>) -> Result<Values, BadValue>
    ensures values { result ≡ values_of (rows_of (found_of matches.now)) }
    ensures within { IfOk result AreValues }
{
    let b = bits(text(matches, "bits"), true, Algorithm::Bdz)?;
    let build = build_values(matches)?;
    Ok(Values { b: b as u8, build })
}
