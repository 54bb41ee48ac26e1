//! The values of the options.
ghost use Rattle.std.specs.Prelude.{◌≡◌, IfOk};
ghost use Rattle.clap.specs.Words.{found_of, rows_of};
ghost use Rattle.cm_shards_words.specs.Limits.{AreValues};
ghost use Rattle.cm_shards_words.specs.Options.{values_of};

use clap::ArgMatches;
use cm_route::MAX_SHARDS;
use cm_words_arguments::text;
use cm_words_values::{BadValue, first, optional};

/// The values of the options that are tested.
#[derive(Clone, Copy, Debug)]
pub struct Values {
    /// How many lines of the keys file are read, or all.
    pub first: Option<u32>,
    /// How many shards there are, if it is said.
    pub shards: Option<u32>,
}

/// The values of all options, or the first that is bad in the order of the letters.
pub fn all_values(matches: &ArgMatches<'_>) -> Result<Values, BadValue>
    ensures values { result ≡ values_of (rows_of (found_of matches.now)) }
    ensures within { IfOk result AreValues }
{
    let first = first(text(matches, "first"))?;
    let shards = optional(text(matches, "shards"), b'n', 1, MAX_SHARDS)?;
    Ok(Values { first, shards })
}
