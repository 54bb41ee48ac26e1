//! The values of the options.
ghost use Rattle.std.specs.Prelude.{◌≡◌, IfOk, option_map};
ghost use Rattle.clap.specs.Words.{found_of, rows_of};
ghost use Rattle.cm_judge_words.specs.Limits.{AreValues, IsRatioOption};
ghost use Rattle.cm_judge_words.specs.Options.{ratio_option, values_of};

use clap::ArgMatches;
use cm_algo_names::Algorithm;
use cm_words_arguments::text;
use cm_words_values::{BadValue, bits, first, ratio};

/// The values of the options that are tested.
#[derive(Clone, Copy, Debug)]
pub struct Values {
    /// How many keys a bucket of BRZ has on average.
    pub b: u16,
    /// The ratio of vertices to keys in millionths, if it is given.
    pub c: Option<u32>,
    /// How many lines of the keys file are read, or all.
    pub first: Option<u32>,
}

/// `-c`: the ratio in millionths, if it is given. All algorithms have the same range.
fn given_ratio(text: Option<&str>) -> Result<Option<u32>, BadValue>
    ensures value { result ≡ ratio_option (option_map (λ s. s.now) text.entry) }
    ensures within { IfOk result IsRatioOption }
{
    match text {
        Some(text) => Ok(Some(ratio(Some(text), Algorithm::Chm)?)),
        None => Ok(None),
    }
}

/// The values of all options, or the first that is bad in the order of the letters.
pub fn all_values(matches: &ArgMatches<'_>) -> Result<Values, BadValue>
    ensures values { result ≡ values_of (rows_of (found_of matches.now)) }
    ensures within { IfOk result AreValues }
{
    let b = bits(text(matches, "width"), true, Algorithm::Brz)?;
    let c = given_ratio(text(matches, "ratio"))?;
    let first = first(text(matches, "first"))?;
    Ok(Values { b, c, first })
}
