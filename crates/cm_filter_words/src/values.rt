//! The values of the options.
ghost use Rattle.std.specs.Prelude.{◌≡◌, IfOk, option_map};
ghost use Rattle.clap.specs.Words.{found_of, rows_of};
ghost use Rattle.cm_filter.specs.Filters.{IsFingerprint};
ghost use Rattle.cm_filter_words.specs.Limits.{AreValues};
ghost use Rattle.cm_filter_words.specs.Options.{values_of, width_value};

use clap::ArgMatches;
use cm_filter::{MAX_FINGERPRINT, MIN_FINGERPRINT};
use cm_words_arguments::{BuildValues, build_values, text};
use cm_words_values::{BadValue, number};

/// The values of the options that are tested.
#[derive(Clone, Copy, Debug)]
pub struct Values {
    /// Those of any build.
    pub build: BuildValues,
    /// How many bits a fingerprint has.
    pub w: u8,
}

/// `-w`: how many bits a fingerprint has; 8 if it isn't given.
fn width(text: Option<&str>) -> Result<u8, BadValue>
    ensures value { result ≡ width_value (option_map (λ s. s.now) text.entry) }
    ensures within { IfOk result IsFingerprint }
{
    let (least, most) = (MIN_FINGERPRINT as u32, MAX_FINGERPRINT as u32);
    Ok(number(text, b'w', least, most, 8)? as u8)
}

/// The values of all options, or the first that is bad in the order of the letters.
pub fn all_values(matches: &ArgMatches<'_>) -> Result<Values, BadValue>
    ensures values { result ≡ values_of (rows_of (found_of matches.now)) }
    ensures within { IfOk result AreValues }
{
    let build = build_values(matches)?;
    let w = width(text(matches, "width"))?;
    Ok(Values { build, w })
}
