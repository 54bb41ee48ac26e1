//! What clap found of an option or an argument.
ghost use Rattle.std.specs.Prelude.{◌≡◌, option_map};
ghost use Rattle.clap.specs.Words.{first_of, found_of, rows_of};
ghost use Rattle.cm_words_arguments.specs.Options.{end_of, is_counted, is_set};
ghost use Rattle.cm_words_values.specs.Limits.{IsEnd};

use clap::ArgMatches;
use cm_words_values::{LINE_FEED, ZERO_BYTE};

/// The text of an option or a file, if it is given.
pub fn text<'a>(matches: &ArgMatches<'a>, id: &str) -> Option<&'a str>
    ensures { option_map (λ s. s.now) result ≡ first_of id.now (rows_of (found_of matches.now)) }
{
    matches.get_str(id)
}

/// Whether a flag is given.
pub fn flag(matches: &ArgMatches<'_>, id: &str) -> bool
    ensures { result ≡ is_set id.now (rows_of (found_of matches.now)) }
{
    match text(matches, id) {
        Some(text) => text == "true",
        None => false,
    }
}

/// Whether a flag is given once or more often.
pub fn counted(matches: &ArgMatches<'_>, id: &str) -> bool
    ensures { result ≡ is_counted id.now (rows_of (found_of matches.now)) }
{
    matches.get_count(id) > 0
}

/// The byte that ends lines: `ZERO_BYTE` if the flag `zero` is given, or else `LINE_FEED`.
pub fn end(matches: &ArgMatches<'_>) -> u8
    ensures value { result ≡ end_of (rows_of (found_of matches.now)) }
    ensures within { IsEnd result }
{
    if flag(matches, "zero") {
        ZERO_BYTE
    } else {
        LINE_FEED
    }
}
