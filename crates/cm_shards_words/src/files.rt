//! The files among what clap found, of which there may be several.
ghost use Rattle.std.specs.Prelude.{◌≡◌, ◌≢◌, ◌≤◌, Err, IfErr, IfOk, Ok, length, map, option_map};
ghost use Rattle.clap.specs.Words.{all_of, found_of, rows_of};
ghost use Rattle.cm_shards_words.specs.Meaning.{files_of, only};

use clap::ArgMatches;
use cm_words_arguments::UsageFault;

/// The texts of an argument that may be given again, if it is given.
fn texts<'m, 'a>(matches: &'m ArgMatches<'a>, id: &str) -> Option<&'m [&'a str]>
    ensures { option_map (λ s. map (λ v. v.now) s.now) result ≡ all_of id.now (rows_of (found_of matches.now)) }
{
    matches.get_strs(id)
}

/// The files, one or more in their order.
pub fn files<'m, 'a>(matches: &'m ArgMatches<'a>) -> Result<&'m [&'a str], UsageFault>
    ensures files { IfOk result (λ s. Ok (map (λ v. v.now) s.now) ≡ files_of (rows_of (found_of matches.now))) }
    ensures fault { IfErr result (λ fault. Err fault ≡ files_of (rows_of (found_of matches.now))) }
    ensures memory { result ≢ Err UsageFault.Memory }
    ensures some { IfOk result (λ s. 1 ≤ length s.now) }
{
    match texts(matches, "files") {
        Some(files) if !files.is_empty() => Ok(files),
        _ => Err(UsageFault::Words),
    }
}

/// The one file, if there are no others.
pub fn only<'a>(files: &[&'a str]) -> Option<&'a str>
    ensures { option_map (λ s. s.now) result ≡ only (map (λ v. v.now) files.now) }
{
    if files.len() == 1 {
        Some(files[0])
    } else {
        None
    }
}
