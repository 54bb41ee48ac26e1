//! The paths that names in a manifest mean.
ghost use Rattle.std.specs.Prelude.{◌≡◌, IfOk, option_map};
ghost use Rattle.cm_shards_manifest.specs.Paths.{behind, folder_of, name_in, name_of, no_slashes, path_of, plain};

use cm_words_arguments::{Text, copy};
use std::alloc::{AllocError, Global};
use std::path::Path;

/// The folder of a path: what stands up to its last slash, with it, and nothing if there is none.
fn folder_of(path: &str) -> &str
    ensures folder { result.now ≡ folder_of path.now }
{
    match path.rfind('/') {
        Some(at) => &path[..at + 1],
        None => "",
    }
}

/// The path that a name in a manifest means. Names are seen from the folder of the manifest, whose own path is given. It fails if memory
/// runs out.
pub fn path_of(alloc: Global, manifest: &str, name: &str) -> Result<Text, AllocError>
    ensures path { IfOk result (λ path. path ≡ path_of manifest.now name.now) }
{
    let path = Path::new(folder_of(manifest)).join(alloc, name)?;
    Ok(Text::new(path.into_string()))
}

/// A text without the slashes at its start.
fn no_slashes(text: &str) -> &str
    ensures text { result.now ≡ no_slashes text.now }
{
    let mut rest = text;
    for i in 0..text.len() {
        match rest.strip_prefix('/') {
            Some(next) => rest = next,
            None => return rest,
        }
    }
    rest
}

/// A path without `./` at its start, and without the slashes that follow that.
fn plain(path: &str) -> &str
    ensures path { result.now ≡ plain path.now }
{
    match path.strip_prefix("./") {
        Some(rest) => no_slashes(rest),
        None => path,
    }
}

/// What follows a folder in a path, without slashes at its start, if the path begins with the folder.
fn behind<'a>(folder: &str, path: &'a str) -> Option<&'a str>
    ensures rest { option_map (λ s. s.now) result ≡ behind folder.now path.now }
{
    if folder.is_empty() {
        return None;
    }
    match path.strip_prefix(folder) {
        Some(rest) => Some(no_slashes(rest)),
        None => None,
    }
}

/// What follows a folder in a path as both are, or else as both are without `./`, or else the path.
fn name_in<'a>(folder: &str, path: &'a str) -> &'a str
    ensures name { result.now ≡ name_in folder.now path.now }
{
    match behind(folder, path) {
        Some(name) => name,
        None => match behind(plain(folder), plain(path)) {
            Some(name) => name,
            None => path,
        },
    }
}

/// The name of a function file in a manifest, by the paths of both: that of the function file, without the folder of the manifest, if it
/// begins with that. It fails if memory runs out.
pub fn name_of(alloc: Global, manifest: &str, function: &str) -> Result<Text, AllocError>
    ensures name { IfOk result (λ name. name ≡ name_of manifest.now function.now) }
{
    copy(alloc, name_in(folder_of(manifest), function))
}
