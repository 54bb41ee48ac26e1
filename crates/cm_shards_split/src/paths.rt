//! The paths of the files that a split makes.
ghost use Rattle.std.specs.Prelude.{◌≡◌, ◌<◌, IfOk};
ghost use Rattle.cm_shards_split.specs.Names.{counts_path as counts_path_of, shard_path as shard_path_of};

use cm_words_arguments::Text;
use std::alloc::{AllocError, Global};
use std::path::Path;

/// The path of the file of a shard.
pub(crate) fn shard_path(alloc: Global, dir: &str, k: u32) -> Result<Text, AllocError>
    ensures path { IfOk result (λ path. path ≡ shard_path_of dir.now k) }
{
    let name = format!(in alloc;
        "shard-{}{}{}{}",
        k / 1000 % 10,
        k / 100 % 10,
        k / 10 % 10,
        k % 10
    )?;
    Ok(Text::new(Path::new(dir).join(alloc, name)?.into_string()))
}

/// The path of the file of the counts.
pub(crate) fn counts_path(alloc: Global, dir: &str) -> Result<Text, AllocError>
    ensures path { IfOk result (λ path. path ≡ counts_path_of dir.now) }
{
    Ok(Text::new(Path::new(dir).join(alloc, "counts")?.into_string()))
}
