//! Splits that would make their own keys file.
ghost use Rattle.std.specs.Prelude.{◌≡◌, false, true, IfOk};
ghost use Rattle.cm_shards_split.specs.Splits.{MakesKeys};

use crate::paths::{counts_path, shard_path};
use cm_shards_words::SplitJob;
use std::alloc::{AllocError, Global};

/// Whether the keys file of a job is one of the files that its split makes. It fails if memory runs out.
pub(crate) fn makes_keys(alloc: Global, job: &SplitJob) -> Result<bool, AllocError>
    ensures made { IfOk result (λ makes. makes ≡ true → MakesKeys job.now) }
    ensures others { IfOk result (λ makes. makes ≡ false → MakesKeys job.now → ⊥) }
{
    let keys = job.keys.as_str();
    let dir = job.dir.as_str();
    let counts = counts_path(alloc, dir)?;
    if counts.as_str() == keys {
        return Ok(true);
    }
    for k in 0..job.shards {
        let path = shard_path(alloc, dir, k)?;
        if path.as_str() == keys {
            return Ok(true);
        }
    }
    Ok(false)
}
