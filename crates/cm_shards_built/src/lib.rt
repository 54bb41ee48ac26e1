//! What the file of a shard is, and what a build by `cmph` over it is good for: the function numbers the keys of the shard.
#![tactic(auto)]

ghost use Rattle.std.specs.Prelude.{◌≡◌, ◌<◌, ℕ, List, Some};
ghost use Rattle.cm_io.specs.Files.{Files, file_at};
ghost use Rattle.cm_io.specs.States.{Outside};
ghost use Rattle.cm_shards_built.specs.Built.{BuildsShard, HasShard, SavesShard};
ghost use Rattle.cm_shards_split.specs.Splits.{Splits};
ghost use Rattle.cm_shards_words.specs.Limits.{IsSplitJob};
ghost use Rattle.cm_shards_words.specs.declared.jobs.SplitJob.{SplitJob};
ghost use Rattle.cm_words.specs.declared.jobs.BuildJob.{BuildJob};

use cm_shards_split::laws::files_of_a_split;

/// After a split with status 0 the file of each shard has its share of the lines.
pub fn shares_stored()
    ensures { (job : SplitJob) (old new : Outside) (files : Files) (bytes : List ℕ) (k : ℕ) → IsSplitJob job → Splits job old new 0 → old.disk.files ≡ Some files → file_at files job.keys ≡ Some bytes → k < job.shards → HasShard job bytes k new }
{
    files_of_a_split();
}

/// A run of `cmph -g` with status 0 over the file of a shard saves a function that was built over it.
pub fn built_over()
    ensures { (job : SplitJob) (bytes : List ℕ) (k : ℕ) (build : BuildJob) (old new : Outside) → BuildsShard job bytes k build old new → SavesShard job bytes k build new }
{}
