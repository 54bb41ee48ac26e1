//! Laws of the steps together. Each body calls the laws that it follows from, and does nothing else.
ghost use Rattle.std.specs.Prelude.{◌≡◌, ℕ, List, None, All, map};
ghost use Rattle.cm_bdz.specs.Numbering.{AnswersApart};
ghost use Rattle.cm_func.specs.Functions.{IsFunction};
ghost use Rattle.cm_func.specs.declared.function.Func.{Func};
ghost use Rattle.std.specs.Option.{ForSome};
ghost use Rattle.cm_io.specs.Files.{with_file};
ghost use Rattle.cm_io.specs.States.{Outside};
ghost use Rattle.cm_shards.specs.Joined.{IsAsked, sharded};
ghost use Rattle.cm_shards.specs.Numbered.{AreBuiltOver, LeaveNone, shard_keys};
ghost use Rattle.cm_shards_files.specs.Shards.{number_in, total_of};
ghost use Rattle.cm_shards_files.specs.ShardsLaws.{AllAreTaken};
ghost use Rattle.cm_shards_join.specs.Joins.{Joins};
ghost use Rattle.cm_shards_manifest.specs.ManifestBytes.{manifest_bytes};
ghost use Rattle.cm_shards_manifest.specs.Manifests.{Manifest};
ghost use Rattle.cm_shards_split.specs.Outcomes.{lines_of, route_of, told_of};
ghost use Rattle.cm_shards_split.specs.Shares.{share};
ghost use Rattle.cm_shards_words.specs.Limits.{IsSplitJob};
ghost use Rattle.cm_shards_words.specs.declared.jobs.JoinJob.{JoinJob};
ghost use Rattle.cm_shards_words.specs.declared.jobs.SplitJob.{SplitJob};

use cm_shards_files::laws::numbers_apart;
use cm_shards_manifest::laws::files_spell;

/// The file of a shard has the share of the shard, as a build reads it: no line more or less, and none of other bytes.
pub fn shares_read()
    ensures keys { (job : SplitJob) (bytes : List ℕ) (k : ℕ) → (shard_keys job bytes k).fault ≡ None → map (λ key. key.1) (shard_keys job bytes k).keys ≡ share (route_of job) k (lines_of (told_of job bytes)) }
{}

/// If a function was built over the file of each shard of a split, then all lines of the keys file have different numbers, below the sum of
/// the spans; and each number below it is that of a line, if no function leaves one out.
pub fn numbers()
    ensures apart { (job : SplitJob) (bytes : List ℕ) (functions : List Func) → IsSplitJob job → All IsFunction functions → AreBuiltOver job bytes functions
        → AnswersApart (told_of job bytes).keys (number_in (sharded functions)) (total_of (sharded functions)) }
    ensures taken { (job : SplitJob) (bytes : List ℕ) (functions : List Func) → IsSplitJob job → All IsFunction functions → AreBuiltOver job bytes functions → LeaveNone job bytes functions
        → AllAreTaken (told_of job bytes).keys (number_in (sharded functions)) (total_of (sharded functions)) }
{
    numbers_apart();
}

/// After a join with status 0, a query or a test by its manifest finds the functions that were joined, in the order of the arguments, and
/// the route of a split into as many shards.
pub fn joined_functions()
    ensures asked { (job : JoinJob) (old new : Outside) → Joins job old new 0 → ForSome old.disk.files (λ files.
        (m : Manifest) × (new.disk.files ≡ with_file job.manifest (manifest_bytes m) old.disk.files) × IsAsked job files m) }
{
    files_spell();
}
