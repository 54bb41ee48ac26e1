//! Laws of the files that a split makes. Each function has an empty body, and its clauses are checked by the prover.
ghost use Rattle.std.specs.Prelude.{◌≡◌, ◌≢◌, ◌<◌, ◌≤◌, ℕ, List, [], length, Some, slice_index_or};
ghost use Rattle.cm_io.specs.Files.{Files, file_at};
ghost use Rattle.cm_route.specs.declared.route.TheConstants.{MAX_SHARDS};
ghost use Rattle.cm_shards_split.specs.Names.{counts_path, shard_path};
ghost use Rattle.cm_shards_split.specs.Placed.{placed};
ghost use Rattle.cm_shards_split.specs.Splits.{MakesKeys};
ghost use Rattle.cm_shards_words.specs.declared.jobs.SplitJob.{SplitJob};

/// Different shards have different paths, and the counts have one of their own.
pub fn paths()
    ensures shards { (dir : List ℕ) (i j : ℕ) → i < MAX_SHARDS → j < MAX_SHARDS → shard_path dir i ≡ shard_path dir j → i ≡ j }
    ensures counts { (dir : List ℕ) (k : ℕ) → counts_path dir ≢ shard_path dir k }
{}

/// The file of each shard has its bytes, that of the counts its text, and other files are as before. The keys file is one of these, unless
/// the split is refused.
pub fn files_of_a_split()
    ensures shards { (dir : List ℕ) (i : ℕ) (parts : List (List ℕ)) (text : List ℕ) (files : Files) → i < length parts → length parts ≤ MAX_SHARDS → file_at (placed dir parts text files) (shard_path dir i) ≡ Some (slice_index_or parts i []) }
    ensures counts { (dir : List ℕ) (parts : List (List ℕ)) (text : List ℕ) (files : Files) → file_at (placed dir parts text files) (counts_path dir) ≡ Some text }
    ensures others { (dir : List ℕ) (parts : List (List ℕ)) (text : List ℕ) (files : Files) (path : List ℕ) → path ≢ counts_path dir → ((i : ℕ) → i < length parts → path ≢ shard_path dir i) → file_at (placed dir parts text files) path ≡ file_at files path }
    ensures keys { (job : SplitJob) (parts : List (List ℕ)) (text : List ℕ) (files : Files) → length parts ≤ job.shards → (MakesKeys job → ⊥) → file_at (placed job.dir parts text files) job.keys ≡ file_at files job.keys }
{}
