//! Worked examples.
ghost use Rattle.std.specs.Prelude.{◌≡◌, ◌∷◌, [], Some, codes};
ghost use Rattle.cm_io.specs.Files.{Files};
ghost use Rattle.cm_io.specs.declared.key_pass.KeyFault.TheVariants.{TooMany};
ghost use Rattle.cm_shards_split.specs.Examples.{plain_job, zero_job};
ghost use Rattle.cm_shards_split.specs.Names.{counts_path, shard_path};
ghost use Rattle.cm_shards_split.specs.Outcomes.{outcome_over, splitting};
ghost use Rattle.cm_shards_split.specs.Placed.{placed};
ghost use Rattle.cm_shards_split.specs.Shares.{counts_text};

/// The paths of the files of a split, and the text of counts.
pub fn worked_names()
    ensures first { shard_path (codes "out") 0 ≡ codes "out/shard-0000" }
    ensures last { shard_path (codes "out/") 4095 ≡ codes "out/shard-4095" }
    ensures counts { counts_path (codes "out") ≡ codes "out/counts" }
    ensures text { counts_text (12 ∷ 0 ∷ []) ≡ codes "12\n0\n" }
{}

/// What `cmph_shards -n 2 -d d k` comes to by the bytes of k: the last line gets its end, and no lines make empty files. With `-z -k 2`
/// the lines end with byte 0, and the third isn't read. If there are too many lines, the counts are empty.
pub fn worked_outcomes()
    ensures lines { (files : Files) → outcome_over plain_job files (codes "ab\nb\nc\n\nb") ≡ record { status = 0; out = []; err = []; files = placed (codes "d") (codes "b\nb\n" ∷ codes "ab\nc\n\n" ∷ []) (codes "2\n3\n") files } }
    ensures none { (files : Files) → outcome_over plain_job files [] ≡ record { status = 0; out = []; err = []; files = placed (codes "d") ([] ∷ [] ∷ []) (codes "0\n0\n") files } }
    ensures zero { (files : Files) → outcome_over zero_job files (97 ∷ 10 ∷ 0 ∷ 97 ∷ 98 ∷ 0 ∷ 99 ∷ []) ≡ record { status = 0; out = []; err = []; files = placed (codes "d") ((97 ∷ 10 ∷ 0 ∷ []) ∷ (97 ∷ 98 ∷ 0 ∷ []) ∷ []) (codes "1\n1\n") files } }
    ensures fault { (files : Files) → splitting plain_job files (codes "ab" ∷ []) (Some TooMany) ≡ record { status = 8; out = []; err = codes "cmph_shards: k: too many lines\n"; files = placed (codes "d") ([] ∷ codes "ab\n" ∷ []) [] files } }
{}
