//! Worked examples of joins. Each function has an empty body, and its clauses are checked by the prover.
ghost use Rattle.std.specs.Prelude.{◌≡◌, ◌∷◌, [], List, ℕ, Err, Ok, Some, codes};
ghost use Rattle.cm_io.specs.Files.{Files};
ghost use Rattle.cm_dump_items.specs.declared.fault.LoadFault.TheVariants.{Truncated};
ghost use Rattle.cm_shards_join.specs.Examples.{AreFiles, counted_job, file_by_vertices, file_of_one, file_of_two, of_three, of_vertices, plain_job};
ghost use Rattle.cm_shards_join.specs.Taking.{join_of};
ghost use Rattle.cm_shards_join.specs.Texts.{message_of};
ghost use Rattle.cm_shards_join.specs.declared.stop.JoinStop.TheVariants.{Another, BadCounts, BadDump, BadName};

/// The functions of two keys and of one are joined: names are seen from the folder of the manifest, and the offset of the second is the
/// span of the first. The span of a function by BDZ_PH is its number of vertices.
pub fn joined()
    ensures counted { (files : Files) → AreFiles files file_of_two file_of_one (codes "2\n1\n") → join_of counted_job files ≡ Some (Ok of_three) }
    ensures uncounted { (files : Files) (counts : List ℕ) → AreFiles files file_of_two file_of_one counts → join_of plain_job files ≡ Some (Ok of_three) }
    ensures vertices { (files : Files) → AreFiles files file_by_vertices file_by_vertices (codes "2\n2\n") → join_of counted_job files ≡ Some (Ok of_vertices) }
{}

/// A function of another kind than the first is refused, and so are counts of other keys, at their first line that differs, and bytes that
/// are no function.
pub fn refused()
    ensures kind { (files : Files) (counts : List ℕ) → AreFiles files file_of_two file_by_vertices counts → join_of counted_job files ≡ Some (Err (Another (codes "out/b"))) }
    ensures counts { (files : Files) → AreFiles files file_of_two file_of_one (codes "2\n2\n") → join_of counted_job files ≡ Some (Err (BadCounts (codes "out/counts") 2)) }
    ensures turned { (files : Files) → AreFiles files file_of_one file_of_two (codes "2\n1\n") → join_of counted_job files ≡ Some (Err (BadCounts (codes "out/counts") 1)) }
    ensures longer { (files : Files) → AreFiles files file_of_two file_of_one (codes "2\n1\n3\n") → join_of counted_job files ≡ Some (Err (BadCounts (codes "out/counts") 3)) }
    ensures cut { (files : Files) (b counts : List ℕ) → AreFiles files (codes "CMPHDMP1") b counts → join_of plain_job files ≡ Some (Err (BadDump (codes "out/a") (Truncated 8))) }
    ensures nameless { (files : Files) → join_of (record plain_job { functions = codes "out/" ∷ [] }) files ≡ Some (Err (BadName (codes "out/"))) }
{}

/// What is said of them.
pub fn told()
    ensures name { message_of plain_job (BadName (codes "out/")) ≡ codes "cmph_shards: out/: bad name\n" }
    ensures kind { message_of plain_job (Another (codes "out/b")) ≡ codes "cmph_shards: out/b: another algorithm\n" }
    ensures counts { message_of counted_job (BadCounts (codes "out/counts") 2) ≡ codes "cmph_shards: out/counts: another count at line 2\n" }
{}
