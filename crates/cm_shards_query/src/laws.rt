//! Laws of the test. The clauses are proved for all lines and numbers.
ghost use Rattle.std.specs.Prelude.{◌≡◌, ◌<◌, ℕ, List, Some, Option};
ghost use Rattle.cm_shards_files.specs.ShardsLaws.{AllAreTaken};
ghost use Rattle.cm_shards_query.specs.Verdicts.{IsNumbering};

use cm_shards_files::laws::numbers_taken;

/// If a test is true, and each number is below the number of the keys, as it is by a kind without gaps, then each number below it is that
/// of a line, and of no other.
pub fn tested_numbers()
    ensures taken { (f : List ℕ → Option ℕ) (keys : ℕ) (lines : List (ℕ × List ℕ)) → IsNumbering f keys lines →
        ((key : List ℕ) (v : ℕ) → f key ≡ Some v → v < keys) → AllAreTaken lines f keys }
{
    // A law, for the proof alone.
    numbers_taken();
}
