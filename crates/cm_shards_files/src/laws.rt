//! Laws of the numbers of keys that are split into shards. The clauses are proved for all keys and functions.
ghost use Rattle.std.specs.Prelude.{◌≡◌, ℕ, List, Option, length};
ghost use Rattle.cm_bdz.specs.Numbering.{AnswersApart};
ghost use Rattle.cm_shards_files.specs.Shards.{IsSharded, Sharded, number_in, total_of};
ghost use Rattle.cm_shards_files.specs.ShardsLaws.{AllAreTaken, AreApartByShard, HaveNoGaps};

/// If as many keys as a bound have different numbers below it, each number below it is that of a key, and of no other.
pub fn numbers_taken()
    ensures all { (keys : List (ℕ × List ℕ)) (f : List ℕ → Option ℕ) (bound : ℕ) → AnswersApart keys f bound → length keys ≡ bound → AllAreTaken keys f bound }
{}

/// If in each shard the keys get different answers below the span of its function, then all keys get different numbers, below the sum of
/// the spans. If in each shard the span is the number of its keys, then this sum is the number of all keys, and each number below it is
/// that of a key, and of no other.
pub fn numbers_apart()
    ensures apart { (keys : List (ℕ × List ℕ)) (s : Sharded) → IsSharded s → AreApartByShard keys s → AnswersApart keys (number_in s) (total_of s) }
    ensures count { (keys : List (ℕ × List ℕ)) (s : Sharded) → IsSharded s → HaveNoGaps keys s → total_of s ≡ length keys }
    ensures taken { (keys : List (ℕ × List ℕ)) (s : Sharded) → IsSharded s → AreApartByShard keys s → HaveNoGaps keys s → AllAreTaken keys (number_in s) (total_of s) }
{}
