//! Laws of functions by BRZ.
ghost use Rattle.std.specs.Prelude.{◌≡◌, ◌<◌, ◌≤◌, ℕ, List, length, None, Some, slice_index};
ghost use Rattle.cm_algo_names.specs.declared.algorithm.Algorithm.TheVariants as algorithm;
ghost use Rattle.cm_bdz.specs.Numbering.{AnswersApart};
ghost use Rattle.cm_brz_func.specs.Functions.{Brz, brz_answer, bucket_count, keys_in};
ghost use Rattle.cm_brz.specs.BrzOf.{IsBrzOf};
ghost use Rattle.cm_brz.specs.Fails.{IsCoredBucket, IsOverfull};
ghost use Rattle.cm_brz.specs.Found.{AllOverfull, brz_under, bucket_report, first_cored, first_overfull, overfull_report};
ghost use Rattle.cm_brz_split.specs.Split.{split_of};
ghost use Rattle.cm_spec.specs.Rule.{IsRatio};
ghost use Rattle.cm_witness_gather.specs.Reports.{overfull_text, report_text};
ghost use Rattle.cm_witness_gather.specs.declared.certificate.Certificate.{Certificate};
ghost use Rattle.cm_witness_gather.specs.declared.certificate.Pair.{Pair};
ghost use Rattle.cm_spec.specs.declared.limits.TheConstants.{MAX_EDGES};

use cm_algo_cells::cells_solve;
use cm_bdz::answers_apart;

/// The function of keys returns different numbers for any two of them, and all numbers are below the number of keys. Its buckets have
/// all of the keys.
pub fn numbers_apart()
    ensures apart { (keys : List (ℕ × List ℕ)) (c b : ℕ) (seeds : List ℕ) (f : Brz) → 1 ≤ length keys → length keys ≤ MAX_EDGES → IsRatio c → 1 ≤ b → IsBrzOf keys c b seeds f → AnswersApart keys (brz_answer f) (length keys) }
    ensures all { (keys : List (ℕ × List ℕ)) (c b : ℕ) (seeds : List ℕ) (f : Brz) → 1 ≤ length keys → 1 ≤ b → IsBrzOf keys c b seeds f → keys_in f.buckets ≡ length keys }
{
    cells_solve();
    answers_apart();
}

/// What a build returns or reports can be computed from the keys alone: the function of the seed that splits them; the lowest bucket
/// for which no seed works, with its report; or, if no seed splits the keys, the lowest overfull bucket under the first seed, with its
/// report. If no seed splits the keys, each leaves an overfull bucket. If there is a bucket, there are keys.
pub fn keys_determine_results()
    ensures function { (keys : List (ℕ × List ℕ)) (c b : ℕ) (seeds : List ℕ) (f : Brz) → IsBrzOf keys c b seeds f → f ≡ brz_under keys c b f.split seeds }
    ensures none { (keys : List (ℕ × List ℕ)) (c b : ℕ) (seeds : List ℕ) (f : Brz) → IsBrzOf keys c b seeds f → first_cored keys (bucket_count (length keys) b) c f.split seeds ≡ None }
    ensures cored { (keys : List (ℕ × List ℕ)) (k c : ℕ) (seeds : List ℕ) (made : Certificate) → 0 < length seeds → (cored : IsCoredBucket keys k c seeds made) → first_cored keys k c cored.place.split seeds ≡ Some cored.place.bucket }
    ensures cored_shown { (keys : List (ℕ × List ℕ)) (k c : ℕ) (seeds : List ℕ) (made : Certificate) → made.algorithm ≡ algorithm.Brz → made.seed ≡ slice_index seeds 0 → (cored : IsCoredBucket keys k c seeds made) →
        report_text made.algorithm made.place made.seed made.edges.items made.equal.items ≡ bucket_report keys k c cored.place.split cored.place.bucket seeds }
    ensures overfull { (keys : List (ℕ × List ℕ)) (k : ℕ) (seeds : List ℕ) (seed bucket count : ℕ) (equal : List Pair) → IsOverfull keys k seeds seed bucket count equal → first_overfull keys k seed ≡ Some bucket }
    ensures overfull_shown { (keys : List (ℕ × List ℕ)) (k : ℕ) (seeds : List ℕ) (seed bucket count : ℕ) (equal : List Pair) → IsOverfull keys k seeds seed bucket count equal → overfull_text seed bucket count equal ≡ overfull_report keys k seeds }
    ensures some { (m b j : ℕ) → 1 ≤ b → j < bucket_count m b → 1 ≤ m }
    ensures all { (keys : List (ℕ × List ℕ)) (k : ℕ) (seeds : List ℕ) → split_of keys k seeds ≡ None → AllOverfull keys k seeds }
{}
