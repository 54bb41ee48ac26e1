//! What a built function answers to its own keys, whatever its algorithm.
#![tactic(auto)]

ghost use Rattle.std.specs.Prelude.{◌≡◌, ◌≢◌, ◌<◌, ◌≤◌, ℕ, List, Some, length};
ghost use Rattle.cm_algo_names.specs.declared.algorithm.Algorithm.{Algorithm};
ghost use Rattle.cm_algo_names.specs.declared.algorithm.Algorithm.TheVariants.{BdzPh, Brz, Chm};
ghost use Rattle.cm_bdz.specs.Numbering.{AnswersApart};
ghost use Rattle.cm_func.specs.Functions.{answer_by, span_by};
ghost use Rattle.cm_func.specs.declared.function.Func.{Func};
ghost use Rattle.cm_io.specs.Passes.{Told};
ghost use Rattle.cm_spec.specs.Built.{key_at};
ghost use Rattle.cm_spec.specs.Rule.{IsRatio};
ghost use Rattle.cm_tool_builds.specs.FuncOf.{IsFuncOf};

use cm_algo_cells::cells_solve;
use cm_bdz::answers_apart;
use cm_brz::numbers_apart;
use cm_chm::answers_numbers;
use cm_peel::empty_rest;

/// The function that a build returns has a number of its own for each of its keys, below its span. The span is the number of keys, except by
/// BDZ_PH. By CHM the number of a key is its index, from 0.
pub fn keys_have_numbers()
    ensures apart { (algorithm : Algorithm) (b : ℕ) (told : Told) (c : ℕ) (seeds : List ℕ) (f : Func) → IsRatio c → (algorithm ≡ Brz → 1 ≤ b) → IsFuncOf algorithm b told c seeds f → AnswersApart told.keys (answer_by f) (span_by f) }
    ensures span { (algorithm : Algorithm) (b : ℕ) (told : Told) (c : ℕ) (seeds : List ℕ) (f : Func) → algorithm ≢ BdzPh → IsFuncOf algorithm b told c seeds f → span_by f ≡ length told.keys }
    ensures in_order { (b : ℕ) (told : Told) (c : ℕ) (seeds : List ℕ) (f : Func) → IsRatio c → IsFuncOf Chm b told c seeds f → (i : ℕ) → i < length told.keys → answer_by f (key_at told.keys i) ≡ Some i }
{
    cells_solve();
    answers_numbers();
    answers_apart();
    numbers_apart();
    empty_rest();
}
