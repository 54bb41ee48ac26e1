//! Laws of CHM functions.
ghost use Rattle.std.specs.Prelude.{◌≡◌, ℕ, List, [], length};
ghost use Rattle.cm_chm.specs.Numbering.{AnswersNumbers};
ghost use Rattle.cm_algo_scheme.specs.Solvable.{CellsSolve};
ghost use Rattle.cm_spec.specs.Built.{chm_under, graph_of};
ghost use Rattle.cm_spec.specs.Chm.{chm_rule};
ghost use Rattle.cm_spec.specs.Rounds.{rest_of};
ghost use Rattle.cm_spec.specs.Rule.{IsCount, IsRatio};

/// If peeling removes every edge of the keys under a seed, the function under this seed returns the number of each key.
pub fn answers_numbers()
    requires solve { CellsSolve }
    ensures { (keys : List (ℕ × List ℕ)) (c seed : ℕ) → IsCount (length keys) → IsRatio c → rest_of (graph_of chm_rule keys c seed) ≡ [] → AnswersNumbers keys (chm_under keys c seed) }
{}
