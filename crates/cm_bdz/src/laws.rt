//! Laws of functions by BDZ and BDZ_PH.
ghost use Rattle.std.specs.Prelude.{◌≡◌, ℕ, List, [], Some, length};
ghost use Rattle.cm_bdz.specs.Functions.{bdz_answer, bdz_ph_answer};
ghost use Rattle.cm_bdz.specs.Numbering.{AnswersApart, bdz_ph_under, bdz_under};
ghost use Rattle.cm_algo_scheme.specs.Solvable.{CellsSolve};
ghost use Rattle.cm_spec.specs.Bdz.{bdz_ph_rule, bdz_rule};
ghost use Rattle.cm_spec.specs.Built.{cells_under, graph_of};
ghost use Rattle.cm_spec.specs.Rounds.{rest_of};
ghost use Rattle.cm_spec.specs.Rule.{IsCount, IsRatio};

/// If peeling removes every edge of the keys under a seed, the functions under this seed return different numbers for any two of the
/// keys. Those of BDZ are below the number of keys, so they are all numbers below it; those of BDZ_PH are below the number of vertices.
pub fn answers_apart()
    requires solve { CellsSolve }
    ensures bdz { (keys : List (ℕ × List ℕ)) (c seed shift : ℕ) → IsCount (length keys) → IsRatio c → rest_of (graph_of bdz_rule keys c seed) ≡ [] → AnswersApart keys (bdz_answer (bdz_under keys c seed shift)) (length keys) }
    ensures bdz_ph { (keys : List (ℕ × List ℕ)) (c seed : ℕ) → IsCount (length keys) → IsRatio c → rest_of (graph_of bdz_ph_rule keys c seed) ≡ [] → AnswersApart keys (λ key. Some (bdz_ph_answer (bdz_ph_under keys c seed) key)) (length (cells_under bdz_ph_rule keys c seed)) }
{}
