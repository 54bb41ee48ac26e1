//! A law of filters.
ghost use Rattle.std.specs.Prelude.{◌≡◌, ℕ, List, [], length};
ghost use Rattle.cm_algo_scheme.specs.Solvable.{CellsSolve};
ghost use Rattle.cm_filter.specs.Filters.{filter_rule, filter_under};
ghost use Rattle.cm_filter.specs.Members.{AllHold};
ghost use Rattle.cm_spec.specs.Built.{graph_of};
ghost use Rattle.cm_spec.specs.Rounds.{rest_of};
ghost use Rattle.cm_spec.specs.Rule.{IsCount, IsRatio};

/// If peeling removes every edge of the keys under a seed, each key holds in the filter under this seed.
pub fn keys_hold()
    requires solve { CellsSolve }
    ensures { (keys : List (ℕ × List ℕ)) (c w seed : ℕ) → IsCount (length keys) → IsRatio c → rest_of (graph_of (filter_rule w) keys c seed) ≡ [] → AllHold (filter_under keys c w seed) keys }
{}
