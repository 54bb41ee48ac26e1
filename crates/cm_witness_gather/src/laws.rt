//! Worked examples of reports, and a law of pairs.
ghost use Rattle.std.specs.Prelude.{◌≡◌, ℕ, List, ◌∷◌, ◌++◌, Some, Contains, codes};
ghost use Rattle.cm_algo_names.specs.declared.algorithm.Algorithm.TheVariants as algorithm;
ghost use Rattle.cm_spec.specs.Bdz.{bdz_rule};
ghost use Rattle.cm_spec.specs.Chm.{chm_rule};
ghost use Rattle.cm_spec.specs.Examples.{a_and_b, empty_and_a, two_empty};
ghost use Rattle.cm_witness_gather.specs.Examples.{empties_and_a};
ghost use Rattle.cm_witness_gather.specs.Pairs.{first_line, pairs};
ghost use Rattle.cm_witness_gather.specs.Reports.{core_report};

/// The reports of small key lists under seed 0.
pub fn reports()
    ensures two_empty { core_report algorithm.Chm chm_rule two_empty 2090000 0 ≡ codes "core chm seed 0 edges 2\nedge 1 4 1\nedge 2 4 1\nequal 1 2\n" }
    ensures three_empty { core_report algorithm.Chm chm_rule empties_and_a 2090000 0 ≡ codes "core chm seed 0 edges 3\nedge 1 1 7\nedge 3 1 7\nedge 4 1 7\nequal 1 3\nequal 1 4\n" }
    ensures none_equal { core_report algorithm.Chm chm_rule empty_and_a 1000000 0 ≡ codes "core chm seed 0 edges 2\nedge 1 1 0\nedge 2 1 0\n" }
    ensures letters { core_report algorithm.Chm chm_rule a_and_b 1500000 0 ≡ codes "core chm seed 0 edges 2\nedge 1 2 0\nedge 2 2 0\n" }
    ensures triples { core_report algorithm.Bdz bdz_rule two_empty 1230000 0 ≡ codes "core bdz seed 0 edges 2\nedge 1 1 4 7\nedge 2 1 4 7\nequal 1 2\n" }
{}

/// Each later line of a key is paired with the first.
pub fn each_paired()
    ensures { (before after : List (ℕ × List ℕ)) (k : ℕ × List ℕ) (first : ℕ) → first_line before k.1 ≡ Some first → Contains (pairs (before ++ k ∷ after)) (record { first = first; again = k.0 }) }
{}
