//! Worked examples of builds by BRZ. The function has an empty body, and its clauses are checked by the prover.
ghost use Rattle.std.specs.Prelude.{◌≡◌, [], ◌∷◌, None, Some};
ghost use Rattle.cm_brz.specs.Found.{brz_under, first_cored, first_overfull};
ghost use Rattle.cm_brz_split.specs.Split.{split_of};
ghost use Rattle.cm_spec.specs.Examples.{empty_and_a, two_empty};

/// The empty key and `a` are one bucket of two keys. Two empty keys are a bucket without a seed.
#[tactic(auto, unfolding(cm_spec::specs::Lookup2::words, cm_spec::specs::Lookup2::finish, cm_spec::specs::Lookup2::absorb, cm_spec::specs::Lookup2::three_lines, cm_spec::specs::Lookup2::left_line, cm_spec::specs::Lookup2::right_line, cm_spec::specs::Rounds::left_after, cm_spec::specs::Cells::cells_from, cm_spec::specs::Cells::completing))]
pub fn builds()
    ensures split { split_of empty_and_a 1 (0 ∷ []) ≡ Some 0 }
    ensures fits { first_overfull empty_and_a 1 0 ≡ None }
    ensures works { first_cored empty_and_a 1 1230000 0 (0 ∷ []) ≡ None }
    ensures function { brz_under empty_and_a 1230000 128 0 (0 ∷ []) ≡ record { keys = 2; ratio = 1230000; width = 128; split = 0; buckets = record { size = 2; seed = 0; cells = 3 ∷ 0 ∷ 0 ∷ 3 ∷ 3 ∷ 3 ∷ 3 ∷ 3 ∷ 3 ∷ [] } ∷ [] } }
    ensures cored { first_cored two_empty 1 1230000 0 (0 ∷ []) ≡ Some 0 }
{}
