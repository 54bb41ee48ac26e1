//! Worked examples of ranks and answers. Each function has an empty body, and its clauses are checked by the prover.
ghost use Rattle.std.specs.Prelude.{◌≡◌, [], ◌∷◌, Some, None, codes, map};
ghost use Rattle.cm_bdz.specs.Functions.{bdz_answer, bdz_ph_answer, ranked};
ghost use Rattle.cm_bdz.specs.Numbering.{bdz_ph_under, bdz_under};
ghost use Rattle.cm_spec.specs.Examples.{empty_and_a, one_empty};

/// The ranks of nine cells, of which two are not 3.
pub fn ranks()
    ensures { map (ranked (3 ∷ 0 ∷ 0 ∷ 3 ∷ 3 ∷ 3 ∷ 3 ∷ 3 ∷ 3 ∷ [])) (0 ∷ 1 ∷ 2 ∷ 8 ∷ []) ≡ None ∷ Some 0 ∷ Some 1 ∷ None ∷ [] }
{}

/// The answers of functions of one key and of two, to these keys and to others.
#[tactic(auto, unfolding(cm_spec::specs::Lookup2::words, cm_spec::specs::Lookup2::finish, cm_spec::specs::Lookup2::absorb, cm_spec::specs::Lookup2::three_lines, cm_spec::specs::Lookup2::left_line, cm_spec::specs::Lookup2::right_line, cm_spec::specs::Rounds::left_after, cm_spec::specs::Cells::cells_from, cm_spec::specs::Cells::completing))]
pub fn answers()
    ensures one { bdz_answer (bdz_under one_empty 1230000 0 7) [] ≡ Some 0 }
    ensures one_other { bdz_answer (bdz_under one_empty 1230000 0 7) (codes "a") ≡ None }
    ensures first { bdz_answer (bdz_under empty_and_a 1230000 0 7) [] ≡ Some 0 }
    ensures second { bdz_answer (bdz_under empty_and_a 1230000 0 7) (codes "a") ≡ Some 1 }
    ensures other { bdz_answer (bdz_under empty_and_a 1230000 0 7) (codes "b") ≡ Some 1 }
    ensures first_vertex { bdz_ph_answer (bdz_ph_under empty_and_a 1230000 0) [] ≡ 1 }
    ensures second_vertex { bdz_ph_answer (bdz_ph_under empty_and_a 1230000 0) (codes "a") ≡ 2 }
    ensures other_vertex { bdz_ph_answer (bdz_ph_under empty_and_a 1230000 0) (codes "b") ≡ 2 }
{}
