//! Worked examples of filters. Each function has an empty body, and its clauses are checked by the prover.
ghost use Rattle.std.specs.Prelude.{◌≡◌, [], ◌∷◌, codes, false, true};
ghost use Rattle.cm_filter.specs.Filters.{filter_under, fingerprint, holds};
ghost use Rattle.cm_spec.specs.Examples.{empty_and_a, one_empty};
ghost use Rattle.cm_spec.specs.Lookup2.{words};

/// The filters of one key and of two: fingerprints, cells, and which keys hold.
#[tactic(auto, unfolding(cm_spec::specs::Lookup2::words, cm_spec::specs::Lookup2::finish, cm_spec::specs::Lookup2::absorb, cm_spec::specs::Lookup2::three_lines, cm_spec::specs::Lookup2::left_line, cm_spec::specs::Lookup2::right_line, cm_spec::specs::Rounds::left_after, cm_spec::specs::Cells::cells_from, cm_spec::specs::Cells::completing))]
pub fn filters()
    ensures empty { fingerprint 8 (words [] 0) ≡ 0xfd }
    ensures a { fingerprint 8 (words (codes "a") 0) ≡ 0x0a }
    ensures cells { (filter_under empty_and_a 1230000 8 0).cells ≡ 0 ∷ 0xfd ∷ 0x0a ∷ 0 ∷ 0 ∷ 0 ∷ 0 ∷ 0 ∷ 0 ∷ [] }
    ensures first { holds (filter_under empty_and_a 1230000 8 0) [] ≡ true }
    ensures second { holds (filter_under empty_and_a 1230000 8 0) (codes "a") ≡ true }
    ensures one { (filter_under one_empty 1230000 8 0).cells ≡ 0 ∷ 0xfd ∷ 0 ∷ 0 ∷ 0 ∷ 0 ∷ 0 ∷ 0 ∷ 0 ∷ [] }
    ensures strange { holds (filter_under one_empty 1230000 8 0) (codes "a") ≡ false }
{}
