//! Worked examples of the definitions.
ghost use Rattle.std.specs.Prelude.{◌≡◌, ◌++◌, [], ◌∷◌, map, Some, None, codes};
ghost use Rattle.cm_spec.specs.Bdz.{bdz_size, bdz_rule, bdz_ph_rule};
ghost use Rattle.cm_spec.specs.Built.{graph_of, cells_under, chm_under, first_seed};
ghost use Rattle.cm_spec.specs.Cells.{cells_of, plan_of};
ghost use Rattle.cm_spec.specs.Chm.{chm_size, chm_rule, chm_answer};
ghost use Rattle.cm_spec.specs.Dump.{magic, chm_dump};
ghost use Rattle.cm_spec.specs.Examples.{one_empty, empty_and_a, a_and_b, two_empty, path, ring, hung_ring, triple, knot};
ghost use Rattle.cm_spec.specs.Lookup2.{words};
ghost use Rattle.cm_spec.specs.Rounds.{level_of, pivot_of, order_of, rest_of};

/// Numbers of vertices.
pub fn sizes()
    ensures one { chm_size 1 2090000 ≡ 3 }
    ensures two { chm_size 2 2090000 ≡ 5 }
    ensures four { chm_size 4 2090000 ≡ 9 }
    ensures least { chm_size 2 1000000 ≡ 2 }
    ensures never_one { chm_size 1 1000000 ≡ 2 }
    ensures half { chm_size 2 1500000 ≡ 3 }
    ensures most { chm_size 16777216 10000000 ≡ 167772160 }
    ensures triple_one { bdz_size 1 1230000 ≡ 9 }
    ensures triple_three { bdz_size 3 1230000 ≡ 9 }
    ensures triple_eight { bdz_size 8 1230000 ≡ 15 }
    ensures triple_many { bdz_size 100000 1230000 ≡ 123003 }
    ensures triple_most { bdz_size 16777216 10000000 ≡ 167772165 }
{}

/// Hash values of keys under seeds.
#[tactic(auto, unfolding(crate::specs::Lookup2::words, crate::specs::Lookup2::finish, crate::specs::Lookup2::absorb, crate::specs::Lookup2::three_lines, crate::specs::Lookup2::left_line, crate::specs::Lookup2::right_line))]
pub fn hashing()
    ensures empty { words [] 0 ≡ 0x9b2ec03d ∷ 0xdb2b69ae ∷ 0xbd49d10d ∷ [] }
    ensures a { words (codes "a") 0 ≡ 0x9454baa3 ∷ 0xb711c708 ∷ 0x29eec818 ∷ [] }
    ensures b { words (codes "b") 0 ≡ 0x985accb1 ∷ 0x8a9bd6c6 ∷ 0x54aca597 ∷ [] }
    ensures a_again { words (codes "a") 1 ≡ 0x8338ae66 ∷ 0xdb7e1739 ∷ 0x75f1faad ∷ [] }
    ensures b_again { words (codes "b") 1 ≡ 0x9456939b ∷ 0xbfb7060f ∷ 0x2148e957 ∷ [] }
    ensures block { words (codes "key-0000000000") 1 ≡ 0x2eceba23 ∷ 0x959538f7 ∷ 0x9187254a ∷ [] }
{}

/// Levels, pivots, orders and residual graphs of small graphs.
#[tactic(auto, unfolding(crate::specs::Rounds::left_after))]
pub fn peeling()
    ensures path_levels { map (level_of path) (0 ∷ 1 ∷ 2 ∷ []) ≡ 1 ∷ 2 ∷ 1 ∷ [] }
    ensures path_pivots { map (pivot_of path) (0 ∷ 1 ∷ 2 ∷ []) ≡ 0 ∷ 0 ∷ 1 ∷ [] }
    ensures path_order { order_of path ≡ 0 ∷ 2 ∷ 1 ∷ [] }
    ensures path_rest { rest_of path ≡ [] }
    ensures ring_rest { rest_of ring ≡ 0 ∷ 1 ∷ 2 ∷ [] }
    ensures hung_level { level_of hung_ring 3 ≡ 1 }
    ensures hung_pivot { pivot_of hung_ring 3 ≡ 1 }
    ensures hung_rest { rest_of hung_ring ≡ 0 ∷ 1 ∷ 2 ∷ [] }
    ensures triple_level { level_of triple 0 ≡ 1 }
    ensures triple_pivot { pivot_of triple 0 ≡ 0 }
    ensures knot_levels { map (level_of knot) (0 ∷ 1 ∷ 2 ∷ []) ≡ 1 ∷ 2 ∷ 1 ∷ [] }
    ensures knot_pivots { map (pivot_of knot) (0 ∷ 1 ∷ 2 ∷ []) ≡ 2 ∷ 0 ∷ 0 ∷ [] }
    ensures none_order { order_of [] ≡ [] }
    ensures none_rest { rest_of [] ≡ [] }
{}

/// The cells of the path under CHM, and of the knot under BDZ and BDZ_PH.
#[tactic(auto, unfolding(crate::specs::Rounds::left_after, crate::specs::Cells::cells_from, crate::specs::Cells::completing))]
pub fn graph_cells()
    ensures path { cells_of (plan_of chm_rule 4 path (0 ∷ 0 ∷ 0 ∷ [])) ≡ 2 ∷ 1 ∷ 0 ∷ 2 ∷ [] }
    ensures knot { cells_of (plan_of bdz_rule 9 knot (0 ∷ 0 ∷ 0 ∷ [])) ≡ 0 ∷ 0 ∷ 3 ∷ 3 ∷ 3 ∷ 3 ∷ 2 ∷ 3 ∷ 3 ∷ [] }
    ensures knot_ph { cells_of (plan_of bdz_ph_rule 9 knot (0 ∷ 0 ∷ 0 ∷ [])) ≡ 0 ∷ 0 ∷ 0 ∷ 0 ∷ 0 ∷ 0 ∷ 2 ∷ 0 ∷ 0 ∷ [] }
{}

/// The graphs of small key lists under a seed.
#[tactic(auto, unfolding(crate::specs::Lookup2::words, crate::specs::Lookup2::finish, crate::specs::Lookup2::absorb, crate::specs::Lookup2::three_lines, crate::specs::Lookup2::left_line, crate::specs::Lookup2::right_line))]
pub fn graphs()
    ensures one { graph_of chm_rule one_empty 2090000 0 ≡ (1 ∷ 2 ∷ []) ∷ [] }
    ensures two { graph_of chm_rule empty_and_a 2090000 0 ≡ (4 ∷ 1 ∷ []) ∷ (1 ∷ 2 ∷ []) ∷ [] }
    ensures letters { graph_of chm_rule a_and_b 2090000 1 ≡ (3 ∷ 0 ∷ []) ∷ (1 ∷ 0 ∷ []) ∷ [] }
    ensures doubled { graph_of chm_rule a_and_b 1500000 0 ≡ (2 ∷ 0 ∷ []) ∷ (2 ∷ 0 ∷ []) ∷ [] }
    ensures next_seed { graph_of chm_rule a_and_b 1500000 1 ≡ (1 ∷ 2 ∷ []) ∷ (2 ∷ 0 ∷ []) ∷ [] }
    ensures triple { graph_of bdz_rule one_empty 1230000 0 ≡ (1 ∷ 4 ∷ 7 ∷ []) ∷ [] }
    ensures triples { graph_of bdz_rule empty_and_a 1230000 0 ≡ (1 ∷ 4 ∷ 7 ∷ []) ∷ (2 ∷ 5 ∷ 8 ∷ []) ∷ [] }
    ensures triples_ph { graph_of bdz_ph_rule empty_and_a 1230000 0 ≡ (1 ∷ 4 ∷ 7 ∷ []) ∷ (2 ∷ 5 ∷ 8 ∷ []) ∷ [] }
{}

/// The functions of these key lists, and their answers.
#[tactic(auto, unfolding(crate::specs::Lookup2::words, crate::specs::Lookup2::finish, crate::specs::Lookup2::absorb, crate::specs::Lookup2::three_lines, crate::specs::Lookup2::left_line, crate::specs::Lookup2::right_line, crate::specs::Rounds::left_after, crate::specs::Cells::cells_from, crate::specs::Cells::completing))]
pub fn functions()
    ensures one { (chm_under one_empty 2090000 0).cells ≡ 0 ∷ 0 ∷ 0 ∷ [] }
    ensures two { (chm_under empty_and_a 2090000 0).cells ≡ 0 ∷ 0 ∷ 1 ∷ 0 ∷ 0 ∷ [] }
    ensures letters { (chm_under a_and_b 2090000 1).cells ≡ 0 ∷ 1 ∷ 0 ∷ 0 ∷ 0 ∷ [] }
    ensures next_seed { (chm_under a_and_b 1500000 1).cells ≡ 1 ∷ 0 ∷ 0 ∷ [] }
    ensures first { chm_answer (chm_under empty_and_a 2090000 0) [] ≡ 0 }
    ensures second { chm_answer (chm_under empty_and_a 2090000 0) (codes "a") ≡ 1 }
    ensures took_second { first_seed chm_rule a_and_b 1500000 (0 ∷ 1 ∷ []) ≡ Some 1 }
    ensures none { first_seed chm_rule two_empty 2090000 (0 ∷ 1 ∷ 2 ∷ []) ≡ None }
{}

/// The cells of functions by BDZ and BDZ_PH: of BDZ, 3 is idle, and of BDZ_PH 0.
#[tactic(auto, unfolding(crate::specs::Lookup2::words, crate::specs::Lookup2::finish, crate::specs::Lookup2::absorb, crate::specs::Lookup2::three_lines, crate::specs::Lookup2::left_line, crate::specs::Lookup2::right_line, crate::specs::Rounds::left_after, crate::specs::Cells::cells_from, crate::specs::Cells::completing))]
pub fn triples()
    ensures one { cells_under bdz_rule one_empty 1230000 0 ≡ 3 ∷ 0 ∷ 3 ∷ 3 ∷ 3 ∷ 3 ∷ 3 ∷ 3 ∷ 3 ∷ [] }
    ensures two { cells_under bdz_rule empty_and_a 1230000 0 ≡ 3 ∷ 0 ∷ 0 ∷ 3 ∷ 3 ∷ 3 ∷ 3 ∷ 3 ∷ 3 ∷ [] }
    ensures two_ph { cells_under bdz_ph_rule empty_and_a 1230000 0 ≡ 0 ∷ 0 ∷ 0 ∷ 0 ∷ 0 ∷ 0 ∷ 0 ∷ 0 ∷ 0 ∷ [] }
    ensures none { first_seed bdz_rule two_empty 1230000 (0 ∷ 1 ∷ []) ≡ None }
    ensures took_first { first_seed bdz_ph_rule empty_and_a 1230000 (0 ∷ 1 ∷ []) ≡ Some 0 }
{}

/// The dumps of these functions.
#[tactic(auto, unfolding(crate::specs::Lookup2::words, crate::specs::Lookup2::finish, crate::specs::Lookup2::absorb, crate::specs::Lookup2::three_lines, crate::specs::Lookup2::left_line, crate::specs::Lookup2::right_line, crate::specs::Rounds::left_after, crate::specs::Cells::cells_from, crate::specs::Cells::completing, crate::specs::Dump::header, crate::specs::Dump::fields_image, crate::specs::Dump::chm_dump, crate::specs::Image::width_of, crate::specs::Image::fields_byte, crate::specs::Image::fields_number, crate::specs::Image::digits_sum))]
pub fn dumps()
    ensures one { chm_dump (chm_under one_empty 2090000 0)
        ≡ 0x43 ∷ 0x4d ∷ 0x50 ∷ 0x48 ∷ 0x44 ∷ 0x4d ∷ 0x50 ∷ 0x31 ∷ 1 ∷ 0 ∷ 0 ∷ 0 ∷ 1 ∷ 0 ∷ 0 ∷ 0 ∷ 0x10 ∷ 0xe4 ∷ 0x1f ∷ 0 ∷ 0 ∷ 0 ∷ 0 ∷ 0 ∷ 0 ∷ [] }
    ensures two { chm_dump (chm_under empty_and_a 2090000 0)
        ≡ magic ++ 1 ∷ 0 ∷ 0 ∷ 0 ∷ 2 ∷ 0 ∷ 0 ∷ 0 ∷ 0x10 ∷ 0xe4 ∷ 0x1f ∷ 0 ∷ 0 ∷ 0 ∷ 0 ∷ 0 ∷ 4 ∷ [] }
    ensures letters { chm_dump (chm_under a_and_b 2090000 1)
        ≡ magic ++ 1 ∷ 0 ∷ 0 ∷ 0 ∷ 2 ∷ 0 ∷ 0 ∷ 0 ∷ 0x10 ∷ 0xe4 ∷ 0x1f ∷ 0 ∷ 1 ∷ 0 ∷ 0 ∷ 0 ∷ 2 ∷ [] }
    ensures next_seed { chm_dump (chm_under a_and_b 1500000 1)
        ≡ magic ++ 1 ∷ 0 ∷ 0 ∷ 0 ∷ 2 ∷ 0 ∷ 0 ∷ 0 ∷ 0x60 ∷ 0xe3 ∷ 0x16 ∷ 0 ∷ 1 ∷ 0 ∷ 0 ∷ 0 ∷ 1 ∷ [] }
{}
