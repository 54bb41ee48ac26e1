//! Worked examples of what bytes spell. Each function has an empty body, and its clauses are checked by the prover.
ghost use Rattle.std.specs.Prelude.{◌≡◌, ◌++◌, [], ◌∷◌, Ok, Err, Some, codes, drop, take};
ghost use Rattle.cm_dump_items.specs.declared.fault.LoadFault.TheVariants.{Truncated, BadMagic, BadAlgorithm, BadField, BadPadding, BadCell, BadCount, BadRank, Trailing};
ghost use Rattle.cm_dump.specs.Examples.{bdz_of_one, bdz_ph_of_two, brz_of_two, bucket_of_two, bucket_of_two_2, front, front_2, front_of, front_of_2, one_key, two_keys};
ghost use Rattle.cm_dump.specs.Spelling.{spelling_of};
ghost use Rattle.cm_func.specs.declared.function.Func.TheVariants.{Bdz, BdzPh, Brz, Chm};
ghost use Rattle.cm_brz_func.specs.Functions.{brz_answer};
ghost use Rattle.cm_dump.specs.Dumps.{dump_of};

/// CHM functions of one key and of two, in version 1.
#[tactic(auto, unfolding(crate::specs::Spelling::spelling_by, crate::specs::Spelling::chm_at, cm_dump_images::specs::Images::image_at, crate::specs::Headings::heading_at, crate::specs::Headings::header_at, crate::specs::Headings::parameter_at, crate::specs::Headings::algorithm_at, crate::specs::Headings::magic_at, cm_dump_items::specs::Reading::item_at, cm_dump_items::specs::Reading::field_at, cm_dump_items::specs::Reading::zeros_at, cm_dump_items::specs::Reading::end_at, cm_bits::specs::Fault::fields_fault, cm_bits::specs::Fault::field_cells, cm_bits::specs::Fault::bytes_number, cm_spec::specs::Image::digits_sum, cm_spec::specs::Image::width_of))]
pub fn spelled()
    ensures one { spelling_of (front 1 ++ 0 ∷ []) ≡ Ok (Chm one_key) }
    ensures two { spelling_of (front 2 ++ 4 ∷ []) ≡ Ok (Chm two_keys) }
    ensures bad_cell { spelling_of (front 1 ++ 1 ∷ []) ≡ Err (BadCell 24) }
    ensures bad_padding { spelling_of (front 1 ++ 8 ∷ []) ≡ Err (BadPadding 24) }
    ensures cut { spelling_of (front 1) ≡ Err (Truncated 24) }
    ensures cut_sooner { spelling_of (take 9 (front 1)) ≡ Err (Truncated 9) }
    ensures empty { spelling_of [] ≡ Err (Truncated 0) }
    ensures longer { spelling_of (front 1 ++ 0 ∷ 0 ∷ []) ≡ Err Trailing }
    ensures no_keys { spelling_of (front 0) ≡ Err (BadField 12) }
    ensures many_keys { spelling_of (take 12 (front 1) ++ 1 ∷ 0 ∷ 0 ∷ 1 ∷ drop 16 (front 1)) ≡ Err (BadField 12) }
    ensures no_magic { spelling_of (codes "CMPHDMP3" ++ drop 8 (front 1)) ≡ Err BadMagic }
{}

/// A BDZ function of one key, and a BDZ_PH function of two, in version 1.
#[tactic(auto, unfolding(crate::specs::Spelling::spelling_by, crate::specs::Spelling::bdz_at, crate::specs::Spelling::bdz_ph_at, crate::specs::Spelling::ranked_at, crate::specs::Spelling::ranks_at, crate::specs::Spelling::counted, cm_dump_images::specs::Images::image_at, crate::specs::Headings::heading_at, crate::specs::Headings::header_at, crate::specs::Headings::parameter_at, crate::specs::Headings::algorithm_at, crate::specs::Headings::magic_at, cm_dump_items::specs::Reading::item_at, cm_dump_items::specs::Reading::field_at, cm_dump_items::specs::Reading::zeros_at, cm_dump_items::specs::Reading::end_at, cm_bits::specs::Fault::packed_fault, cm_bits::specs::Held::packed_cells, cm_rank::specs::Ranks::sampled))]
pub fn spelled_by_three()
    ensures bdz { spelling_of (front_of 2 7 1 ++ 0xf3 ∷ 0xff ∷ 3 ∷ 0 ∷ 0 ∷ 0 ∷ 0 ∷ []) ≡ Ok (Bdz bdz_of_one) }
    ensures bdz_parameter { spelling_of (front_of 2 2 1 ++ 0xf3 ∷ 0xff ∷ 3 ∷ 0 ∷ 0 ∷ 0 ∷ 0 ∷ []) ≡ Err (BadField 9) }
    ensures bdz_padding { spelling_of (front_of 2 7 1 ++ 0xf3 ∷ 0xff ∷ 7 ∷ 0 ∷ 0 ∷ 0 ∷ 0 ∷ []) ≡ Err (BadPadding 26) }
    ensures bdz_count { spelling_of (front_of 2 7 1 ++ 0xf0 ∷ 0xff ∷ 3 ∷ 0 ∷ 0 ∷ 0 ∷ 0 ∷ []) ≡ Err (BadCount 24) }
    ensures bdz_rank { spelling_of (front_of 2 7 1 ++ 0xf3 ∷ 0xff ∷ 3 ∷ 1 ∷ 0 ∷ 0 ∷ 0 ∷ []) ≡ Err (BadRank 27) }
    ensures bdz_cut { spelling_of (front_of 2 7 1 ++ 0xf3 ∷ 0xff ∷ 3 ∷ 0 ∷ 0 ∷ 0 ∷ []) ≡ Err (Truncated 30) }
    ensures bdz_longer { spelling_of (front_of 2 7 1 ++ 0xf3 ∷ 0xff ∷ 3 ∷ 0 ∷ 0 ∷ 0 ∷ 0 ∷ 0 ∷ []) ≡ Err Trailing }
    ensures bdz_ph { spelling_of (front_of 3 0 2 ++ 0 ∷ 0 ∷ []) ≡ Ok (BdzPh bdz_ph_of_two) }
    ensures bdz_ph_cell { spelling_of (front_of 3 0 2 ++ 0 ∷ 243 ∷ []) ≡ Err (BadCell 25) }
    ensures bdz_ph_padding { spelling_of (front_of 3 0 2 ++ 0 ∷ 81 ∷ []) ≡ Err (BadPadding 25) }
    ensures no_algorithm { spelling_of (front_of 5 0 2) ≡ Err BadAlgorithm }
{}

/// A BRZ function of two keys, and bytes that differ from its dump, in version 1.
#[tactic(auto, unfolding(crate::specs::Spelling::spelling_by, crate::specs::Spelling::brz_at, crate::specs::Spelling::rest_at, crate::specs::Spelling::bucket_at, crate::specs::Spelling::size_at, crate::specs::Spelling::crumbs_at, cm_dump_images::specs::Images::image_at, crate::specs::Headings::heading_at, crate::specs::Headings::header_at, crate::specs::Headings::parameter_at, crate::specs::Headings::algorithm_at, crate::specs::Headings::magic_at, cm_dump_items::specs::Reading::item_at, cm_dump_items::specs::Reading::field_at, cm_dump_items::specs::Reading::zeros_at, cm_dump_items::specs::Reading::end_at, cm_bits::specs::Fault::packed_fault, cm_bits::specs::Held::packed_cells))]
pub fn spelled_by_buckets()
    ensures brz { spelling_of (front_of 4 128 2 ++ bucket_of_two) ≡ Ok (Brz brz_of_two) }
    ensures few_keys { spelling_of (front_of 4 128 2 ++ 1 ∷ 0 ∷ 0 ∷ 0 ∷ 0 ∷ 0xc3 ∷ 0xff ∷ 3 ∷ []) ≡ Err (BadCount 24) }
    ensures many_keys { spelling_of (front_of 4 128 2 ++ 3 ∷ 0 ∷ 0 ∷ 0 ∷ 0 ∷ 0xc3 ∷ 0xff ∷ 3 ∷ []) ≡ Err (BadCount 24) }
    ensures seeded { spelling_of (front_of 4 64 65 ++ 0 ∷ 1 ∷ 0 ∷ 0 ∷ 0 ∷ []) ≡ Err (BadField 25) }
    ensures count { spelling_of (front_of 4 128 2 ++ 2 ∷ 0 ∷ 0 ∷ 0 ∷ 0 ∷ 0xf3 ∷ 0xff ∷ 3 ∷ []) ≡ Err (BadCount 29) }
    ensures padding { spelling_of (front_of 4 128 2 ++ 2 ∷ 0 ∷ 0 ∷ 0 ∷ 0 ∷ 0xc3 ∷ 0xff ∷ 7 ∷ []) ≡ Err (BadPadding 31) }
    ensures cut { spelling_of (front_of 4 128 2 ++ take 7 bucket_of_two) ≡ Err (Truncated 31) }
    ensures longer { spelling_of (front_of 4 128 2 ++ (bucket_of_two ++ 0 ∷ [])) ≡ Err Trailing }
    ensures parameter { spelling_of (front_of 4 63 2 ++ bucket_of_two) ≡ Err (BadField 9) }
    ensures wide { spelling_of (front_of 4 176 2 ++ bucket_of_two) ≡ Err (BadField 9) }
{}

/// CHM functions of one key and of two, in version 2.
#[tactic(auto, unfolding(crate::specs::Spelling::spelling_by, crate::specs::Spelling::chm_at, cm_dump_images::specs::Images::image_at, crate::specs::Headings::heading_at, crate::specs::Headings::header_at, crate::specs::Headings::parameter_at, crate::specs::Headings::algorithm_at, crate::specs::Headings::magic_at, cm_dump_items::specs::Reading::item_at, cm_dump_items::specs::Reading::field_at, cm_dump_items::specs::Reading::zeros_at, cm_dump_items::specs::Reading::end_at, cm_bits::specs::Fault::fields_fault, cm_bits::specs::Fault::field_cells, cm_bits::specs::Fault::bytes_number, cm_spec::specs::Image::digits_sum, cm_spec::specs::Image::width_of))]
pub fn spelled_2()
    ensures one { spelling_of (front_2 1 ++ 0 ∷ []) ≡ Ok (Chm one_key) }
    ensures two { spelling_of (front_2 2 ++ 4 ∷ []) ≡ Ok (Chm two_keys) }
    ensures cut { spelling_of (take 11 (front_2 1)) ≡ Err (Truncated 11) }
    ensures not_zero { spelling_of (take 9 (front_2 1) ++ 1 ∷ 1 ∷ drop 11 (front_2 1)) ≡ Err (BadField 9) }
    ensures many_keys { spelling_of (take 12 (front_2 1) ++ 1 ∷ 0 ∷ 0 ∷ 4 ∷ drop 16 (front_2 1)) ≡ Err (BadField 12) }
{}

/// A BDZ function of one key, and a BDZ_PH function of two, in version 2.
#[tactic(auto, unfolding(crate::specs::Spelling::spelling_by, crate::specs::Spelling::bdz_at, crate::specs::Spelling::bdz_ph_at, crate::specs::Spelling::ranked_at, crate::specs::Spelling::ranks_at, crate::specs::Spelling::counted, cm_dump_images::specs::Images::image_at, crate::specs::Headings::heading_at, crate::specs::Headings::header_at, crate::specs::Headings::parameter_at, crate::specs::Headings::algorithm_at, crate::specs::Headings::magic_at, cm_dump_items::specs::Reading::item_at, cm_dump_items::specs::Reading::field_at, cm_dump_items::specs::Reading::zeros_at, cm_dump_items::specs::Reading::end_at, cm_bits::specs::Fault::packed_fault, cm_bits::specs::Held::packed_cells, cm_rank::specs::Ranks::sampled))]
pub fn spelled_by_three_2()
    ensures bdz { spelling_of (front_of_2 2 0 7 0 1 ++ 0xf3 ∷ 0xff ∷ 3 ∷ 0 ∷ 0 ∷ 0 ∷ 0 ∷ []) ≡ Ok (Bdz bdz_of_one) }
    ensures bdz_parameter { spelling_of (front_of_2 2 0 7 1 1 ++ 0xf3 ∷ 0xff ∷ 3 ∷ 0 ∷ 0 ∷ 0 ∷ 0 ∷ []) ≡ Err (BadField 10) }
    ensures bdz_ph { spelling_of (front_of_2 3 0 0 0 2 ++ 0 ∷ 0 ∷ []) ≡ Ok (BdzPh bdz_ph_of_two) }
{}

/// A BRZ function of two keys, and bytes that differ from its dump, in version 2.
#[tactic(auto, unfolding(crate::specs::Spelling::spelling_by, crate::specs::Spelling::brz_at, crate::specs::Spelling::rest_at, crate::specs::Spelling::bucket_at, crate::specs::Spelling::size_at, crate::specs::Spelling::crumbs_at, cm_dump_images::specs::Images::image_at, crate::specs::Headings::heading_at, crate::specs::Headings::header_at, crate::specs::Headings::parameter_at, crate::specs::Headings::algorithm_at, crate::specs::Headings::magic_at, cm_dump_items::specs::Reading::item_at, cm_dump_items::specs::Reading::field_at, cm_dump_items::specs::Reading::zeros_at, cm_dump_items::specs::Reading::end_at, cm_bits::specs::Fault::packed_fault, cm_bits::specs::Held::packed_cells))]
pub fn spelled_by_buckets_2()
    ensures brz { spelling_of (front_of_2 4 0 128 0 2 ++ bucket_of_two_2) ≡ Ok (Brz brz_of_two) }
    ensures wide { spelling_of (front_of_2 4 0 0xbd 2 2 ++ bucket_of_two_2) ≡ Err (BadField 10) }
    ensures not_zero { spelling_of (front_of_2 4 1 0xbd 2 2 ++ bucket_of_two_2) ≡ Err (BadField 9) }
    ensures big { spelling_of (front_of_2 4 0 128 0 2 ++ 0 ∷ 4 ∷ 0 ∷ 0 ∷ 0 ∷ 0 ∷ 0xc3 ∷ 0xff ∷ 3 ∷ []) ≡ Err (BadField 24) }
    ensures many_keys { spelling_of (front_of_2 4 0 128 0 2 ++ 0xff ∷ 3 ∷ 0 ∷ 0 ∷ 0 ∷ 0 ∷ 0xc3 ∷ 0xff ∷ 3 ∷ []) ≡ Err (BadCount 24) }
    ensures seeded { spelling_of (front_of_2 4 0 64 0 65 ++ 0 ∷ 0 ∷ 1 ∷ 0 ∷ 0 ∷ 0 ∷ []) ≡ Err (BadField 26) }
    ensures count { spelling_of (front_of_2 4 0 128 0 2 ++ 2 ∷ 0 ∷ 0 ∷ 0 ∷ 0 ∷ 0 ∷ 0xf3 ∷ 0xff ∷ 3 ∷ []) ≡ Err (BadCount 30) }
    ensures cut { spelling_of (front_of_2 4 0 128 0 2 ++ take 1 bucket_of_two_2) ≡ Err (Truncated 25) }
{}

/// The dumps of these functions that are written.
#[tactic(auto, unfolding(crate::specs::Dumps::chm_dump, crate::specs::Dumps::header, cm_spec::specs::Dump::fields_image, cm_spec::specs::Image::fields_byte, cm_spec::specs::Image::fields_number, cm_spec::specs::Image::digits_sum, cm_spec::specs::Image::width_of))]
pub fn saved()
    ensures one { dump_of (Chm one_key) ≡ front_2 1 ++ 0 ∷ [] }
    ensures two { dump_of (Chm two_keys) ≡ front_2 2 ++ 4 ∷ [] }
{}

/// The same by BDZ and BDZ_PH.
#[tactic(auto, unfolding(crate::specs::Dumps::bdz_dump, crate::specs::Dumps::bdz_ph_dump, crate::specs::Dumps::packed_image, crate::specs::Dumps::ranks_image, crate::specs::Dumps::header, cm_rank::specs::Ranks::sampled, cm_spec::specs::Image::packed_byte, cm_spec::specs::Image::digits_sum))]
pub fn saved_by_three()
    ensures bdz { dump_of (Bdz bdz_of_one) ≡ front_of_2 2 0 7 0 1 ++ 0xf3 ∷ 0xff ∷ 3 ∷ 0 ∷ 0 ∷ 0 ∷ 0 ∷ [] }
    ensures bdz_ph { dump_of (BdzPh bdz_ph_of_two) ≡ front_of_2 3 0 0 0 2 ++ 0 ∷ 0 ∷ [] }
{}

/// The same by BRZ.
#[tactic(auto, unfolding(crate::specs::Dumps::brz_dump, crate::specs::Dumps::buckets_image, crate::specs::Dumps::bucket_image, crate::specs::Dumps::packed_image, crate::specs::Dumps::header, cm_spec::specs::Image::packed_byte, cm_spec::specs::Image::digits_sum))]
pub fn saved_by_buckets()
    ensures dump { dump_of (Brz brz_of_two) ≡ front_of_2 4 0 128 0 2 ++ bucket_of_two_2 }
{}

/// The answers of the BRZ function to the keys that it was built over.
#[tactic(auto, unfolding(cm_spec::specs::Lookup2::words, cm_spec::specs::Lookup2::finish, cm_spec::specs::Lookup2::absorb, cm_spec::specs::Lookup2::three_lines, cm_spec::specs::Lookup2::left_line, cm_spec::specs::Lookup2::right_line))]
pub fn answered_by_buckets()
    ensures first { brz_answer brz_of_two [] ≡ Some 0 }
    ensures second { brz_answer brz_of_two (codes "a") ≡ Some 1 }
{}
