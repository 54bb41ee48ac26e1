//! Worked examples of filter files. Each function has an empty body, and its clauses are checked by the prover.
ghost use Rattle.std.specs.Prelude.{◌≡◌, ◌++◌, [], ◌∷◌, Ok, Err, codes, drop, take};
ghost use Rattle.cm_filter.specs.Filters.{filter_under};
ghost use Rattle.cm_spec.specs.Examples.{empty_and_a, one_empty};
ghost use Rattle.cm_filter_file.specs.Examples.{cells_of_one, cells_of_two, header};
ghost use Rattle.cm_filter_file.specs.FilterFiles.{filter_bytes, filter_in};
ghost use Rattle.cm_filter_file.specs.declared.fault.FilterFault.TheVariants.{BadField, BadMagic, BadPadding, Trailing, Truncated};

/// The files of the filters of one key and of two.
#[tactic(auto, unfolding(crate::specs::FilterFiles::filter_bytes, crate::specs::FilterFiles::header_bytes, cm_spec::specs::Dump::fields_image, cm_spec::specs::Image::fields_byte, cm_spec::specs::Image::fields_number, cm_spec::specs::Image::digits_sum, cm_spec::specs::Image::width_of, cm_spec::specs::Lookup2::words, cm_spec::specs::Lookup2::finish, cm_spec::specs::Lookup2::absorb, cm_spec::specs::Lookup2::three_lines, cm_spec::specs::Lookup2::left_line, cm_spec::specs::Lookup2::right_line, cm_spec::specs::Rounds::left_after, cm_spec::specs::Cells::cells_from, cm_spec::specs::Cells::completing))]
pub fn saved()
    ensures one { filter_bytes (filter_under one_empty 1230000 8 0) ≡ header 8 1 ++ cells_of_one }
    ensures two { filter_bytes (filter_under empty_and_a 1230000 8 0) ≡ header 8 2 ++ cells_of_two }
{}

/// What bytes are the files of, and why they are none.
#[tactic(auto, unfolding(crate::specs::FilterFiles::filter_at, crate::specs::FilterFiles::header_at, crate::specs::FilterFiles::magic_at, crate::specs::FilterFiles::cells_at, cm_dump_images::specs::Images::image_at, cm_dump_items::specs::Reading::item_at, cm_dump_items::specs::Reading::field_at, cm_dump_items::specs::Reading::zeros_at, cm_dump_items::specs::Reading::end_at, cm_bits::specs::Fault::fields_fault, cm_bits::specs::Fault::field_cells, cm_bits::specs::Fault::bytes_number, cm_spec::specs::Image::digits_sum, cm_spec::specs::Image::width_of))]
pub fn loaded()
    ensures one { filter_in (header 8 1 ++ cells_of_one) ≡ Ok (record { keys = 1; ratio = 1230000; seed = 0; bits = 8; cells = cells_of_one }) }
    ensures two { filter_in (header 8 2 ++ cells_of_two) ≡ Ok (record { keys = 2; ratio = 1230000; seed = 0; bits = 8; cells = cells_of_two }) }
    ensures narrow { filter_in (header 1 1 ++ 2 ∷ 0 ∷ []) ≡ Ok (record { keys = 1; ratio = 1230000; seed = 0; bits = 1; cells = 0 ∷ 1 ∷ 0 ∷ 0 ∷ 0 ∷ 0 ∷ 0 ∷ 0 ∷ 0 ∷ [] }) }
    ensures empty { filter_in [] ≡ Err (Truncated 0) }
    ensures no_magic { filter_in (codes "CMPHFLT2" ++ drop 8 (header 8 1)) ≡ Err BadMagic }
    ensures no_bits { filter_in (header 0 1) ≡ Err (BadField 8) }
    ensures many_bits { filter_in (header 17 1) ≡ Err (BadField 8) }
    ensures not_zero { filter_in (take 11 (header 8 1) ++ 1 ∷ drop 12 (header 8 1)) ≡ Err (BadField 11) }
    ensures no_keys { filter_in (header 8 0) ≡ Err (BadField 12) }
    ensures cut { filter_in (header 8 1) ≡ Err (Truncated 24) }
    ensures padding { filter_in (header 1 1 ++ 2 ∷ 2 ∷ []) ≡ Err (BadPadding 25) }
    ensures longer { filter_in (header 1 1 ++ 2 ∷ 0 ∷ 0 ∷ []) ≡ Err Trailing }
{}
