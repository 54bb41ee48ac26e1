//! Worked examples of store files. Each function has an empty body, and its clauses are checked by the prover.
ghost use Rattle.std.specs.Prelude.{◌≡◌, ◌++◌, [], ◌∷◌, Ok, Err, codes, drop, take};
ghost use Rattle.cm_dump.specs.Examples.{front_of_2};
ghost use Rattle.cm_store_file.specs.Examples.{file_of_two, header, store_of_two};
ghost use Rattle.cm_store_file.specs.StoreFiles.{store_bytes, store_in};
ghost use Rattle.cm_store_file.specs.declared.fault.StoreLoad.TheVariants.{BadField, BadIndex, BadMagic, BadPlace, BadRecord, Trailing, Truncated};

/// The file of a store of two records.
#[tactic(auto, unfolding(crate::specs::StoreFiles::store_bytes, crate::specs::Headers::header_bytes, cm_dump::specs::Dumps::bdz_dump, cm_dump::specs::Dumps::packed_image, cm_dump::specs::Dumps::ranks_image, cm_dump::specs::Dumps::header, cm_rank::specs::Ranks::sampled, cm_spec::specs::Image::packed_byte, cm_spec::specs::Image::plain_byte, cm_spec::specs::Image::digits_sum))]
pub fn saved()
    ensures two { store_bytes store_of_two ≡ file_of_two 5 }
{}

/// What bytes are the file of, and why they are none by their records.
#[tactic(auto, unfolding(crate::specs::StoreFiles::store_in, crate::specs::StoreFiles::store_at, crate::specs::StoreFiles::index_at, crate::specs::StoreFiles::places_at, crate::specs::Headers::header_at, crate::specs::Headers::magic_at, cm_store::specs::Stores::first_bad, cm_store_records::specs::Records::first_record, cm_dump::specs::Spelling::spelling_by, cm_dump::specs::Spelling::bdz_at, cm_dump::specs::Spelling::ranked_at, cm_dump::specs::Spelling::ranks_at, cm_dump::specs::Spelling::counted, cm_dump::specs::Headings::heading_at, cm_dump::specs::Headings::header_at, cm_dump::specs::Headings::parameter_at, cm_dump::specs::Headings::algorithm_at, cm_dump::specs::Headings::magic_at, cm_dump_images::specs::Images::image_at, cm_dump_items::specs::Reading::item_at, cm_dump_items::specs::Reading::field_at, cm_dump_items::specs::Reading::zeros_at, cm_dump_items::specs::Reading::end_at, cm_bits::specs::Fault::packed_fault, cm_bits::specs::Held::packed_cells, cm_rank::specs::Ranks::sampled, cm_spec::specs::Image::digits_sum, cm_spec::specs::Lookup2::words, cm_spec::specs::Lookup2::finish, cm_spec::specs::Lookup2::absorb, cm_spec::specs::Lookup2::three_lines, cm_spec::specs::Lookup2::left_line, cm_spec::specs::Lookup2::right_line))]
pub fn loaded()
    ensures two { store_in (file_of_two 5) ≡ Ok store_of_two }
    ensures elsewhere { store_in (file_of_two 0) ≡ Err (BadRecord 5) }
    ensures longer { store_in (file_of_two 5 ++ 0 ∷ []) ≡ Err Trailing }
    ensures both { store_in (file_of_two 0 ++ 0 ∷ []) ≡ Err (BadRecord 5) }
{}

/// Why bytes are no file by what comes before the records.
#[tactic(auto, unfolding(crate::specs::StoreFiles::store_in, crate::specs::StoreFiles::store_at, crate::specs::StoreFiles::index_at, crate::specs::StoreFiles::places_at, crate::specs::Headers::header_at, crate::specs::Headers::magic_at, cm_dump::specs::Spelling::spelling_by, cm_dump::specs::Spelling::bdz_at, cm_dump::specs::Spelling::bdz_ph_at, cm_dump::specs::Spelling::ranked_at, cm_dump::specs::Spelling::ranks_at, cm_dump::specs::Spelling::counted, cm_dump::specs::Headings::heading_at, cm_dump::specs::Headings::header_at, cm_dump::specs::Headings::parameter_at, cm_dump::specs::Headings::algorithm_at, cm_dump::specs::Headings::magic_at, cm_dump_images::specs::Images::image_at, cm_dump_items::specs::Reading::item_at, cm_dump_items::specs::Reading::field_at, cm_dump_items::specs::Reading::zeros_at, cm_dump_items::specs::Reading::end_at, cm_bits::specs::Fault::packed_fault, cm_bits::specs::Held::packed_cells, cm_rank::specs::Ranks::sampled, cm_spec::specs::Image::digits_sum))]
pub fn refused()
    ensures empty { store_in [] ≡ Err (Truncated 0) }
    ensures no_magic { store_in (codes "CMPHREC2" ++ drop 8 (file_of_two 5)) ≡ Err BadMagic }
    ensures no_records { store_in (header 0 ++ drop 16 (file_of_two 5)) ≡ Err (BadField 12) }
    ensures no_index { store_in (codes "CMPHREC1" ++ 0 ∷ 0 ∷ 0 ∷ 0 ∷ drop 12 (file_of_two 5)) ≡ Err BadIndex }
    ensures other_index { store_in (codes "CMPHREC1" ++ 26 ∷ 0 ∷ 0 ∷ 0 ∷ 12 ∷ 0 ∷ 0 ∷ 0 ∷ (front_of_2 3 0 0 0 2 ++ 0 ∷ 0 ∷ [])) ≡ Err BadIndex }
    ensures cut { store_in (take 46 (file_of_two 5)) ≡ Err (Truncated 46) }
    ensures far { store_in (file_of_two 12) ≡ Err (BadPlace 1) }
    ensures short { store_in (take 66 (file_of_two 5)) ≡ Err (Truncated 66) }
{}
