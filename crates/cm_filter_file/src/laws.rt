//! Laws of filter files. The function has an empty body, and its clauses are proved for all filters and bytes.
ghost use Rattle.std.specs.Prelude.{◌≡◌, ℕ, List, Ok, Err};
ghost use Rattle.cm_bits.specs.Bound.{AllBelow};
ghost use Rattle.cm_dump_items.specs.declared.fault.LoadFault.{LoadFault};
ghost use Rattle.cm_filter.specs.Filters.{Filter};
ghost use Rattle.cm_filter_file.specs.FilterFiles.{IsFileFault, IsFilter, filter_at, filter_bytes, filter_in};

/// Bytes are the file of one filter at most, and a filter has one file. A filter is read from its file as it was written, and so equal
/// files come from equal filters. Bytes from which a filter is read are its file. Others have one of five faults: none of them is about an
/// algorithm, a cell, a count or a rank.
pub fn files_spell()
    ensures spelling { (f : Filter) → IsFilter f → filter_in (filter_bytes f) ≡ Ok f }
    ensures same { (f g : Filter) → IsFilter f → IsFilter g → filter_bytes f ≡ filter_bytes g → f ≡ g }
    ensures bytes { (bytes : List ℕ) (f : Filter) → AllBelow 256 bytes → filter_in bytes ≡ Ok f → (filter_bytes f ≡ bytes) × IsFilter f }
    ensures faults { (bytes : List ℕ) (fault : LoadFault) → filter_at bytes ≡ Err fault → IsFileFault fault }
{}
