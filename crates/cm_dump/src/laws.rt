//! Laws of dumps. Each function has an empty body, and its clauses are proved for all functions and bytes.
ghost use Rattle.std.specs.Prelude.{◌≡◌, ◌+◌, ◌*◌, ◌^◌, ℕ, List, Ok, length};
ghost use Rattle.std.specs.Int.{div_ceil};
ghost use Rattle.cm_bdz.specs.Functions.{Bdz, BdzPh};
ghost use Rattle.cm_bits.specs.Bound.{AllBelow};
ghost use Rattle.cm_spec.specs.Chm.{Chm};
ghost use Rattle.cm_spec.specs.Dump.{chm_dump};
ghost use Rattle.cm_spec.specs.Image.{fields_len, packed_len, width_of};
ghost use Rattle.cm_dump.specs.Dumps.{HasDump1, dump_by, dump_of};
ghost use Rattle.cm_dump.specs.Forms.{form_of, version_of};
ghost use Rattle.cm_dump.specs.declared.header.TheConstants.{HEADER_LEN};
ghost use Rattle.cm_dump.specs.declared.versions.Version.{Version};
ghost use Rattle.cm_dump.specs.declared.versions.Version.TheVariants as version;
ghost use Rattle.cm_func.specs.Functions.{IsFunction};
ghost use Rattle.cm_dump.specs.Spelling.{spelling_of};
ghost use Rattle.cm_func.specs.declared.function.Func.{Func};
ghost use Rattle.cm_func.specs.declared.function.Func.TheVariants as func;

/// The dump of a function spells this function, in version 2 and, if it has one, in version 1, and so equal dumps come from equal
/// functions. A dump names its version. Bytes that spell a function are its dump in the version that they name, and what they spell keeps
/// all that a function does.
pub fn dumps_spell()
    ensures spelling { (f : Func) → IsFunction f → spelling_of (dump_of f) ≡ Ok f }
    ensures spelling_1 { (f : Func) → IsFunction f → HasDump1 f → spelling_of (dump_by (form_of version.One) f) ≡ Ok f }
    ensures same { (f g : Func) → IsFunction f → IsFunction g → dump_of f ≡ dump_of g → f ≡ g }
    ensures version { (w : Version) (f : Func) → version_of (dump_by (form_of w) f) ≡ w }
    ensures dump { (bytes : List ℕ) (f : Func) → AllBelow 256 bytes → spelling_of bytes ≡ Ok f → (dump_by (form_of (version_of bytes)) f ≡ bytes) × IsFunction f }
    ensures dump_1 { (bytes : List ℕ) (f : Func) → AllBelow 256 bytes → spelling_of bytes ≡ Ok f → version_of bytes ≡ version.One → HasDump1 f }
{}

/// The dump of version 1 of a CHM function is the one of the worked examples.
pub fn chm_dumps()
    ensures { (f : Chm) → dump_by (form_of version.One) (func.Chm f) ≡ chm_dump f }
{}

/// How many bytes the dump of a function has, by its numbers alone: one by CHM, BDZ or BDZ_PH.
pub fn dump_lens()
    ensures chm { (f : Chm) → length (dump_of (func.Chm f)) ≡ HEADER_LEN + fields_len (width_of f.keys) (length f.cells) }
    ensures bdz { (f : Bdz) → length (dump_of (func.Bdz f)) ≡ HEADER_LEN + packed_len 4 (length f.cells) + 4 * div_ceil (length f.cells) (2 ^ f.shift) }
    ensures bdz_ph { (f : BdzPh) → length (dump_of (func.BdzPh f)) ≡ HEADER_LEN + packed_len 5 (length f.cells) }
{}
