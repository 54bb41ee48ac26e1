//! The numbers that callers compare with. Each function has an empty body, and its clauses are checked by the prover.
ghost use Rattle.std.specs.Prelude.{◌≡◌, ◌^◌, ◌-◌};
ghost use Rattle.cm_lib_lent.specs.declared.numbers.TheConstants.{NONE};
ghost use Rattle.cmph_c.specs.declared.codes.TheConstants as code;
ghost use Rattle.cmph_c.specs.declared.function.TheConstants.{BDZ, BDZ_PH, BRZ, CHM, NONE_KIND};

/// The codes of done, of no memory, and of faults of the bytes of a function.
pub fn byte_codes()
    ensures ok { code.OK ≡ 0 }
    ensures memory { code.MEMORY ≡ 1 }
    ensures truncated { code.TRUNCATED ≡ 2 }
    ensures bad_magic { code.BAD_MAGIC ≡ 3 }
    ensures bad_algorithm { code.BAD_ALGORITHM ≡ 4 }
    ensures bad_field { code.BAD_FIELD ≡ 5 }
    ensures bad_padding { code.BAD_PADDING ≡ 6 }
    ensures bad_cell { code.BAD_CELL ≡ 7 }
    ensures bad_count { code.BAD_COUNT ≡ 8 }
    ensures bad_rank { code.BAD_RANK ≡ 9 }
    ensures trailing { code.TRAILING ≡ 10 }
{}

/// The codes of faults of structs, keys, plans and rooms.
pub fn call_codes()
    ensures no_function { code.NO_FUNCTION ≡ 11 }
    ensures bad_end { code.BAD_END ≡ 12 }
    ensures too_many_keys { code.TOO_MANY_KEYS ≡ 13 }
    ensures no_room { code.NO_ROOM ≡ 14 }
    ensures bad_plan { code.BAD_PLAN ≡ 15 }
    ensures no_keys { code.NO_KEYS ≡ 16 }
    ensures equal_keys { code.EQUAL_KEYS ≡ 17 }
    ensures no_seed { code.NO_SEED ≡ 18 }
    ensures bad_shards { code.BAD_SHARDS ≡ 19 }
    ensures no_spill { code.NO_SPILL ≡ 20 }
    ensures no_split { code.NO_SPLIT ≡ 21 }
{}

/// The algorithms, and what stands for none of them and for no number.
pub fn kinds()
    ensures none { NONE_KIND ≡ 0 }
    ensures chm { CHM ≡ 1 }
    ensures bdz { BDZ ≡ 2 }
    ensures bdz_ph { BDZ_PH ≡ 3 }
    ensures brz { BRZ ≡ 4 }
    ensures no_number { NONE ≡ 2 ^ 32 - 1 }
{}
