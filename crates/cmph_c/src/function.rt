//! A function in memory of the caller's.
ghost use Rattle.std.specs.Prelude.{◌≡◌, ◌≢◌, ◌<◌, ℕ, [], IfNone, IfSome, Some, length};
ghost use Rattle.cm_bdz.specs.Lent.{FitsBdz, FitsBdzPh};
ghost use Rattle.cm_chm.specs.Parts.{FitsChm};
ghost use Rattle.cm_dump_brz.specs.Indexed.{FitsBrz, IndexedBrz};
ghost use Rattle.cm_dump_brz.specs.Indexed as indexed;
ghost use Rattle.cm_dump_lent.specs.Opened.{func_by};
ghost use Rattle.cm_dump_lent.specs.declared.lent.Lent.TheVariants as lent;
ghost use Rattle.cmph_c.specs.Opening.{LacksOthers, numbers_in, numbers_of};
ghost use Rattle.cmph_c.specs.Functions.{Holds, HoldsBrz, IsHeld, bdz_parts, bdz_ph_parts, brz_parts, chm_parts, number_of};

use cm_algo_scheme::Answers;
use cm_bdz::{BdzParts, BdzPhParts, LentBdz, LentBdzPh};
use cm_chm::{ChmParts, LentChm};
use cm_dump::Version;
use cm_dump_brz::{LentBrz, LentBrzParts};
use cm_dump_lent::Lent;

/// The kind of a struct that holds no function.
pub const NONE_KIND: u32 = 0;

/// By CHM.
pub const CHM: u32 = 1;

/// By BDZ.
pub const BDZ: u32 = 2;

/// By BDZ_PH.
pub const BDZ_PH: u32 = 3;

/// By BRZ.
pub const BRZ: u32 = 4;

/// A function in memory of the caller's: where its cells, ranks and buckets are in the bytes of its file, and its numbers. `cmph_c_open` fills
/// it. A struct with other numbers holds another function, or none, and no call reads outside `cells`, `ranks` and `index`.
#[repr(C)]
#[derive(Clone, Copy, Drop)]
pub struct Function<'a> {
    /// The image of the cells. By BRZ all bytes of the file.
    pub cells: &'a [u8],
    /// The ranks, by BDZ alone.
    pub ranks: &'a [u8],
    /// By BRZ alone, for each bucket its offset in the file, times `2^32`, plus how many keys lie in the buckets before it.
    pub index: &'a [u64],
    /// `2^32` by `size`, rounded down.
    pub scaled: u64,
    /// `2^32` by the number of keys, rounded down, by CHM alone.
    pub keys_scaled: u64,
    /// The algorithm: `CHM`, `BDZ`, `BDZ_PH` or `BRZ`, and another number for no function.
    pub kind: u32,
    /// How many keys the function was built over.
    pub keys: u32,
    /// All numbers are below it. It is that of the function, or the struct holds none.
    pub span: u32,
    /// The ratio of vertices to keys, in millionths.
    pub ratio: u32,
    /// The seed of its hash. By BRZ that of the split into buckets.
    pub seed: u32,
    /// The number of vertices by CHM, a third of it by BDZ and BDZ_PH, and the number of buckets by BRZ.
    pub size: u32,
    /// How many bits a cell has, by CHM. By BRZ the version of the file.
    pub width: u32,
    /// The rank of every `2^b`-th cell is kept, by BDZ. By BRZ how many keys a bucket has on average.
    pub b: u32,
}

/// The function that a struct holds, or none.
#[inline(always)]
pub(crate) fn held<'a>(function: &Function<'a>) -> Option<Lent<'a>>
    ensures held { IfSome result (λ f. Holds function.now f) }
    ensures none { IfNone result (IsHeld function.now → ⊥) }
{
    match function.kind {
        CHM => match chm_held(function) {
            Some(chm) => Some(Lent::Chm(chm)),
            None => None,
        },
        BDZ => match bdz_held(function) {
            Some(bdz) => Some(Lent::Bdz(bdz)),
            None => None,
        },
        BDZ_PH => match bdz_ph_held(function) {
            Some(bdz_ph) => Some(Lent::BdzPh(bdz_ph)),
            None => None,
        },
        BRZ => match brz_held(function) {
            Some(brz) => Some(Lent::Brz(brz)),
            None => None,
        },
        _ => None,
    }
}

/// A function whose span this is, or none.
#[inline(always)]
fn with_span<A: Answers + Drop>(function: Option<A>, span: u32) -> Option<A>
    ensures held { IfSome result (λ f. (function ≡ Some f) × (span ≡ A.span_of f)) }
    ensures none { IfNone result (IfSome function (λ f. span ≢ A.span_of f)) }
{
    match function {
        Some(function) => {
            if function.span() == span {
                Some(function)
            } else {
                None
            }
        }
        None => None,
    }
}

/// The function by CHM that a struct of this algorithm holds, or none.
#[inline(always)]
pub(crate) fn chm_held<'a>(function: &Function<'a>) -> Option<LentChm<'a>>
    requires kind { function.now.kind ≡ CHM }
    ensures held { IfSome result (λ f. Holds function.now (lent.Chm f)) }
    ensures none { IfNone result (IsHeld function.now → ⊥) }
{
    with_span(LentChm::of(chm_parts_of(function)), function.span)
}

/// The function by BDZ that a struct of this algorithm holds, or none.
#[inline(always)]
pub(crate) fn bdz_held<'a>(function: &Function<'a>) -> Option<LentBdz<'a>>
    requires kind { function.now.kind ≡ BDZ }
    ensures held { IfSome result (λ f. Holds function.now (lent.Bdz f)) }
    ensures none { IfNone result (IsHeld function.now → ⊥) }
{
    if function.b > 10 {
        return None;
    }
    with_span(LentBdz::of(bdz_parts_of(function)), function.span)
}

/// The function by BDZ_PH that a struct of this algorithm holds, or none.
#[inline(always)]
pub(crate) fn bdz_ph_held<'a>(function: &Function<'a>) -> Option<LentBdzPh<'a>>
    requires kind { function.now.kind ≡ BDZ_PH }
    ensures held { IfSome result (λ f. Holds function.now (lent.BdzPh f)) }
    ensures none { IfNone result (IsHeld function.now → ⊥) }
{
    with_span(LentBdzPh::of(bdz_ph_parts_of(function)), function.span)
}

/// The function by BRZ of the parts of a struct, or none.
#[inline(always)]
fn brz_of<'a>(function: &Function<'a>) -> Option<LentBrz<'a>>
    ensures held { IfSome result (λ f. HoldsBrz function.now f) }
    ensures none { IfNone result ((f : IndexedBrz) → HoldsBrz function.now f → ⊥) }
{
    if function.b > 65_535 {
        return None;
    }
    match function.width {
        1 => LentBrz::of(brz_parts_of(function, Version::One)),
        2 => LentBrz::of(brz_parts_of(function, Version::Two)),
        _ => None,
    }
}

/// The function by BRZ that a struct holds, or none.
#[inline(always)]
pub(crate) fn brz_held<'a>(function: &Function<'a>) -> Option<LentBrz<'a>>
    ensures held { IfSome result (λ f. HoldsBrz function.now f × (function.now.span ≡ f.keys)) }
    ensures none { IfNone result ((f : IndexedBrz) → HoldsBrz function.now f → function.now.span ≢ f.keys) }
{
    with_span(brz_of(function), function.span)
}

/// The parts of a function by CHM.
#[inline(always)]
fn chm_parts_of<'a>(function: &Function<'a>) -> ChmParts<'a>
    ensures parts { result ≡ chm_parts function.now }
{
    ChmParts {
        cells: function.cells,
        keys: function.keys,
        ratio: function.ratio,
        seed: function.seed,
        vertices: function.size,
        width: function.width,
        keys_scaled: function.keys_scaled,
        vertices_scaled: function.scaled,
    }
}

/// The parts of a function by BDZ.
#[inline(always)]
fn bdz_parts_of<'a>(function: &Function<'a>) -> BdzParts<'a>
    requires small { function.now.b < 256 }
    ensures parts { result ≡ bdz_parts function.now }
{
    BdzParts {
        cells: function.cells,
        ranks: function.ranks,
        keys: function.keys,
        ratio: function.ratio,
        seed: function.seed,
        third: function.size,
        scaled: function.scaled,
        b: function.b as u8,
    }
}

/// The parts of a function by BDZ_PH.
#[inline(always)]
fn bdz_ph_parts_of<'a>(function: &Function<'a>) -> BdzPhParts<'a>
    ensures parts { result ≡ bdz_ph_parts function.now }
{
    BdzPhParts {
        cells: function.cells,
        keys: function.keys,
        ratio: function.ratio,
        seed: function.seed,
        third: function.size,
        scaled: function.scaled,
    }
}

/// The parts of a function by BRZ.
#[inline(always)]
fn brz_parts_of<'a>(function: &Function<'a>, version: Version) -> LentBrzParts<'a>
    requires small { function.now.b < 65536 }
    ensures parts { result ≡ brz_parts function.now version }
{
    LentBrzParts {
        dump: function.cells,
        index: function.index,
        version,
        keys: function.keys,
        ratio: function.ratio,
        split: function.seed,
        b: function.b as u16,
        scaled: function.scaled,
    }
}

/// Puts a function into the caller's struct.
pub(crate) fn put<'a>(lent: &Lent<'a>, out: &mut Function<'a>)
    ensures holds { Holds out.new lent.now }
    ensures numbers { numbers_in out.new ≡ numbers_of (func_by lent.now) }
    ensures others { LacksOthers out.new lent.now }
{
    let span = lent.span();
    *out = match lent {
        Lent::Chm(chm) => of_chm(chm.parts(), span),
        Lent::Bdz(bdz) => of_bdz(bdz.parts(), span),
        Lent::BdzPh(bdz_ph) => of_bdz_ph(bdz_ph.parts(), span),
        Lent::Brz(brz) => of_brz(brz.parts(), span),
    };
}

/// The struct of a function by CHM.
fn of_chm<'a>(parts: ChmParts<'a>, span: u32) -> Function<'a>
    ensures parts { chm_parts result ≡ parts.entry }
    ensures kind { result.kind ≡ CHM }
    ensures span { result.span ≡ span }
    ensures unused { result.b ≡ 0 }
    ensures others { (result.ranks.now ≡ []) × (result.index.now ≡ []) }
{
    Function {
        cells: parts.cells,
        ranks: &[],
        index: &[],
        scaled: parts.vertices_scaled,
        keys_scaled: parts.keys_scaled,
        kind: CHM,
        keys: parts.keys,
        span,
        ratio: parts.ratio,
        seed: parts.seed,
        size: parts.vertices,
        width: parts.width,
        b: 0,
    }
}

/// The struct of a function by BDZ.
fn of_bdz<'a>(parts: BdzParts<'a>, span: u32) -> Function<'a>
    ensures parts { bdz_parts result ≡ parts.entry }
    ensures kind { result.kind ≡ BDZ }
    ensures span { result.span ≡ span }
    ensures unused { result.keys_scaled ≡ 0 }
    ensures others { (result.index.now ≡ []) × (result.width ≡ 0) }
{
    Function {
        cells: parts.cells,
        ranks: parts.ranks,
        index: &[],
        scaled: parts.scaled,
        keys_scaled: 0,
        kind: BDZ,
        keys: parts.keys,
        span,
        ratio: parts.ratio,
        seed: parts.seed,
        size: parts.third,
        width: 0,
        b: parts.b as u32,
    }
}

/// The struct of a function by BDZ_PH.
fn of_bdz_ph<'a>(parts: BdzPhParts<'a>, span: u32) -> Function<'a>
    ensures parts { bdz_ph_parts result ≡ parts.entry }
    ensures kind { result.kind ≡ BDZ_PH }
    ensures span { result.span ≡ span }
    ensures unused { (result.keys_scaled ≡ 0) × (result.b ≡ 0) }
    ensures others { (result.ranks.now ≡ []) × (result.index.now ≡ []) × (result.width ≡ 0) }
{
    Function {
        cells: parts.cells,
        ranks: &[],
        index: &[],
        scaled: parts.scaled,
        keys_scaled: 0,
        kind: BDZ_PH,
        keys: parts.keys,
        span,
        ratio: parts.ratio,
        seed: parts.seed,
        size: parts.third,
        width: 0,
        b: 0,
    }
}

/// The number of a version.
fn number_of(version: Version) -> u32
    ensures number { result ≡ number_of version }
{
    match version {
        Version::One => 1,
        Version::Two => 2,
    }
}

/// The struct of a function by BRZ.
fn of_brz<'a>(parts: LentBrzParts<'a>, span: u32) -> Function<'a>
    requires fits { FitsBrz parts }
    ensures holds { HoldsBrz result (indexed.brz_held parts.entry) }
    ensures kind { result.kind ≡ BRZ }
    ensures span { result.span ≡ span }
    ensures size { result.size ≡ length result.index.now }
    ensures unused { result.keys_scaled ≡ 0 }
    ensures others { result.ranks.now ≡ [] }
{
    Function {
        cells: parts.dump,
        ranks: &[],
        index: parts.index,
        scaled: parts.scaled,
        keys_scaled: 0,
        kind: BRZ,
        keys: parts.keys,
        span,
        ratio: parts.ratio,
        seed: parts.split,
        size: parts.index.len() as u32,
        width: number_of(parts.version),
        b: parts.b as u32,
    }
}
