//! The functions of each algorithm in the bytes of their dumps, after the header.
ghost use Rattle.std.specs.Prelude.{◌≡◌, ◌+◌, ◌*◌, ◌^◌, ◌≤◌, IfErr, IfOk, Ok, length};
ghost use Rattle.std.specs.Int.{div_ceil};
ghost use Rattle.cm_bdz.specs.Functions.{IsBdz, IsBdzPh};
ghost use Rattle.cm_bdz.specs.Lent.{samples_of};
ghost use Rattle.cm_bits.specs.Held.{packed_cells};
ghost use Rattle.cm_chm.specs.Functions.{IsChm};
ghost use Rattle.cm_dump.specs.Spelling.{bdz_at, bdz_ph_at, chm_at, ranked_at, ranks_at};
ghost use Rattle.cm_dump.specs.declared.header.TheConstants.{HEADER_LEN};
ghost use Rattle.cm_dump_items.specs.Reading.{Answers, IsByteFault};
ghost use Rattle.cm_rank.specs.Ranks.{StandsFor, ranks_in, sampled};
ghost use Rattle.cm_spec.specs.Bdz.{bdz_size};
ghost use Rattle.cm_spec.specs.Image.{packed_len};
ghost use Rattle.cm_spec.specs.Rule.{IsRatio};
ghost use Rattle.cm_spec.specs.declared.limits.TheConstants.{MAX_KEYS};

use crate::ranks::{busy_by_ranks, open_ranks, ranks_len};
use cm_algo_scheme::Scheme;
use cm_bdz::{BdzPhScheme, BdzScheme, LentBdz, LentBdzPh};
use cm_bits::packings::{Fours, Threes};
use cm_bits::{Cells, Crumbs, Fields, LentCrumbs, Trits};
use cm_chm::{ChmScheme, LentChm};
use cm_dump::{HEADER_LEN, Header};
use cm_dump_images::{lent_fields, lent_packed};
use cm_dump_items::{LoadFault, lent_end};
use cm_rank::Counted;

/// The CHM function of a header in the bytes of its dump.
#[tactic(auto, using(cm_dump::specs::CellLaws::few_cells), unfolding(cm_dump::specs::Spelling::chm_at))]
pub(crate) fn open_chm<'a>(dump: &'a [u8], header: Header) -> Result<LentChm<'a>, LoadFault>
    requires keys { (1 ≤ header.keys) × (header.keys ≤ MAX_KEYS) }
    requires ratio { IsRatio header.ratio }
    ensures exact { Answers (λ f. f) result (chm_at dump.now header) }
    ensures valid { IfOk result (λ f. IsChm f) }
    ensures kind { IfErr result IsByteFault }
{
    let n = ChmScheme {}.size(header.keys, header.ratio);
    let image = match lent_fields(dump, HEADER_LEN, n, header.keys) {
        Ok(image) => image,
        Err(fault) => return Err(fault),
    };
    match lent_end(dump, HEADER_LEN + Fields::image_len(n, header.keys)) {
        Ok(()) => Ok(LentChm::new(image, header.keys, header.ratio, header.seed)),
        Err(fault) => Err(fault),
    }
}

/// The BDZ function of a header, the image of its n cells and their ranks, in the bytes of its dump. The cells are not counted again: how many
/// there are is the last rank and what is after it.
#[tactic(auto, unfolding(cm_dump::specs::Spelling::ranked_at, cm_dump::specs::Spelling::counted))]
fn close_ranked<'a>(
    dump: &'a [u8],
    header: Header,
    n: u32,
    image: &'a [u8],
    ranks: &'a [u8],
) -> Result<LentBdz<'a>, LoadFault>
    requires keys { (1 ≤ header.keys) × (header.keys ≤ MAX_KEYS) }
    requires ratio { IsRatio header.ratio }
    requires b { (3 ≤ header.b) × (header.b ≤ 10) }
    requires n { n ≡ bdz_size header.keys header.ratio }
    requires whole { length image.now ≡ packed_len 4 n }
    requires inside { HEADER_LEN + packed_len 4 n ≤ length dump.now }
    requires long { length ranks.now ≡ 4 * div_ceil n (2 ^ header.b) }
    requires stands { StandsFor (record { idle = 3; shift = header.b; ranks = ranks_in ranks.now }) (packed_cells 4 4 n image.now) }
    requires ranked { ranks_at dump.now (HEADER_LEN + packed_len 4 n) (sampled 3 header.b (packed_cells 4 4 n image.now)) ≡ Ok tt }
    ensures exact { Answers (λ f. f.function) result (ranked_at dump.now header (packed_cells 4 4 n image.now)) }
    ensures valid { IfOk result (λ f. IsBdz f.function) }
    ensures stands { IfOk result (λ f. StandsFor (samples_of f) f.function.cells) }
    ensures kind { IfErr result IsByteFault }
{
    let cells = LentCrumbs::new(n, image);
    let b = header.b as u8;
    if busy_by_ranks(&cells, ranks, b) != header.keys {
        return Err(LoadFault::BadCount { at: HEADER_LEN });
    }
    let end = HEADER_LEN + Crumbs::image_len(n, 4) + ranks_len(n, b);
    match lent_end(dump, end) {
        Ok(()) => Ok(LentBdz::new(image, ranks, header.keys, header.ratio, header.seed, b)),
        Err(fault) => Err(fault),
    }
}

/// The BDZ function of a header and the image of its n cells, in the bytes of its dump. The cells are counted as the ranks are compared, and
/// once more if a rank is wrong, since a wrong number of cells is the first fault.
#[tactic(auto, unfolding(cm_dump::specs::Spelling::ranked_at, cm_dump::specs::Spelling::counted))]
fn open_ranked<'a>(
    dump: &'a [u8],
    header: Header,
    n: u32,
    image: &'a [u8],
) -> Result<LentBdz<'a>, LoadFault>
    requires keys { (1 ≤ header.keys) × (header.keys ≤ MAX_KEYS) }
    requires ratio { IsRatio header.ratio }
    requires b { (3 ≤ header.b) × (header.b ≤ 10) }
    requires n { n ≡ bdz_size header.keys header.ratio }
    requires whole { length image.now ≡ packed_len 4 n }
    requires inside { HEADER_LEN + packed_len 4 n ≤ length dump.now }
    ensures exact { Answers (λ f. f.function) result (ranked_at dump.now header (packed_cells 4 4 n image.now)) }
    ensures valid { IfOk result (λ f. IsBdz f.function) }
    ensures stands { IfOk result (λ f. StandsFor (samples_of f) f.function.cells) }
    ensures kind { IfErr result IsByteFault }
{
    let cells = LentCrumbs::new(n, image);
    let at = HEADER_LEN + Crumbs::image_len(n, 4);
    match open_ranks(dump, at, &cells, header.b as u8) {
        Ok(ranks) => close_ranked(dump, header, n, image, ranks),
        Err(fault) => {
            if cells.count_busy(3, 0, n) != header.keys {
                return Err(LoadFault::BadCount { at: HEADER_LEN });
            }
            Err(fault)
        }
    }
}

/// The BDZ function of a header in the bytes of its dump.
#[tactic(auto, using(cm_dump::specs::CellLaws::few_vertices), unfolding(cm_dump::specs::Spelling::bdz_at))]
pub(crate) fn open_bdz<'a>(dump: &'a [u8], header: Header) -> Result<LentBdz<'a>, LoadFault>
    requires keys { (1 ≤ header.keys) × (header.keys ≤ MAX_KEYS) }
    requires ratio { IsRatio header.ratio }
    requires b { (3 ≤ header.b) × (header.b ≤ 10) }
    ensures exact { Answers (λ f. f.function) result (bdz_at dump.now header) }
    ensures valid { IfOk result (λ f. IsBdz f.function) }
    ensures stands { IfOk result (λ f. StandsFor (samples_of f) f.function.cells) }
    ensures kind { IfErr result IsByteFault }
{
    let n = BdzScheme {}.size(header.keys, header.ratio);
    match lent_packed::<Fours>(dump, HEADER_LEN, n) {
        Ok(image) => open_ranked(dump, header, n, image),
        Err(fault) => Err(fault),
    }
}

/// The BDZ_PH function of a header in the bytes of its dump.
#[tactic(auto, using(cm_dump::specs::CellLaws::few_vertices), unfolding(cm_dump::specs::Spelling::bdz_ph_at))]
pub(crate) fn open_bdz_ph<'a>(dump: &'a [u8], header: Header) -> Result<LentBdzPh<'a>, LoadFault>
    requires keys { (1 ≤ header.keys) × (header.keys ≤ MAX_KEYS) }
    requires ratio { IsRatio header.ratio }
    ensures exact { Answers (λ f. f) result (bdz_ph_at dump.now header) }
    ensures valid { IfOk result (λ f. IsBdzPh f) }
    ensures kind { IfErr result IsByteFault }
{
    let n = BdzPhScheme {}.size(header.keys, header.ratio);
    let image = match lent_packed::<Threes>(dump, HEADER_LEN, n) {
        Ok(image) => image,
        Err(fault) => return Err(fault),
    };
    match lent_end(dump, HEADER_LEN + Trits::image_len(n, 3)) {
        Ok(()) => Ok(LentBdzPh::new(image, header.keys, header.ratio, header.seed)),
        Err(fault) => Err(fault),
    }
}
