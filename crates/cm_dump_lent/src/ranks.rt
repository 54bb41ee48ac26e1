//! The ranks of a function by BDZ in the bytes of its dump.
ghost use Rattle.std.specs.Prelude.{◌≡◌, ◌+◌, ◌*◌, ◌<◌, ◌≤◌, ◌^◌, IfErr, IfOk, length};
ghost use Rattle.std.specs.Int.{div_ceil};
ghost use Rattle.cm_dump.specs.Spelling.{ranks_at};
ghost use Rattle.cm_dump_items.specs.Reading.{Answers, IsByteFault};
ghost use Rattle.cm_rank.specs.Ranks.{StandsFor, rank_of, ranks_in, sampled};
ghost use Rattle.cm_spec.specs.declared.limits.TheConstants.{MAX_VERTICES};

use cm_bits::{LentCrumbs, Lookup};
use cm_dump_brz::bytes_from;
use cm_dump_items::LoadFault;
use cm_rank::{Counted, LentRanks, first_bad_rank};

/// How many bytes the ranks of n cells have: four for every `2^b`-th cell.
pub(crate) fn ranks_len(n: u32, b: u8) -> u64
    requires n { n ≤ MAX_VERTICES }
    requires b { (3 ≤ b) × (b ≤ 10) }
    ensures { result ≡ 4 * div_ceil n (2 ^ b) }
{
    let count = n.div_ceil(1 << b);
    4 * count as u64
}

/// The bytes of the ranks of these cells, at this offset of a dump. Returns `BadRank` at the first of them that differs from the plain count, and
/// `Truncated` if the dump ends before they do.
pub(crate) fn open_ranks<'a>(
    dump: &'a [u8],
    at: u64,
    cells: &LentCrumbs<'_>,
    b: u8,
) -> Result<&'a [u8], LoadFault>
    requires at { at < 2 ^ 60 }
    requires inside { at ≤ length dump.now }
    requires n { length (⟦<LentCrumbs<'a> as Lookup>⟧.cells cells.now) ≤ MAX_VERTICES }
    requires b { (3 ≤ b) × (b ≤ 10) }
    ensures len { IfOk result (λ ranks. length ranks.now ≡ 4 * div_ceil (length (⟦<LentCrumbs<'a> as Lookup>⟧.cells cells.now)) (2 ^ b)) }
    ensures stands { IfOk result (λ ranks. StandsFor (record { idle = 3; shift = b; ranks = ranks_in ranks.now }) (⟦<LentCrumbs<'a> as Lookup>⟧.cells cells.now)) }
    ensures exact { Answers (λ _. tt) result (ranks_at dump.now at (sampled 3 b (⟦<LentCrumbs<'a> as Lookup>⟧.cells cells.now))) }
    ensures kind { IfErr result IsByteFault }
{
    let most = ranks_len(cells.len(), b);
    let bytes = bytes_from(dump, at, most);
    match first_bad_rank(cells, 3, b, bytes) {
        Some(i) => Err(LoadFault::BadRank {
            at: at + 4 * i as u64,
        }),
        None => if (bytes.len() as u64) < most {
            Err(LoadFault::Truncated {
                at: dump.len() as u64,
            })
        } else {
            Ok(bytes)
        },
    }
}

/// How many of these cells are not 3, by ranks that are theirs: the rank of the last cell, and whether that is one. It reads the cells of the
/// last block.
pub(crate) fn busy_by_ranks<'a>(cells: &LentCrumbs<'a>, ranks: &[u8], b: u8) -> u32
    requires some { 0 < length (⟦<LentCrumbs<'a> as Lookup>⟧.cells cells.now) }
    requires n { length (⟦<LentCrumbs<'a> as Lookup>⟧.cells cells.now) ≤ MAX_VERTICES }
    requires b { (3 ≤ b) × (b ≤ 10) }
    requires long { length ranks.now ≡ 4 * div_ceil (length (⟦<LentCrumbs<'a> as Lookup>⟧.cells cells.now)) (2 ^ b) }
    requires stands { StandsFor (record { idle = 3; shift = b; ranks = ranks_in ranks.now }) (⟦<LentCrumbs<'a> as Lookup>⟧.cells cells.now) }
    ensures busy { rank_of 3 (⟦<LentCrumbs<'a> as Lookup>⟧.cells cells.now) 0 + result ≡ rank_of 3 (⟦<LentCrumbs<'a> as Lookup>⟧.cells cells.now) (length (⟦<LentCrumbs<'a> as Lookup>⟧.cells cells.now)) }
{
    let n = cells.len();
    let last = n - 1;
    let before = LentRanks::new(ranks, 3, b).rank(cells, last);
    before + cells.count_busy(3, last, n)
}
