//! Counts of pairs of bits that are not 3, a word of 32 of them at once.
ghost use Rattle.std.specs.Prelude.{◌≡◌, ◌+◌, ◌/◌, ◌%◌, ◌<◌, ◌≤◌, length, count_by, drop};
ghost use Rattle.cm_bits.specs.Held.{packed_cells};
ghost use Rattle.cm_rank.specs.Ranks.{crumbs_of, rank_of};
ghost use Rattle.cm_spec.specs.Cells.{is_busy};
ghost use Rattle.cm_spec.specs.Image.{packed_len};

use crate::counted::count_each;
use cm_bits::{Crumbs, LentCrumbs, Lookup, window};

// How many pairs of bits a word has.
const PAIRS: u32 = 32;

// How many words are counted together.
const WORDS: u32 = 4;

// The lower bit of each pair.
const LOWER_BITS: u64 = 0x5555_5555_5555_5555;

/// A table of pairs of bits that are read by words.
pub trait HasBytes: Lookup {
    /// The bytes that hold its cells, four cells a byte, the first cell in the lowest bits. Bits past the last cell may have any values.
    fn cell_bytes(&self) -> &[u8]
        ensures whole { length result.now ≡ packed_len 4 (length (Self.cells self.now)) }
        ensures cells { Self.cells self.now ≡ packed_cells 4 4 (length (Self.cells self.now)) result.now };
}

impl HasBytes for Crumbs {
    fn cell_bytes(&self) -> &[u8] {
        self.image()
    }
}

impl<'a> HasBytes for LentCrumbs<'a> {
    fn cell_bytes(&self) -> &[u8] {
        self.bytes()
    }
}

// How many of the lowest `many` pairs of bits of a word are not 3.
#[inline]
pub fn busy_pairs(word: u64, many: u32) -> u32
    requires fit { many ≤ 32 }
    ensures { result ≡ count_by (is_busy 3) (crumbs_of word many) }
{
    // In two steps, since all bits may be shifted out.
    let lower = LOWER_BITS >> (PAIRS - many) >> (PAIRS - many);
    many - (word & (word >> 1) & lower).count_ones()
}

// How many of the first `many` pairs of bits from byte `at` on are not 3. It reads eight bytes.
#[inline]
fn busy_at(bytes: &[u8], at: u32, many: u32) -> u32
    requires there { at + 8 ≤ length bytes.now }
    requires fit { many ≤ 32 }
    ensures busy { result ≡ count_by (is_busy 3) (packed_cells 4 4 many (drop at bytes.now)) }
    ensures few { result ≤ many }
{
    busy_pairs(window(bytes, at as usize), many)
}

// How many of the cells from `from` on and before `until` are not 3: by words, and then the last cells, fewer than a word has.
pub fn busy_crumbs<C: HasBytes>(cells: &C, from: u32, until: u32) -> u32
    requires order { from ≤ until }
    requires inside { until ≤ length (C.cells cells.now) }
    requires whole { from % 4 ≡ 0 }
    ensures busy { rank_of 3 (C.cells cells.now) from + result ≡ rank_of 3 (C.cells cells.now) until }
{
    let bytes = cells.cell_bytes();
    let words = (until - from) / PAIRS;
    let mut count = 0;
    for k in 0..words {
        count += busy_at(bytes, from / 4 + 8 * k, PAIRS);
    }
    count + busy_rest(cells, from + PAIRS * words, until)
}

// Like `busy_crumbs`, of at most as many cells as `WORDS` words have.
pub fn busy_crumbs_near<C: HasBytes>(cells: &C, from: u32, until: u32) -> u32
    requires order { from ≤ until }
    requires near { until ≤ from + 128 }
    requires inside { until ≤ length (C.cells cells.now) }
    requires whole { from % 4 ≡ 0 }
    ensures busy { rank_of 3 (C.cells cells.now) from + result ≡ rank_of 3 (C.cells cells.now) until }
{
    let bytes = cells.cell_bytes();
    if (from / 4 + 8 * WORDS) as usize <= bytes.len() {
        return busy_in_words(cells, from, until);
    }
    busy_crumbs(cells, from, until)
}

// Like `busy_crumbs_near`, if there are `WORDS` words of bytes from here on. It reads all of them and counts no cell from `until` on, so no
// branch depends on the number of cells.
#[inline]
fn busy_in_words<C: HasBytes>(cells: &C, from: u32, until: u32) -> u32
    requires order { from ≤ until }
    requires few { until ≤ from + 128 }
    requires inside { until ≤ length (C.cells cells.now) }
    requires whole { from % 4 ≡ 0 }
    requires there { from / 4 + 32 ≤ packed_len 4 (length (C.cells cells.now)) }
    ensures busy { rank_of 3 (C.cells cells.now) from + result ≡ rank_of 3 (C.cells cells.now) until }
{
    let bytes = cells.cell_bytes();
    let mut count = 0;
    for k in 0..WORDS {
        let many = (until - from).saturating_sub(PAIRS * k).min(PAIRS);
        count += busy_at(bytes, from / 4 + 8 * k, many);
    }
    count
}

// Like `busy_crumbs`, of less than a word: cell by cell if the bytes end before eight of them.
#[inline]
fn busy_rest<C: HasBytes>(cells: &C, from: u32, until: u32) -> u32
    requires order { from ≤ until }
    requires short { until < from + 32 }
    requires inside { until ≤ length (C.cells cells.now) }
    requires whole { from % 4 ≡ 0 }
    ensures busy { rank_of 3 (C.cells cells.now) from + result ≡ rank_of 3 (C.cells cells.now) until }
{
    let bytes = cells.cell_bytes();
    if from < until && (from / 4) as usize + 8 <= bytes.len() {
        return busy_at(bytes, from / 4, until - from);
    }
    count_each(cells, 3, from, until)
}
