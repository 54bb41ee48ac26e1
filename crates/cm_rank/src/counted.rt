//! Counts of the cells between two places that are not idle.
ghost use Rattle.std.specs.Prelude.{◌≡◌, ◌+◌, ◌%◌, ◌≤◌, ◌↔◌, IsTrue, length};
ghost use Rattle.cm_rank.specs.Ranks.{rank_of};

use crate::words::{busy_crumbs, busy_crumbs_near};
use cm_bits::{Bits, Crumbs, Fields, LentCrumbs, Lookup, Plain, Trits};

/// A table that counts its cells that are not idle between any two places.
///
/// Any table that is read can: an empty `impl` counts cell by cell.
pub trait Counted: Lookup {
    /// How many of the cells from `from` on and before `until` are not idle. Cells are counted from 0.
    fn count_busy(&self, idle: u32, from: u32, until: u32) -> u32
        requires order { from ≤ until }
        requires inside { until ≤ length (Self.cells self.now) }
        ensures busy { rank_of idle (Self.cells self.now) from + result ≡ rank_of idle (Self.cells self.now) until }
    {
        count_each(self, idle, from, until)
    }

    /// Like `count_busy`, of at most 128 cells. It may read all of the 128 cells from `from` on.
    fn count_near(&self, idle: u32, from: u32, until: u32) -> u32
        requires order { from ≤ until }
        requires near { until ≤ from + 128 }
        requires inside { until ≤ length (Self.cells self.now) }
        ensures busy { rank_of idle (Self.cells self.now) from + result ≡ rank_of idle (Self.cells self.now) until }
    {
        count_each(self, idle, from, until)
    }
}

// Whether crumbs are counted by words: if the value of an idle cell is 3 and the first cell begins a byte.
fn is_by_words(idle: u32, from: u32) -> bool
    ensures { IsTrue result ↔ ((idle ≡ 3) × (from % 4 ≡ 0)) }
{
    idle == 3 && from % 4 == 0
}

/// Counts by words of 32 cells if the value of an idle cell is 3 and the first cell begins a byte.
impl Counted for Crumbs {
    fn count_busy(&self, idle: u32, from: u32, until: u32) -> u32 {
        if is_by_words(idle, from) {
            busy_crumbs(self, from, until)
        } else {
            count_each(self, idle, from, until)
        }
    }

    fn count_near(&self, idle: u32, from: u32, until: u32) -> u32 {
        if is_by_words(idle, from) {
            busy_crumbs_near(self, from, until)
        } else {
            count_each(self, idle, from, until)
        }
    }
}

/// Counts by words of 32 cells if the value of an idle cell is 3 and the first cell begins a byte.
impl<'a> Counted for LentCrumbs<'a> {
    fn count_busy(&self, idle: u32, from: u32, until: u32) -> u32 {
        if is_by_words(idle, from) {
            busy_crumbs(self, from, until)
        } else {
            count_each(self, idle, from, until)
        }
    }

    fn count_near(&self, idle: u32, from: u32, until: u32) -> u32 {
        if is_by_words(idle, from) {
            busy_crumbs_near(self, from, until)
        } else {
            count_each(self, idle, from, until)
        }
    }
}

impl Counted for Bits {}

impl Counted for Trits {}

impl Counted for Fields {}

impl Counted for Plain {}

// The same count, cell by cell.
pub fn count_each<C: Lookup>(cells: &C, idle: u32, from: u32, until: u32) -> u32
    requires order { from ≤ until }
    requires inside { until ≤ length (C.cells cells.now) }
    ensures busy { rank_of idle (C.cells cells.now) from + result ≡ rank_of idle (C.cells cells.now) until }
{
    let mut count = 0;
    for i in from..until {
        if cells.get(i) != idle {
            count += 1;
        }
    }
    count
}
