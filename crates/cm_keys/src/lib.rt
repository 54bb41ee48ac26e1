//! The keys of a source: its lines, as a pass that can be repeated, or as a stream that is read once.
#![tactic(auto)]

ghost use Rattle.std.specs.Prelude.{◌≡◌, ◌-◌, ◌^◌, ℕ, List, Option};
ghost use Rattle.cm_keys.specs.declared.lines.TheConstants.{MAX_LINES};
ghost use Rattle.cm_keys.specs.Lines.{lines_of, pieces};
ghost use Rattle.cm_keys.specs.LinesLaws.{CarriageReturn, EmptyKeys, NoLines, LongestKeys, LongLine, ManyLines, FirstLines, ZeroEnds};
ghost use Rattle.cm_keys.specs.NumberingLaws.{AreNumbered};
ghost use Rattle.cm_keys.specs.SplittingLaws.{AreLines};

mod buffered;
mod keys;
mod lines;

pub use keys::{Keys, LINE_END};
pub use lines::{LineFault, Lines, MAX_LINES};

/// A line feed ends a line.
pub fn line_end()
    ensures { LINE_END ≡ 10 }
{}

/// Lines are counted by a `u64`, and there are as many as it can count.
pub fn max_lines()
    ensures { MAX_LINES ≡ 2 ^ 64 - 1 }
{}

/// Worked rows of the definition of lines.
#[tactic(auto, unfolding(crate::specs::Lines::lines_of))]
pub fn worked_rows()
    ensures carriage_return { CarriageReturn }
    ensures empty_keys { EmptyKeys }
    ensures no_lines { NoLines }
    ensures longest_keys { LongestKeys }
    ensures long_line { LongLine }
    ensures many_lines { ManyLines }
    ensures first_lines { FirstLines }
    ensures zero_ends { ZeroEnds }
{}

/// The pieces of every text are its lines.
pub fn splitting()
    ensures lines { (end : ℕ) (bytes : List ℕ) → AreLines end bytes (pieces end bytes) }
{}

/// The keys of every text are numbered from line 1 without a gap and keep within their limits, and a fault is of the
/// line after them.
pub fn numbering()
    ensures numbered { (max longest end : ℕ) (first : Option ℕ) (bytes : List ℕ) →
        AreNumbered max longest first (lines_of max longest end first bytes) }
{}
