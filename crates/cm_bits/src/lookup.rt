//! What is read of a table.
ghost use Rattle.std.specs.Prelude.{◌≡◌, ℕ, ◌<◌, ◌≤◌, List, length, slice_index};
ghost use Rattle.cm_bits.specs.Bound.{AllBelow};
ghost use Rattle.cm_bits.specs.declared.TheConstants.{MAX_CELLS};

use crate::Cells;

/// A table that is read: a list of numbers below a bound. Each table that has its own bytes is one, and each in bytes that are lent.
///
/// Cells are counted from 0. No call takes memory.
pub trait Lookup {
    // The bound, and the list of the numbers.
    ghost bound_of: { Self → ℕ };

    ghost cells: { Self → List ℕ };

    /// How many cells there are.
    fn len(&self) -> u32
        ensures { result ≡ length (cells self.now) };

    /// Cell i.
    fn get(&self, i: u32) -> u32
        requires { i < length (cells self.now) }
        ensures { result ≡ slice_index (cells self.now) i };

    // The numbers are below the bound.
    ghost in_bound: { (t : Self) → AllBelow (bound_of t) (cells t) };

    // There are at most `MAX_CELLS` of them.
    ghost in_room: { (t : Self) → length (cells t) ≤ MAX_CELLS };
}

impl<C: Cells> Lookup for C {
    ghost bound_of = { λ t. C.bound_of t };

    ghost cells = { λ t. C.cells t };

    ghost in_bound = { λ t. C.in_bound t };

    ghost in_room = { λ t. C.in_room t };

    #[inline]
    fn len(&self) -> u32 {
        Cells::len(self)
    }

    #[inline]
    fn get(&self, i: u32) -> u32 {
        Cells::get(self, i)
    }
}
