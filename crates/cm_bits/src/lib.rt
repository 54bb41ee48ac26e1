//! Tables of small numbers: exact as lists, exact as bytes, packed as tightly as their image.
#![tactic(auto)]

ghost use Rattle.std.specs.Prelude.{◌≡◌, ℕ, ◌<◌, ◌≤◌, ◌⊎◌, List, Option, length, slice_index, slice_set, replicate, IfOk, IfErr, IsOk, Some, None};
ghost use Rattle.cm_spec.specs.Lists.{list_of};
ghost use Rattle.cm_bits.specs.Bound.{AllBelow};
ghost use Rattle.cm_bits.specs.declared.fault.ImageFault.{ImageFault};
ghost use Rattle.cm_bits.specs.declared.fault.ImageFault.TheVariants.{Memory};
ghost use Rattle.cm_bits.specs.declared.TheConstants.{MAX_CELLS};

use std::alloc::{AllocError, Global};

mod blocks;
mod bytes;
pub mod fault;
pub mod fields;
pub mod fill;
pub mod lent;
pub mod lent_fields;
pub mod lookup;
pub mod packed;
pub mod packings;
pub mod plain;

pub use bytes::window;
pub use fault::ImageFault;
pub use fields::Fields;
pub use fill::filled;
pub use lent::{LentCrumbs, LentDigits, LentTrits};
pub use lent_fields::LentFields;
pub use lookup::Lookup;
pub use packings::{Bits, Crumbs, Trits};
pub use plain::Plain;

/// The most cells that a table may have.
pub const MAX_CELLS: u32 = 1_073_741_824;

/// The highest bound of `Fields`: its cells have at most 26 bits.
pub const MAX_FIELD_BOUND: u32 = 67_108_864;

/// How many bytes a table may keep after those of its image. If a vector has room for this many more, `from_bytes` moves none.
pub const SPARE: usize = 8;

/// A table of cells: a list of numbers below a bound. No call changes its length or its bound.
///
/// Cells and bytes are counted from 0. Only `zeroed`, `from_image` and `from_bytes` take memory.
pub trait Cells: Sized {
    // The bound, and the list of the numbers.
    ghost bound_of: { Self → ℕ };

    ghost cells: { Self → List ℕ };

    // The bounds that the type serves.
    ghost fits: { ℕ → Type 0 };

    // How many bytes the image of n cells of a bound has.
    ghost image_size: { ℕ → ℕ → ℕ };

    // Byte q of the image of cells of a bound.
    ghost image_byte: { ℕ → List ℕ → ℕ → ℕ };

    // The byte of an image, of cells of a bound, that holds the lowest bit or digit of cell i.
    ghost cell_place: { ℕ → ℕ → ℕ };

    // Why bytes are no image of n cells of a bound: the lowest cell at fault, or else padding that is not zero.
    ghost image_fault: { ℕ → ℕ → List ℕ → Option ImageFault };

    /// A table of n cells, all of them 0. Fails only if memory runs out.
    fn zeroed(alloc: Global, n: u32, bound: u32) -> Result<Self, AllocError>
        requires room { n ≤ MAX_CELLS }
        requires fit { fits bound }
        ensures bound { IfOk result (λ t. bound_of t ≡ bound) }
        ensures cells { IfOk result (λ t. cells t ≡ replicate n 0) };

    /// How many cells there are.
    fn len(&self) -> u32
        ensures { result ≡ length (cells self.now) };

    /// The bound: each cell is below it.
    fn bound(&self) -> u32
        ensures { result ≡ bound_of self.now };

    /// Cell i.
    fn get(&self, i: u32) -> u32
        requires { i < length (cells self.now) }
        ensures { result ≡ slice_index (cells self.now) i };

    /// Sets cell i to the value. All other cells stay as they are.
    fn set(&mut self, i: u32, value: u32)
        requires index { i < length (cells self.old) }
        requires below { value < bound_of self.old }
        ensures bound { bound_of self.new ≡ bound_of self.old }
        ensures cells { cells self.new ≡ slice_set (cells self.old) i value };

    /// How many bytes the image of n cells has.
    fn image_len(n: u32, bound: u32) -> u64
        requires room { n ≤ MAX_CELLS }
        requires fit { fits bound }
        ensures { result ≡ image_size n bound };

    /// The byte of an image that holds the lowest bit or digit of cell i.
    fn cell_byte(bound: u32, i: u32) -> u64
        requires room { i < MAX_CELLS }
        requires fit { fits bound }
        ensures { result ≡ cell_place bound i };

    /// Byte i of the table's image.
    fn byte(&self, i: u64) -> u8
        requires { i < image_size (length (cells self.now)) (bound_of self.now) }
        ensures { result ≡ image_byte (bound_of self.now) (cells self.now) i };

    /// The table of n cells whose image is these bytes. Fails if memory runs out, or with the fault of the bytes.
    fn from_image(alloc: Global, n: u32, bound: u32, bytes: &[u8]) -> Result<Self, ImageFault>
        requires room { n ≤ MAX_CELLS }
        requires fit { fits bound }
        requires whole { length bytes.now ≡ image_size n bound }
        ensures sound { IsOk result → image_fault n bound bytes.now ≡ None }
        ensures bound { IfOk result (λ t. bound_of t ≡ bound) }
        ensures len { IfOk result (λ t. length (cells t) ≡ n) }
        ensures image { IfOk result (λ t. bytes.now ≡ list_of (image_byte bound (cells t)) (image_size n bound)) }
        ensures fault { IfErr result (λ e. (e ≡ Memory) ⊎ (image_fault n bound bytes.now ≡ Some e)) };

    /// Like `from_image`, of bytes that it takes over. A table that keeps its image keeps these bytes, and takes no memory if the
    /// vector has room for `SPARE` more.
    fn from_bytes(alloc: Global, n: u32, bound: u32, bytes: Vec<u8>) -> Result<Self, ImageFault>
        requires room { n ≤ MAX_CELLS }
        requires fit { fits bound }
        requires whole { length bytes.items ≡ image_size n bound }
        ensures sound { IsOk result → image_fault n bound bytes.items ≡ None }
        ensures bound { IfOk result (λ t. bound_of t ≡ bound) }
        ensures len { IfOk result (λ t. length (cells t) ≡ n) }
        ensures image { IfOk result (λ t. bytes.items ≡ list_of (image_byte bound (cells t)) (image_size n bound)) }
        ensures fault { IfErr result (λ e. (e ≡ Memory) ⊎ (image_fault n bound bytes.items ≡ Some e)) }
    {
        Self::from_image(alloc, n, bound, &bytes)
    }

    // The numbers are below the bound.
    ghost in_bound: { (t : Self) → AllBelow (bound_of t) (cells t) };

    // There are at most `MAX_CELLS` of them.
    ghost in_room: { (t : Self) → length (cells t) ≤ MAX_CELLS };

    // The table has a bound that the type serves.
    ghost bound_fits: { (t : Self) → fits (bound_of t) };

    // The byte of a cell is one of the image.
    ghost cell_inside: { (b n i : ℕ) → fits b → i < n → cell_place b i < image_size n b };

    // Lists of one length and bound are equal if their images are.
    ghost same_from_image: { (b : ℕ) (xs ys : List ℕ) → fits b → length xs ≡ length ys → AllBelow b xs → AllBelow b ys → ((q : ℕ) → q < image_size (length xs) b → image_byte b xs q ≡ image_byte b ys q) → xs ≡ ys };

    // The image of a list has no fault.
    ghost image_is_sound: { (b : ℕ) (xs : List ℕ) → fits b → AllBelow b xs → image_fault (length xs) b (list_of (image_byte b xs) (image_size (length xs) b)) ≡ None };
}
