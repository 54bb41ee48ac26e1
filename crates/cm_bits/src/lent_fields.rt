//! Tables of fields in bytes that are lent: they are read, and not written.
ghost use Rattle.std.specs.Prelude.{◌≡◌, ◌+◌, ◌*◌, ◌/◌, ◌%◌, ◌^◌, ◌<◌, ◌≤◌, length, position, nat_le, IfErr, IfOk, IsOk, Some, None};
ghost use Rattle.cm_bits.specs.Bound.{AllBelow};
ghost use Rattle.cm_bits.specs.Fault.{bytes_number, field_cells, fields_fault};
ghost use Rattle.cm_bits.specs.FieldsLaws.{AllBelow-field_cells, field_room_for};
ghost use Rattle.cm_bits.specs.Held.{window_at};
ghost use Rattle.cm_spec.specs.Image.{fields_len, width_of};
ghost use Rattle.cm_bits.specs.declared.TheConstants.{MAX_CELLS, MAX_FIELD_BOUND};

use crate::ImageFault;
use crate::bytes::{ones, part, window};
use crate::fields::{bad_cell, padding_fault, width};
use crate::lookup::Lookup;

/// A table of numbers of a width in bits, from 1 to 26, in bytes that are lent. Its bound is 2 to the power of the width.
#[derive(Drop)]
pub struct LentFields<'a> {
    bytes: &'a [u8],
    n: u32,
    width: u32,
    // The lowest `width` bits.
    mask: u32,
    ghost in_room: { n ≤ MAX_CELLS },
    ghost some: { 1 ≤ width },
    ghost narrow: { width ≤ 26 },
    ghost is_mask: { mask + 1 ≡ 2 ^ width },
    ghost is_whole: { length bytes.now ≡ fields_len width n },
}

impl<'a> LentFields<'a> {
    /// The table of the n cells of `width` bits that these bytes hold. There are as many bytes as the image of n cells has, and they may
    /// have any values: bits past the cells are not read.
    #[inline]
    pub fn new(n: u32, width: u32, bytes: &'a [u8]) -> LentFields<'a>
        requires room { n ≤ MAX_CELLS }
        requires some { 1 ≤ width }
        requires narrow { width ≤ 26 }
        requires whole { length bytes.now ≡ fields_len width n }
        ensures bound { ⟦<LentFields<'a> as Lookup>⟧.bound_of result ≡ 2 ^ width }
        ensures cells { ⟦<LentFields<'a> as Lookup>⟧.cells result ≡ field_cells width n (bytes_number bytes.now) }
    {
        LentFields {
            bytes,
            n,
            width,
            mask: ones(width),
        }
    }

    /// The table of n cells below the bound whose image these bytes are, or else their first fault, which is never `Memory`.
    pub fn of(n: u32, bound: u32, bytes: &'a [u8]) -> Result<LentFields<'a>, ImageFault>
        requires room { n ≤ MAX_CELLS }
        requires positive { 1 ≤ bound }
        requires small { bound ≤ MAX_FIELD_BOUND }
        requires whole { length bytes.now ≡ fields_len (width_of bound) n }
        ensures sound { IsOk result → fields_fault (width_of bound) n bound bytes.now ≡ None }
        ensures fault { IfErr result (λ e. fields_fault (width_of bound) n bound bytes.now ≡ Some e) }
        ensures bound { IfOk result (λ t. ⟦<LentFields<'a> as Lookup>⟧.bound_of t ≡ 2 ^ width_of bound) }
        ensures below { IfOk result (λ t. AllBelow bound (⟦<LentFields<'a> as Lookup>⟧.cells t)) }
        ensures cells { IfOk result (λ t. ⟦<LentFields<'a> as Lookup>⟧.cells t ≡ field_cells (width_of bound) n (bytes_number bytes.now)) }
    {
        let width = width(bound);
        match lent_fault(bytes, n, width, bound) {
            Some(fault) => Err(fault),
            None => Ok(Self::new(n, width, bytes)),
        }
    }
}

impl<'a> Lookup for LentFields<'a> {
    ghost bound_of = { λ t. 2 ^ t.width };

    ghost cells = { λ t. field_cells t.width t.n (bytes_number t.bytes.now) };

    ghost in_bound = { λ t. AllBelow-field_cells t.width t.n (bytes_number t.bytes.now) };

    ghost in_room = { λ t. field_room_for t.width t.n (bytes_number t.bytes.now) t.in_room };

    fn len(&self) -> u32 {
        self.n
    }

    fn get(&self, i: u32) -> u32 {
        lent_cell(self.bytes, i, self.width, self.mask)
    }
}

// Cell i of bytes that end with the cells.
#[inline]
fn lent_cell(bytes: &[u8], i: u32, width: u32, mask: u32) -> u32
    requires width { width ≤ 26 }
    requires mask { mask + 1 ≡ 2 ^ width }
    requires room { i * width / 8 < length bytes.now }
    ensures { result ≡ bytes_number bytes.now / (2 ^ width) ^ i % 2 ^ width }
{
    let bit = i as u64 * width as u64;
    let at = (bit / 8) as usize;
    let number = if at + 8 <= bytes.len() {
        window(bytes, at)
    } else {
        last_window(bytes, at)
    };
    part(number, bit % 8, mask)
}

// The little-endian number of the bytes from place `at` on, of which there are fewer than eight.
fn last_window(bytes: &[u8], at: usize) -> u64
    requires inside { at ≤ length bytes.now }
    requires last { length bytes.now < at + 8 }
    ensures { result ≡ window_at bytes.now at }
{
    let mut number = 0u64;
    let mut from = bytes.len();
    while from > at {
        from -= 1;
        number = number * 256 + bytes[from] as u64;
    }
    number
}

// Why bytes are no image of n cells.
fn lent_fault(bytes: &[u8], n: u32, width: u32, bound: u32) -> Option<ImageFault>
    requires room { n ≤ MAX_CELLS }
    requires some { 0 < width }
    requires width { width ≤ 26 }
    requires positive { 0 < bound }
    requires bound { bound ≤ 2 ^ width }
    requires whole { length bytes.now ≡ fields_len width n }
    ensures { result ≡ fields_fault width n bound bytes.now }
{
    if let Some(i) = lent_bad_cell(bytes, n, width, bound) {
        return Some(ImageFault::BadCell { cell: i });
    }
    padding_fault(bytes, n, width)
}

// The lowest of n cells that is not below the bound.
fn lent_bad_cell(bytes: &[u8], n: u32, width: u32, bound: u32) -> Option<u32>
    requires room { n ≤ MAX_CELLS }
    requires some { 0 < width }
    requires width { width ≤ 26 }
    requires positive { 0 < bound }
    requires bound { bound ≤ 2 ^ width }
    requires whole { length bytes.now ≡ fields_len width n }
    ensures { result ≡ position (λ c. nat_le bound c) (field_cells width n (bytes_number bytes.now)) }
{
    // As many groups of eight cells as have eight bytes after them: they are searched faster.
    let groups = bytes.len().saturating_sub(8) / width as usize;
    if let Some(i) = bad_in_groups(bytes, groups, width, bound) {
        return Some(i);
    }
    let mask = ones(width);
    for i in 8 * groups as u32..n {
        if lent_cell(bytes, i, width, mask) >= bound {
            return Some(i);
        }
    }
    None
}

// The lowest cell of the leading groups of eight cells that is not below the bound. Eight bytes come after the groups, if there are any.
fn bad_in_groups(bytes: &[u8], groups: usize, width: u32, bound: u32) -> Option<u32>
    requires some { 0 < width }
    requires width { width ≤ 26 }
    requires positive { 0 < bound }
    requires bound { bound ≤ 2 ^ width }
    requires few { 8 * groups ≤ MAX_CELLS }
    requires room { 0 < groups → groups * width + 8 ≤ length bytes.now }
    ensures { result ≡ position (λ c. nat_le bound c) (field_cells width (8 * groups) (bytes_number bytes.now)) }
{
    if groups == 0 {
        return None;
    }
    bad_cell(
        &bytes[..groups * width as usize + 8],
        8 * groups as u32,
        width,
        bound,
    )
}
