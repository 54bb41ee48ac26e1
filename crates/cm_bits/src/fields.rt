// Cells of as many bits as the bound needs, one after another.
ghost use Rattle.std.specs.Prelude.{◌≡◌, ◌+◌, ◌*◌, ◌/◌, ◌%◌, ◌^◌, ◌<◌, ◌≤◌, ◌↔◌, ◌++◌, ◌-◌, IsTrue, length, slice_index, replicate, position, nat_le, IfOk, ℕ};
ghost use Rattle.cm_bits.specs.Bound.{AllBelow};
ghost use Rattle.cm_bits.specs.Fault.{bytes_number, fault_of, field_cells, fields_fault};
ghost use Rattle.cm_bits.specs.FieldsLaws.{same_fields_bound, field_room_for, field_byte_lt, fields_fault-image};
ghost use Rattle.cm_bits.specs.Held.{AreBelow, HoldFields, IsFields, window_at};
ghost use Rattle.cm_spec.specs.Image.{width_of, fields_byte, fields_len};
ghost use Rattle.cm_bits.specs.declared.TheConstants.{MAX_CELLS, MAX_FIELD_BOUND};

use crate::blocks::blocks_below;
use crate::bytes::{first_byte_from, is_part_below, ones, part, put_window, window, with_part};
use crate::{Cells, ImageFault, SPARE};
use std::alloc::{AllocError, Global};

/// A table of numbers of as many bits as its bound needs, from 1 to 26.
#[derive(Drop)]
pub struct Fields {
    // The image and `SPARE` zeros, so that eight bytes can be read from each of its bytes on.
    bytes: Vec<u8>,
    n: u32,
    bound: u32,
    width: u32,
    // The lowest `width` bits: kept, since a shift for each access would cost more.
    mask: u32,
    ghost in_room: { n ≤ MAX_CELLS },
    ghost positive: { 1 ≤ bound },
    ghost small: { bound ≤ MAX_FIELD_BOUND },
    ghost is_width: { width ≡ width_of bound },
    ghost is_mask: { mask + 1 ≡ 2 ^ width },
    ghost is_fields: { IsFields width n bytes.items },
    ghost in_bound: { AllBelow bound (field_cells width n (bytes_number bytes.items)) },
}

impl Cells for Fields {
    ghost bound_of = { λ t. t.bound };

    ghost cells = { λ t. field_cells t.width t.n (bytes_number t.bytes.items) };

    ghost fits = { λ b. (1 ≤ b) × (b ≤ MAX_FIELD_BOUND) };

    ghost image_size = { λ n b. fields_len (width_of b) n };

    ghost image_byte = { λ b xs q. fields_byte (width_of b) xs q };

    ghost cell_place = { λ b i. i * width_of b / 8 };

    ghost image_fault = { λ n b bs. fields_fault (width_of b) n b bs };

    ghost in_bound = { λ t. t.in_bound };

    ghost in_room = { λ t. field_room_for t.width t.n (bytes_number t.bytes.items) t.in_room };

    ghost bound_fits = { λ t. (t.positive, t.small) };

    ghost cell_inside = { λ b n i f l. field_byte_lt b n i l };

    ghost same_from_image = { λ b xs ys f n h l e. same_fields_bound b xs ys f.1 n h l e };

    ghost image_is_sound = { λ b xs f l. fields_fault-image b xs f.1 l };

    fn zeroed(alloc: Global, n: u32, bound: u32) -> Result<Fields, AllocError> {
        let width = width(bound);
        let len = image_bytes(n, width) as usize;
        let bytes = vec![in alloc; 0u8; len + SPARE]?;
        Ok(Fields {
            bytes,
            n,
            bound,
            width,
            mask: ones(width),
        })
    }

    fn len(&self) -> u32 {
        self.n
    }

    fn bound(&self) -> u32 {
        self.bound
    }

    fn get(&self, i: u32) -> u32 {
        cell(&self.bytes, i, self.width, self.mask)
    }

    fn set(&mut self, i: u32, value: u32) {
        let bit = i as u64 * self.width as u64;
        let at = (bit / 8) as usize;
        let old = window(&self.bytes, at);
        let new = with_part(old, bit % 8, self.mask, value);
        put_window(&mut self.bytes, at, new);
    }

    fn image_len(n: u32, bound: u32) -> u64 {
        image_bytes(n, width(bound))
    }

    fn cell_byte(bound: u32, i: u32) -> u64 {
        i as u64 * width(bound) as u64 / 8
    }

    fn byte(&self, i: u64) -> u8 {
        self.bytes[i as usize]
    }

    fn from_image(alloc: Global, n: u32, bound: u32, bytes: &[u8]) -> Result<Fields, ImageFault> {
        let Ok(copy) = with_room(alloc, bytes) else {
            return Err(ImageFault::Memory);
        };
        Self::from_bytes(alloc, n, bound, copy)
    }

    fn from_bytes(alloc: Global, n: u32, bound: u32, bytes: Vec<u8>) -> Result<Fields, ImageFault> {
        let width = width(bound);
        let len = bytes.len();
        let Ok(held) = with_spare(bytes) else {
            return Err(ImageFault::Memory);
        };
        if let Some(fault) = fault_in(&held, &held[..len], n, width, bound) {
            return Err(fault);
        }
        Ok(Fields {
            bytes: held,
            n,
            bound,
            width,
            mask: ones(width),
        })
    }
}

// How many bytes n cells of `width` bits take.
#[inline]
fn image_bytes(n: u32, width: u32) -> u64
    ensures { result ≡ fields_len width n }
{
    (n as u64 * width as u64).div_ceil(8)
}

// A copy of the bytes, with room for `SPARE` more.
fn with_room(alloc: Global, bytes: &[u8]) -> Result<Vec<u8>, AllocError>
    requires { length bytes.now < 2 ^ 60 }
    ensures { IfOk result (λ v. v.items ≡ bytes.now) }
{
    let mut copy = Vec::with_capacity(alloc, bytes.len() + SPARE)?;
    copy.extend_from_slice(bytes)?;
    Ok(copy)
}

// The bytes with `SPARE` zeros appended.
fn with_spare(bytes: Vec<u8>) -> Result<Vec<u8>, AllocError>
    requires { length bytes.items < 2 ^ 60 }
    ensures { IfOk result (λ v. v.items ≡ bytes.items ++ replicate 8 0) }
{
    let mut held = bytes;
    held.extend_from_slice(&[0; SPARE])?;
    Ok(held)
}

// Cell i of bytes with spare bytes after them.
#[inline]
fn cell(bytes: &[u8], i: u32, width: u32, mask: u32) -> u32
    requires width { width ≤ 26 }
    requires mask { mask + 1 ≡ 2 ^ width }
    requires room { i * width / 8 + 8 ≤ length bytes.now }
    requires fit { (k : ℕ) → slice_index bytes.now k < 256 }
    ensures { result ≡ bytes_number bytes.now / (2 ^ width) ^ i % 2 ^ width }
{
    let bit = i as u64 * width as u64;
    part(window(bytes, (bit / 8) as usize), bit % 8, mask)
}

// How many whole cells of `width` bits lie in the leading zero bytes.
fn clear_cells(bytes: &[u8], width: u32) -> u64
    requires some { 0 < width }
    requires room { length bytes.now < 2 ^ 60 }
    ensures { (k : ℕ) → k < result → bytes_number bytes.now / (2 ^ width) ^ k % 2 ^ width ≡ 0 }
{
    let zeros = match first_byte_from(bytes, 1) {
        Some(place) => place,
        None => bytes.len(),
    };
    8 * zeros as u64 / width as u64
}

// Whether two adjacent cells are below the bound. The first begins at this bit of the bytes from `at` on.
#[inline]
fn is_pair_below(held: &[u8], at: usize, bit: u64, width: u32, mask: u32, bound: u32) -> bool
    requires width { width ≤ 26 }
    requires mask { mask + 1 ≡ 2 ^ width }
    requires bound { bound ≤ 2 ^ width }
    requires room { at + bit / 8 + 8 ≤ length held.now }
    ensures { IsTrue result ↔ ((window_at held.now (at + bit / 8) / 2 ^ (bit % 8) % 2 ^ width < bound) × (window_at held.now (at + bit / 8) / 2 ^ (bit % 8 + width) % 2 ^ width < bound)) }
{
    let both = window(held, at + (bit / 8) as usize);
    let shift = bit % 8;
    is_part_below(both, shift, mask, bound)
        && is_part_below(both, shift + width as u64, mask, bound)
}

// How many of the leading groups of eight cells, which begin with a byte, have only cells below the bound: all of them, or one of the
// cells of the next group is not below it. All groups before `first` have only such cells.
fn groups_below(held: &[u8], first: u32, n: u32, width: u32, bound: u32) -> u32
    requires order { 8 * first ≤ n }
    requires held { HoldFields width n bound held.now }
    requires below { AreBelow width bound held.now (8 * first) }
    ensures some { 8 * result ≤ n }
    ensures below { AreBelow width bound held.now (8 * result) }
    ensures next { result < n / 8 → AreBelow width bound held.now (8 * (result + 1)) → ⊥ }
{
    let mask = ones(width);
    let w = width as u64;
    for g in first..n / 8 {
        let at = (g as u64 * w) as usize;
        if !is_pair_below(held, at, 0, width, mask, bound) {
            return g;
        }
        if !is_pair_below(held, at, 2 * w, width, mask, bound) {
            return g;
        }
        if !is_pair_below(held, at, 4 * w, width, mask, bound) {
            return g;
        }
        if !is_pair_below(held, at, 6 * w, width, mask, bound) {
            return g;
        }
    }
    n / 8
}

// The lowest of n cells of `width` bits that is not below the bound. `held` has eight bytes more than the cells.
pub(crate) fn bad_cell(held: &[u8], n: u32, width: u32, bound: u32) -> Option<u32>
    requires some { 0 < width }
    requires positive { 0 < bound }
    requires held { HoldFields width n bound held.now }
    requires room { length held.now < 2 ^ 60 }
    ensures { result ≡ position (λ c. nat_le bound c) (field_cells width n (bytes_number held.now)) }
{
    if bound == 1 << width {
        return None;
    }
    let mask = ones(width);
    let clear = clear_cells(held, width).min(n as u64) as u32;
    let blocks = blocks_below(held, clear / 8, n, width, bound);
    let groups = groups_below(held, blocks, n, width, bound);
    for i in 8 * groups..n {
        if cell(held, i, width, mask) >= bound {
            return Some(i);
        }
    }
    None
}

// Why bytes are no image of n cells. `held` is these bytes with zeros after them. Each element of `held` is a byte.
fn fault_in(held: &[u8], bytes: &[u8], n: u32, width: u32, bound: u32) -> Option<ImageFault>
    requires room { n ≤ MAX_CELLS }
    requires some { 0 < width }
    requires width { width ≤ 26 }
    requires positive { 0 < bound }
    requires bound { bound ≤ 2 ^ width }
    requires whole { length bytes.now ≡ fields_len width n }
    requires held { held.now ≡ bytes.now ++ replicate 8 0 }
    ensures fault { result ≡ fields_fault width n bound bytes.now }
    ensures fit { (k : ℕ) → slice_index held.now k < 256 }
{
    if let Some(i) = bad_cell(held, n, width, bound) {
        return Some(ImageFault::BadCell { cell: i });
    }
    padding_fault(bytes, n, width)
}

// What is wrong with the bits past n cells of `width` bits, which are 0 in an image. It is never `Memory` or a cell.
pub(crate) fn padding_fault(bytes: &[u8], n: u32, width: u32) -> Option<ImageFault>
    requires room { n ≤ MAX_CELLS }
    requires width { width ≤ 26 }
    requires whole { length bytes.now ≡ fields_len width n }
    ensures { result ≡ fault_of n n (bytes_number bytes.now / (2 ^ width) ^ n) (length bytes.now - 1) }
{
    let bit = n as u64 * width as u64;
    if bit % 8 != 0 {
        let last = bytes.len() - 1;
        if bytes[last] >> (bit % 8) != 0 {
            return Some(ImageFault::BadPadding { byte: last as u64 });
        }
    }
    None
}

/// The least width, from 1 on, whose numbers serve the bound.
pub fn width(bound: u32) -> u32
    requires { bound ≤ MAX_FIELD_BOUND }
    ensures { result ≡ width_of bound }
{
    for w in 1..27 {
        if bound <= 1 << w {
            return w;
        }
    }
    27
}
