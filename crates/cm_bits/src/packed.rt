// Cells as digits in a small base, several of them in a byte.
ghost use Rattle.std.specs.Prelude.{◌≡◌, ℕ, ◌+◌, ◌*◌, ◌/◌, ◌%◌, ◌^◌, ◌<◌, ◌≤◌, ◌↔◌, ◌++◌, [], IsTrue, OnErr, OnOk, length, refl};
ghost use Rattle.cm_bits.specs.Appending.{filled_up};
ghost use Rattle.cm_bits.specs.Fault.{packed_fault};
ghost use Rattle.cm_bits.specs.Held.{IsPacked, packed_cells};
ghost use Rattle.cm_bits.specs.PackedLaws.{AllBelow-packed_cells, same_packed, zero_lt, at_base, packed_room, place_lt, packed_fault-image};
ghost use Rattle.cm_spec.specs.Image.{packed_byte, packed_len};
ghost use Rattle.cm_spec.specs.Lists.{list_of};
ghost use Rattle.cm_bits.specs.declared.TheConstants.{MAX_CELLS};

use crate::bytes::rare_byte_from;
use crate::{Cells, ImageFault};
use std::alloc::{AllocError, Global};
use std::marker::PhantomData;

/// A base, and how many of its digits a byte holds.
pub trait Packing {
    ghost BASE: { ℕ };

    ghost PER_BYTE: { ℕ };

    ghost FULL: { ℕ };

    const BASE: u32;

    const PER_BYTE: u32;

    /// One more than the largest byte.
    const FULL: u32;

    /// Digit i of a byte, the lowest being digit 0.
    fn digit(byte: u8, i: u32) -> u32
        requires { i < PER_BYTE }
        ensures { result ≡ byte / BASE ^ i % BASE };

    /// The byte with digit i replaced.
    fn with_digit(byte: u8, i: u32, digit: u32) -> u8
        requires place { i < PER_BYTE }
        requires whole { byte < FULL }
        requires below { digit < BASE }
        ensures { result + byte / BASE ^ i % BASE * BASE ^ i ≡ byte + digit * BASE ^ i };

    /// Whether a byte holds nothing from digit i on.
    fn is_clear(byte: u8, i: u32) -> bool
        requires { i < PER_BYTE }
        ensures { IsTrue result ↔ (byte / BASE ^ i ≡ 0) };

    ghost is_base: { 2 ≤ BASE };

    ghost is_count: { 0 < PER_BYTE };

    ghost is_full: { FULL ≡ BASE ^ PER_BYTE };

    ghost fits_byte: { BASE ^ PER_BYTE ≤ 256 };
}

/// A table of digits of a packing's base.
#[derive(Drop)]
pub struct Packed<B: Packing> {
    bytes: Vec<u8>,
    n: u32,
    packing: PhantomData<B>,
    ghost in_room: { n ≤ MAX_CELLS },
    ghost is_packed: { IsPacked B.BASE B.PER_BYTE n bytes.items },
}

impl<B: Packing> Packed<B> {
    /// A table without cells. It takes no memory.
    pub fn empty(alloc: Global) -> Packed<B>
        ensures cells { ⟦<Packed<B> as Cells>⟧.cells result ≡ [] }
    {
        Packed {
            bytes: Vec::new(alloc),
            n: 0,
            packing: PhantomData,
        }
    }

    /// Appends zeros up to a whole byte, and the cells of another table after them. If there is no room for these, memory is allocated
    /// for them and for `spare` further bytes. Fails only if memory runs out, and then the cells stay.
    pub fn append(&mut self, other: &Packed<B>, spare: usize) -> Result<(), AllocError>
        requires room { B.PER_BYTE * packed_len B.PER_BYTE (length (⟦<Packed<B> as Cells>⟧.cells self.old)) + length (⟦<Packed<B> as Cells>⟧.cells other.now) ≤ MAX_CELLS }
        ensures appended { OnOk result (⟦<Packed<B> as Cells>⟧.cells self.new ≡ filled_up B.PER_BYTE (⟦<Packed<B> as Cells>⟧.cells self.old) ++ ⟦<Packed<B> as Cells>⟧.cells other.now) }
        ensures failed { OnErr result (⟦<Packed<B> as Cells>⟧.cells self.new ≡ ⟦<Packed<B> as Cells>⟧.cells self.old) }
    {
        make_room(&mut self.bytes, other.bytes.len(), spare)?;
        let per_byte = B::PER_BYTE;
        let n = per_byte * self.n.div_ceil(per_byte) + other.n;
        self.bytes.extend_from_slice(&other.bytes)?;
        self.n = n;
        Ok(())
    }

    /// The bytes of the table's image, the first cell in the lowest bits or digit of the first byte.
    pub fn image(&self) -> &[u8]
        ensures image { result.now ≡ list_of (packed_byte B.BASE B.PER_BYTE (⟦<Packed<B> as Cells>⟧.cells self.now)) (packed_len B.PER_BYTE (length (⟦<Packed<B> as Cells>⟧.cells self.now))) }
        ensures whole { length result.now ≡ packed_len B.PER_BYTE (length (⟦<Packed<B> as Cells>⟧.cells self.now)) }
        ensures cells { ⟦<Packed<B> as Cells>⟧.cells self.now ≡ packed_cells B.BASE B.PER_BYTE (length (⟦<Packed<B> as Cells>⟧.cells self.now)) result.now }
    {
        &self.bytes
    }
}

impl<B: Packing> Cells for Packed<B> {
    ghost bound_of = { λ t. B.BASE };

    ghost cells = { λ t. packed_cells B.BASE B.PER_BYTE t.n t.bytes.items };

    ghost fits = { λ b. b ≡ B.BASE };

    ghost image_size = { λ n b. packed_len B.PER_BYTE n };

    ghost image_byte = { λ b xs q. packed_byte B.BASE B.PER_BYTE xs q };

    ghost cell_place = { λ b i. i / B.PER_BYTE };

    ghost image_fault = { λ n b bs. packed_fault B.BASE B.PER_BYTE n bs };

    ghost in_bound = { λ t. AllBelow-packed_cells B.BASE B.PER_BYTE t.n t.bytes.items (zero_lt B.BASE B.is_base) };

    ghost in_room = { λ t. packed_room B.BASE B.PER_BYTE t.n t.bytes.items t.in_room };

    ghost bound_fits = { λ t. refl };

    ghost cell_inside = { λ b n i f l. place_lt B.PER_BYTE n i B.is_count l };

    ghost same_from_image = { λ b xs ys f n h l e. same_packed B.BASE B.PER_BYTE xs ys (zero_lt B.BASE B.is_base) B.is_count n (at_base b B.BASE xs f h) (at_base b B.BASE ys f l) e };

    ghost image_is_sound = { λ b xs f l. packed_fault-image B.BASE B.PER_BYTE xs (zero_lt B.BASE B.is_base) B.is_count (at_base b B.BASE xs f l) };

    fn zeroed(alloc: Global, n: u32, bound: u32) -> Result<Packed<B>, AllocError> {
        let len = n.div_ceil(B::PER_BYTE);
        let bytes = vec![in alloc; 0u8; len as usize]?;
        Ok(Packed {
            bytes,
            n,
            packing: PhantomData,
        })
    }

    fn len(&self) -> u32 {
        self.n
    }

    fn bound(&self) -> u32 {
        B::BASE
    }

    fn get(&self, i: u32) -> u32 {
        let per_byte = B::PER_BYTE;
        B::digit(self.bytes[(i / per_byte) as usize], i % per_byte)
    }

    fn set(&mut self, i: u32, value: u32) {
        let per_byte = B::PER_BYTE;
        let place = (i / per_byte) as usize;
        let byte = self.bytes[place];
        self.bytes[place] = B::with_digit(byte, i % per_byte, value);
    }

    fn image_len(n: u32, bound: u32) -> u64 {
        n.div_ceil(B::PER_BYTE) as u64
    }

    fn cell_byte(bound: u32, i: u32) -> u64 {
        (i / B::PER_BYTE) as u64
    }

    fn byte(&self, i: u64) -> u8 {
        self.bytes[i as usize]
    }

    fn from_image(
        alloc: Global,
        n: u32,
        bound: u32,
        bytes: &[u8],
    ) -> Result<Packed<B>, ImageFault> {
        let Ok(bytes) = bytes.to_vec(alloc) else {
            return Err(ImageFault::Memory);
        };
        Self::from_bytes(alloc, n, bound, bytes)
    }

    fn from_bytes(
        alloc: Global,
        n: u32,
        bound: u32,
        bytes: Vec<u8>,
    ) -> Result<Packed<B>, ImageFault> {
        if let Some(fault) = fault_in::<B>(n, &bytes) {
            return Err(fault);
        }
        Ok(Packed {
            bytes,
            n,
            packing: PhantomData,
        })
    }
}

// Makes room for `more` bytes, and for `spare` further ones if there is none.
fn make_room(bytes: &mut Vec<u8>, more: usize, spare: usize) -> Result<(), AllocError>
    ensures { bytes.new.items ≡ bytes.old.items }
{
    if bytes.capacity() - bytes.len() < more {
        bytes.reserve_exact(more.saturating_add(spare))?;
    }
    Ok(())
}

/// Why bytes are no image of n cells. It is never `Memory`.
pub fn fault_in<B: Packing>(n: u32, bytes: &[u8]) -> Option<ImageFault>
    requires room { n ≤ MAX_CELLS }
    requires whole { length bytes.now ≡ packed_len B.PER_BYTE n }
    ensures { result ≡ packed_fault B.BASE B.PER_BYTE n bytes.now }
{
    let per_byte = B::PER_BYTE;
    if let Some(place) = rare_byte_from(bytes, B::FULL) {
        return Some(ImageFault::BadCell {
            cell: per_byte * place as u32,
        });
    }
    let used = n % per_byte;
    if used != 0 {
        let last = bytes.len() - 1;
        if !B::is_clear(bytes[last], used) {
            return Some(ImageFault::BadPadding { byte: last as u64 });
        }
    }
    None
}
