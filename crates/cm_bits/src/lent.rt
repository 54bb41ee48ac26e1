//! Tables of digits in bytes that are lent: they are read, and not written.
ghost use Rattle.std.specs.Prelude.{◌≡◌, ◌≤◌, length, IfErr, IfOk, IsOk, Some, None};
ghost use Rattle.cm_bits.specs.Fault.{packed_fault};
ghost use Rattle.cm_bits.specs.Held.{packed_cells};
ghost use Rattle.cm_bits.specs.PackedLaws.{AllBelow-packed_cells, packed_room, zero_lt};
ghost use Rattle.cm_spec.specs.Image.{packed_len};
ghost use Rattle.cm_bits.specs.declared.TheConstants.{MAX_CELLS};

use crate::ImageFault;
use crate::lookup::Lookup;
use crate::packed::{Packing, fault_in};
use crate::packings::{Fours, Threes};
use std::marker::PhantomData;

/// A table of digits of a packing's base, in bytes that are lent.
#[derive(Drop)]
pub struct LentDigits<'a, B: Packing> {
    bytes: &'a [u8],
    n: u32,
    packing: PhantomData<B>,
    ghost in_room: { n ≤ MAX_CELLS },
    ghost is_whole: { length bytes.now ≡ packed_len B.PER_BYTE n },
}

/// A table of numbers below 3, five a byte, in bytes that are lent.
pub type LentTrits<'a> = LentDigits<'a, Threes>;

/// A table of numbers below 4, four a byte, in bytes that are lent.
pub type LentCrumbs<'a> = LentDigits<'a, Fours>;

impl<'a, B: Packing> LentDigits<'a, B> {
    /// The table of the n cells that these bytes hold. There are as many bytes as the image of n cells has, and they may have any values:
    /// a byte of digits in base 3 counts modulo 243, and bits past the cells are not read.
    #[inline]
    pub fn new(n: u32, bytes: &'a [u8]) -> LentDigits<'a, B>
        requires room { n ≤ MAX_CELLS }
        requires whole { length bytes.now ≡ packed_len B.PER_BYTE n }
        ensures cells { ⟦<LentDigits<'a, B> as Lookup>⟧.cells result ≡ packed_cells B.BASE B.PER_BYTE n bytes.now }
    {
        LentDigits {
            bytes,
            n,
            packing: PhantomData,
        }
    }

    /// The table of n cells whose image these bytes are, or else their first fault, which is never `Memory`.
    pub fn of(n: u32, bytes: &'a [u8]) -> Result<LentDigits<'a, B>, ImageFault>
        requires room { n ≤ MAX_CELLS }
        requires whole { length bytes.now ≡ packed_len B.PER_BYTE n }
        ensures sound { IsOk result → packed_fault B.BASE B.PER_BYTE n bytes.now ≡ None }
        ensures fault { IfErr result (λ e. packed_fault B.BASE B.PER_BYTE n bytes.now ≡ Some e) }
        ensures cells { IfOk result (λ t. ⟦<LentDigits<'a, B> as Lookup>⟧.cells t ≡ packed_cells B.BASE B.PER_BYTE n bytes.now) }
    {
        match fault_in::<B>(n, bytes) {
            Some(fault) => Err(fault),
            None => Ok(Self::new(n, bytes)),
        }
    }

    /// The bytes of the table, the first cell in the lowest bits or digit of the first byte.
    #[inline]
    pub fn bytes(&self) -> &'a [u8]
        ensures whole { length result.now ≡ packed_len B.PER_BYTE (length (⟦<LentDigits<'a, B> as Lookup>⟧.cells self.now)) }
        ensures cells { ⟦<LentDigits<'a, B> as Lookup>⟧.cells self.now ≡ packed_cells B.BASE B.PER_BYTE (length (⟦<LentDigits<'a, B> as Lookup>⟧.cells self.now)) result.now }
    {
        self.bytes
    }
}

impl<'a, B: Packing> Lookup for LentDigits<'a, B> {
    ghost bound_of = { λ t. B.BASE };

    ghost cells = { λ t. packed_cells B.BASE B.PER_BYTE t.n t.bytes.now };

    ghost in_bound = { λ t. AllBelow-packed_cells B.BASE B.PER_BYTE t.n t.bytes.now (zero_lt B.BASE B.is_base) };

    ghost in_room = { λ t. packed_room B.BASE B.PER_BYTE t.n t.bytes.now t.in_room };

    fn len(&self) -> u32 {
        self.n
    }

    fn get(&self, i: u32) -> u32 {
        let per_byte = B::PER_BYTE;
        B::digit(self.bytes[(i / per_byte) as usize], i % per_byte)
    }
}
