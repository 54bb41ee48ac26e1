//! What is measured of a table.
ghost use Rattle.std.specs.Prelude.{◌≡◌, ◌<◌, ◌≤◌, length, IfOk};

use crate::random::{below, random};
use cm_bits::{Cells, MAX_CELLS};
use std::alloc::Global;
use std::io;

/// Random writes.
#[inline(never)]
pub fn write<C: Cells>(table: &mut C, turns: u32)
    requires some { 0 < length (C.cells table.old) }
    requires positive { 0 < C.bound_of table.old }
    ensures len { length (C.cells table.new) ≡ length (C.cells table.old) }
    ensures bound { C.bound_of table.new ≡ C.bound_of table.old }
{
    let n = table.len();
    let bound = table.bound();
    for turn in 0..turns {
        let x = random(turn);
        table.set(below(x, n), below(x.wrapping_mul(0xc2b2_ae3d), bound));
    }
}

/// Random reads, added up.
#[inline(never)]
pub fn read<C: Cells>(table: &C, turns: u32) -> u32
    requires { 0 < length (C.cells table.now) }
{
    let n = table.len();
    let mut sum: u32 = 0;
    for turn in 0..turns {
        sum = sum.wrapping_add(table.get(below(random(turn), n)));
    }
    sum
}

/// Each byte of the image in turn.
#[inline(never)]
pub fn write_image<C: Cells>(table: &C, image: &mut [u8])
    requires { length image.old ≡ C.image_size (length (C.cells table.now)) (C.bound_of table.now) }
    ensures { length image.new ≡ length image.old }
{
    for (i, byte) in image.iter_mut().enumerate() {
        *byte = table.byte(i as u64);
    }
}

/// A table from its image.
#[inline(never)]
pub fn read_image<C: Cells>(alloc: Global, n: u32, bound: u32, image: &[u8]) -> io::Result<C>
    requires room { n ≤ MAX_CELLS }
    requires fit { C.fits bound }
    requires whole { length image.now ≡ C.image_size n bound }
    ensures len { IfOk result (λ t. length (C.cells t) ≡ n) }
{
    match C::from_image(alloc, n, bound, image) {
        Ok(table) => Ok(table),
        Err(_) => Err(io::Error::from(io::ErrorKind::InvalidData)),
    }
}

/// A check sum of bytes.
pub fn check(bytes: &[u8]) -> u32 {
    let mut sum: u32 = 0;
    for byte in bytes {
        sum = sum.wrapping_mul(31).wrapping_add(*byte as u32);
    }
    sum
}
