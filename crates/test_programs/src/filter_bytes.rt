//! Filter files of few keys, with the ratio 1.23.

/// The filter of the empty key, under seed 0 and with fingerprints of 8 bits: cell 1 has the fingerprint.
pub(crate) const ONE: [u8; 33] = [
    0x43, 0x4d, 0x50, 0x48, 0x46, 0x4c, 0x54, 0x31, 8, 0, 0, 0, 1, 0, 0, 0, 0xb0, 0xc4, 0x12, 0, 0,
    0, 0, 0, 0, 0xfd, 0, 0, 0, 0, 0, 0, 0,
];

/// The same of the empty key and `a`, whose fingerprint is in cell 2.
pub(crate) const TWO: [u8; 33] = [
    0x43, 0x4d, 0x50, 0x48, 0x46, 0x4c, 0x54, 0x31, 8, 0, 0, 0, 2, 0, 0, 0, 0xb0, 0xc4, 0x12, 0, 0,
    0, 0, 0, 0, 0xfd, 0x0a, 0, 0, 0, 0, 0, 0,
];

/// The same with fingerprints of one bit: 1 of the empty key, and 0 of `a`.
pub(crate) const NARROW: [u8; 26] = [
    0x43, 0x4d, 0x50, 0x48, 0x46, 0x4c, 0x54, 0x31, 1, 0, 0, 0, 2, 0, 0, 0, 0xb0, 0xc4, 0x12, 0, 0,
    0, 0, 0, 2, 0,
];

/// The same with a bit after its cells.
pub(crate) const NARROW_PADDED: [u8; 26] = [
    0x43, 0x4d, 0x50, 0x48, 0x46, 0x4c, 0x54, 0x31, 1, 0, 0, 0, 2, 0, 0, 0, 0xb0, 0xc4, 0x12, 0, 0,
    0, 0, 0, 2, 2,
];

/// The filter of the empty key and `a`, with fingerprints of 16 bits.
pub(crate) const WIDE: [u8; 42] = [
    0x43, 0x4d, 0x50, 0x48, 0x46, 0x4c, 0x54, 0x31, 16, 0, 0, 0, 2, 0, 0, 0, 0xb0, 0xc4, 0x12, 0,
    0, 0, 0, 0, 0, 0, 0x4c, 0xfd, 0xab, 0x0a, 0, 0, 0, 0, 0, 0, 0, 0, 0, 0, 0, 0,
];

/// The filter of `b` and `p` under seed 1: under seed 0 both have the same edge.
pub(crate) const SECOND_SEED: [u8; 33] = [
    0x43, 0x4d, 0x50, 0x48, 0x46, 0x4c, 0x54, 0x31, 8, 0, 0, 0, 2, 0, 0, 0, 0xb0, 0xc4, 0x12, 0, 1,
    0, 0, 0, 0, 0x8d, 0x0a, 0, 0, 0, 0, 0, 0,
];

/// The filter of `c` and `m` under seed 0: under the last seed, 4,294,967,295, both have the same edge.
pub(crate) const AFTER_LAST_SEED: [u8; 33] = [
    0x43, 0x4d, 0x50, 0x48, 0x46, 0x4c, 0x54, 0x31, 8, 0, 0, 0, 2, 0, 0, 0, 0xb0, 0xc4, 0x12, 0, 0,
    0, 0, 0, 0, 0, 0, 0x8a, 0, 0x4a, 0, 0, 0,
];

/// The filter of the empty key and `a`, with the ratio 3.
pub(crate) const TRIPLE: [u8; 33] = [
    0x43, 0x4d, 0x50, 0x48, 0x46, 0x4c, 0x54, 0x31, 8, 0, 0, 0, 2, 0, 0, 0, 0xc0, 0xc6, 0x2d, 0, 0,
    0, 0, 0, 0, 0xfd, 0x0a, 0, 0, 0, 0, 0, 0,
];

/// A header that claims the most keys, the greatest ratio and fingerprints of one bit.
pub(crate) const GREATEST: [u8; 24] = [
    0x43, 0x4d, 0x50, 0x48, 0x46, 0x4c, 0x54, 0x31, 1, 0, 0, 0, 0, 0, 0, 4, 0x80, 0x96, 0x98, 0, 0,
    0, 0, 0,
];

/// The same with fingerprints of 16 bits.
pub(crate) const GREATEST_WIDE: [u8; 24] = [
    0x43, 0x4d, 0x50, 0x48, 0x46, 0x4c, 0x54, 0x31, 16, 0, 0, 0, 0, 0, 0, 4, 0x80, 0x96, 0x98, 0,
    0, 0, 0, 0,
];
