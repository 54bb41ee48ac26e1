//! The lengths of fingerprints.
ghost use Rattle.std.specs.Prelude.{◌≡◌};

/// The least number of bits that a fingerprint may have.
pub const MIN_FINGERPRINT: u8 = 1;

/// The greatest number of bits that a fingerprint may have.
pub const MAX_FINGERPRINT: u8 = 16;

/// A fingerprint has from 1 to 16 bits.
pub fn of_fingerprints()
    ensures least { MIN_FINGERPRINT ≡ 1 }
    ensures greatest { MAX_FINGERPRINT ≡ 16 }
{}
