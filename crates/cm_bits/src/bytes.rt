//! Searches in bytes, eight bytes as one number, and parts of such a number.
ghost use Rattle.std.specs.Prelude.{◌≡◌, ◌+◌, ◌*◌, ◌/◌, ◌%◌, ◌^◌, ◌<◌, ◌≤◌, ◌↔◌, ℕ, IsTrue, length, position, slice_index, nat_le};
ghost use Rattle.cm_bits.specs.Held.{IsMask, PutsWindow, window_at};

// The place of the first byte that is at least `low`.
pub fn first_byte_from(bytes: &[u8], low: u32) -> Option<usize>
    ensures { result ≡ position (λ b. nat_le low b) bytes.now }
{
    bytes.iter().position(|b| *b as u32 >= low)
}

// The largest byte, or 0 if there is none.
fn largest(bytes: &[u8]) -> u8
    ensures { (k : ℕ) → slice_index bytes.now k ≤ result }
{
    let mut most = 0u8;
    for b in bytes {
        if *b > most {
            most = *b;
        }
    }
    most
}

// The place of the first byte that is at least `low`. Fast if there is none: the largest of many bytes is found at once.
pub fn rare_byte_from(bytes: &[u8], low: u32) -> Option<usize>
    ensures { result ≡ position (λ b. nat_le low b) bytes.now }
{
    if (largest(bytes) as u32) < low {
        return None;
    }
    first_byte_from(bytes, low)
}

/// The little-endian number of the eight bytes from place `at` on.
#[inline]
#[tactic(auto, unfolding(crate::specs::Held::window_at, cm_spec::specs::Image::digits_sum))]
pub fn window(bytes: &[u8], at: usize) -> u64
    requires { at + 8 ≤ length bytes.now }
    ensures { result ≡ window_at bytes.now at }
{
    u64::from_le_bytes([
        bytes[at],
        bytes[at + 1],
        bytes[at + 2],
        bytes[at + 3],
        bytes[at + 4],
        bytes[at + 5],
        bytes[at + 6],
        bytes[at + 7],
    ])
}

// Writes a number to eight bytes from a place on, little-endian.
#[inline]
pub fn put_window(bytes: &mut Vec<u8>, at: usize, number: u64)
    requires { at + 8 ≤ length bytes.old.items }
    ensures { PutsWindow at number bytes.old.items bytes.new.items }
{
    bytes[at..at + 8].copy_from_slice(&number.to_le_bytes());
}

// The mask of the lowest `width` bits.
#[inline]
pub fn ones(width: u32) -> u32
    requires { width ≤ 26 }
    ensures { result + 1 ≡ 2 ^ width }
{
    (1 << width) - 1
}

// The bits of a number from bit `shift` on that a mask of the lowest bits selects.
#[inline]
pub fn part(number: u64, shift: u64, mask: u32) -> u32
    requires shift { shift < 8 }
    requires ones { IsMask mask }
    ensures { result ≡ number / 2 ^ shift % (mask + 1) }
{
    ((number >> shift) & mask as u64) as u32
}

// Whether such a part is below the bound. The mask and the bound are shifted instead of the number: a loop does that once.
#[inline]
pub fn is_part_below(number: u64, shift: u64, mask: u32, bound: u32) -> bool
    requires shift { shift < 34 }
    requires ones { IsMask mask }
    requires bound { bound ≤ mask + 1 }
    ensures { IsTrue result ↔ (number / 2 ^ shift % (mask + 1) < bound) }
{
    number & ((mask as u64) << shift) < (bound as u64) << shift
}

// The number with such a part replaced.
#[inline]
pub fn with_part(number: u64, shift: u64, mask: u32, value: u32) -> u64
    requires shift { shift < 8 }
    requires ones { IsMask mask }
    requires value { value ≤ mask }
    ensures { result + number / 2 ^ shift % (mask + 1) * 2 ^ shift ≡ number + value * 2 ^ shift }
{
    let old = number & ((mask as u64) << shift);
    number - old + ((value as u64) << shift)
}
