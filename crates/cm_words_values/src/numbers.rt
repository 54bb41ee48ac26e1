//! Numbers as command lines write them.
ghost use Rattle.std.specs.Prelude.{◌≡◌, ◌-◌, ◌<◌, ◌≤◌, ◌^◌, ◌==◌, IfSome, length};
ghost use Rattle.std.specs.List.{position_from};
ghost use Rattle.cm_words_values.specs.Digits.{decimal_at, millionths_of, number_of, places_of, units_of, whole_of};

use cm_spec::{MAX_RATIO, MIN_RATIO};

/// The number that the digits write, if there are from one to `most` of them.
fn digits(text: &[u8], most: usize) -> Option<u64>
    requires { most ≤ 10 }
    ensures value { result ≡ number_of most text.now }
    ensures small { IfSome result (λ n. n < 10 ^ length text.now) }
    ensures short { IfSome result (λ _. length text.now ≤ most) }
{
    if text.is_empty() || text.len() > most {
        return None;
    }
    let mut value: u64 = 0;
    for byte in text {
        if !byte.is_ascii_digit() {
            return None;
        }
        value = 10 * value + (*byte - b'0') as u64;
    }
    Some(value)
}

/// The number that a text of one to ten decimal digits writes, if it is from `least` to `most`. Leading zeros are digits like others.
/// It takes no memory.
pub fn whole(text: &[u8], least: u32, most: u32) -> Option<u32>
    ensures value { result ≡ whole_of least most text.now }
    ensures within { IfSome result (λ n. (least ≤ n) × (n ≤ most)) }
{
    match digits(text, 10) {
        Some(value) if least as u64 <= value && value <= most as u64 => Some(value as u32),
        _ => None,
    }
}

/// What one unit of the last digit is in millionths, with this many digits after the point.
fn scale(places: usize) -> u64
    requires { places ≤ 6 }
    ensures { result ≡ 10 ^ (6 - places) }
{
    match places {
        0 => 1_000_000,
        1 => 100_000,
        2 => 10_000,
        3 => 1_000,
        4 => 100,
        5 => 10,
        _ => 1,
    }
}

/// The millionths of the digits after a point, of which there are one to six.
fn places(text: &[u8]) -> Option<u64>
    ensures value { result ≡ places_of text.now }
    ensures small { IfSome result (λ n. n < 1000000) }
{
    match digits(text, 6) {
        Some(value) => Some(value * scale(text.len())),
        None => None,
    }
}

/// The millionths of one or two digits.
fn units(text: &[u8]) -> Option<u64>
    ensures value { result ≡ units_of text.now }
    ensures small { IfSome result (λ n. n < 100000000) }
{
    match digits(text, 2) {
        Some(value) => Some(1_000_000 * value),
        None => None,
    }
}

/// The place of the first point.
fn point_of(text: &[u8]) -> Option<usize>
    ensures place { result ≡ position_from (λ b. b == 46) 0 text.now }
    ensures within { IfSome result (λ i. i < length text.now) }
{
    for (i, byte) in text.iter().enumerate() {
        if *byte == b'.' {
            return Some(i);
        }
    }
    None
}

/// The millionths of a decimal whose first point stands at this place, or that has none.
fn decimal(text: &[u8], point: Option<usize>) -> Option<u64>
    requires { IfSome point (λ i. i < length text.now) }
    ensures value { result ≡ decimal_at point text.now }
    ensures small { IfSome result (λ n. n < 101000000) }
{
    match point {
        None => units(text),
        Some(point) => match (units(&text[..point]), places(&text[point + 1..])) {
            (Some(units), Some(places)) => Some(units + places),
            _ => None,
        },
    }
}

/// The millionths of a decimal from 1 to 10: one or two digits, and then nothing or a point and one to six digits. It
/// takes no memory.
pub fn millionths(text: &[u8]) -> Option<u32>
    ensures value { result ≡ millionths_of text.now }
    ensures within { IfSome result (λ n. (1000000 ≤ n) × (n ≤ 10000000)) }
{
    match decimal(text, point_of(text)) {
        Some(value) if MIN_RATIO as u64 <= value && value <= MAX_RATIO as u64 => Some(value as u32),
        _ => None,
    }
}
