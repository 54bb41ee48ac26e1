//! The numbers of a line, each after the bytes that stand before it.
ghost use Rattle.std.specs.Prelude.{◌≡◌, ◌≤◌, ◌<◌, take, drop, length, false};
ghost use Rattle.std.specs.Str.Parse.{AllDigits, digits_value};
ghost use Rattle.cm_witness_report.specs.Fields.{Finds, ends as ends_here, field_at, number_at, starts_digit};

/// One digit more than the largest number of 32 bits has.
const MANY_DIGITS: usize = 11;

/// How many digits a number has that begins with a zero.
const ZERO_DIGITS: usize = 1;

/// The number that the first digits of a text write, of at most eleven digits, and how many these are.
fn first_digits(text: &[u8]) -> (u64, usize)
    ensures inside { result.1 ≤ length text.now }
    ensures few { result.1 ≤ MANY_DIGITS }
    ensures digits { AllDigits 10 (take result.1 text.now) }
    ensures value { result.0 ≡ digits_value 10 (take result.1 text.now) }
    ensures stops { result.1 < MANY_DIGITS → starts_digit (drop result.1 text.now) ≡ false }
{
    let mut value = 0;
    let mut n = 0;
    while n < MANY_DIGITS {
        if n == text.len() {
            return (value, n);
        }
        let byte = text[n];
        if !byte.is_ascii_digit() {
            return (value, n);
        }
        value = value * 10 + u64::from(byte - b'0');
        n += 1;
    }
    (value, n)
}

/// The number that a text begins with, and what follows it: one to ten digits, without a zero before others, and at most 32 bits.
fn number(text: &[u8]) -> Option<(u32, &[u8])>
    ensures { Finds (λ x. (x.0, x.1.now)) result (number_at text.now) }
{
    let (value, n) = first_digits(text);
    if n == 0 {
        return None;
    }
    if n == MANY_DIGITS {
        return None;
    }
    if text[0] == b'0' && n > ZERO_DIGITS {
        return None;
    }
    if value > u64::from(u32::MAX) {
        return None;
    }
    Some((value as u32, &text[n..]))
}

/// The number that stands after these bytes at the start of a text, and what follows it.
#[tactic(auto, unfolding(crate::specs::Fields::field_at))]
pub(crate) fn field<'a>(part: &[u8], text: &'a [u8]) -> Option<(u32, &'a [u8])>
    ensures { Finds (λ x. (x.0, x.1.now)) result (field_at part.now text.now) }
{
    let rest = text.strip_prefix(part)?;
    number(rest)
}

/// Whether the line ends here.
pub(crate) fn ends(text: &[u8]) -> bool
    ensures { result ≡ ends_here text.now }
{
    text.len() == 1 && text[0] == b'\n'
}
