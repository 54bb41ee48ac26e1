//! What the values of the options stand for. None of these takes memory.
ghost use Rattle.std.specs.Prelude.{◌≡◌, ◌≤◌, IfOk, IsNone, max, min, option_map, true};
ghost use Rattle.std.specs.Option.{ForSome};
ghost use Rattle.cm_algo_names.specs.declared.algorithm.Algorithm.TheVariants.{Bdz, Brz};
ghost use Rattle.cm_spec.specs.Rule.{IsRatio};
ghost use Rattle.cm_words_values.specs.Limits.{IsBuffer, IsCount, IsFirst, IsSampling, IsTestSize, IsWidth};
ghost use Rattle.cm_words_values.specs.Options.{algorithm_value, bits_value, buffer_value, count_value, first_value, hash_value, number_value, optional_value, ratio_value, seed_value, test_value};

use crate::{BadValue, MAX_SEEDS, MAX_TEST_KEYS, MEGABYTE, millionths, whole};
use cm_algo_names::Algorithm;
use cm_spec::{MAX_WIDTH, MIN_WIDTH};

/// The whole number of an option, from `least` to `most`, or `missing` if it isn't given.
pub fn number(
    text: Option<&str>,
    letter: u8,
    least: u32,
    most: u32,
    missing: u32,
) -> Result<u32, BadValue>
    ensures value { result ≡ number_value letter least most missing (option_map (λ s. s.now) text.entry) }
    ensures within { IfOk result (λ n. (min least missing ≤ n) × (n ≤ max most missing)) }
{
    match text {
        Some(text) => whole(text.as_bytes(), least, most).ok_or(BadValue { letter }),
        None => Ok(missing),
    }
}

/// The whole number of an option, from `least` to `most`, if it is given.
pub fn optional(
    text: Option<&str>,
    letter: u8,
    least: u32,
    most: u32,
) -> Result<Option<u32>, BadValue>
    ensures value { result ≡ optional_value letter least most (option_map (λ s. s.now) text.entry) }
    ensures within { IfOk result (λ found. ForSome found (λ n. (least ≤ n) × (n ≤ most))) }
{
    match text {
        Some(text) => match whole(text.as_bytes(), least, most) {
            Some(n) => Ok(Some(n)),
            None => Err(BadValue { letter }),
        },
        None => Ok(None),
    }
}

/// `-a`: the algorithm with this name; CHM if it isn't given.
pub fn algorithm(text: Option<&str>) -> Result<Algorithm, BadValue>
    ensures value { result ≡ algorithm_value (option_map (λ s. s.now) text.entry) }
{
    match text {
        Some(text) => Algorithm::from_name(text).ok_or(BadValue { letter: b'a' }),
        None => Ok(Algorithm::Chm),
    }
}

/// `-b`: in a build by BDZ the sampling of ranks, from 3 to 10, and 7 if it isn't given; in one by BRZ the number of keys that a
/// bucket has on average, from `MIN_WIDTH` to `MAX_WIDTH`, and 128 if it isn't given. Elsewhere it is any number, and the result is 0.
pub fn bits(text: Option<&str>, builds: bool, algorithm: Algorithm) -> Result<u16, BadValue>
    ensures value { result ≡ bits_value builds algorithm (option_map (λ s. s.now) text.entry) }
    ensures sampling { IfOk result (λ n. (builds ≡ true) × (algorithm ≡ Bdz) → IsSampling n) }
    ensures width { IfOk result (λ n. (builds ≡ true) × (algorithm ≡ Brz) → IsWidth n) }
{
    match algorithm {
        Algorithm::Bdz if builds => Ok(number(text, b'b', 3, 10, 7)? as u16),
        Algorithm::Brz if builds => Ok(
            number(text, b'b', MIN_WIDTH as u32, MAX_WIDTH as u32, 128)? as u16,
        ),
        _ => {
            number(text, b'b', 0, u32::MAX, 0)?;
            Ok(0)
        }
    }
}

/// `-c`: the ratio of vertices to keys in millionths, from 1,000,000 to 10,000,000; 2,090,000 for CHM and 1,230,000 for the
/// others if it isn't given.
pub fn ratio(text: Option<&str>, algorithm: Algorithm) -> Result<u32, BadValue>
    ensures value { result ≡ ratio_value algorithm (option_map (λ s. s.now) text.entry) }
    ensures within { IfOk result IsRatio }
{
    match text {
        Some(text) => millionths(text.as_bytes()).ok_or(BadValue { letter: b'c' }),
        None => match algorithm {
            Algorithm::Chm => Ok(2_090_000),
            _ => Ok(1_230_000),
        },
    }
}

/// `-f`: tests the name of the hash function, of which there is one, `jenkins`.
pub fn hash(text: Option<&str>) -> Result<(), BadValue>
    ensures { result ≡ hash_value (option_map (λ s. s.now) text.entry) }
{
    match text {
        Some(text) if text != "jenkins" => Err(BadValue { letter: b'f' }),
        _ => Ok(()),
    }
}

/// `-k`: how many lines are read, at least 1, if it is given.
pub fn first(text: Option<&str>) -> Result<Option<u32>, BadValue>
    ensures value { result ≡ first_value (option_map (λ s. s.now) text.entry) }
    ensures within { IfOk result IsFirst }
{
    optional(text, b'k', 1, u32::MAX)
}

/// `-M`: a buffer in bytes, from 1 to 1,024 megabytes, which the option counts; 1 megabyte if it isn't given.
pub fn buffer(text: Option<&str>) -> Result<u32, BadValue>
    ensures value { result ≡ buffer_value (option_map (λ s. s.now) text.entry) }
    ensures within { IfOk result IsBuffer }
{
    Ok(number(text, b'M', 1, 1024, 1)? * MEGABYTE)
}

/// `-r`: how many seeds are tried at most, from 1 to `MAX_SEEDS`; 100 if it isn't given.
pub fn count(text: Option<&str>) -> Result<u32, BadValue>
    ensures value { result ≡ count_value (option_map (λ s. s.now) text.entry) }
    ensures within { IfOk result IsCount }
{
    number(text, b'r', 1, MAX_SEEDS, 100)
}

/// `-s`: the first seed that is tried; 1 if it isn't given.
pub fn seed(text: Option<&str>) -> Result<u32, BadValue>
    ensures value { result ≡ seed_value (option_map (λ s. s.now) text.entry) }
{
    number(text, b's', 0, u32::MAX, 1)
}

/// `-T`: how many generated keys a test has, from 1 to `MAX_TEST_KEYS`, if it is given.
pub fn test(text: Option<&str>) -> Result<Option<u32>, BadValue>
    ensures value { result ≡ test_value (option_map (λ s. s.now) text.entry) }
    ensures within { IfOk result (λ found. ForSome found IsTestSize) }
    ensures missing { IfOk result (λ found. IsNone found → IsNone (option_map (λ s. s.now) text.entry)) }
{
    optional(text, b'T', 1, MAX_TEST_KEYS)
}
