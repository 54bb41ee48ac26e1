//! The numbers of keys in lent memory.
ghost use Rattle.std.specs.Prelude.{◌≡◌, ◌≤◌, ◌+◌, Option, length};
ghost use Rattle.cm_lib_lent.specs.Numbers.{AreAnswered, ArePlaces, ArePut};
ghost use Rattle.cm_lib_lent.specs.Numbers as numbers;

use arrayvec::ArrayVec;
use cm_algo_scheme::{Answers, Place};
use cm_keys_lent::LentKeys;

/// What stands for the number of a key that has none. It is above every span.
pub const NONE: u32 = 4_294_967_295;

/// How many keys are looked up together.
const MOST: usize = 32;

/// The number of an answer, or `NONE`.
#[inline]
pub fn number_or_none(answer: Option<u32>) -> u32
    ensures number { result ≡ numbers.number_or_none answer }
{
    match answer {
        Some(number) => number,
        None => NONE,
    }
}

/// Where a function looks up the keys from `from` on, up to `until`, four keys at a time.
fn place_keys<A: Answers>(
    function: &A,
    keys: &LentKeys<'_>,
    from: usize,
    until: usize,
    places: &mut ArrayVec<Place, MOST>,
)
    requires order { from ≤ until }
    requires few { until ≤ from + 32 }
    requires inside { until ≤ length keys.now.ends }
    ensures places { ArePlaces (A.place_of function.now) keys.now from until places.new.items }
{
    places.clear();
    let fours = (until - from) / 4;
    for g in 0..fours {
        let first = from + 4 * g;
        let four = function.places_of_four(
            keys.key(first),
            keys.key(first + 1),
            keys.key(first + 2),
            keys.key(first + 3),
        );
        if places.try_extend_from_slice(&four).is_err() {
            unreachable!();
        }
    }
    for i in from + 4 * fours..until {
        places.push(function.place(keys.key(i)));
    }
}

/// The answers to the keys from `from` on, up to `until`. All places come first, so that the cache misses of their cells overlap.
fn answer_keys<A: Answers>(
    function: &A,
    keys: &LentKeys<'_>,
    from: usize,
    until: usize,
    answers: &mut [Option<u32>; MOST],
)
    requires order { from ≤ until }
    requires few { until ≤ from + 32 }
    requires inside { until ≤ length keys.now.ends }
    ensures answered { AreAnswered (A.answer_of function.now) keys.now from until answers.new }
{
    let mut places = ArrayVec::<Place, MOST>::new();
    place_keys(function, keys, from, until, &mut places);
    function.answer_all(places.as_slice(), &mut answers[..until - from]);
}

/// Puts the numbers of the keys from `from` on, up to `until`.
fn put_numbers<A: Answers>(
    function: &A,
    keys: &LentKeys<'_>,
    from: usize,
    until: usize,
    numbers: &mut [u32],
)
    requires order { from ≤ until }
    requires few { until ≤ from + 32 }
    requires inside { until ≤ length keys.now.ends }
    requires room { length keys.now.ends ≤ length numbers.old }
    ensures put { ArePut (A.answer_of function.now) keys.now from until numbers.old numbers.new }
{
    let mut answers = [None; MOST];
    answer_keys(function, keys, from, until, &mut answers);
    for i in from..until {
        numbers[i] = number_or_none(answers[i - from]);
    }
}

/// Puts the number of each key into its place, or `NONE` if it has none. There are at least as many places as keys, and those past the
/// last key's stay as they were. Keys are looked up 32 at a time. No call takes memory.
pub fn answers_into<A: Answers>(function: &A, keys: &LentKeys<'_>, numbers: &mut [u32])
    requires room { length keys.now.ends ≤ length numbers.old }
    ensures put { ArePut (A.answer_of function.now) keys.now 0 (length keys.now.ends) numbers.old numbers.new }
{
    let count = keys.count();
    for g in 0..count.div_ceil(MOST) {
        let from = MOST * g;
        put_numbers(function, keys, from, count.min(from + MOST), numbers);
    }
}
