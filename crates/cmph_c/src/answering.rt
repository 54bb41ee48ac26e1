//! The numbers of keys.
ghost use Rattle.std.specs.Prelude.{◌≡◌, ◌≢◌, ◌<◌, IfNone, IfSome};
ghost use Rattle.cm_dump_lent.specs.Opened.{lent_answer};
ghost use Rattle.cm_dump_lent.specs.declared.lent.Lent.{Lent};
ghost use Rattle.cm_lib_lent.specs.Numbers.{number_or_none};
ghost use Rattle.cm_lib_lent.specs.declared.numbers.TheConstants.{NONE};
ghost use Rattle.cmph_c.specs.Answering.{ArePutBy, IsUnput};
ghost use Rattle.cmph_c.specs.Functions.{Holds, IsHeld};

use crate::codes::{NO_FUNCTION, NO_ROOM, OK, Place, at_only, ends_code_of};
use crate::function::{
    BDZ, BDZ_PH, BRZ, CHM, Function, bdz_held, bdz_ph_held, brz_held, chm_held, held,
};
use cm_algo_scheme::{Answers, answer};
use cm_keys_lent::LentKeys;
use cm_lib_lent::{NONE, answers_into, number_or_none};

/// The number of a key by a function, or `2^32 - 1` if there is none.
#[inline(always)]
fn number_by<A: Answers + Drop>(function: Option<A>, key: &[u8]) -> u32
    ensures number { IfSome function (λ f. result ≡ number_or_none (A.answer_of f key.now)) }
    ensures below { IfSome function (λ f. result ≢ NONE → result < A.span_of f) }
    ensures none { IfNone function (result ≡ NONE) }
{
    match function {
        Some(function) => number_or_none(answer(&function, key)),
        None => NONE,
    }
}

/// The number of a key by the function that a struct holds, or `2^32 - 1` if the key has none, or the struct holds no function. It is below the
/// span, whatever the struct and the bytes are. The algorithm is looked at once.
#[unsafe(no_mangle)]
pub extern "C" fn cmph_c_answer(function: &Function<'_>, key: &[u8]) -> u32
    ensures number { (f : Lent) → Holds function.now f → result ≡ number_or_none (lent_answer f key.now) }
    ensures none { (IsHeld function.now → ⊥) → result ≡ NONE }
    ensures below { result ≢ NONE → result < function.now.span }
{
    match function.kind {
        CHM => number_by(chm_held(function), key),
        BDZ => number_by(bdz_held(function), key),
        BDZ_PH => number_by(bdz_ph_held(function), key),
        BRZ => number_by(brz_held(function), key),
        _ => NONE,
    }
}

/// The numbers of many keys by the function that a struct holds. The keys stand one after another in `keys`, each up to its end. Number `i` is that of
/// key `i`, below the span, or `2^32 - 1`; those past the last key's stay as they were. Returns `OK`, or `NO_FUNCTION`, `BAD_END` with the first key whose end is wrong,
/// `TOO_MANY_KEYS`, or `NO_ROOM` with the number of keys, and then no number is put.
#[unsafe(no_mangle)]
pub extern "C" fn cmph_c_answers(
    function: &Function<'_>,
    keys: &[u8],
    ends: &[u64],
    numbers: &mut [u32],
    place: &mut Place,
) -> u32
    ensures put { result ≡ OK → ArePutBy function.now keys.now ends.now numbers.old numbers.new }
    ensures refused { result ≢ OK → IsUnput function.now keys.now ends.now numbers.old result place.new }
    ensures kept { result ≢ OK → numbers.new ≡ numbers.old }
    ensures unplaced { result ≡ OK → place.new ≡ place.old }
{
    let lent = match held(function) {
        Some(lent) => lent,
        None => {
            *place = at_only(0);
            return NO_FUNCTION;
        }
    };
    let pass = match LentKeys::new(keys, ends) {
        Ok(pass) => pass,
        Err(fault) => {
            let (code, at) = ends_code_of(fault);
            *place = at_only(at);
            return code;
        }
    };
    if numbers.len() < pass.count() {
        *place = at_only(pass.count() as u64);
        return NO_ROOM;
    }
    answers_into(&lent, &pass, numbers);
    OK
}
