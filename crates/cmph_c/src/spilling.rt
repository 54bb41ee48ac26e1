//! A function by BRZ is built in memory of the caller's, with its keys in a spill that is memory of the caller's too.
ghost use Rattle.std.specs.Prelude.{◌≡◌, ◌≢◌, ◌↔◌, ◌≤◌, IfSome, IsSome, IsTrue, length};
ghost use Rattle.cm_algo_names.specs.declared.algorithm.Algorithm.TheVariants.{Brz};
ghost use Rattle.cm_spec.specs.declared.limits.TheConstants.{MAX_WIDTH, MIN_WIDTH};
ghost use Rattle.cm_tool_builds.specs.Plans.{IsPlan};
ghost use Rattle.cmph_c.specs.Spilling.{IsBrzBuilt, IsBrzPlanFor, IsBrzUnbuilt, IsGoodBrz};
ghost use Rattle.cmph_c.specs.declared.function.TheConstants.{BRZ};

use crate::building::{Plan, why};
use crate::codes::{BAD_PLAN, OK, Place, at_only, ends_code_of};
use crate::function::BRZ;
use cm_algo_names::Algorithm;
use cm_brz::{MAX_WIDTH, MIN_WIDTH};
use cm_keys_lent::LentKeys;
use cm_lib_lent::build_brz_into;
use cm_spec::{MAX_RATIO, MIN_RATIO};
use cm_tool_builds::Plan as Planned;
use cm_tool_cells::seeds;
use cm_words_values::MAX_SEEDS;
use std::alloc::Global;

/// How many bytes the buffer before the spill has.
const BUFFER: u32 = 1_048_576;

/// Whether the numbers that only BRZ has are in their ranges.
fn has_width(plan: &Plan) -> bool
    ensures { IsTrue result ↔ ((plan.now.algorithm ≡ BRZ) × (MIN_WIDTH ≤ plan.now.b) × (plan.now.b ≤ MAX_WIDTH)) }
{
    plan.algorithm == BRZ && plan.b >= MIN_WIDTH as u32 && plan.b <= MAX_WIDTH as u32
}

/// The plan of a build by BRZ, or none if a number is not in its range.
fn planned_brz(plan: &Plan) -> Option<Planned>
    ensures good { IsSome result ↔ IsGoodBrz plan.now }
    ensures plan { IfSome result (IsBrzPlanFor plan.now) }
    ensures valid { IfSome result IsPlan }
    ensures by { IfSome result (λ p. p.algorithm ≡ Brz) }
{
    if plan.ratio < MIN_RATIO
        || plan.ratio > MAX_RATIO
        || plan.tries < 1
        || plan.tries > MAX_SEEDS
        || !has_width(plan)
    {
        return None;
    }
    Some(Planned {
        algorithm: Algorithm::Brz,
        c: plan.ratio,
        b: plan.b as u16,
        buffer: BUFFER,
    })
}

/// Builds the function of keys in memory by BRZ, under the first of the plan's seeds that works, and puts its file into the first bytes of
/// the room, of version 2. `written` is then how many bytes that are. The keys stand one after another in `keys`, each up to its end. They are
/// stored in the spill, which needs as many bytes as they have, and ten more for each; it has any bytes afterwards. Returns `OK`, or `BAD_PLAN`,
/// `BAD_END` with the first key whose end is wrong, `TOO_MANY_KEYS`, `NO_SPILL` with the number of bytes that the spill needs, `NO_KEYS`,
/// `EQUAL_KEYS` with the first pair, `NO_SPLIT`, `NO_SEED`, `NO_ROOM` with the number of bytes that are needed, or `MEMORY`, and then the room
/// stays as it was. Memory of the C library is taken while it builds, and returned.
#[unsafe(no_mangle)]
pub extern "C" fn cmph_c_build_brz(
    alloc: Global,
    keys: &[u8],
    ends: &[u64],
    plan: &Plan,
    spill: &mut [u8],
    room: &mut [u8],
    written: &mut u64,
    place: &mut Place,
) -> u32
    ensures built { result ≡ OK → IsBrzBuilt plan.now keys.now ends.now (length spill.old) written.new room.old room.new }
    ensures refused { result ≢ OK → IsBrzUnbuilt plan.now keys.now ends.now (length spill.old) (length room.old) result place.new }
    ensures kept { result ≢ OK → (room.new ≡ room.old) × (written.new ≡ written.old) }
    ensures unplaced { result ≡ OK → place.new ≡ place.old }
{
    let planned = match planned_brz(plan) {
        Some(planned) => planned,
        None => {
            *place = at_only(0);
            return BAD_PLAN;
        }
    };
    let mut pass = match LentKeys::new(keys, ends) {
        Ok(pass) => pass,
        Err(fault) => {
            let (code, at) = ends_code_of(fault);
            *place = at_only(at);
            return code;
        }
    };
    let tried = seeds(plan.seed, plan.tries);
    match build_brz_into(alloc, &planned, &tried, &mut pass, spill, room) {
        Ok(len) => {
            *written = len as u64;
            OK
        }
        Err(fault) => {
            let (code, found) = why(fault);
            *place = found;
            code
        }
    }
}
