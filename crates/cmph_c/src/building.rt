//! A function is built in memory of the caller's.
ghost use Rattle.std.specs.Prelude.{◌≡◌, ◌≢◌, ◌↔◌, ℕ, List, IfSome, IsSome, Some, length};
ghost use Rattle.cm_algo_names.specs.declared.algorithm.Algorithm.TheVariants.{Brz};
ghost use Rattle.cm_lib_lent.specs.Builds.{IsSpilledKind};
ghost use Rattle.cm_tool_builds.specs.Plans.{IsPlan};
ghost use Rattle.cmph_c.specs.Building.{HasAlgorithm, IsBuildable, IsBuilt, IsGoodPlan, IsPlanFor, IsRoomFor, IsUnbuilt, again_of, algorithm_by, b_by, build_again, build_code, build_place, equal_code, first_of};

use crate::codes::{
    BAD_PLAN, EQUAL_KEYS, MEMORY, NO_KEYS, NO_ROOM, NO_SEED, NO_SPILL, NO_SPLIT, OK, Place,
    at_only, ends_code_of,
};
use crate::function::{BDZ, BDZ_PH, CHM};
use cm_algo_names::Algorithm;
use cm_brz::MIN_BYTES;
use cm_keys_lent::LentKeys;
use cm_lib_lent::{LentFault, build_into, dump_len, dumps_fit};
use cm_spec::{MAX_KEYS, MAX_RATIO, MIN_RATIO};
use cm_tool_builds::{FuncFault, Plan as Planned};
use cm_tool_cells::seeds;
use cm_witness_gather::Pair;
use cm_words_values::MAX_SEEDS;
use std::alloc::Global;

/// How a function is built.
#[repr(C)]
#[derive(Clone, Copy)]
pub struct Plan {
    /// `CHM`, `BDZ`, `BDZ_PH` or `BRZ`.
    pub algorithm: u32,
    /// The ratio of vertices to keys, from 1,000,000 to 10,000,000 millionths.
    pub ratio: u32,
    /// By BDZ the rank of every `2^b`-th cell is kept, with b from 3 to 10. By BRZ a bucket has b keys on average, from 64 to 700. The other
    /// algorithms don't use it.
    pub b: u32,
    /// The first seed that is tried.
    pub seed: u32,
    /// How many seeds are tried, from 1 to 1,000.
    pub tries: u32,
}

/// The algorithm of a number, and its parameter b: 0 if it has none. None for a number of no algorithm, or a b out of its range.
fn algorithm_of(plan: &Plan) -> Option<(Algorithm, u16)>
    ensures algorithm { IfSome result (λ a. (algorithm_by plan.now.algorithm ≡ Some a.0) × (a.1 ≡ b_by plan.now)) }
    ensures good { IsSome result ↔ HasAlgorithm plan.now }
{
    match plan.algorithm {
        CHM => Some((Algorithm::Chm, 0)),
        BDZ => {
            if plan.b < 3 || plan.b > 10 {
                return None;
            }
            Some((Algorithm::Bdz, plan.b as u16))
        }
        BDZ_PH => Some((Algorithm::BdzPh, 0)),
        _ => None,
    }
}

/// The plan of a build, or none if a number is not in its range.
fn planned(plan: &Plan) -> Option<Planned>
    ensures good { IsSome result ↔ IsGoodPlan plan.now }
    ensures plan { IfSome result (IsPlanFor plan.now) }
    ensures valid { IfSome result IsPlan }
    ensures unspilled { IfSome result (λ p. p.algorithm ≢ Brz) }
{
    if plan.ratio < MIN_RATIO
        || plan.ratio > MAX_RATIO
        || plan.tries < 1
        || plan.tries > MAX_SEEDS
    {
        return None;
    }
    match algorithm_of(plan) {
        Some((algorithm, b)) => Some(Planned {
            algorithm,
            c: plan.ratio,
            b,
            buffer: MIN_BYTES,
        }),
        None => None,
    }
}

/// How many bytes the file of a function of `keys` keys has that is built by this plan, or 0 if it can't be.
fn room_of(plan: &Plan, keys: u32) -> u64
    ensures room { IsBuildable plan.now keys → IsRoomFor plan.now keys result }
    ensures none { (IsBuildable plan.now keys → ⊥) → result ≡ 0 }
{
    if keys == 0 || keys > MAX_KEYS {
        return 0;
    }
    match planned(plan) {
        Some(planned) => dump_len(&planned, keys),
        None => 0,
    }
}

/// How many bytes the file of a function of `keys` keys has that is built by this plan: as many as `cmph_c_build` writes, whichever keys they are,
/// so it needs no greater room. 0 if a number of the plan is not in its range, or there are no keys, or more than 67,108,864. Nothing is built, and
/// no memory is taken.
#[unsafe(no_mangle)]
pub extern "C" fn cmph_c_room(plan: &Plan, keys: u32) -> u64
    ensures room { IsBuildable plan.now keys → IsRoomFor plan.now keys result }
    ensures none { (IsBuildable plan.now keys → ⊥) → result ≡ 0 }
    ensures written { (bytes ends old new : List ℕ) (written : ℕ) → length ends ≡ keys → IsBuilt plan.now bytes ends written old new → written ≡ result }
{
    // A law, for the proof alone.
    dumps_fit();
    room_of(plan, keys)
}

/// The code and the place for keys that stand in the way of every seed: those of the first two that are equal, or this code.
fn equal_or(equal: &[Pair], code: u32) -> (u32, Place)
    ensures code { result.0 ≡ equal_code code equal.now }
    ensures place { (result.1.at ≡ first_of equal.now) × (result.1.again ≡ again_of equal.now) }
{
    match equal.first() {
        Some(pair) => (
            EQUAL_KEYS,
            Place {
                at: (pair.first as u64).saturating_sub(1),
                again: (pair.again as u64).saturating_sub(1),
            },
        ),
        None => (code, at_only(0)),
    }
}

/// The code of a refused build, and its place.
pub(crate) fn why(fault: LentFault) -> (u32, Place)
    requires kind { IsSpilledKind fault }
    ensures code { result.0 ≡ build_code fault }
    ensures place { (result.1.at ≡ build_place fault) × (result.1.again ≡ build_again fault) }
{
    match fault {
        LentFault::Room { needed } => (NO_ROOM, at_only(needed)),
        LentFault::Spill { needed } => (NO_SPILL, at_only(needed)),
        LentFault::Build(FuncFault::Memory) => (MEMORY, at_only(0)),
        LentFault::Build(FuncFault::NoKeys) => (NO_KEYS, at_only(0)),
        LentFault::Build(FuncFault::Cored(shown)) => equal_or(&shown.equal, NO_SEED),
        LentFault::Build(FuncFault::Overfull { equal, .. }) => equal_or(&equal, NO_SPLIT),
        LentFault::Build(_) => unreachable!(),
    }
}

/// Builds the function of keys in memory by CHM, BDZ or BDZ_PH, under the first of the plan's seeds that works, and puts its file into the
/// first bytes of the room, of version 2. `written` is then how many bytes that are. The keys stand one after another in `keys`, each up to its
/// end. Returns `OK`, or `BAD_PLAN`, `BAD_END` with the first key whose end is wrong, `TOO_MANY_KEYS`, `NO_KEYS`, `NO_ROOM` with the number of bytes
/// that are needed, before anything is built, `EQUAL_KEYS` with the first pair, `NO_SEED`, or `MEMORY`, and then the room stays as it was. Memory of
/// the C library is taken while it builds, and returned.
#[tactic(auto, using(crate::proofs::BuildLemmas::spilled_too))]
#[unsafe(no_mangle)]
pub extern "C" fn cmph_c_build(
    alloc: Global,
    keys: &[u8],
    ends: &[u64],
    plan: &Plan,
    room: &mut [u8],
    written: &mut u64,
    place: &mut Place,
) -> u32
    ensures built { result ≡ OK → IsBuilt plan.now keys.now ends.now written.new room.old room.new }
    ensures refused { result ≢ OK → IsUnbuilt plan.now keys.now ends.now (length room.old) result place.new }
    ensures kept { result ≢ OK → (room.new ≡ room.old) × (written.new ≡ written.old) }
    ensures unplaced { result ≡ OK → place.new ≡ place.old }
{
    let planned = match planned(plan) {
        Some(planned) => planned,
        None => {
            *place = at_only(0);
            return BAD_PLAN;
        }
    };
    let mut pass = match LentKeys::new(keys, ends) {
        Ok(pass) => pass,
        Err(fault) => {
            let (code, at) = ends_code_of(fault);
            *place = at_only(at);
            return code;
        }
    };
    let count = pass.count() as u32;
    if count == 0 {
        *place = at_only(0);
        return NO_KEYS;
    }
    let needed = room_of(plan, count);
    if (room.len() as u64) < needed {
        *place = at_only(needed);
        return NO_ROOM;
    }
    let tried = seeds(plan.seed, plan.tries);
    match build_into(alloc, &planned, &tried, &mut pass, room) {
        Ok(len) => {
            *written = len as u64;
            OK
        }
        Err(fault) => {
            let (code, found) = why(fault);
            *place = found;
            code
        }
    }
}
