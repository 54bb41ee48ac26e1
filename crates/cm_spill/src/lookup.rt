//! The runs of a store, of which one after another is read.
ghost use Rattle.std.specs.Prelude.{◌≡◌, ◌<◌, ◌^◌, ◌+◌, ◌∷◌, [], ℕ, List, length, All, true, false, OnOk, OnErr, IfOk, IfErr, IsSome, slice_index_or, slice_set};
ghost use Rattle.std.specs.Option.{ForSome};
ghost use Rattle.std.specs.List.{AllZip};
ghost use Rattle.cm_spill.specs.Records.{Record};
ghost use Rattle.cm_spill.specs.Reading.{AreLeft, HasSameEnd, ArePast, IsLineOf, IsStill, IsWithin, RunLeft, Takes};
ghost use Rattle.cm_spill.specs.Reads.{FindsRun, HasHeaderAt, IsReady};
ghost use Rattle.cm_spill.specs.Stores.{HasSpillCause, IsOfReading};
ghost use Rattle.cm_spill.specs.Damage.{IsKeyDamage, IsPlaceDamage};

use crate::SpillError;
use crate::run::Run;
use cm_io::{KeyBuf, Spill};
use std::alloc::AllocError;

/// How many bytes of a run are read at a time at least, and at most.
const MIN_PIECE: usize = 16;

const MAX_PIECE: usize = 16_384;

/// How many bytes of each of `runs` runs are read at a time: its share of `bytes`.
pub(crate) fn piece_size(bytes: u32, runs: usize) -> usize
    ensures some { 0 < result }
{
    (bytes as usize / runs.max(1)).max(MIN_PIECE).min(MAX_PIECE)
}

/// Allocates a buffer of `size` bytes for each run, to read ahead.
pub(crate) fn reserve_all(runs: &mut [Run], size: usize) -> Result<(), AllocError>
    requires size { 0 < size }
    requires none { All (λ run. run.ahead.room ≡ 0) runs.old }
    requires within { All (λ run. IsWithin run run.header) runs.old }
    ensures ready { OnOk result (All IsReady runs.new) }
    ensures still { AllZip IsStill runs.new runs.old }
    ensures left { OnOk result ((bytes : List ℕ) (left : List (List Record)) → AllZip (AreLeft bytes) runs.old left → AllZip (AreLeft bytes) runs.new left) }
{
    for i in 0..runs.len() {
        runs[i].reserve(size)?;
    }
    Ok(())
}

/// Moves a place on to the first run from there whose next record is of the bucket, and returns true. Stops at a run of which the next
/// record is refused. If no run has a record of the bucket, returns false, and the place is behind all. Lines rise from run to run.
pub(crate) fn find<P: Spill>(
    runs: &mut [Run],
    spill: &mut P,
    bucket: u32,
    least: u64,
    at: &mut usize,
) -> Result<bool, SpillError>
    requires ready { All IsReady runs.old }
    requires passed { ArePast bucket at.old runs.old }
    ensures told { P.told spill.new ≡ P.told spill.old }
    ensures passed { ArePast bucket at.new runs.new }
    ensures still { AllZip IsStill runs.new runs.old }
    ensures ready { OnOk result (All IsReady runs.new) }
    ensures header { IfOk result (λ found. found ≡ true → HasHeaderAt bucket least runs.new at.new) }
    ensures none { IfOk result (λ found. found ≡ false → at.new ≡ length runs.new) }
    ensures left { OnOk result (ForSome (P.told spill.old) (λ bytes. (left : List (List Record)) → AllZip (AreLeft bytes) runs.old left → AllZip (AreLeft bytes) runs.new left)) }
    ensures finds { ForSome (P.told spill.old) (λ bytes. (left : List (List Record)) → AllZip (AreLeft bytes) runs.old left → FindsRun bucket least at.old left at.new result) }
    ensures fault { IfErr result IsOfReading }
    ensures inside { OnErr result (at.new < length runs.new) }
    ensures damage { IfErr result (λ e. (d : RunLeft) → IsPlaceDamage (slice_index_or runs.new at.new d) bucket least e) }
    ensures cause { HasSpillCause (P.faults spill.old) (P.faults spill.new) result }
{
    for i in *at..runs.len() {
        match runs[i].is_at(spill, bucket, least) {
            Ok(true) => {
                *at = i;
                return Ok(true);
            }
            Ok(false) => {}
            Err(fault) => {
                *at = i;
                return Err(fault);
            }
        }
    }
    *at = runs.len();
    Ok(false)
}

/// Takes the next record of the run at a place, whose header was read, and returns its line.
pub(crate) fn take_from<P: Spill>(
    runs: &mut [Run],
    spill: &mut P,
    at: usize,
    key: &mut KeyBuf,
) -> Result<u32, SpillError>
    requires there { at < length runs.old }
    requires ready { All IsReady runs.old }
    requires header { (d : RunLeft) → IsSome (slice_index_or runs.old at d).header }
    ensures told { P.told spill.new ≡ P.told spill.old }
    ensures ready { OnOk result (All IsReady runs.new) }
    ensures small { IfOk result (λ line. line < 2 ^ 32) }
    ensures line { IfOk result (λ line. (d : RunLeft) → IsLineOf line (slice_index_or runs.old at d).header) }
    ensures next { IfOk result (λ _. (d : RunLeft) → (slice_index_or runs.new at d).next ≡ (slice_index_or runs.old at d).next + (10 + length key.new.items)) }
    ensures others { (i : ℕ) (d : RunLeft) → i < at → slice_index_or runs.new i d ≡ slice_index_or runs.old i d }
    ensures ends { AllZip HasSameEnd runs.new runs.old }
    ensures still { OnErr result (AllZip IsStill runs.new runs.old) }
    ensures kept { OnErr result ((d : RunLeft) → (slice_index_or runs.new at d).header ≡ (slice_index_or runs.old at d).header) }
    ensures takes { ForSome (P.told spill.old) (λ bytes. (left : List (List Record)) (r : Record) (rs : List Record) → AllZip (AreLeft bytes) runs.old left → slice_index_or left at [] ≡ r ∷ rs → Takes (r ∷ rs) rs key.new.items result) }
    ensures left { OnOk result (ForSome (P.told spill.old) (λ bytes. (left : List (List Record)) (r : Record) (rs : List Record) → AllZip (AreLeft bytes) runs.old left → slice_index_or left at [] ≡ r ∷ rs → AllZip (AreLeft bytes) runs.new (slice_set left at rs))) }
    ensures fault { IfErr result IsOfReading }
    ensures damage { IfErr result (λ e. (d : RunLeft) → IsKeyDamage (slice_index_or runs.new at d) e) }
    ensures cause { HasSpillCause (P.faults spill.old) (P.faults spill.new) result }
{
    runs[at].take(spill, key)
}
