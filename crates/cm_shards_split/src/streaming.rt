//! The lines of a keys file, each put into its shard.
ghost use Rattle.std.specs.Prelude.{◌≡◌, ◌+◌, ℕ, List, Option, Ok, OnOk, IsTrue, true, false};
ghost use Rattle.cm_io.specs.Causes.{HasDiskCause};
ghost use Rattle.cm_io.specs.Files.{Files};
ghost use Rattle.cm_keys.specs.Streams.{told_by};
ghost use Rattle.cm_shards_split.specs.Plans.{plan};
ghost use Rattle.cm_shards_split.specs.Streaming.{EndsTo, HasSplitCause, IsSplitting, IsStreaming, StepsBuffered, StepsTo};

use crate::part::Part;
use crate::parts::put_line;
use crate::stop::SplitStop;
use cm_io::{DiskFault, KeyBuf, Source};
use cm_io_append::AppendDisk;
use cm_keys::{LineFault, Lines};
use cm_route::Route;

/// Puts the next line into its shard, if it is buffered. If it isn't, nothing changes. Runs for each line, so it is inlined.
#[inline(always)]
fn step_buffered<S: Source, D: AppendDisk>(
    lines: &mut Lines<S>,
    parts: &mut [Part],
    route: &Route,
    end: u8,
    disk: &mut D,
) -> Result<bool, DiskFault>
    requires usable { IsTrue lines.old.usable }
    requires splitting { IsSplitting route.now end lines.old parts.old (D.state disk.old).files }
    ensures steps { (dir : List ℕ) (base : Option Files) → IsStreaming (plan dir base route.now end) lines.old parts.old (D.state disk.old).files
        → StepsBuffered (plan dir base route.now end) lines.new parts.new (D.state disk.new).files result }
    ensures unchanged { result ≡ Ok false → (lines.new ≡ lines.old) × (parts.new ≡ parts.old) × (D.state disk.new ≡ D.state disk.old) }
    ensures told { told_by lines.new ≡ told_by lines.old }
    ensures bytes { lines.new.bytes ≡ lines.old.bytes }
    ensures usable { lines.new.usable ≡ true }
    ensures count { result ≡ Ok true → lines.new.count ≡ lines.old.count + 1 }
    ensures faults { lines.new.faults ≡ lines.old.faults }
    ensures spilled { (D.state disk.new).spilled ≡ (D.state disk.old).spilled }
    ensures read_faults { (D.state disk.new).read_faults ≡ (D.state disk.old).read_faults }
    ensures cause { HasDiskCause (D.state disk.old).write_faults (D.state disk.new).write_faults result }
{
    let line = match lines.peek() {
        Some(line) => line,
        None => return Ok(false),
    };
    let len = line.len();
    match put_line(parts, route, line, end, disk) {
        Ok(()) => {}
        Err(fault) => return Err(fault),
    }
    lines.pass(len);
    Ok(true)
}

/// Reads the next line and puts it into its shard, or returns false if there is none.
fn step_read<S: Source, D: AppendDisk>(
    lines: &mut Lines<S>,
    key: &mut KeyBuf,
    parts: &mut [Part],
    route: &Route,
    end: u8,
    disk: &mut D,
) -> Result<bool, SplitStop>
    requires usable { IsTrue lines.old.usable }
    requires splitting { IsSplitting route.now end lines.old parts.old (D.state disk.old).files }
    ensures steps { (dir : List ℕ) (base : Option Files) → IsStreaming (plan dir base route.now end) lines.old parts.old (D.state disk.old).files
        → StepsTo (plan dir base route.now end) lines.new parts.new (D.state disk.new).files result }
    ensures told { told_by lines.new ≡ told_by lines.old }
    ensures bytes { lines.new.bytes ≡ lines.old.bytes }
    ensures usable { OnOk result (lines.new.usable ≡ true) }
    ensures count { result ≡ Ok true → lines.new.count ≡ lines.old.count + 1 }
    ensures spilled { (D.state disk.new).spilled ≡ (D.state disk.old).spilled }
    ensures read_faults { (D.state disk.new).read_faults ≡ (D.state disk.old).read_faults }
    ensures cause { HasSplitCause lines.old.faults lines.new.faults (D.state disk.old).write_faults (D.state disk.new).write_faults result }
{
    match lines.next(key) {
        Ok(true) => {}
        Ok(false) => return Ok(false),
        Err(LineFault::Read) => return Err(SplitStop::Read),
        Err(LineFault::TooLong) => {
            return Err(SplitStop::TooLong {
                line: lines.count() + 1,
            });
        }
        Err(LineFault::TooMany) => return Err(SplitStop::TooMany),
    }
    // For the proof alone: the count is a `u64`.
    let _count = lines.count();
    match put_line(parts, route, key.as_slice(), end, disk) {
        Ok(()) => Ok(true),
        Err(DiskFault::Memory) => Err(SplitStop::Memory),
        Err(DiskFault::Failed) => Err(SplitStop::Write),
    }
}

/// Puts the next line into its shard, or returns false if there is none. `key` is room for a line that isn't buffered.
fn step<S: Source, D: AppendDisk>(
    lines: &mut Lines<S>,
    key: &mut KeyBuf,
    parts: &mut [Part],
    route: &Route,
    end: u8,
    disk: &mut D,
) -> Result<bool, SplitStop>
    requires usable { IsTrue lines.old.usable }
    requires splitting { IsSplitting route.now end lines.old parts.old (D.state disk.old).files }
    ensures steps { (dir : List ℕ) (base : Option Files) → IsStreaming (plan dir base route.now end) lines.old parts.old (D.state disk.old).files
        → StepsTo (plan dir base route.now end) lines.new parts.new (D.state disk.new).files result }
    ensures told { told_by lines.new ≡ told_by lines.old }
    ensures bytes { lines.new.bytes ≡ lines.old.bytes }
    ensures usable { OnOk result (lines.new.usable ≡ true) }
    ensures count { result ≡ Ok true → lines.new.count ≡ lines.old.count + 1 }
    ensures spilled { (D.state disk.new).spilled ≡ (D.state disk.old).spilled }
    ensures read_faults { (D.state disk.new).read_faults ≡ (D.state disk.old).read_faults }
    ensures cause { HasSplitCause lines.old.faults lines.new.faults (D.state disk.old).write_faults (D.state disk.new).write_faults result }
{
    match step_buffered(lines, parts, route, end, disk) {
        Ok(true) => Ok(true),
        Ok(false) => step_read(lines, key, parts, route, end, disk),
        Err(DiskFault::Memory) => Err(SplitStop::Memory),
        Err(DiskFault::Failed) => Err(SplitStop::Write),
    }
}

/// Reads all lines, and puts each into its shard.
pub(crate) fn stream<S: Source, D: AppendDisk>(
    lines: &mut Lines<S>,
    parts: &mut [Part],
    route: &Route,
    end: u8,
    disk: &mut D,
) -> Result<(), SplitStop>
    requires usable { IsTrue lines.old.usable }
    requires splitting { IsSplitting route.now end lines.old parts.old (D.state disk.old).files }
    requires start { lines.old.count ≡ 0 }
    ensures ends { (dir : List ℕ) (base : Option Files) → IsStreaming (plan dir base route.now end) lines.old parts.old (D.state disk.old).files
        → EndsTo (plan dir base route.now end) (told_by lines.old) parts.new (D.state disk.new).files result }
    ensures bytes { lines.new.bytes ≡ lines.old.bytes }
    ensures spilled { (D.state disk.new).spilled ≡ (D.state disk.old).spilled }
    ensures read_faults { (D.state disk.new).read_faults ≡ (D.state disk.old).read_faults }
    ensures cause { HasSplitCause lines.old.faults lines.new.faults (D.state disk.old).write_faults (D.state disk.new).write_faults result }
{
    let mut key = KeyBuf::new();
    for i in 0..u64::MAX {
        match step(lines, &mut key, parts, route, end, disk) {
            Ok(true) => {}
            Ok(false) => return Ok(()),
            Err(stop) => return Err(stop),
        }
    }
    // As many lines were read as there may be.
    match step(lines, &mut key, parts, route, end, disk) {
        Ok(true) => {
            let _count = lines.count();
            unreachable!()
        }
        Ok(false) => Ok(()),
        Err(stop) => Err(stop),
    }
}
