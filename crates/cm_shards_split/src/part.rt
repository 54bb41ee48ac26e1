//! What waits for the file of one shard.
ghost use Rattle.std.specs.Prelude.{◌≡◌, ◌+◌, ◌-◌, ◌<◌, ◌≤◌, ◌^◌, ◌++◌, [], length, IfOk, OnOk};
ghost use Rattle.cm_io.specs.Causes.{HasDiskCause};
ghost use Rattle.cm_io.specs.Files.{IsThere};
ghost use Rattle.cm_io.specs.declared.key_pass.TheConstants.{MAX_KEY_LEN};
ghost use Rattle.cm_io_append.specs.Extending.{Extends};
ghost use Rattle.cm_shards_split.specs.Names.{shard_path as shard_path_of};
ghost use Rattle.cm_shards_split.specs.Parts.{Puts};
ghost use Rattle.cm_shards_split.specs.Shares.{ended};
ghost use Rattle.cm_shards_split.specs.declared.waiting.TheConstants.{BUFFER};

use crate::paths::shard_path;
use crate::waiting::{BUFFER, Waiting};
use cm_io::DiskFault;
use cm_io_append::AppendDisk;
use cm_words_arguments::Text;
use std::alloc::{AllocError, Global};

/// The path of the file of a shard, the bytes that wait for it, and how many lines the shard has so far.
#[derive(Drop)]
pub(crate) struct Part {
    pub(crate) path: Text,
    waiting: Waiting,
    pub(crate) count: u64,
}

/// A shard that has no line, in a folder. It takes the memory of what may wait.
pub(crate) fn new_part(alloc: Global, dir: &str, k: u32) -> Result<Part, AllocError>
    ensures path { IfOk result (λ part. part.path ≡ shard_path_of dir.now k) }
    ensures none { IfOk result (λ part. part.waiting ≡ []) }
    ensures count { IfOk result (λ part. part.count ≡ 0) }
{
    Ok(Part {
        path: shard_path(alloc, dir, k)?,
        waiting: Waiting::new(alloc)?,
        count: 0,
    })
}

/// Appends what waits to the file, after which nothing waits.
pub(crate) fn flush<D: AppendDisk>(
    part: &mut Part,
    last: bool,
    disk: &mut D,
) -> Result<(), DiskFault>
    requires there { IsThere part.old.path (D.state disk.old).files }
    ensures files { Extends part.old.path part.old.waiting (D.state disk.old).files (D.state disk.new).files result }
    ensures none { OnOk result (part.new.waiting ≡ []) }
    ensures path { part.new.path ≡ part.old.path }
    ensures count { part.new.count ≡ part.old.count }
    ensures spilled { (D.state disk.new).spilled ≡ (D.state disk.old).spilled }
    ensures read_faults { (D.state disk.new).read_faults ≡ (D.state disk.old).read_faults }
    ensures cause { HasDiskCause (D.state disk.old).write_faults (D.state disk.new).write_faults result }
{
    let appended = disk.append(part.path.as_str(), part.waiting.as_slice(), last);
    if appended.is_ok() {
        part.waiting.clear();
    }
    appended
}

/// Adds a line with its end to what waits, which has room for it.
fn add(part: &mut Part, line: &[u8], end: u8)
    requires room { length part.old.waiting + length line.now + 1 ≤ BUFFER }
    requires few { part.old.count < 2 ^ 64 - 1 }
    ensures bytes { part.new.waiting ≡ part.old.waiting ++ ended end line.now }
    ensures path { part.new.path ≡ part.old.path }
    ensures count { part.new.count ≡ part.old.count + 1 }
{
    part.waiting.add(line, end);
    part.count += 1;
}

/// Adds a line with its end to what waits for the file. If there is no room for it, what waits is appended first.
pub(crate) fn put<D: AppendDisk>(
    part: &mut Part,
    line: &[u8],
    end: u8,
    disk: &mut D,
) -> Result<(), DiskFault>
    requires there { IsThere part.old.path (D.state disk.old).files }
    requires short { length line.now ≤ MAX_KEY_LEN }
    requires few { part.old.count < 2 ^ 64 - 1 }
    ensures puts { Puts part.old part.new (D.state disk.old).files (D.state disk.new).files (ended end line.now) result }
    ensures path { part.new.path ≡ part.old.path }
    ensures count { OnOk result (part.new.count ≡ part.old.count + 1) }
    ensures spilled { (D.state disk.new).spilled ≡ (D.state disk.old).spilled }
    ensures read_faults { (D.state disk.new).read_faults ≡ (D.state disk.old).read_faults }
    ensures cause { HasDiskCause (D.state disk.old).write_faults (D.state disk.new).write_faults result }
{
    if line.len() >= BUFFER - part.waiting.len() {
        flush(part, false, disk)?;
    }
    add(part, line, end);
    Ok(())
}
