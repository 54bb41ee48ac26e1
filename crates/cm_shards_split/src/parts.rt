//! Lines that are split into shards.
ghost use Rattle.std.specs.Prelude.{◌≡◌, ◌<◌, ◌≤◌, ◌-◌, ◌^◌, ◌++◌, ◌∷◌, [], ℕ, List, Option, length, IfOk, OnOk};
ghost use Rattle.cm_io.specs.Causes.{HasDiskCause};
ghost use Rattle.cm_io.specs.Files.{Files};
ghost use Rattle.cm_io.specs.declared.key_pass.TheConstants.{MAX_KEY_LEN};
ghost use Rattle.cm_shards_split.specs.Parts.{AreHeld, AreNew, Flushes, IsOpen, PutsLine, Stands, counts_of};
ghost use Rattle.cm_shards_split.specs.Plans.{Plan, plan};

use crate::part::{Part, flush, new_part, put};
use cm_io::DiskFault;
use cm_io_append::AppendDisk;
use cm_route::Route;
use std::alloc::{AllocError, Global};

/// Shards without lines, in a folder. It takes the memory of all that waits.
pub(crate) fn new_parts(alloc: Global, dir: &str, shards: u32) -> Result<Vec<Part>, AllocError>
    ensures new { IfOk result (λ parts. AreNew dir.now shards parts.items) }
{
    let mut parts = Vec::with_capacity(alloc, shards as usize)?;
    for k in 0..shards {
        parts.push(new_part(alloc, dir, k)?)?;
    }
    Ok(parts)
}

/// Adds a line to its shard.
pub(crate) fn put_line<D: AppendDisk>(
    parts: &mut [Part],
    route: &Route,
    line: &[u8],
    end: u8,
    disk: &mut D,
) -> Result<(), DiskFault>
    requires open { IsOpen route.now end parts.old (D.state disk.old).files }
    requires short { length line.now ≤ MAX_KEY_LEN }
    ensures puts { (dir : List ℕ) (base : Option Files) (lines : List (List ℕ)) → Stands (plan dir base route.now end) lines parts.old (D.state disk.old).files
        → PutsLine (plan dir base route.now end) (lines ++ line.now ∷ []) parts.new (D.state disk.new).files result }
    ensures spilled { (D.state disk.new).spilled ≡ (D.state disk.old).spilled }
    ensures read_faults { (D.state disk.new).read_faults ≡ (D.state disk.old).read_faults }
    ensures cause { HasDiskCause (D.state disk.old).write_faults (D.state disk.new).write_faults result }
{
    let k = route.shard(line) as usize;
    put(&mut parts[k], line, end, disk)
}

/// Appends all that waits. Nothing more comes.
pub(crate) fn flush_parts<D: AppendDisk>(parts: &mut [Part], disk: &mut D) -> Result<(), DiskFault>
    requires held { AreHeld parts.old (D.state disk.old).files }
    ensures flushes { (p : Plan) (lines : List (List ℕ)) → Stands p lines parts.old (D.state disk.old).files
        → Flushes p lines (D.state disk.new).files result }
    ensures counts { OnOk result (counts_of parts.new ≡ counts_of parts.old) }
    ensures spilled { (D.state disk.new).spilled ≡ (D.state disk.old).spilled }
    ensures read_faults { (D.state disk.new).read_faults ≡ (D.state disk.old).read_faults }
    ensures cause { HasDiskCause (D.state disk.old).write_faults (D.state disk.new).write_faults result }
{
    for i in 0..parts.len() {
        match flush(&mut parts[i], true, disk) {
            Ok(()) => {}
            Err(fault) => return Err(fault),
        }
    }
    Ok(())
}
