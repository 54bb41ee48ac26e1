//! What a file holds, loaded.
ghost use Rattle.std.specs.Prelude.{◌≡◌};
ghost use Rattle.std.specs.Option.{ForSome};
ghost use Rattle.cm_tool_asking.specs.Loads.{HasLoadCause, Loads};

use crate::{Asked, Unloaded};
use cm_io::{Disk, DiskFault};
use std::alloc::Global;

/// Loads what the file of a path holds. `Read` says that it can't be opened or read.
pub fn load_file<A: Asked, D: Disk>(
    alloc: Global,
    path: &str,
    disk: &mut D,
) -> Result<A, Unloaded<A::Fault>>
    ensures files { (D.state disk.new).files ≡ (D.state disk.old).files }
    ensures spilled { (D.state disk.new).spilled ≡ (D.state disk.old).spilled }
    ensures write_faults { (D.state disk.new).write_faults ≡ (D.state disk.old).write_faults }
    ensures cause { HasLoadCause (D.state disk.old).read_faults (D.state disk.new).read_faults result }
    ensures loads { ForSome (D.state disk.old).files (λ files. Loads A.meaning.spelling files path.now result) }
{
    let mut reader = match disk.open(path) {
        Ok(reader) => reader,
        Err(DiskFault::Memory) => return Err(Unloaded::Memory),
        Err(DiskFault::Failed) => return Err(Unloaded::Read),
    };
    let loaded = A::load(alloc, &mut reader);
    disk.shut(reader);
    loaded
}
