//! What was made, saved as a file.
ghost use Rattle.std.specs.Prelude.{◌≡◌};
ghost use Rattle.cm_io.specs.Causes.{HasDiskCause};
ghost use Rattle.cm_tool_building.specs.Stores.{Stores};

use crate::Saved;
use cm_io::{Disk, DiskFault, Failed};

/// Makes the path hold the bytes of something that is saved.
pub fn store_file<S: Saved, D: Disk>(path: &str, saved: &S, disk: &mut D) -> Result<(), DiskFault>
    ensures files { Stores path.now (S.bytes saved.now) (D.state disk.old).files (D.state disk.new).files result }
    ensures spilled { (D.state disk.new).spilled ≡ (D.state disk.old).spilled }
    ensures read_faults { (D.state disk.new).read_faults ≡ (D.state disk.old).read_faults }
    ensures cause { HasDiskCause (D.state disk.old).write_faults (D.state disk.new).write_faults result }
{
    let mut writer = disk.create(path)?;
    match saved.save(&mut writer) {
        Ok(()) => match disk.close(path, writer) {
            Ok(()) => Ok(()),
            Err(Failed) => Err(DiskFault::Failed),
        },
        Err(Failed) => {
            let _ = disk.close(path, writer);
            Err(DiskFault::Failed)
        }
    }
}
