//! The files that a split makes, compared with its keys file.
ghost use Rattle.std.specs.Prelude.{◌≡◌};
ghost use Rattle.cm_io.specs.Causes.{HasDiskCause};

use crate::part::Part;
use cm_io::DiskFault;
use cm_io_append::AppendDisk;

/// Fails if the path of a shard leads to the keys file.
fn check_parts<D: AppendDisk>(keys: &str, parts: &[Part], disk: &mut D) -> Result<(), DiskFault>
    ensures files { (D.state disk.new).files ≡ (D.state disk.old).files }
    ensures spilled { (D.state disk.new).spilled ≡ (D.state disk.old).spilled }
    ensures read_faults { (D.state disk.new).read_faults ≡ (D.state disk.old).read_faults }
    ensures cause { HasDiskCause (D.state disk.old).write_faults (D.state disk.new).write_faults result }
{
    for i in 0..parts.len() {
        match disk.check_distinct(keys, parts[i].path.as_str()) {
            Ok(()) => {}
            Err(fault) => return Err(fault),
        }
    }
    Ok(())
}

/// Fails if the path of the counts or of a shard leads to the keys file.
pub(crate) fn check_paths<D: AppendDisk>(
    keys: &str,
    counts: &str,
    parts: &[Part],
    disk: &mut D,
) -> Result<(), DiskFault>
    ensures files { (D.state disk.new).files ≡ (D.state disk.old).files }
    ensures spilled { (D.state disk.new).spilled ≡ (D.state disk.old).spilled }
    ensures read_faults { (D.state disk.new).read_faults ≡ (D.state disk.old).read_faults }
    ensures cause { HasDiskCause (D.state disk.old).write_faults (D.state disk.new).write_faults result }
{
    match disk.check_distinct(keys, counts) {
        Ok(()) => check_parts(keys, parts, disk),
        Err(fault) => Err(fault),
    }
}
