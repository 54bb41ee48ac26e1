//! The files of a split, created empty.
ghost use Rattle.std.specs.Prelude.{◌≡◌, [], ℕ, List, Option, length, replicate};
ghost use Rattle.cm_io.specs.Causes.{HasDiskCause};
ghost use Rattle.cm_io.specs.Files.{Creates as IsCreated, Files};
ghost use Rattle.cm_shards_split.specs.Names.{counts_path};
ghost use Rattle.cm_shards_split.specs.Parts.{Creates, CreatesParts, HavePaths, Written};

use crate::distinct::check_paths;
use crate::part::Part;
use cm_io::DiskFault;
use cm_io_append::AppendDisk;

/// Makes the path hold no bytes. It isn't synced: the append that comes last syncs it.
fn create_empty<D: AppendDisk>(path: &str, disk: &mut D) -> Result<(), DiskFault>
    ensures files { IsCreated path.now (D.state disk.old).files (D.state disk.new).files result }
    ensures spilled { (D.state disk.new).spilled ≡ (D.state disk.old).spilled }
    ensures read_faults { (D.state disk.new).read_faults ≡ (D.state disk.old).read_faults }
    ensures cause { HasDiskCause (D.state disk.old).write_faults (D.state disk.new).write_faults result }
{
    match disk.create(path) {
        Ok(_) => Ok(()),
        Err(fault) => Err(fault),
    }
}

/// Creates the file of each shard, in order.
fn create_parts<D: AppendDisk>(parts: &[Part], disk: &mut D) -> Result<(), DiskFault>
    ensures creates { (dir : List ℕ) (base : Option Files) → HavePaths dir parts.now → Written dir base [] (D.state disk.old).files → CreatesParts dir base (length parts.now) (D.state disk.new).files result }
    ensures spilled { (D.state disk.new).spilled ≡ (D.state disk.old).spilled }
    ensures read_faults { (D.state disk.new).read_faults ≡ (D.state disk.old).read_faults }
    ensures cause { HasDiskCause (D.state disk.old).write_faults (D.state disk.new).write_faults result }
{
    for i in 0..parts.len() {
        match create_empty(parts[i].path.as_str(), disk) {
            Ok(()) => {}
            Err(fault) => return Err(fault),
        }
    }
    Ok(())
}

/// Creates the file of the counts, and then that of each shard.
fn create_files<D: AppendDisk>(counts: &str, parts: &[Part], disk: &mut D) -> Result<(), DiskFault>
    ensures creates { (dir : List ℕ) → counts.now ≡ counts_path dir → HavePaths dir parts.now → Creates dir (length parts.now) (D.state disk.old).files (D.state disk.new).files result }
    ensures spilled { (D.state disk.new).spilled ≡ (D.state disk.old).spilled }
    ensures read_faults { (D.state disk.new).read_faults ≡ (D.state disk.old).read_faults }
    ensures cause { HasDiskCause (D.state disk.old).write_faults (D.state disk.new).write_faults result }
{
    match create_empty(counts, disk) {
        Ok(()) => create_parts(parts, disk),
        Err(fault) => Err(fault),
    }
}

/// Creates the same files, after it was checked that none of them is the keys file.
pub(crate) fn create_checked<D: AppendDisk>(
    keys: &str,
    counts: &str,
    parts: &[Part],
    disk: &mut D,
) -> Result<(), DiskFault>
    ensures creates { (dir : List ℕ) → counts.now ≡ counts_path dir → HavePaths dir parts.now → Creates dir (length parts.now) (D.state disk.old).files (D.state disk.new).files result }
    ensures spilled { (D.state disk.new).spilled ≡ (D.state disk.old).spilled }
    ensures read_faults { (D.state disk.new).read_faults ≡ (D.state disk.old).read_faults }
    ensures cause { HasDiskCause (D.state disk.old).write_faults (D.state disk.new).write_faults result }
{
    match check_paths(keys, counts, parts, disk) {
        Ok(()) => create_files(counts, parts, disk),
        Err(fault) => Err(fault),
    }
}
