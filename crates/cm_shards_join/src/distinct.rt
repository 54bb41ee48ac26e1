//! The files that a join reads, compared with its manifest.
ghost use Rattle.std.specs.Prelude.{◌≡◌};
ghost use Rattle.cm_io.specs.Causes.{HasDiskCause};

use crate::counting::counts_path;
use crate::inputs::path_for;
use cm_io::DiskFault;
use cm_io_append::AppendDisk;
use cm_shards_words::JoinJob;
use cm_words_arguments::Text;
use std::alloc::Global;

/// Fails if the path of a function file leads to the manifest.
fn check_functions<D: AppendDisk>(
    alloc: Global,
    job: &JoinJob,
    disk: &mut D,
) -> Result<(), DiskFault>
    ensures files { (D.state disk.new).files ≡ (D.state disk.old).files }
    ensures spilled { (D.state disk.new).spilled ≡ (D.state disk.old).spilled }
    ensures read_faults { (D.state disk.new).read_faults ≡ (D.state disk.old).read_faults }
    ensures cause { HasDiskCause (D.state disk.old).write_faults (D.state disk.new).write_faults result }
{
    let manifest = job.manifest.as_str();
    for function in job.functions.as_slice() {
        let path = match path_for(alloc, manifest, function.as_str()) {
            Ok(path) => path,
            Err(_) => return Err(DiskFault::Memory),
        };
        match disk.check_distinct(path.as_str(), manifest) {
            Ok(()) => {}
            Err(fault) => return Err(fault),
        }
    }
    Ok(())
}

/// Fails if the path of the counts of a split, if its folder is given, leads to the manifest.
fn check_counts<D: AppendDisk>(
    alloc: Global,
    dir: &Option<Text>,
    manifest: &str,
    disk: &mut D,
) -> Result<(), DiskFault>
    ensures files { (D.state disk.new).files ≡ (D.state disk.old).files }
    ensures spilled { (D.state disk.new).spilled ≡ (D.state disk.old).spilled }
    ensures read_faults { (D.state disk.new).read_faults ≡ (D.state disk.old).read_faults }
    ensures cause { HasDiskCause (D.state disk.old).write_faults (D.state disk.new).write_faults result }
{
    match dir {
        Some(dir) => match counts_path(alloc, dir.as_str()) {
            Ok(path) => disk.check_distinct(path.as_str(), manifest),
            Err(_) => Err(DiskFault::Memory),
        },
        None => Ok(()),
    }
}

/// Fails if the path of a file that the join reads leads to the manifest.
pub(crate) fn check_paths<D: AppendDisk>(
    alloc: Global,
    job: &JoinJob,
    disk: &mut D,
) -> Result<(), DiskFault>
    ensures files { (D.state disk.new).files ≡ (D.state disk.old).files }
    ensures spilled { (D.state disk.new).spilled ≡ (D.state disk.old).spilled }
    ensures read_faults { (D.state disk.new).read_faults ≡ (D.state disk.old).read_faults }
    ensures cause { HasDiskCause (D.state disk.old).write_faults (D.state disk.new).write_faults result }
{
    match check_functions(alloc, job, disk) {
        Ok(()) => check_counts(alloc, &job.dir, job.manifest.as_str(), disk),
        Err(fault) => Err(fault),
    }
}
