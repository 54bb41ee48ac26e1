//! The first bytes of files.
ghost use Rattle.std.specs.Prelude.{◌≡◌, [], IfOk, OnOk, Some};
ghost use Rattle.std.specs.Option.{ForSome};
ghost use Rattle.cm_io.specs.Causes.{HasDiskCause};
ghost use Rattle.cm_shards_files.specs.Loading.{Begins, ChangesNoFile, DecidesManifest};
ghost use Rattle.cm_shards_manifest.specs.ManifestFiles.{manifest_in};

use cm_io::{Disk, DiskFault, Source};
use cm_io_append::read_prefix;
use cm_shards_manifest::{HEADER_LEN, read_limit};
use std::alloc::Global;

/// The first `limit` bytes of the file of a path, or all if it has no more. Returns `Failed` exactly if it can't be opened or read, and
/// the count of read faults rises then.
pub fn read_start<D: Disk>(
    alloc: Global,
    path: &str,
    limit: usize,
    disk: &mut D,
) -> Result<Vec<u8>, DiskFault>
    ensures disk { ChangesNoFile (D.state disk.old) (D.state disk.new) }
    ensures cause { HasDiskCause (D.state disk.old).read_faults (D.state disk.new).read_faults result }
    ensures begins { IfOk result (λ v. ForSome (D.state disk.old).files (λ files. Begins files path.now limit v.items)) }
{
    let mut bytes = Vec::new(alloc);
    let mut reader = disk.open(path)?;
    let read = read_prefix(&mut reader, limit, &mut bytes);
    disk.shut(reader);
    match read {
        Ok(()) => Ok(bytes),
        Err(fault) => Err(fault),
    }
}

/// Reads the bytes of a source that decide which manifest it has: the header, and what it says that may follow.
fn read_deciding<S: Source>(source: &mut S, bytes: &mut Vec<u8>) -> Result<(), DiskFault>
    requires start { ForSome (S.told source.old) (λ _. S.place source.old ≡ 0) }
    requires none { bytes.old.items ≡ [] }
    ensures told { S.told source.new ≡ S.told source.old }
    ensures decides { OnOk result (ForSome (S.told source.old) (λ all. manifest_in bytes.new.items ≡ manifest_in all)) }
    ensures cause { HasDiskCause (S.faults source.old) (S.faults source.new) result }
{
    read_prefix(source, HEADER_LEN as usize, bytes)?;
    let limit = read_limit(bytes.as_slice());
    read_prefix(source, limit, bytes)
}

/// The bytes of the file of a path that decide which manifest it has. Returns `Failed` exactly if it can't be opened or read, and the
/// count of read faults rises then.
pub(crate) fn read_manifest_file<D: Disk>(
    alloc: Global,
    path: &str,
    disk: &mut D,
) -> Result<Vec<u8>, DiskFault>
    ensures disk { ChangesNoFile (D.state disk.old) (D.state disk.new) }
    ensures cause { HasDiskCause (D.state disk.old).read_faults (D.state disk.new).read_faults result }
    ensures decides { IfOk result (λ v. ForSome (D.state disk.old).files (λ files. DecidesManifest files path.now v.items)) }
{
    let mut bytes = Vec::new(alloc);
    let mut reader = disk.open(path)?;
    let read = read_deciding(&mut reader, &mut bytes);
    disk.shut(reader);
    match read {
        Ok(()) => Ok(bytes),
        Err(fault) => Err(fault),
    }
}
