//! The manifest of a job, saved.
ghost use Rattle.std.specs.Prelude.{◌≡◌};
ghost use Rattle.cm_io.specs.Causes.{HasDiskCause};
ghost use Rattle.cm_shards_join.specs.Leaves.{HasStopCause, Leaves};
ghost use Rattle.cm_shards_words.specs.Limits.{IsJoinJob};
ghost use Rattle.cm_tool_building.specs.Stores.{Stores};

use crate::distinct::check_paths;
use crate::making::make;
use crate::stop::JoinStop;
use cm_io::{DiskFault, Failed, Sink};
use cm_io_append::AppendDisk;
use cm_shards_manifest::manifest_file;
use cm_shards_words::JoinJob;
use cm_tool_building::{Saved, store_file};
use std::alloc::Global;

/// The bytes of a manifest.
#[derive(Drop)]
pub struct ManifestFile {
    /// All of them.
    pub bytes: Vec<u8>,
}

impl Saved for ManifestFile {
    ghost bytes = { λ file. file.bytes.items };

    fn save<O: Sink>(&self, out: &mut O) -> Result<(), Failed> {
        out.write(self.bytes.as_slice())
    }
}

/// Saves a manifest with these bytes, after it was checked that its path leads to none of the files that are read.
#[tactic(auto, using(crate::proofs::Ends::none_stored))]
fn store_checked<D: AppendDisk>(
    alloc: Global,
    job: &JoinJob,
    bytes: Vec<u8>,
    disk: &mut D,
) -> Result<(), DiskFault>
    ensures stores { Stores job.now.manifest bytes.items (D.state disk.old).files (D.state disk.new).files result }
    ensures spilled { (D.state disk.new).spilled ≡ (D.state disk.old).spilled }
    ensures read_faults { (D.state disk.new).read_faults ≡ (D.state disk.old).read_faults }
    ensures cause { HasDiskCause (D.state disk.old).write_faults (D.state disk.new).write_faults result }
{
    match check_paths(alloc, job, disk) {
        Ok(()) => store_file(job.manifest.as_str(), &ManifestFile { bytes }, disk),
        Err(fault) => Err(fault),
    }
}

/// Joins the functions of a job, and saves the manifest of them. Its file is created only after all was checked.
#[tactic(auto, using(crate::proofs::Ends::read_cause, crate::proofs::Ends::made_leaves))]
pub(crate) fn join_files<D: AppendDisk>(
    alloc: Global,
    job: &JoinJob,
    disk: &mut D,
) -> Result<(), JoinStop>
    requires job { IsJoinJob job.now }
    ensures spilled { (D.state disk.new).spilled ≡ (D.state disk.old).spilled }
    ensures cause { HasStopCause (D.state disk.old).read_faults (D.state disk.new).read_faults (D.state disk.old).write_faults (D.state disk.new).write_faults result }
    ensures leaves { Leaves job.now (D.state disk.old).files (D.state disk.new).files result }
{
    let manifest = match make(alloc, job, disk) {
        Ok(manifest) => manifest,
        Err(stop) => return Err(stop),
    };
    let bytes = match manifest_file(alloc, &manifest) {
        Ok(bytes) => bytes,
        Err(_) => return Err(JoinStop::Memory),
    };
    match store_checked(alloc, job, bytes, disk) {
        Ok(()) => Ok(()),
        Err(DiskFault::Memory) => Err(JoinStop::Memory),
        Err(DiskFault::Failed) => Err(JoinStop::Write),
    }
}
