//! Joins whose manifest would take the place of a file that they read.
ghost use Rattle.std.specs.Prelude.{◌≡◌, false, true, IfOk};
ghost use Rattle.cm_shards_join.specs.Inputs.{CountsAreManifest, ReadsManifest, ReplacesInput, path_for};

use crate::counting::counts_path;
use cm_shards_manifest::{name_of, path_of};
use cm_shards_words::JoinJob;
use cm_words_arguments::Text;
use std::alloc::{AllocError, Global};

/// The path at which the function file of an argument is read. It fails if memory runs out.
pub(crate) fn path_for(alloc: Global, manifest: &str, function: &str) -> Result<Text, AllocError>
    ensures path { IfOk result (λ path. path ≡ path_for manifest.now function.now) }
{
    let name = name_of(alloc, manifest, function)?;
    path_of(alloc, manifest, name.as_str())
}

/// Whether the function file of an argument is read at the path of the manifest.
fn reads_manifest(alloc: Global, job: &JoinJob) -> Result<bool, AllocError>
    ensures reads { IfOk result (λ reads. reads ≡ true → ReadsManifest job.now.manifest job.now.functions) }
    ensures others { IfOk result (λ reads. reads ≡ false → ReadsManifest job.now.manifest job.now.functions → ⊥) }
{
    let manifest = job.manifest.as_str();
    for function in job.functions.as_slice() {
        let path = path_for(alloc, manifest, function.as_str())?;
        if path.as_str() == manifest {
            return Ok(true);
        }
    }
    Ok(false)
}

/// Whether the counts of a split, if they are compared, are at the path of the manifest.
fn counts_are_manifest(alloc: Global, job: &JoinJob) -> Result<bool, AllocError>
    ensures counts { IfOk result (λ are. are ≡ true → CountsAreManifest job.now.manifest job.now.dir) }
    ensures others { IfOk result (λ are. are ≡ false → CountsAreManifest job.now.manifest job.now.dir → ⊥) }
{
    match &job.dir {
        Some(dir) => {
            let counts = counts_path(alloc, dir.as_str())?;
            Ok(counts.as_str() == job.manifest.as_str())
        }
        None => Ok(false),
    }
}

/// Whether the manifest of a job would take the place of a function file or of the counts. It fails if memory runs out.
pub(crate) fn replaces_input(alloc: Global, job: &JoinJob) -> Result<bool, AllocError>
    ensures replaces { IfOk result (λ replaces. replaces ≡ true → ReplacesInput job.now) }
    ensures others { IfOk result (λ replaces. replaces ≡ false → ReplacesInput job.now → ⊥) }
{
    if reads_manifest(alloc, job)? {
        return Ok(true);
    }
    counts_are_manifest(alloc, job)
}
