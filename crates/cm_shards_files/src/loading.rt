//! All function files of a manifest.
ghost use Rattle.std.specs.Prelude.{◌≡◌, All, IfOk, MatchResult, Ok, Err, Result, length};
ghost use Rattle.std.specs.Option.{ForSome};
ghost use Rattle.cm_func.specs.Functions.{IsFunction};
ghost use Rattle.cm_shards_files.specs.Loading.{ChangesNoFile, HasShardsCause, LoadsShards, is_of};
ghost use Rattle.cm_shards_files.specs.Shards.{IsSharded};
ghost use Rattle.cm_shards_files.specs.Steps.{LoadsFunction, LoadsFunctions, ReadsManifest, fault_unread, taken};
ghost use Rattle.cm_shards_manifest.specs.Manifests.{IsManifest};

use crate::fault::ShardsFault;
use crate::file::{FunctionFile, is_by, keys_of, read_function};
use crate::reading::read_manifest_file;
use crate::shards::Shards;
use cm_algo_names::Algorithm;
use cm_algo_scheme::Answers;
use cm_dump_items::LoadFault;
use cm_func::Func;
use cm_io::{Disk, DiskFault};
use cm_route::Route;
use cm_shards_manifest::{Manifest, ManifestUnread, Shard, path_of, read_manifest};
use cm_tool_asking::Unloaded;
use cm_words_arguments::Text;
use std::alloc::{AllocError, Global};

/// Why a manifest that was not read ends a load.
fn unread(fault: ManifestUnread) -> ShardsFault
    ensures fault { result ≡ fault_unread fault }
{
    match fault {
        ManifestUnread::Memory => ShardsFault::Memory,
        ManifestUnread::Bad(fault) => ShardsFault::BadManifest { fault },
    }
}

/// The manifest of a path.
fn manifest_of<D: Disk>(alloc: Global, path: &str, disk: &mut D) -> Result<Manifest, ShardsFault>
    ensures disk { ChangesNoFile (D.state disk.old) (D.state disk.new) }
    ensures cause { HasShardsCause (D.state disk.old).read_faults (D.state disk.new).read_faults result }
    ensures reads { ForSome (D.state disk.old).files (λ files. ReadsManifest files path.now result) }
    ensures valid { IfOk result IsManifest }
{
    let bytes = match read_manifest_file(alloc, path, disk) {
        Ok(bytes) => bytes,
        Err(DiskFault::Memory) => return Err(ShardsFault::Memory),
        Err(DiskFault::Failed) => return Err(ShardsFault::NoManifest),
    };
    match read_manifest(alloc, bytes.as_slice()) {
        Ok(manifest) => Ok(manifest),
        Err(fault) => Err(unread(fault)),
    }
}

/// Whether a function file is the one that a manifest speaks of.
fn is_that(algorithm: Algorithm, shard: &Shard, file: &FunctionFile) -> bool
    ensures that { result ≡ is_of algorithm shard.now file.now }
{
    is_by(algorithm, &file.function)
        && keys_of(&file.function) == shard.keys
        && file.function.span() == shard.span
        && file.len == shard.len
        && file.digest == shard.digest
}

/// The function of a shard, by what was loaded from its file.
fn take(
    algorithm: Algorithm,
    shard: &Shard,
    path: Text,
    loaded: Result<FunctionFile, Unloaded<LoadFault>>,
) -> Result<Func, ShardsFault>
    ensures taken { result ≡ taken algorithm shard.now path loaded }
{
    match loaded {
        Ok(file) if is_that(algorithm, shard, &file) => Ok(file.function),
        Ok(_) => Err(ShardsFault::Another { path }),
        Err(Unloaded::Memory) => Err(ShardsFault::Memory),
        Err(Unloaded::Read) => Err(ShardsFault::NoFunction { path }),
        Err(Unloaded::Bad(fault)) => Err(ShardsFault::BadFunction { path, fault }),
    }
}

/// The function of a shard of the manifest of a path.
fn load_function<D: Disk>(
    alloc: Global,
    manifest: &str,
    algorithm: Algorithm,
    shard: &Shard,
    disk: &mut D,
) -> Result<Func, ShardsFault>
    ensures disk { ChangesNoFile (D.state disk.old) (D.state disk.new) }
    ensures cause { HasShardsCause (D.state disk.old).read_faults (D.state disk.new).read_faults result }
    ensures loads { ForSome (D.state disk.old).files (λ files. LoadsFunction files manifest.now algorithm shard.now result) }
    ensures valid { IfOk result IsFunction }
{
    let path = match path_of(alloc, manifest, shard.name.as_str()) {
        Ok(path) => path,
        Err(AllocError) => return Err(ShardsFault::Memory),
    };
    let loaded = read_function(alloc, path.as_str(), disk);
    take(algorithm, shard, path, loaded)
}

/// The functions of shards of the manifest of a path, in their order.
#[tactic(auto, unfolding(crate::specs::Loading::functions_of))]
fn load_functions<D: Disk>(
    alloc: Global,
    manifest: &str,
    algorithm: Algorithm,
    shards: &[Shard],
    disk: &mut D,
) -> Result<Vec<Func>, ShardsFault>
    ensures disk { ChangesNoFile (D.state disk.old) (D.state disk.new) }
    ensures cause { HasShardsCause (D.state disk.old).read_faults (D.state disk.new).read_faults result }
    ensures loads { ForSome (D.state disk.old).files (λ files. LoadsFunctions (λ v. v.items) files manifest.now algorithm shards.now result) }
    ensures valid { IfOk result (λ v. All IsFunction v.items) }
    ensures each { IfOk result (λ v. length v.items ≡ length shards.now) }
{
    let mut functions = Vec::new(alloc);
    for shard in shards {
        let function = match load_function(alloc, manifest, algorithm, shard, disk) {
            Ok(function) => function,
            Err(fault) => return Err(fault),
        };
        match functions.push(function) {
            Ok(()) => {}
            Err(_) => return Err(ShardsFault::Memory),
        }
    }
    Ok(functions)
}

/// Loads the functions of all shards that the manifest of a path speaks of, with all checks: first the manifest, and then the function
/// files in the order of the shards, each of which must be the one that the manifest speaks of. The first that can't be read or is at
/// fault ends it. `NoManifest` and `NoFunction` come exactly if the count of read faults rises.
pub fn load_shards<D: Disk>(
    alloc: Global,
    manifest: &str,
    disk: &mut D,
) -> Result<Shards, ShardsFault>
    ensures disk { ChangesNoFile (D.state disk.old) (D.state disk.new) }
    ensures cause { HasShardsCause (D.state disk.old).read_faults (D.state disk.new).read_faults result }
    ensures loads { ForSome (D.state disk.old).files (λ files. LoadsShards files manifest.now result) }
    ensures valid { IfOk result IsSharded }
{
    let read = match manifest_of(alloc, manifest, disk) {
        Ok(read) => read,
        Err(fault) => return Err(fault),
    };
    let functions = match load_functions(alloc, manifest, read.algorithm(), read.shards(), disk) {
        Ok(functions) => functions,
        Err(fault) => return Err(fault),
    };
    let route = Route::new(read.seed(), functions.len() as u32);
    match Shards::new(alloc, route, functions) {
        Ok(shards) => Ok(shards),
        Err(AllocError) => Err(ShardsFault::Memory),
    }
}
