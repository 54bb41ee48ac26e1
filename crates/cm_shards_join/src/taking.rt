//! The functions of files, taken one after another.
ghost use Rattle.std.specs.Prelude.{◌≡◌, ◌+◌, ◌<◌, ◌≤◌, ℕ, List, IfErr, IfOk, IsTrue, IsUtf8, OnOk, Ok, Some, length};
ghost use Rattle.std.specs.Option.{ForSome};
ghost use Rattle.cm_func.specs.Functions.{IsFunction};
ghost use Rattle.cm_route.specs.declared.route.TheConstants.{MAX_SHARDS};
ghost use Rattle.cm_shards_files.specs.Loading.{ChangesNoFile};
ghost use Rattle.cm_shards_join.specs.Leaves.{HasReadCause, NamesFunction, NamesPath, Refuses};
ghost use Rattle.cm_shards_join.specs.Taking.{fits, is_name, nothing, shard_by, take_all, take_function, take_loaded};
ghost use Rattle.cm_shards_join.specs.Takings.{IsTaking, taken_by};
ghost use Rattle.cm_shards_manifest.specs.Manifests.{IsShard};
ghost use Rattle.cm_shards_manifest.specs.Paths.{name_of, path_of};
ghost use Rattle.cm_shards_words.specs.Limits.{IsJoinJob};

use crate::stop::JoinStop;
use cm_algo_names::Algorithm;
use cm_algo_scheme::Answers;
use cm_func::Func;
use cm_io::Disk;
use cm_shards_files::{FunctionFile, algorithm_of, keys_of, read_function};
use cm_shards_manifest::{MAX_NAME, Shard, name_of, path_of};
use cm_shards_words::JoinJob;
use cm_tool_asking::Unloaded;
use cm_words_arguments::Text;
use std::alloc::Global;

/// The functions that were taken so far.
#[derive(Drop)]
pub struct Taking {
    /// The algorithm of the first.
    pub algorithm: Option<Algorithm>,
    /// What the manifest says of them.
    pub shards: Vec<Shard>,
    /// The sum of their spans.
    pub total: u64,
}

/// Whether an algorithm is that of the first function, if there is one.
fn fits(first: Option<Algorithm>, algorithm: Algorithm) -> bool
    ensures fits { result ≡ fits first algorithm }
{
    match (first, algorithm) {
        (None, _) => true,
        (Some(Algorithm::Chm), Algorithm::Chm) => true,
        (Some(Algorithm::Bdz), Algorithm::Bdz) => true,
        (Some(Algorithm::BdzPh), Algorithm::BdzPh) => true,
        (Some(Algorithm::Brz), Algorithm::Brz) => true,
        _ => false,
    }
}

/// Whether a text is a name in a manifest.
fn is_name(name: &str) -> bool
    ensures name { result ≡ is_name name.now }
{
    0 < name.len() && name.len() <= MAX_NAME as usize
}

/// The shard of a function whose file has this length and digest, after shards whose spans have this sum.
fn shard_of(name: Text, before: u64, function: &Func, len: u64, digest: [u8; 32]) -> Shard
    requires valid { IsFunction function.now }
    requires name { IsTrue (is_name name) }
    requires utf8 { IsUtf8 name }
    ensures shard { result ≡ shard_by name before (record { function = function.now; len = len; digest = digest }) }
    ensures valid { IsShard result }
{
    Shard {
        name,
        keys: keys_of(function),
        span: function.span(),
        offset: before,
        len,
        digest,
    }
}

/// Takes the function of a file, which was read at this path and has this name.
fn take_file(
    taking: &mut Taking,
    path: Text,
    name: Text,
    file: FunctionFile,
) -> Result<(), JoinStop>
    requires taking { IsTaking taking.old }
    requires room { length taking.old.shards.items < MAX_SHARDS }
    requires valid { IsFunction file.function }
    requires name { IsTrue (is_name name) }
    requires utf8 { IsUtf8 name }
    ensures taking { OnOk result (IsTaking taking.new) }
    ensures count { OnOk result (length taking.new.shards.items ≡ length taking.old.shards.items + 1) }
    ensures taken { OnOk result (take_loaded (taken_by taking.old) path name (Ok file) ≡ Ok (taken_by taking.new)) }
    ensures refused { IfErr result (Refuses (Some (take_loaded (taken_by taking.old) path name (Ok file)))) }
    ensures cause { (n : ℕ) → HasReadCause n n result }
    ensures named { (path : List ℕ) → IfErr result (NamesPath path) }
{
    let algorithm = algorithm_of(&file.function);
    if !fits(taking.algorithm, algorithm) {
        return Err(JoinStop::Another { path });
    }
    let shard = shard_of(name, taking.total, &file.function, file.len, file.digest);
    let span = shard.span;
    match taking.shards.push(shard) {
        Ok(()) => {}
        Err(_) => return Err(JoinStop::Memory),
    }
    taking.algorithm = Some(algorithm);
    taking.total += span as u64;
    Ok(())
}

/// Takes the function of an argument, which is a path. It is read at the path that its name means.
#[tactic(auto, unfolding(crate::specs::Taking::take_function))]
fn take_function<D: Disk>(
    alloc: Global,
    manifest: &str,
    function: &str,
    taking: &mut Taking,
    disk: &mut D,
) -> Result<(), JoinStop>
    requires taking { IsTaking taking.old }
    requires room { length taking.old.shards.items < MAX_SHARDS }
    ensures disk { ChangesNoFile (D.state disk.old) (D.state disk.new) }
    ensures cause { HasReadCause (D.state disk.old).read_faults (D.state disk.new).read_faults result }
    ensures taking { OnOk result (IsTaking taking.new) }
    ensures count { OnOk result (length taking.new.shards.items ≡ length taking.old.shards.items + 1) }
    ensures taken { OnOk result (ForSome (D.state disk.old).files (λ files.
        take_function files manifest.now (taken_by taking.old) function.now ≡ Some (Ok (taken_by taking.new)))) }
    ensures refused { IfErr result (λ stop. ForSome (D.state disk.old).files (λ files. Refuses (take_function files manifest.now (taken_by taking.old) function.now) stop)) }
    ensures named { IfErr result (NamesPath (path_of manifest.now (name_of manifest.now function.now))) }
{
    let name = match name_of(alloc, manifest, function) {
        Ok(name) => name,
        Err(_) => return Err(JoinStop::Memory),
    };
    let path = match path_of(alloc, manifest, name.as_str()) {
        Ok(path) => path,
        Err(_) => return Err(JoinStop::Memory),
    };
    if !is_name(name.as_str()) {
        return Err(JoinStop::BadName { path });
    }
    match read_function(alloc, path.as_str(), disk) {
        Ok(file) => take_file(taking, path, name, file),
        Err(Unloaded::Memory) => Err(JoinStop::Memory),
        Err(Unloaded::Read) => Err(JoinStop::Read { path }),
        Err(Unloaded::Bad(fault)) => Err(JoinStop::BadDump { path, fault }),
    }
}

/// Takes the functions of a job, in order.
pub(crate) fn take_all<D: Disk>(
    alloc: Global,
    job: &JoinJob,
    disk: &mut D,
) -> Result<Taking, JoinStop>
    requires job { IsJoinJob job.now }
    ensures disk { ChangesNoFile (D.state disk.old) (D.state disk.new) }
    ensures cause { HasReadCause (D.state disk.old).read_faults (D.state disk.new).read_faults result }
    ensures taking { IfOk result IsTaking }
    ensures count { IfOk result (λ t. length t.shards.items ≡ length job.now.functions) }
    ensures taken { IfOk result (λ t. ForSome (D.state disk.old).files (λ files.
        take_all files job.now.manifest nothing job.now.functions ≡ Some (Ok (taken_by t)))) }
    ensures refused { IfErr result (λ stop. ForSome (D.state disk.old).files (λ files. Refuses (take_all files job.now.manifest nothing job.now.functions) stop)) }
    ensures named { IfErr result (λ stop. ForSome (D.state disk.old).files (λ files. NamesFunction job.now files stop)) }
{
    let mut taking = Taking {
        algorithm: None,
        shards: Vec::new(alloc),
        total: 0,
    };
    for function in job.functions.as_slice() {
        match take_function(
            alloc,
            job.manifest.as_str(),
            function.as_str(),
            &mut taking,
            disk,
        ) {
            Ok(()) => {}
            Err(stop) => return Err(stop),
        }
    }
    Ok(taking)
}
