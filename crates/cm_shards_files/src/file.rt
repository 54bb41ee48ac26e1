//! The function of one file, with its digest.
ghost use Rattle.std.specs.Prelude.{◌≡◌, ◌≤◌, IfOk, OnOk, length};
ghost use Rattle.std.specs.Option.{ForSome};
ghost use Rattle.cm_dump.specs.Spelling.{spelling_of};
ghost use Rattle.cm_func.specs.Functions.{IsFunction};
ghost use Rattle.cm_io.specs.Causes.{HasDiskCause};
ghost use Rattle.cm_shards_files.specs.FunctionFiles.{algorithm_by, function_file_in, is_by, keys_by};
ghost use Rattle.cm_shards_files.specs.Loading.{ChangesNoFile};
ghost use Rattle.cm_shards_files.specs.Sums.{with_sum};
ghost use Rattle.cm_spec.specs.declared.limits.TheConstants.{MAX_KEYS};
ghost use Rattle.cm_tool_asking.specs.Loads.{HasLoadCause, IsSpelled, Loads};

use crate::hashed::{Hashed, Sum};
use cm_algo_names::Algorithm;
use cm_dump::{Func, LoadFault, load};
use cm_io::{Disk, DiskFault, Failed, Source};
use cm_tool_asking::Unloaded;
use std::alloc::Global;

/// How many bytes are read at most by one call behind a function.
const CHUNK: usize = 64;

/// The function of a file.
#[derive(Drop)]
pub struct FunctionFile {
    /// The function that the bytes of the file spell.
    pub function: Func,
    /// How many bytes the file has.
    pub len: u64,
    /// The SHA-256 digest of its bytes.
    pub digest: [u8; 32],
}

/// How many keys a function was built over.
pub fn keys_of(function: &Func) -> u32
    ensures keys { result ≡ keys_by function.now }
    ensures within { (1 ≤ result) × (result ≤ MAX_KEYS) }
{
    match function {
        Func::Chm(chm) => chm.keys(),
        Func::Bdz(bdz) => bdz.keys(),
        Func::BdzPh(bdz_ph) => bdz_ph.keys(),
        Func::Brz(brz) => brz.keys(),
    }
}

/// The algorithm that built a function.
pub fn algorithm_of(function: &Func) -> Algorithm
    ensures algorithm { result ≡ algorithm_by function.now }
{
    match function {
        Func::Chm(_) => Algorithm::Chm,
        Func::Bdz(_) => Algorithm::Bdz,
        Func::BdzPh(_) => Algorithm::BdzPh,
        Func::Brz(_) => Algorithm::Brz,
    }
}

/// Whether an algorithm built a function.
pub fn is_by(algorithm: Algorithm, function: &Func) -> bool
    ensures by { result ≡ is_by algorithm function.now }
{
    match (algorithm, function) {
        (Algorithm::Chm, Func::Chm(_)) => true,
        (Algorithm::Bdz, Func::Bdz(_)) => true,
        (Algorithm::BdzPh, Func::BdzPh(_)) => true,
        (Algorithm::Brz, Func::Brz(_)) => true,
        _ => false,
    }
}

/// Reads a source to its end.
fn read_rest<S: Source>(source: &mut S) -> Result<(), DiskFault>
    ensures told { S.told source.new ≡ S.told source.old }
    ensures end { OnOk result (ForSome (S.told source.old) (λ bytes. length bytes ≤ S.place source.new)) }
    ensures cause { HasDiskCause (S.faults source.old) (S.faults source.new) result }
{
    let mut chunk = [0; CHUNK];
    for _ in 0..u64::MAX {
        match source.read(&mut chunk) {
            Ok(0) => return Ok(()),
            Ok(_) => {}
            Err(Failed) => return Err(DiskFault::Failed),
        }
    }
    // No function has as many bytes.
    Err(DiskFault::Memory)
}

/// Loads the function that all bytes of a source spell, which stands at its start, and reads it to its end.
fn load_all<S: Source>(alloc: Global, source: &mut S) -> Result<Func, Unloaded<LoadFault>>
    requires start { ForSome (S.told source.old) (λ _. S.place source.old ≡ 0) }
    ensures told { S.told source.new ≡ S.told source.old }
    ensures spelled { ForSome (S.told source.old) (λ bytes. IsSpelled spelling_of bytes result) }
    ensures end { OnOk result (ForSome (S.told source.old) (λ bytes. length bytes ≤ S.place source.new)) }
    ensures cause { HasLoadCause (S.faults source.old) (S.faults source.new) result }
    ensures valid { IfOk result IsFunction }
{
    let function = match load(alloc, source) {
        Ok(function) => function,
        Err(LoadFault::Memory) => return Err(Unloaded::Memory),
        Err(LoadFault::Read) => return Err(Unloaded::Read),
        Err(fault) => return Err(Unloaded::Bad(fault)),
    };
    match read_rest(source) {
        Ok(()) => Ok(function),
        Err(DiskFault::Memory) => Err(Unloaded::Memory),
        Err(DiskFault::Failed) => Err(Unloaded::Read),
    }
}

/// The file of a function that was loaded, by the sum of its bytes.
fn with_sum(
    loaded: Result<Func, Unloaded<LoadFault>>,
    sum: Sum,
) -> Result<FunctionFile, Unloaded<LoadFault>>
    ensures file { result ≡ with_sum loaded sum }
{
    match loaded {
        // No function has as many bytes.
        Ok(_) if sum.len == u64::MAX => Err(Unloaded::Memory),
        Ok(function) => {
            let Sum { len, digest } = sum;
            Ok(FunctionFile {
                function,
                len,
                digest,
            })
        }
        Err(fault) => Err(fault),
    }
}

/// Loads the function of the file of a path, with all checks. `Read` says that the file can't be opened or read. The file is read once,
/// up to its first fault, and hashed as it is read, so function and digest are those of the same bytes.
pub fn read_function<D: Disk>(
    alloc: Global,
    path: &str,
    disk: &mut D,
) -> Result<FunctionFile, Unloaded<LoadFault>>
    ensures disk { ChangesNoFile (D.state disk.old) (D.state disk.new) }
    ensures cause { HasLoadCause (D.state disk.old).read_faults (D.state disk.new).read_faults result }
    ensures loads { ForSome (D.state disk.old).files (λ files. Loads function_file_in files path.now result) }
    ensures valid { IfOk result (λ file. IsFunction file.function) }
{
    let reader = match disk.open(path) {
        Ok(reader) => reader,
        Err(DiskFault::Memory) => return Err(Unloaded::Memory),
        Err(DiskFault::Failed) => return Err(Unloaded::Read),
    };
    let mut hashed = Hashed::new(reader);
    let loaded = load_all(alloc, &mut hashed);
    let (reader, sum) = hashed.finish();
    disk.shut(reader);
    with_sum(loaded, sum)
}
