//! A small caller of `cm_lib`, which uses no other crate: the keys of a pass, or the lines of a text, get numbers, and their function is
//! written into memory and read again.
#![tactic(auto)]

ghost use Rattle.std.specs.Prelude.{◌≡◌, ◌<◌, None, Ok, IfErr, IfOk, length};
ghost use Rattle.std.specs.Option.{ForSome};
ghost use Rattle.cm_lib.specs.Terms.{AnswersApart, Bdz, FailsFunc, Fails, Func, HasFuncForm, IsFunction};
ghost use Rattle.cm_lib.specs.Terms.{answer_by, dump_of, keys_in, spelling_of};

use cm_lib::laws::{dumps_spell, keys_have_numbers};
use cm_lib::{
    Algorithm, Failed, Func, FuncFault, KeyPass, Keys, LINE_END, LoadFault, MIN_BYTES, MemDisk,
    MemSink, MemSource, Plan, answer, func_of, load, save, saved_len,
};
use std::alloc::{AllocError, Global};

#[cfg(test)]
mod equal;
#[cfg(test)]
mod lent;
#[cfg(test)]
mod tests;

/// The ratio of vertices to keys, in millionths.
const RATIO: u32 = 1_230_000;

/// The rank of each cell whose index is a multiple of 2^7 is kept.
const SAMPLING: u16 = 7;

/// The function of the keys of a pass by BDZ, under the first of the seeds that works. Each key has a number of its own below their count.
/// Fails if memory runs out, if there are no keys, if the pass fails or has other keys later, and if no seed works, as for equal keys.
pub fn function_of<P: KeyPass>(
    alloc: Global,
    keys: &mut P,
    seeds: &[u32],
) -> Result<Func, FuncFault>
    requires seeds { 0 < length seeds.now }
    ensures numbers { IfOk result (λ f. ForSome (P.told keys.old) (λ told. AnswersApart told.keys (answer_by f) (length told.keys))) }
    ensures valid { IfOk result IsFunction }
    ensures refused { IfErr result (λ e. ForSome (P.told keys.old) (λ told. FailsFunc Bdz SAMPLING told RATIO seeds.now e)) }
    ensures form { IfErr result (HasFuncForm Bdz) }
{
    // A law, for the proof alone.
    keys_have_numbers();
    let plan = Plan {
        algorithm: Algorithm::Bdz,
        c: RATIO,
        b: SAMPLING,
        buffer: MIN_BYTES,
    };
    // BDZ makes no spill, so a disk without room will do.
    let mut disk = MemDisk::new(alloc, 0);
    let function = func_of(alloc, &plan, seeds, "", keys, &mut disk)?;
    Ok(function)
}

/// The function of the lines of a text: `function_of` for a pass over them.
pub fn numbered(alloc: Global, text: &[u8], seeds: &[u32]) -> Result<Func, FuncFault>
    requires seeds { 0 < length seeds.now }
    ensures numbers { IfOk result (λ f. AnswersApart (keys_in None LINE_END text.now).keys (answer_by f) (length (keys_in None LINE_END text.now).keys)) }
    ensures valid { IfOk result IsFunction }
    ensures refused { IfErr result (FailsFunc Bdz SAMPLING (keys_in None LINE_END text.now) RATIO seeds.now) }
    ensures form { IfErr result (HasFuncForm Bdz) }
{
    let Ok(bytes) = text.to_vec(alloc) else {
        return Err(FuncFault::Memory);
    };
    let source = MemSource::new(bytes, Vec::new(alloc), Vec::new(alloc));
    let mut keys = Keys::new(source, None, LINE_END);
    let built = function_of(alloc, &mut keys, seeds);
    drop(keys.into_source());
    built
}

/// The number of a key. A key that the function was not built over gets any number, or none.
pub fn number_of(function: &Func, key: &[u8]) -> Option<u32>
    ensures number { result ≡ answer_by function.now key.now }
{
    answer(function, key)
}

/// The dump of a function, in memory.
pub fn saved(alloc: Global, function: &Func) -> Result<Vec<u8>, AllocError>
    ensures dump { IfOk result (λ bytes. bytes.items ≡ dump_of function.now) }
{
    let len = saved_len(function);
    let mut sink = MemSink::new(alloc, len as usize, Vec::new(alloc))?;
    match save(function, &mut sink) {
        Ok(()) => Ok(sink.into_bytes()),
        Err(Failed) => Err(AllocError),
    }
}

/// The function whose dump the bytes are, which is the one that was saved, or the first fault of the bytes.
pub fn loaded(alloc: Global, bytes: Vec<u8>) -> Result<Func, LoadFault>
    ensures spelled { IfOk result (λ f. spelling_of bytes.items ≡ Ok f) }
    ensures same { (f : Func) → IsFunction f → bytes.items ≡ dump_of f → IfOk result (λ g. g ≡ f) }
    ensures valid { IfOk result IsFunction }
    ensures refused { IfErr result (λ fault. Fails fault (spelling_of bytes.items)) }
{
    // A law, for the proof alone.
    dumps_spell();
    let mut source = MemSource::new(bytes, Vec::new(alloc), Vec::new(alloc));
    load(alloc, &mut source)
}
