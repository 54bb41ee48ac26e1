//! A function, saved into memory and loaded from there.
ghost use Rattle.std.specs.Prelude.{◌≡◌, IfOk};
ghost use Rattle.cm_dump.specs.Dumps.{dump_of};
ghost use Rattle.cm_func.specs.Functions.{IsFunction};

use cm_dump::laws::dumps_spell;
use cm_dump::{Func, LoadFault, load, save, saved_len};
use cm_io::Failed;
use cm_io_memory::{MemSink, MemSource};
use std::alloc::{AllocError, Global};

/// The dump of a function, in a buffer of its size.
fn dump(alloc: Global, function: &Func) -> Result<Vec<u8>, AllocError>
    ensures bytes { IfOk result (λ bytes. bytes.items ≡ dump_of function.now) }
{
    let len = saved_len(function);
    let mut sink = MemSink::new(alloc, len as usize, Vec::new(alloc))?;
    match save(function, &mut sink) {
        Ok(()) => Ok(sink.into_bytes()),
        Err(Failed) => Err(AllocError),
    }
}

/// Saves a function into memory, drops it, and loads the function that was saved.
pub fn reload(alloc: Global, function: Func) -> Result<Func, AllocError>
    requires valid { IsFunction function }
    ensures same { IfOk result (λ loaded. loaded ≡ function) }
{
    // A law, for the proof alone.
    dumps_spell();
    let bytes = dump(alloc, &function)?;
    drop(function);
    let mut source = MemSource::new(bytes, Vec::new(alloc), Vec::new(alloc));
    match load(alloc, &mut source) {
        Ok(loaded) => Ok(loaded),
        Err(LoadFault::Memory | LoadFault::Read) => Err(AllocError),
        Err(_) => unreachable!(),
    }
}
