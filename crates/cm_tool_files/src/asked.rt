//! What a function file is that is asked for keys.
ghost use Rattle.std.specs.Prelude.{◌≡◌};
ghost use Rattle.cm_tool_files.specs.Asked.{unloaded_from};

use cm_dump::{LoadFault, Loaded, load_versioned};
use cm_io::{KeyPass, Notes, Sink, Source};
use cm_query::{QueryFault, query};
use cm_tool_asking::{Asked, Unloaded};
use std::alloc::Global;

/// A function that was loaded from its file, to be asked for keys.
#[derive(Drop)]
pub struct AskedFunc {
    /// The function, and the version of its file.
    pub loaded: Loaded,
}

/// Why no function was loaded.
fn unloaded(fault: LoadFault) -> Unloaded<LoadFault>
    ensures fault { result ≡ unloaded_from fault }
{
    match fault {
        LoadFault::Memory => Unloaded::Memory,
        LoadFault::Read => Unloaded::Read,
        fault => Unloaded::Bad(fault),
    }
}

impl Asked for AskedFunc {
    ghost use Rattle.cm_tool_files.specs.Asked.{func_meaning};

    type Fault = LoadFault;

    ghost meaning = { func_meaning };

    fn load<S: Source>(alloc: Global, source: &mut S) -> Result<AskedFunc, Unloaded<LoadFault>> {
        match load_versioned(alloc, source) {
            Ok(loaded) => Ok(AskedFunc { loaded }),
            Err(fault) => Err(unloaded(fault)),
        }
    }

    fn answer<P: KeyPass, O: Sink, E: Sink>(
        &self,
        alloc: Global,
        keys: &mut P,
        end: u8,
        out: &mut O,
        err: &mut E,
        notes: &mut Notes,
    ) -> Result<bool, QueryFault> {
        match query(alloc, &self.loaded.func, keys, end, out, err, notes) {
            Ok(tally) => Ok(tally.repeated + tally.unknown == 0),
            Err(fault) => Err(fault),
        }
    }
}
