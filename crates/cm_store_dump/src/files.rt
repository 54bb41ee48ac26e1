//! Store files: stores that are saved, loaded, and asked for keys.
ghost use Rattle.std.specs.Prelude.{◌≡◌};
ghost use Rattle.cm_store_dump.specs.Asked.{unloaded_from};

use cm_io::{Failed, KeyPass, Notes, Sink, Source};
use cm_query_batch::QueryFault;
use cm_store::Store;
use cm_store_file::{StoreLoad, load_store, save_store};
use cm_store_values::write_values;
use cm_tool_asking::{Asked, Unloaded};
use cm_tool_building::Saved;
use cm_tool_stops::{Explained, Names};
use std::alloc::Global;

/// A store, as its file holds it.
#[derive(Drop)]
pub struct StoreFile {
    /// The store.
    pub store: Store,
}

/// What is wrong with the bytes of a store file.
#[derive(Clone, Copy, Debug, Drop)]
pub struct BadStore {
    /// The first fault of the bytes.
    pub fault: StoreLoad,
}

/// Why no store was loaded.
fn unloaded(fault: StoreLoad) -> Unloaded<BadStore>
    ensures fault { result ≡ unloaded_from fault }
{
    match fault {
        StoreLoad::Memory => Unloaded::Memory,
        StoreLoad::Read => Unloaded::Read,
        fault => Unloaded::Bad(BadStore { fault }),
    }
}

impl Explained for BadStore {
    ghost use Rattle.cm_store_dump.specs.Asked.{bad_store};

    ghost message = { bad_store };

    fn explain<E: Sink>(&self, names: &Names<'_>, err: &mut E, notes: &mut Notes) {
        let program = names.program.as_bytes();
        let function = names.function.as_bytes();
        notes.note_pieces(err, &[program, b": ", function, b": bad store\n"]);
    }
}

impl Saved for StoreFile {
    ghost use Rattle.cm_store_file.specs.StoreFiles.{store_bytes};

    ghost bytes = { λ file. store_bytes file.store };

    fn save<O: Sink>(&self, out: &mut O) -> Result<(), Failed> {
        save_store(&self.store, out)
    }
}

impl Asked for StoreFile {
    ghost use Rattle.cm_store_dump.specs.Asked.{file_meaning};

    type Fault = BadStore;

    ghost meaning = { file_meaning };

    fn load<S: Source>(alloc: Global, source: &mut S) -> Result<StoreFile, Unloaded<BadStore>> {
        match load_store(alloc, source) {
            Ok(store) => Ok(StoreFile { store }),
            Err(fault) => Err(unloaded(fault)),
        }
    }

    fn answer<P: KeyPass, O: Sink, E: Sink>(
        &self,
        _alloc: Global,
        keys: &mut P,
        end: u8,
        out: &mut O,
        err: &mut E,
        notes: &mut Notes,
    ) -> Result<bool, QueryFault> {
        write_values(&self.store, keys, end, out, err, notes)
    }
}
