//! Filter files: filters that are saved, loaded, and asked for keys.
ghost use Rattle.std.specs.Prelude.{◌≡◌};
ghost use Rattle.cm_filter_dump.specs.Asked.{load_fault_of, unloaded_from};

use cm_dump_items::LoadFault;
use cm_filter::Filter;
use cm_filter_file::{FilterFault, load_filter, save_filter};
use cm_filter_members::write_members;
use cm_io::{Failed, KeyPass, Notes, Sink, Source};
use cm_query_batch::QueryFault;
use cm_tool_asking::{Asked, Unloaded};
use cm_tool_building::Saved;
use cm_tool_stops::{Explained, Names};
use std::alloc::Global;

/// A filter, as its file holds it.
#[derive(Drop)]
pub struct FilterFile {
    /// The filter.
    pub filter: Filter,
}

/// What is wrong with the bytes of a filter file.
#[derive(Clone, Copy, Debug, Drop)]
pub struct BadFilter {
    /// The first fault of the bytes.
    pub fault: FilterFault,
}

/// The same fault of a function file, whose message it has.
fn load_fault(fault: FilterFault) -> LoadFault
    ensures fault { result ≡ load_fault_of fault }
{
    match fault {
        FilterFault::Memory => LoadFault::Memory,
        FilterFault::Read => LoadFault::Read,
        FilterFault::Truncated { at } => LoadFault::Truncated { at },
        FilterFault::BadMagic => LoadFault::BadMagic,
        FilterFault::BadField { at } => LoadFault::BadField { at },
        FilterFault::BadPadding { at } => LoadFault::BadPadding { at },
        FilterFault::Trailing => LoadFault::Trailing,
    }
}

/// Why no filter was loaded.
fn unloaded(fault: FilterFault) -> Unloaded<BadFilter>
    ensures fault { result ≡ unloaded_from fault }
{
    match fault {
        FilterFault::Memory => Unloaded::Memory,
        FilterFault::Read => Unloaded::Read,
        fault => Unloaded::Bad(BadFilter { fault }),
    }
}

impl Explained for BadFilter {
    ghost use Rattle.cm_filter_dump.specs.Asked.{bad_filter};

    ghost message = { bad_filter };

    fn explain<E: Sink>(&self, names: &Names<'_>, err: &mut E, notes: &mut Notes) {
        load_fault(self.fault).explain(names, err, notes);
    }
}

impl Saved for FilterFile {
    ghost use Rattle.cm_filter_file.specs.FilterFiles.{filter_bytes};

    ghost bytes = { λ file. filter_bytes file.filter };

    fn save<O: Sink>(&self, out: &mut O) -> Result<(), Failed> {
        save_filter(&self.filter, out)
    }
}

impl Asked for FilterFile {
    ghost use Rattle.cm_filter_dump.specs.Asked.{file_meaning};

    type Fault = BadFilter;

    ghost meaning = { file_meaning };

    fn load<S: Source>(alloc: Global, source: &mut S) -> Result<FilterFile, Unloaded<BadFilter>> {
        match load_filter(alloc, source) {
            Ok(filter) => Ok(FilterFile { filter }),
            Err(fault) => Err(unloaded(fault)),
        }
    }

    fn answer<P: KeyPass, O: Sink, E: Sink>(
        &self,
        _alloc: Global,
        keys: &mut P,
        end: u8,
        out: &mut O,
        _err: &mut E,
        _notes: &mut Notes,
    ) -> Result<bool, QueryFault> {
        write_members(&self.filter, keys, end, out)
    }
}
