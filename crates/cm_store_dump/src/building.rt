//! Builds.
ghost use Rattle.std.specs.Prelude.{◌≡◌};
ghost use Rattle.cm_io.specs.States.{outside};
ghost use Rattle.cm_store_dump.specs.Running.{RunsBuild};
ghost use Rattle.cm_store_words.specs.Limits.{IsStoreBuild};

use crate::files::StoreFile;
use crate::laws::all_answered;
use crate::making::make_store;
use cm_io::{Disk, KeyPass, Sink};
use cm_store_values::PROGRAM;
use cm_store_words::StoreBuild;
use cm_tool_building::{BuildFiles, Builder, Fault, build};
use cm_tool_cells::CoreReport;
use cm_tool_stops::Names;
use std::alloc::Global;

/// What builds the store of a job.
#[derive(Drop)]
struct StoreBuilder {
    job: StoreBuild,
}

impl Builder for StoreBuilder {
    ghost use Rattle.cm_store_dump.specs.Building.{meaning_of};

    type Made = StoreFile;

    type Report = CoreReport;

    ghost meaning = { λ builder. meaning_of builder.job };

    fn make<P: KeyPass, D: Disk>(
        &self,
        alloc: Global,
        keys: &mut P,
        _disk: &mut D,
    ) -> Result<StoreFile, Fault<CoreReport>> {
        make_store::<P>(alloc, &self.job, keys)
    }

    fn say<E: Sink>(&self, _made: &StoreFile, _err: &mut E) {}
}

/// Runs a build, and returns its status.
pub(crate) fn run_build<D: Disk, O: Sink, E: Sink>(
    alloc: Global,
    job: StoreBuild,
    disk: &mut D,
    out: &mut O,
    err: &mut E,
) -> u8
    requires job { IsStoreBuild job }
    ensures runs { RunsBuild job (outside (D.state disk.old) (O.state out.old) (E.state err.old)) (outside (D.state disk.new) (O.state out.new) (E.state err.new)) result }
{
    // A law, for the proof alone.
    all_answered();
    let builder = StoreBuilder { job };
    let files = BuildFiles {
        names: Names {
            program: PROGRAM,
            keys: builder.job.lines.as_str(),
            function: builder.job.store.as_str(),
        },
        dir: "",
        first: builder.job.first,
        end: builder.job.end,
    };
    build(alloc, &builder, &files, disk, out, err)
}
