//! Builds.
ghost use Rattle.cm_io.specs.States.{outside};
ghost use Rattle.cm_tool.specs.Numbers.{RunsBuild};
ghost use Rattle.cm_words.specs.Limits.{IsBuild};

use crate::built::{say_built, sum_up};
use crate::laws::saved_numbers;
use crate::plan::plan_of;
use crate::program::PROGRAM;
use crate::reports::{FuncReport, fault_of};
use cm_io::{Disk, KeyPass, Sink};
use cm_tool_building::{BuildFiles, Builder, Fault, build};
use cm_tool_builds::func_of;
use cm_tool_cells::seeds;
use cm_tool_files::FuncFile;
use cm_tool_stops::Names;
use cm_words::BuildJob;
use std::alloc::Global;

/// What builds the function of a job.
#[derive(Drop)]
struct FuncBuilder {
    job: BuildJob,
}

impl Builder for FuncBuilder {
    ghost use Rattle.cm_tool.specs.Building.{meaning_of};

    type Made = FuncFile;

    type Report = FuncReport;

    ghost meaning = { λ builder. meaning_of builder.job };

    fn make<P: KeyPass, D: Disk>(
        &self,
        alloc: Global,
        keys: &mut P,
        disk: &mut D,
    ) -> Result<FuncFile, Fault<FuncReport>> {
        let plan = plan_of(&self.job);
        let tried = seeds(self.job.seed, self.job.count);
        let dir = self.job.dir.as_str();
        match func_of(alloc, &plan, tried.as_slice(), dir, keys, disk) {
            Ok(func) => Ok(FuncFile { func }),
            Err(fault) => Err(fault_of(fault)),
        }
    }

    fn say<E: Sink>(&self, made: &FuncFile, err: &mut E) {
        say_built(&self.job, sum_up(&made.func), err);
    }
}

/// Runs a build, and returns its status.
pub(crate) fn run_build<D: Disk, O: Sink, E: Sink>(
    alloc: Global,
    job: BuildJob,
    disk: &mut D,
    out: &mut O,
    err: &mut E,
) -> u8
    requires job { IsBuild job }
    ensures runs { RunsBuild job (outside (D.state disk.old) (O.state out.old) (E.state err.old)) (outside (D.state disk.new) (O.state out.new) (E.state err.new)) result }
{
    // A law, for the proof alone.
    saved_numbers();
    let builder = FuncBuilder { job };
    let files = BuildFiles {
        names: Names {
            program: PROGRAM,
            keys: builder.job.keys.as_str(),
            function: builder.job.function.as_str(),
        },
        dir: builder.job.dir.as_str(),
        first: builder.job.first,
        end: builder.job.end,
    };
    build(alloc, &builder, &files, disk, out, err)
}
