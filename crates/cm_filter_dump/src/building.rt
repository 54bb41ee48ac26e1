//! Builds.
ghost use Rattle.std.specs.Prelude.{◌≡◌, ◌<◌, ℕ, IfErr, IfOk, Ok};
ghost use Rattle.std.specs.Option.{ForSome};
ghost use Rattle.cm_filter_dump.specs.Building.{IsFileOf, meaning_of};
ghost use Rattle.cm_filter_dump.specs.Running.{RunsBuild};
ghost use Rattle.cm_filter_words.specs.Limits.{IsFilterBuild};
ghost use Rattle.cm_io.specs.States.{outside};
ghost use Rattle.cm_tool_building.specs.Makes.{HasMakeCause, IsAllowedFault, RefusesBy};
ghost use Rattle.cm_tool_cells.specs.Recipes.{MayStop, report_bytes};

use crate::files::FilterFile;
use crate::laws::all_hold;
use crate::program::PROGRAM;
use cm_filter::{Filter, FilterScheme};
use cm_filter_words::FilterBuild;
use cm_io::{Disk, KeyPass, Sink};
use cm_tool_building::{BuildFiles, Builder, Fault, build};
use cm_tool_cells::{CoreReport, Recipe, make_cells};
use cm_tool_stops::Names;
use std::alloc::Global;
use std::marker::Brand;
use std::sync::ledger::{Blank, Ledger};

/// The filter of the keys of a pass, by a job, with steps that nobody reads.
fn make_by<P: KeyPass, L: Ledger>(
    alloc: Global,
    job: &FilterBuild,
    keys: &mut P,
    blank: Blank,
) -> Result<FilterFile, Fault<CoreReport>>
    requires name { blank.name ≡ L.name }
    requires parts { blank.parts ≡ L.parts }
    requires some { 0 < blank.parts }
    requires job { IsFilterBuild job.now }
    ensures cause { (w : ℕ) → HasMakeCause (P.faults keys.old) (P.faults keys.new) w w result }
    ensures made { IfOk result (λ file. ForSome (P.told keys.old) (λ told. (meaning_of job.now).verdict told ≡ Ok file)) }
    ensures makes { IfOk result (λ file. ForSome (P.told keys.old) (λ told. IsFileOf job.now told file)) }
    ensures refused { IfErr result (λ fault. ForSome (P.told keys.old) (λ told. RefusesBy report_bytes (meaning_of job.now) told fault)) }
    ensures form { IfErr result (IsAllowedFault MayStop) }
{
    let scheme = FilterScheme::new(job.w);
    let recipe = Recipe {
        c: job.c,
        seed: job.seed,
        count: job.count,
    };
    match make_cells::<FilterScheme, P, 3, L>(alloc, &scheme, keys, recipe, blank) {
        Ok(built) => Ok(FilterFile {
            filter: Filter::from_built(built, job.w),
        }),
        Err(fault) => Err(fault),
    }
}

/// What builds the filter of a job.
#[derive(Drop)]
struct FilterBuilder {
    job: FilterBuild,
}

impl Builder for FilterBuilder {
    ghost use Rattle.cm_filter_dump.specs.Building.{meaning_of};

    type Made = FilterFile;

    type Report = CoreReport;

    ghost meaning = { λ builder. meaning_of builder.job };

    fn make<P: KeyPass, D: Disk>(
        &self,
        alloc: Global,
        keys: &mut P,
        _disk: &mut D,
    ) -> Result<FilterFile, Fault<CoreReport>> {
        make_by::<P, Brand>(alloc, &self.job, keys, Blank::new(1))
    }

    fn say<E: Sink>(&self, _made: &FilterFile, _err: &mut E) {}
}

/// Runs a build, and returns its status.
pub(crate) fn run_build<D: Disk, O: Sink, E: Sink>(
    alloc: Global,
    job: FilterBuild,
    disk: &mut D,
    out: &mut O,
    err: &mut E,
) -> u8
    requires job { IsFilterBuild job }
    ensures runs { RunsBuild job (outside (D.state disk.old) (O.state out.old) (E.state err.old)) (outside (D.state disk.new) (O.state out.new) (E.state err.new)) result }
{
    // A law, for the proof alone.
    all_hold();
    let builder = FilterBuilder { job };
    let files = BuildFiles {
        names: Names {
            program: PROGRAM,
            keys: builder.job.keys.as_str(),
            function: builder.job.filter.as_str(),
        },
        dir: "",
        first: builder.job.first,
        end: builder.job.end,
    };
    build(alloc, &builder, &files, disk, out, err)
}
