//! A law of builds. Its body calls the laws that it follows from, and does nothing else.
ghost use Rattle.std.specs.Prelude.{◌≡◌, ℕ, List, Some};
ghost use Rattle.std.specs.FinMap as map;
ghost use Rattle.cm_dump.specs.Dumps.{dump_of};
ghost use Rattle.cm_func.specs.Functions.{IsFunction};
ghost use Rattle.cm_func.specs.declared.function.Func.{Func};
ghost use Rattle.cm_io.specs.Files.{Files, file_at};
ghost use Rattle.cm_tool_builds.specs.FuncOf.{IsFuncOf};
ghost use Rattle.cm_tool.specs.Jobs.{seeds_tried};
ghost use Rattle.cm_keys.specs.Lines.{keys_in};
ghost use Rattle.cm_tool.specs.Numbers.{SavedNumbers};
ghost use Rattle.cm_words.specs.Limits.{IsBuild};
ghost use Rattle.cm_words.specs.declared.jobs.BuildJob.{BuildJob};

use cm_algo_cells::cells_solve;
use cm_bdz::answers_apart;
use cm_brz::numbers_apart;
use cm_chm::answers_numbers;
use cm_dump::laws::dumps_spell;
use cm_peel::empty_rest;

/// A build that came to its end left a function file that answers the keys as functions by its algorithm do.
pub(crate) fn saved_numbers()
    ensures { (job : BuildJob) (files : Files) (bytes : List ℕ) (f : Func) → IsBuild job → file_at files job.keys ≡ Some bytes → IsFuncOf job.algorithm job.b (keys_in job.first job.end bytes) job.c (seeds_tried job) f → IsFunction f
        → SavedNumbers files (Some (map.insert files job.function (dump_of f))) job }
{
    cells_solve();
    answers_numbers();
    answers_apart();
    numbers_apart();
    dumps_spell();
    empty_rest();
}
