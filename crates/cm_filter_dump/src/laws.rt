//! A law of builds. Its body calls the laws that it follows from, and does nothing else.
ghost use Rattle.std.specs.Prelude.{◌≡◌, ℕ, List, Some};
ghost use Rattle.std.specs.FinMap as map;
ghost use Rattle.cm_filter_dump.specs.Building.{make_filter, recipe_of};
ghost use Rattle.cm_filter_dump.specs.Running.{HasSavedAll};
ghost use Rattle.cm_filter_dump.specs.declared.files.FilterFile.{FilterFile};
ghost use Rattle.cm_filter.specs.Filters.{filter_rule};
ghost use Rattle.cm_filter_file.specs.FilterFiles.{IsFilter, filter_bytes};
ghost use Rattle.cm_filter_words.specs.Limits.{IsFilterBuild};
ghost use Rattle.cm_filter_words.specs.declared.jobs.FilterBuild.{FilterBuild};
ghost use Rattle.cm_io.specs.Files.{Files, file_at};
ghost use Rattle.cm_keys.specs.Lines.{keys_in};
ghost use Rattle.cm_tool_cells.specs.Recipes.{IsMadeOf};

use cm_algo_cells::cells_solve;
use cm_filter::keys_hold;
use cm_filter_file::laws::files_spell;
use cm_peel::empty_rest;

/// A build that came to its end left a filter file in whose filter each of the keys holds.
pub(crate) fn all_hold()
    ensures { (job : FilterBuild) (files : Files) (bytes : List ℕ) (file : FilterFile) → IsFilterBuild job → file_at files job.keys ≡ Some bytes → IsMadeOf (filter_rule job.w) (recipe_of job) (make_filter job) (keys_in job.first job.end bytes) file → IsFilter file.filter
        → HasSavedAll job files (Some (map.insert files job.filter (filter_bytes file.filter))) }
{
    cells_solve();
    keys_hold();
    files_spell();
    empty_rest();
}
