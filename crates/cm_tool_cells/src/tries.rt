//! The seeds that a build tries.
ghost use Rattle.std.specs.Prelude.{◌≡◌, ◌≤◌};
ghost use Rattle.cm_tool_cells.specs.Seeds.{seeds_of};
ghost use Rattle.cm_words_values.specs.declared.limits.TheConstants.{MAX_SEEDS};

use arrayvec::ArrayVec;
use cm_words_values::MAX_SEEDS;

/// The room for the seeds.
const ROOM: usize = MAX_SEEDS as usize;

/// The seeds that a build tries: `count` numbers, at most `MAX_SEEDS`, from the first on, modulo `2^32`.
pub fn seeds(first: u32, count: u32) -> ArrayVec<u32, ROOM>
    requires room { count ≤ MAX_SEEDS }
    ensures { result.items ≡ seeds_of first count }
{
    let mut seeds = ArrayVec::new();
    for i in 0..count {
        seeds.push(first.wrapping_add(i));
    }
    seeds
}
