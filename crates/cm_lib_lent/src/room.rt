//! How many bytes the dump of a function has, before it is built.
ghost use Rattle.std.specs.Prelude.{◌≡◌, ◌≢◌, ◌≤◌, ◌<◌, ◌^◌, ℕ, List, length};
ghost use Rattle.cm_algo_names.specs.declared.algorithm.Algorithm.TheVariants.{Brz};
ghost use Rattle.cm_dump.specs.Dumps.{dump_of};
ghost use Rattle.cm_func.specs.declared.function.Func.{Func};
ghost use Rattle.cm_keys_lent.specs.Pass.{LentPass};
ghost use Rattle.cm_lib_lent.specs.Builds.{FailsLent, IsLentFunc};
ghost use Rattle.cm_lib_lent.specs.Rooms.{body_len_by, dump_len_by};
ghost use Rattle.cm_lib_lent.specs.declared.building.LentFault.TheVariants as lent;
ghost use Rattle.cm_spec.specs.declared.limits.TheConstants.{MAX_KEYS};
ghost use Rattle.cm_tool_builds.specs.Plans.{IsPlan};
ghost use Rattle.cm_tool_builds.specs.declared.plan.Plan as planned;

use cm_algo_names::Algorithm;
use cm_algo_scheme::Scheme;
use cm_bdz::{BdzPhScheme, BdzScheme};
use cm_bits::{Cells, Crumbs, Fields, Trits};
use cm_chm::ChmScheme;
use cm_dump::HEADER_LEN;
use cm_dump::laws::dump_lens;
use cm_tool_builds::Plan;

/// How many bytes the dump has after its header.
#[tactic(auto, using(cm_dump::specs::CellLaws::few_cells, cm_dump::specs::CellLaws::few_vertices, cm_dump_images::specs::ImageLaws::cells_near))]
fn body_len(plan: &Plan, keys: u32) -> u64
    requires plan { IsPlan plan.now }
    requires unspilled { plan.now.algorithm ≢ Brz }
    requires keys { (1 ≤ keys) × (keys ≤ MAX_KEYS) }
    ensures len { result ≡ body_len_by plan.now.algorithm plan.now.b plan.now.c keys }
    ensures few { result < 2 ^ 35 }
{
    match plan.algorithm {
        Algorithm::Chm => Fields::image_len(ChmScheme {}.size(keys, plan.c), keys),
        Algorithm::Bdz => {
            let cells = BdzScheme {}.size(keys, plan.c);
            let ranks = cells.div_ceil(1 << plan.b);
            Crumbs::image_len(cells, BdzScheme {}.bound(keys)) + 4 * ranks as u64
        }
        Algorithm::BdzPh => {
            let cells = BdzPhScheme {}.size(keys, plan.c);
            Trits::image_len(cells, BdzPhScheme {}.bound(keys))
        }
        Algorithm::Brz => unreachable!(),
    }
}

/// How many bytes the dump of a function of `keys` keys has that is built by this plan: by CHM, BDZ or BDZ_PH, with keys from 1 to `MAX_KEYS` of
/// `cm_spec`. Nothing is built, and no memory is taken.
pub fn dump_len(plan: &Plan, keys: u32) -> u64
    requires plan { IsPlan plan.now }
    requires unspilled { plan.now.algorithm ≢ Brz }
    requires keys { (1 ≤ keys) × (keys ≤ MAX_KEYS) }
    ensures len { result ≡ dump_len_by plan.now keys }
{
    HEADER_LEN + body_len(plan, keys)
}

/// The dump of a function of keys in memory has as many bytes as `dump_len` returns, whichever keys they are and whichever seed is taken, so
/// a room of as many bytes is never too small. A law, for proofs alone.
pub fn dumps_fit()
    ensures dump { (plan : planned.Plan) (seeds : List ℕ) (keys : LentPass) (f : Func) → plan.algorithm ≢ Brz → IsLentFunc plan seeds keys f → length (dump_of f) ≡ dump_len_by plan (length keys.ends) }
    ensures enough { (plan : planned.Plan) (seeds : List ℕ) (keys : LentPass) (room needed : ℕ) → plan.algorithm ≢ Brz → dump_len_by plan (length keys.ends) ≤ room → FailsLent plan seeds keys room (lent.Room needed) → ⊥ }
{
    dump_lens();
}
