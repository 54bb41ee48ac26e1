//! Cells for the driver of builds.
ghost use Rattle.std.specs.Prelude.{◌≡◌, ◌<◌, ◌≤◌, ℕ, count_by, length, IfErr, IfOk};
ghost use Rattle.std.specs.Option.{ForSome};
ghost use Rattle.cm_spec.specs.Cells.{is_busy};
ghost use Rattle.cm_spec.specs.declared.limits.TheConstants.{MAX_KEYS};
ghost use Rattle.cm_tool_building.specs.Makes.{HasMakeCause, IsAllowedFault};
ghost use Rattle.cm_tool_cells.specs.Recipes.{FailsCells, HasCellsFailure, IsRecipe, MayStop, fault_from, tried};
ghost use Rattle.cm_tool_cells.specs.Seeds.{IsBuiltFrom};

use crate::cells::build_by;
use crate::recipe::Recipe;
use crate::report::CoreReport;
use crate::tries::seeds;
use cm_algo::{BuildFault, Built, Scheme};
use cm_io::KeyPass;
use cm_tool_building::Fault;
use cm_witness_gather::SeedFailure;
use std::alloc::Global;
use std::sync::ledger::{Blank, Ledger};

/// A fault of a build, for the driver.
fn fault_of(fault: BuildFault) -> Fault<CoreReport>
    ensures fault { result ≡ fault_from fault }
{
    match fault {
        BuildFault::Memory => Fault::Memory,
        BuildFault::NoKeys => Fault::NoKeys,
        BuildFault::Cored(certificate) => Fault::Refused {
            failure: SeedFailure::NoSeed,
            report: CoreReport { certificate },
        },
        BuildFault::Key(fault) => Fault::Key(fault),
        BuildFault::Changed { first, now } => Fault::Changed { first, now },
    }
}

/// The cells of the keys of a pass under the first seed of a recipe whose graph has an empty 2-core, or why there are none, for the
/// driver of builds, with steps that nobody reads. The recipe must be in its ranges. The faults: `Memory` out of memory; `NoKeys` there
/// are no keys; `Refused` no seed of the recipe works, with the report on the first; `Key` a pass over the keys failed; `Changed` a later
/// pass yielded another number of keys than the first.
pub fn make_cells<S: Scheme<K>, P: KeyPass, const K: usize, L: Ledger>(
    alloc: Global,
    scheme: &S,
    keys: &mut P,
    recipe: Recipe,
    blank: Blank,
) -> Result<Built<S::Table>, Fault<CoreReport>>
    requires name { blank.name ≡ L.name }
    requires parts { blank.parts ≡ L.parts }
    requires some { 0 < blank.parts }
    requires recipe { IsRecipe recipe }
    ensures told { P.told keys.new ≡ P.told keys.old }
    ensures cause { (w : ℕ) → HasMakeCause (P.faults keys.old) (P.faults keys.new) w w result }
    ensures many { IfOk result (λ b. (1 ≤ b.m) × (b.m ≤ MAX_KEYS) × (b.c ≡ recipe.c)) }
    ensures cells { IfOk result (λ b. (S.Table.bound_of b.cells ≡ (S.rule scheme.now).bound b.m) × (length (S.Table.cells b.cells) ≡ (S.rule scheme.now).size b.m recipe.c)) }
    ensures busy { IfOk result (λ b. (S.rule scheme.now).modulus b.m ≤ (S.rule scheme.now).idle → count_by (is_busy (S.rule scheme.now).idle) (S.Table.cells b.cells) ≡ b.m) }
    ensures first { IfOk result (λ b. ForSome (P.told keys.old) (λ told. IsBuiltFrom (S.rule scheme.now) told recipe.c (tried recipe) b.m b.seed (S.Table.cells b.cells))) }
    ensures refused { IfErr result (λ fault. ForSome (P.told keys.old) (λ told. FailsCells (S.algorithm_of scheme.now) (S.rule scheme.now) recipe told fault)) }
    ensures failed { IfErr result (HasCellsFailure (P.failure keys.new)) }
    ensures form { IfErr result (IsAllowedFault MayStop) }
{
    let seeds = seeds(recipe.seed, recipe.count);
    match build_by::<S, P, K, L>(alloc, scheme, keys, recipe.c, seeds.as_slice(), blank) {
        Ok(built) => Ok(built),
        Err(fault) => Err(fault_of(fault)),
    }
}
