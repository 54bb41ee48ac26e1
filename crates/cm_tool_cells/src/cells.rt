//! The cells of keys by any scheme.
ghost use Rattle.std.specs.Prelude.{◌≡◌, ◌<◌, ◌≤◌, length, slice_index, count_by, IfOk, IfErr};
ghost use Rattle.std.specs.Option.{ForSome};
ghost use Rattle.cm_algo_seeds.specs.Fails.{FailsBuild, HasBuildCause, HasBuildFailure, HasForm, HasNumbers};
ghost use Rattle.cm_spec.specs.Cells.{is_busy};
ghost use Rattle.cm_spec.specs.Rule.{IsRatio};
ghost use Rattle.cm_spec.specs.declared.limits.TheConstants.{MAX_KEYS};
ghost use Rattle.cm_tool_cells.specs.Seeds.{IsBuiltFrom};

use cm_algo::{BuildFault, Built, Scheme, build};
use cm_graph::{Steps, Xored};
use cm_io::KeyPass;
use std::alloc::Global;
use std::sync::ledger::{Blank, Ledger};

/// Builds over a pass by the rule of a scheme, with steps that nobody reads: the cells of the first seed whose graph has an
/// empty 2-core.
pub fn build_by<S: Scheme<K>, P: KeyPass, const K: usize, L: Ledger>(
    alloc: Global,
    scheme: &S,
    keys: &mut P,
    c: u32,
    seeds: &[u32],
    blank: Blank,
) -> Result<Built<S::Table>, BuildFault>
    requires name { blank.name ≡ L.name }
    requires parts { blank.parts ≡ L.parts }
    requires some { 0 < blank.parts }
    requires ratio { IsRatio c }
    requires seeds { 0 < length seeds.now }
    ensures told { P.told keys.new ≡ P.told keys.old }
    ensures cause { HasBuildCause (P.faults keys.old) (P.faults keys.new) result }
    ensures many { IfOk result (λ b. (1 ≤ b.m) × (b.m ≤ MAX_KEYS) × (b.c ≡ c)) }
    ensures cells { IfOk result (λ b. (S.Table.bound_of b.cells ≡ (S.rule scheme.now).bound b.m) × (length (S.Table.cells b.cells) ≡ (S.rule scheme.now).size b.m c)) }
    ensures busy { IfOk result (λ b. (S.rule scheme.now).modulus b.m ≤ (S.rule scheme.now).idle → count_by (is_busy (S.rule scheme.now).idle) (S.Table.cells b.cells) ≡ b.m) }
    ensures first { IfOk result (λ b. ForSome (P.told keys.old) (λ told. IsBuiltFrom (S.rule scheme.now) told c seeds.now b.m b.seed (S.Table.cells b.cells))) }
    ensures fault { IfErr result (λ e. ForSome (P.told keys.old) (λ told. FailsBuild (S.rule scheme.now) told c seeds.now e)) }
    ensures failed { IfErr result (HasBuildFailure (P.failure keys.new)) }
    ensures numbers { IfErr result (HasNumbers (P.place keys.new)) }
    ensures certificate { IfErr result (HasForm (S.algorithm_of scheme.now) (slice_index seeds.now 0)) }
{
    let mut steps = Steps::<L>::new(blank);
    match build::<S, Xored<K>, P, K, L>(alloc, scheme, keys, c, seeds, &mut steps) {
        Ok(built) => Ok(built),
        Err(fault) => Err(fault),
    }
}
