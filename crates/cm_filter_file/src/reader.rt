//! The filter whose file a source has.
ghost use Rattle.std.specs.Prelude.{◌≡◌, ◌≤◌, ◌^◌, Err, IfErr, IfOk, IsOk};
ghost use Rattle.std.specs.Option.{ForSome};
ghost use Rattle.cm_dump_items.specs.Reading.{Answers, HasLoadCause, IsAt};
ghost use Rattle.cm_dump_items.specs.declared.fault.LoadFault.{LoadFault};
ghost use Rattle.cm_filter.specs.Filters.{IsFingerprint};
ghost use Rattle.cm_spec.specs.Bdz.{bdz_size};
ghost use Rattle.cm_spec.specs.Rule.{IsRatio};
ghost use Rattle.cm_spec.specs.declared.limits.TheConstants.{MAX_KEYS, MAX_VERTICES};
ghost use Rattle.cm_filter_file.specs.FilterFiles.{IsFilter, cells_at, filter_at, header_at};
ghost use Rattle.cm_filter_file.specs.Loads.{HasFilterCause, IsLoaded, IsReadFault};
ghost use Rattle.cm_filter_file.specs.declared.fault.FilterFault.{FilterFault};
ghost use Rattle.cm_filter_file.specs.declared.header.TheConstants.{HEADER_LEN};

use crate::fault::{FilterFault, named};
use crate::header::{HEADER_LEN, Header, read_header};
use cm_algo_scheme::{Built, Scheme};
use cm_bits::{Cells, Fields};
use cm_dump_images::read_cells;
use cm_dump_items::{LoadFault, end};
use cm_filter::{Filter, FilterScheme};
use cm_io::Source;
use std::alloc::Global;

/// How many cells the filter of a header has, and their bound.
#[tactic(auto, using(crate::proofs::CellLemmas::few_cells, cm_filter::specs::FilterLaws::bound_most))]
fn shape(header: Header) -> (u32, u32)
    requires width { IsFingerprint header.w }
    requires keys { (1 ≤ header.keys) × (header.keys ≤ MAX_KEYS) }
    requires ratio { IsRatio header.ratio }
    ensures size { result.0 ≡ bdz_size header.keys header.ratio }
    ensures few { result.0 ≤ MAX_VERTICES }
    ensures bound { result.1 ≡ 2 ^ header.w }
    ensures low { (1 ≤ result.1) × (result.1 ≤ MAX_KEYS) }
{
    let scheme = FilterScheme::new(header.w);
    (
        scheme.size(header.keys, header.ratio),
        scheme.bound(header.keys),
    )
}

/// The filter of a header, whose file ends with the source.
#[tactic(auto, using(cm_dump_images::specs::ImageLaws::cells_near, cm_dump_images::specs::ImageLaws::fields_near), unfolding(crate::specs::FilterFiles::cells_at))]
fn load_cells<S: Source>(alloc: Global, source: &mut S, header: Header) -> Result<Filter, LoadFault>
    requires width { IsFingerprint header.w }
    requires keys { (1 ≤ header.keys) × (header.keys ≤ MAX_KEYS) }
    requires ratio { IsRatio header.ratio }
    requires at { IsAt (S.told source.old) (S.place source.old) HEADER_LEN }
    ensures told { S.told source.new ≡ S.told source.old }
    ensures exact { ForSome (S.told source.old) (λ bytes. Answers (λ f. f) result (cells_at bytes header)) }
    ensures valid { IfOk result (λ f. IsFilter f) }
    ensures cause { HasLoadCause (S.faults source.old) (S.faults source.new) result }
    ensures kind { IfErr result IsReadFault }
{
    let (n, bound) = shape(header);
    let cells: Fields = match read_cells(alloc, source, HEADER_LEN, n, bound) {
        Ok(cells) => cells,
        Err(fault) => return Err(fault),
    };
    let built = Built {
        m: header.keys,
        c: header.ratio,
        seed: header.seed,
        cells,
    };
    match end(source, HEADER_LEN + Fields::image_len(n, bound)) {
        Ok(()) => Ok(Filter::from_built(built, header.w)),
        Err(fault) => Err(fault),
    }
}

/// The filter whose file all the bytes of a source at its start are.
#[tactic(auto, unfolding(crate::specs::FilterFiles::filter_at))]
fn load_items<S: Source>(alloc: Global, source: &mut S) -> Result<Filter, LoadFault>
    requires start { ForSome (S.told source.old) (λ _. S.place source.old ≡ 0) }
    ensures told { S.told source.new ≡ S.told source.old }
    ensures exact { ForSome (S.told source.old) (λ bytes. Answers (λ f. f) result (filter_at bytes)) }
    ensures valid { IfOk result (λ f. IsFilter f) }
    ensures cause { HasLoadCause (S.faults source.old) (S.faults source.new) result }
    ensures memory { result ≡ Err LoadFault.Memory → ForSome (S.told source.old) (λ bytes. IsOk (header_at bytes)) }
    ensures kind { IfErr result IsReadFault }
{
    let header = read_header(source)?;
    load_cells(alloc, source, header)
}

/// Loads a filter from a source at its start: the one whose file all the bytes are. Returns `Read` exactly if the source fails, and
/// `Memory` only if memory runs out after a header without a fault. Any other error is the first fault of the bytes. Memory is allocated
/// as bytes are read, whatever the header claims.
pub fn load_filter<S: Source>(alloc: Global, source: &mut S) -> Result<Filter, FilterFault>
    requires start { ForSome (S.told source.old) (λ _. S.place source.old ≡ 0) }
    ensures told { S.told source.new ≡ S.told source.old }
    ensures spelled { ForSome (S.told source.old) (λ bytes. IsLoaded (λ f. f) bytes result) }
    ensures valid { IfOk result (λ f. IsFilter f) }
    ensures cause { HasFilterCause (S.faults source.old) (S.faults source.new) result }
    ensures memory { result ≡ Err FilterFault.Memory → ForSome (S.told source.old) (λ bytes. IsOk (header_at bytes)) }
{
    match load_items(alloc, source) {
        Ok(filter) => Ok(filter),
        Err(fault) => Err(named(fault)),
    }
}
