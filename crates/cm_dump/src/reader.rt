//! The function that a source's bytes spell.
ghost use Rattle.std.specs.Prelude.{◌≡◌, ◌≢◌, ◌+◌, ◌*◌, ◌<◌, ◌≤◌, ℕ, Err, IsOk, Ok, OnOk, IfOk, count_by, length};
ghost use Rattle.std.specs.Option.{ForSome};
ghost use Rattle.cm_dump_items.specs.Reading.{Answers, IsAt, HasLoadCause};
ghost use Rattle.cm_dump_items.specs.declared.fault.LoadFault.{LoadFault};
ghost use Rattle.cm_spec.specs.declared.limits.TheConstants.{MAX_KEYS};
ghost use Rattle.cm_spec.specs.Bdz.{bdz_size};
ghost use Rattle.cm_spec.specs.Cells.{is_busy};
ghost use Rattle.cm_spec.specs.Image.{packed_len};
ghost use Rattle.cm_spec.specs.Rule.{IsRatio};
ghost use Rattle.cm_dump.specs.Forms.{form_of, version_2, version_of};
ghost use Rattle.cm_dump.specs.Headings.{IsParameter, heading_at};
ghost use Rattle.cm_chm.specs.Functions.{IsChm};
ghost use Rattle.cm_bdz.specs.Functions.{IsBdz, IsBdzPh};
ghost use Rattle.cm_func.specs.Functions.{IsFunction};
ghost use Rattle.cm_dump.specs.Spelling.{bdz_at, bdz_ph_at, body_at, chm_at, counted, ranked_at, spelling_of};
ghost use Rattle.cm_dump.specs.declared.header.TheConstants.{HEADER_LEN};

use crate::front::{Algorithm, Header, Heading, heading_of};
use crate::header::HEADER_LEN;
use crate::ranks::read_ranks;
use crate::rest::load_brz;
use crate::versions::Version;
use crate::{Func, LoadFault};
use cm_algo_scheme::{Built, Scheme};
use cm_bdz::{Bdz, BdzPh, BdzPhScheme, BdzScheme, PartsFault};
use cm_bits::{Cells, Crumbs, Fields, Trits};
use cm_chm::{Chm, ChmScheme};
use cm_dump_images::read_cells;
use cm_dump_items::{end, fill};
use cm_io::{Failed, Source};
use std::alloc::Global;

/// The CHM function of a header, whose dump ends with the source.
#[tactic(auto, using(cm_dump_images::specs::ImageLaws::fields_near, crate::specs::CellLaws::few_cells), unfolding(crate::specs::Spelling::chm_at))]
fn load_chm<S: Source>(alloc: Global, source: &mut S, header: Header) -> Result<Chm, LoadFault>
    requires keys { (1 ≤ header.keys) × (header.keys ≤ MAX_KEYS) }
    requires ratio { IsRatio header.ratio }
    requires at { IsAt (S.told source.old) (S.place source.old) HEADER_LEN }
    ensures told { S.told source.new ≡ S.told source.old }
    ensures exact { ForSome (S.told source.old) (λ bytes. Answers (λ f. f) result (chm_at bytes header)) }
    ensures valid { IfOk result (λ f. IsChm f) }
    ensures cause { HasLoadCause (S.faults source.old) (S.faults source.new) result }
{
    let n = ChmScheme {}.size(header.keys, header.ratio);
    let cells: Fields = match read_cells(alloc, source, HEADER_LEN, n, header.keys) {
        Ok(cells) => cells,
        Err(fault) => return Err(fault),
    };
    match end(source, HEADER_LEN + Fields::image_len(n, header.keys)) {
        Ok(()) => Ok(Chm::from_built(Built {
            m: header.keys,
            c: header.ratio,
            seed: header.seed,
            cells,
        })),
        Err(fault) => Err(fault),
    }
}

/// The BDZ function of a header and its cells. Returns `BadCount` if the number of cells that aren't 3 is not the number of keys.
#[tactic(auto, unfolding(crate::specs::Spelling::counted))]
fn count_cells(alloc: Global, header: Header, cells: Crumbs) -> Result<Bdz, LoadFault>
    requires keys { (1 ≤ header.keys) × (header.keys ≤ MAX_KEYS) }
    requires ratio { IsRatio header.ratio }
    requires b { (3 ≤ header.b) × (header.b ≤ 10) }
    requires size { length (⟦<Crumbs as Cells>⟧.cells cells) ≡ bdz_size header.keys header.ratio }
    ensures exact { Answers (λ f. f) result (counted header (⟦<Crumbs as Cells>⟧.cells cells)) }
    ensures valid { IfOk result (λ f. IsBdz f) }
    ensures cause { (n : ℕ) → HasLoadCause n n result }
    ensures memory { result ≡ Err LoadFault.Memory → count_by (is_busy 3) (⟦<Crumbs as Cells>⟧.cells cells) ≡ header.keys }
{
    let built = Built {
        m: header.keys,
        c: header.ratio,
        seed: header.seed,
        cells,
    };
    match Bdz::from_built(alloc, built, header.b as u8) {
        Ok(bdz) => Ok(bdz),
        Err(PartsFault::Memory) => Err(LoadFault::Memory),
        Err(PartsFault::BadCount) => Err(LoadFault::BadCount { at: HEADER_LEN }),
    }
}

/// The BDZ function of a header and its cells, whose dump ends with the source, after the ranks. The ranks are computed once, for all
/// cells.
#[tactic(auto, unfolding(crate::specs::Spelling::ranked_at))]
fn load_ranked<S: Source>(
    alloc: Global,
    source: &mut S,
    header: Header,
    cells: Crumbs,
) -> Result<Bdz, LoadFault>
    requires keys { (1 ≤ header.keys) × (header.keys ≤ MAX_KEYS) }
    requires ratio { IsRatio header.ratio }
    requires b { (3 ≤ header.b) × (header.b ≤ 10) }
    requires size { length (⟦<Crumbs as Cells>⟧.cells cells) ≡ bdz_size header.keys header.ratio }
    requires at { IsAt (S.told source.old) (S.place source.old) (HEADER_LEN + packed_len 4 (length (⟦<Crumbs as Cells>⟧.cells cells))) }
    ensures told { S.told source.new ≡ S.told source.old }
    ensures exact { ForSome (S.told source.old) (λ bytes. Answers (λ f. f) result (ranked_at bytes header (⟦<Crumbs as Cells>⟧.cells cells))) }
    ensures valid { IfOk result (λ f. IsBdz f) }
    ensures cause { HasLoadCause (S.faults source.old) (S.faults source.new) result }
    ensures memory { result ≡ Err LoadFault.Memory → count_by (is_busy 3) (⟦<Crumbs as Cells>⟧.cells cells) ≡ header.keys }
{
    let at = HEADER_LEN + Crumbs::image_len(cells.len(), 4);
    let bdz = match count_cells(alloc, header, cells) {
        Ok(bdz) => bdz,
        Err(fault) => return Err(fault),
    };
    let ranks = bdz.ranks();
    match read_ranks(source, at, ranks) {
        Ok(()) => {}
        Err(fault) => return Err(fault),
    }
    match end(source, at + 4 * ranks.entries() as u64) {
        Ok(()) => Ok(bdz),
        Err(fault) => Err(fault),
    }
}

/// The BDZ function of a header, whose dump ends with the source.
#[tactic(auto, using(cm_dump_images::specs::ImageLaws::packed_near, crate::specs::CellLaws::few_vertices), unfolding(crate::specs::Spelling::bdz_at))]
fn load_bdz<S: Source>(alloc: Global, source: &mut S, header: Header) -> Result<Bdz, LoadFault>
    requires keys { (1 ≤ header.keys) × (header.keys ≤ MAX_KEYS) }
    requires ratio { IsRatio header.ratio }
    requires b { (3 ≤ header.b) × (header.b ≤ 10) }
    requires at { IsAt (S.told source.old) (S.place source.old) HEADER_LEN }
    ensures told { S.told source.new ≡ S.told source.old }
    ensures exact { ForSome (S.told source.old) (λ bytes. Answers (λ f. f) result (bdz_at bytes header)) }
    ensures valid { IfOk result (λ f. IsBdz f) }
    ensures cause { HasLoadCause (S.faults source.old) (S.faults source.new) result }
{
    let n = BdzScheme {}.size(header.keys, header.ratio);
    match read_cells(alloc, source, HEADER_LEN, n, 4) {
        Ok(cells) => load_ranked(alloc, source, header, cells),
        Err(fault) => Err(fault),
    }
}

/// The BDZ_PH function of a header, whose dump ends with the source.
#[tactic(auto, using(cm_dump_images::specs::ImageLaws::packed_near, crate::specs::CellLaws::few_vertices), unfolding(crate::specs::Spelling::bdz_ph_at))]
fn load_bdz_ph<S: Source>(alloc: Global, source: &mut S, header: Header) -> Result<BdzPh, LoadFault>
    requires keys { (1 ≤ header.keys) × (header.keys ≤ MAX_KEYS) }
    requires ratio { IsRatio header.ratio }
    requires at { IsAt (S.told source.old) (S.place source.old) HEADER_LEN }
    ensures told { S.told source.new ≡ S.told source.old }
    ensures exact { ForSome (S.told source.old) (λ bytes. Answers (λ f. f) result (bdz_ph_at bytes header)) }
    ensures valid { IfOk result (λ f. IsBdzPh f) }
    ensures cause { HasLoadCause (S.faults source.old) (S.faults source.new) result }
{
    let n = BdzPhScheme {}.size(header.keys, header.ratio);
    let cells: Trits = match read_cells(alloc, source, HEADER_LEN, n, 3) {
        Ok(cells) => cells,
        Err(fault) => return Err(fault),
    };
    match end(source, HEADER_LEN + Trits::image_len(n, 3)) {
        Ok(()) => Ok(BdzPh::from_built(Built {
            m: header.keys,
            c: header.ratio,
            seed: header.seed,
            cells,
        })),
        Err(fault) => Err(fault),
    }
}

/// The function of a header of a version, whose dump ends with the source.
fn load_body<S: Source>(
    alloc: Global,
    source: &mut S,
    version: Version,
    header: Header,
) -> Result<Func, LoadFault>
    requires parameter { IsParameter version_2 header.algorithm header.b }
    requires keys { (1 ≤ header.keys) × (header.keys ≤ MAX_KEYS) }
    requires ratio { IsRatio header.ratio }
    requires at { IsAt (S.told source.old) (S.place source.old) HEADER_LEN }
    ensures told { S.told source.new ≡ S.told source.old }
    ensures exact { ForSome (S.told source.old) (λ bytes. Answers (λ f. f) result (body_at (form_of version) bytes header header.algorithm)) }
    ensures valid { IfOk result (λ f. IsFunction f) }
    ensures cause { HasLoadCause (S.faults source.old) (S.faults source.new) result }
{
    match header.algorithm {
        Algorithm::Chm => match load_chm(alloc, source, header) {
            Ok(chm) => Ok(Func::Chm(chm)),
            Err(fault) => Err(fault),
        },
        Algorithm::Bdz => match load_bdz(alloc, source, header) {
            Ok(bdz) => Ok(Func::Bdz(bdz)),
            Err(fault) => Err(fault),
        },
        Algorithm::BdzPh => match load_bdz_ph(alloc, source, header) {
            Ok(bdz_ph) => Ok(Func::BdzPh(bdz_ph)),
            Err(fault) => Err(fault),
        },
        Algorithm::Brz => match load_brz(alloc, source, version, header) {
            Ok(brz) => Ok(Func::Brz(brz)),
            Err(fault) => Err(fault),
        },
    }
}

/// The version and the header of a source at its start, which is read once.
fn read_heading<S: Source>(source: &mut S) -> Result<Heading, LoadFault>
    requires start { ForSome (S.told source.old) (λ _. S.place source.old ≡ 0) }
    ensures told { S.told source.new ≡ S.told source.old }
    ensures at { OnOk result (IsAt (S.told source.new) (S.place source.new) HEADER_LEN) }
    ensures version { IfOk result (λ h. ForSome (S.told source.old) (λ bytes. h.version ≡ version_of bytes)) }
    ensures parameter { IfOk result (λ h. IsParameter version_2 h.header.algorithm h.header.b) }
    ensures keys { IfOk result (λ h. (1 ≤ h.header.keys) × (h.header.keys ≤ MAX_KEYS)) }
    ensures ratio { IfOk result (λ h. IsRatio h.header.ratio) }
    ensures exact { ForSome (S.told source.old) (λ bytes. Answers (λ h. h.header) result (heading_at (form_of (version_of bytes)) bytes)) }
    ensures cause { HasLoadCause (S.faults source.old) (S.faults source.new) result }
    ensures memory { result ≢ Err LoadFault.Memory }
{
    let mut buf = [0; HEADER_LEN as usize];
    let got = match fill(source, 0, &mut buf) {
        Ok(got) => got,
        Err(Failed) => return Err(LoadFault::Read),
    };
    heading_of(&buf[..got])
}

/// A function that was loaded, and the version of its dump.
#[derive(Drop)]
pub struct Loaded {
    /// The function.
    pub func: Func,
    /// The version of the dump that it was read from.
    pub version: Version,
}

/// Loads a function from a source at its start, and says in which version: the function whose dump of version 1 or 2 all the bytes are.
/// Returns `Read` exactly if the source fails, and `Memory` only if memory runs out after a header without a fault. Any other error is
/// the first fault of the bytes in the version that their magic names, and `BadMagic` if it names none. Memory is allocated as bytes are
/// read, whatever the header claims.
#[tactic(auto, unfolding(crate::specs::Spelling::spelling_by, crate::specs::Headings::heading_at))]
pub fn load_versioned<S: Source>(alloc: Global, source: &mut S) -> Result<Loaded, LoadFault>
    requires start { ForSome (S.told source.old) (λ _. S.place source.old ≡ 0) }
    ensures told { S.told source.new ≡ S.told source.old }
    ensures spelling { ForSome (S.told source.old) (λ bytes. Answers (λ l. l.func) result (spelling_of bytes)) }
    ensures version { IfOk result (λ l. ForSome (S.told source.old) (λ bytes. l.version ≡ version_of bytes)) }
    ensures valid { IfOk result (λ l. IsFunction l.func) }
    ensures cause { HasLoadCause (S.faults source.old) (S.faults source.new) result }
    ensures memory { result ≡ Err LoadFault.Memory → ForSome (S.told source.old) (λ bytes. IsOk (heading_at (form_of (version_of bytes)) bytes)) }
{
    let Heading { version, header } = read_heading(source)?;
    match load_body(alloc, source, version, header) {
        Ok(func) => Ok(Loaded { func, version }),
        Err(fault) => Err(fault),
    }
}

/// Loads a function from a source at its start: the one whose dump of version 1 or 2 all the bytes are. Returns `Read` exactly if the
/// source fails, and `Memory` only if memory runs out after a header without a fault. Any other error is the first fault of the bytes in
/// the version that their magic names, and `BadMagic` if it names none. Memory is allocated as bytes are read, whatever the header claims.
pub fn load<S: Source>(alloc: Global, source: &mut S) -> Result<Func, LoadFault>
    requires start { ForSome (S.told source.old) (λ _. S.place source.old ≡ 0) }
    ensures told { S.told source.new ≡ S.told source.old }
    ensures spelling { ForSome (S.told source.old) (λ bytes. Answers (λ f. f) result (spelling_of bytes)) }
    ensures valid { IfOk result (λ f. IsFunction f) }
    ensures cause { HasLoadCause (S.faults source.old) (S.faults source.new) result }
    ensures memory { result ≡ Err LoadFault.Memory → ForSome (S.told source.old) (λ bytes. IsOk (heading_at (form_of (version_of bytes)) bytes)) }
{
    match load_versioned(alloc, source) {
        Ok(loaded) => Ok(loaded.func),
        Err(fault) => Err(fault),
    }
}
