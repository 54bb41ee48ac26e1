//! The BRZ function of a header, bucket by bucket.
ghost use Rattle.std.specs.Prelude.{◌≡◌, ◌+◌, ◌<◌, ◌≤◌, ◌^◌, ℕ, List, OnOk, IfOk, IfErr, false, count_by, length};
ghost use Rattle.std.specs.Int.{byte_len};
ghost use Rattle.std.specs.Option.{ForSome};
ghost use Rattle.cm_brz_func.specs.Functions.{IsBrz, bucket_cells, bucket_count, keys_in};
ghost use Rattle.cm_spec.specs.declared.limits.TheConstants.{MAX_BUCKET, MAX_KEYS, MAX_VERTICES, MAX_WIDTH, MIN_WIDTH};
ghost use Rattle.cm_dump_items.specs.Reading.{Answers, Fails, IsAt, IsPart, HasLoadCause, field_at};
ghost use Rattle.cm_spec.specs.Cells.{is_busy};
ghost use Rattle.cm_spec.specs.Image.{packed_len};
ghost use Rattle.cm_spec.specs.Rule.{IsRatio};
ghost use Rattle.cm_dump.specs.Forms.{form_of};
ghost use Rattle.cm_dump.specs.Spelling.{bucket_at, brz_at, crumbs_at, is_off, left_of, most_seed, rest_at, size_at};
ghost use Rattle.cm_dump.specs.declared.header.TheConstants.{HEADER_LEN};
ghost use Rattle.cm_dump_items.specs.declared.piece.TheConstants.{ENOUGH};

use crate::LoadFault;
use crate::bucket::{cells_of, greatest_seed, is_off, size_in};
use crate::front::Header;
use crate::header::HEADER_LEN;
use crate::versions::{Version, front_len, size_len};
use cm_bdz::PartsFault;
use cm_bits::{Cells, Crumbs};
use cm_brz_func::{Brz, BrzParts};
use cm_dump_images::cells_from;
use cm_dump_items::{ENOUGH, Piece, bytes_of, number_of};
use cm_io::{Failed, Source};
use cm_rank::Counted;
use std::alloc::Global;

/// A bucket as it is read.
#[derive(Drop)]
struct Bucket {
    size: u16,
    seed: u32,
    cells: Crumbs,
}

/// The number of keys of the next bucket, at this offset and the start of the part, after which `left` buckets follow.
#[tactic(auto, unfolding(crate::specs::Spelling::size_at))]
fn read_size(
    part: &[u8],
    at: u64,
    version: Version,
    parts: &BrzParts,
    left: u32,
) -> Result<u16, LoadFault>
    requires room { at + length part.now < 2 ^ 62 }
    ensures inside { OnOk result (byte_len (form_of version).size ≤ length part.now) }
    ensures few { IfOk result (λ size. size ≤ MAX_BUCKET) }
    ensures fits { IfOk result (λ size. is_off parts.now.keys (keys_in parts.now.buckets + size) left ≡ false) }
    ensures exact { (bytes : List ℕ) (room : ℕ) → byte_len (form_of version).size ≤ room → IsPart bytes at room part.now → Answers (λ x. x) result (size_at (form_of version) bytes at parts.now left) }
    ensures cause { (n : ℕ) → HasLoadCause n n result }
{
    let size = match size_in(part, at, version) {
        Ok(size) => size,
        Err(fault) => return Err(fault),
    };
    if is_off(parts.keys(), parts.held() + size as u32, left) {
        Err(LoadFault::BadCount { at })
    } else {
        Ok(size)
    }
}

/// The `n` cells of a bucket at this offset and the start of the part, of which `size` are not 3.
#[tactic(auto, unfolding(crate::specs::Spelling::crumbs_at), using(cm_dump_images::specs::ImageLaws::packed_near))]
fn read_crumbs(alloc: Global, part: &[u8], at: u64, size: u16, n: u32) -> Result<Crumbs, LoadFault>
    requires room { at + length part.now < 2 ^ 60 }
    requires few { n ≤ MAX_VERTICES }
    ensures inside { OnOk result (packed_len 4 n ≤ length part.now) }
    ensures size { IfOk result (λ t. length (⟦<Crumbs as Cells>⟧.cells t) ≡ n) }
    ensures busy { IfOk result (λ t. count_by (is_busy 3) (⟦<Crumbs as Cells>⟧.cells t) ≡ size) }
    ensures exact { (bytes : List ℕ) (room : ℕ) → packed_len 4 n ≤ room → IsPart bytes at room part.now → Answers (λ t. ⟦<Crumbs as Cells>⟧.cells t) result (crumbs_at bytes at size n) }
    ensures cause { (k : ℕ) → HasLoadCause k k result }
{
    let image = match bytes_of(alloc, part, at, Crumbs::image_len(n, 4) as usize) {
        Ok(image) => image,
        Err(fault) => return Err(fault),
    };
    let cells: Crumbs = match cells_from(alloc, at, n, 4, image) {
        Ok(cells) => cells,
        Err(fault) => return Err(fault),
    };
    if cells.count_busy(3, 0, n) == size as u32 {
        Ok(cells)
    } else {
        Err(LoadFault::BadCount { at })
    }
}

/// The next bucket, at this offset and the start of the part, after which `left` buckets follow.
#[tactic(auto, unfolding(crate::specs::Spelling::bucket_at))]
fn read_bucket(
    alloc: Global,
    part: &[u8],
    at: u64,
    version: Version,
    parts: &BrzParts,
    left: u32,
) -> Result<Bucket, LoadFault>
    requires room { at + length part.now < 2 ^ 60 }
    ensures inside { IfOk result (λ b. byte_len (form_of version).size + 4 + packed_len 4 (length (⟦<Crumbs as Cells>⟧.cells b.cells)) ≤ length part.now) }
    ensures few { IfOk result (λ b. b.size ≤ MAX_BUCKET) }
    ensures ratio { OnOk result (IsRatio parts.now.ratio) }
    ensures size { IfOk result (λ b. length (⟦<Crumbs as Cells>⟧.cells b.cells) ≡ bucket_cells b.size parts.now.ratio) }
    ensures unseeded { IfOk result (λ b. b.size ≡ 0 → b.seed ≡ 0) }
    ensures busy { IfOk result (λ b. count_by (is_busy 3) (⟦<Crumbs as Cells>⟧.cells b.cells) ≡ b.size) }
    ensures fits { IfOk result (λ b. is_off parts.now.keys (keys_in parts.now.buckets + b.size) left ≡ false) }
    ensures exact { (bytes : List ℕ) → IsPart bytes at ENOUGH part.now → Answers (λ b. record { size = b.size; seed = b.seed; cells = ⟦<Crumbs as Cells>⟧.cells b.cells }) result (bucket_at (form_of version) bytes at parts.now left) }
    ensures cause { (n : ℕ) → HasLoadCause n n result }
{
    let size = match read_size(part, at, version, parts, left) {
        Ok(size) => size,
        Err(fault) => return Err(fault),
    };
    let sized = size_len(version);
    let seed = match number_of(&part[sized as usize..], at + sized, 0, greatest_seed(size)) {
        Ok(seed) => seed,
        Err(fault) => return Err(fault),
    };
    let n = cells_of(size, parts.c());
    let front = front_len(version);
    match read_crumbs(alloc, &part[front as usize..], at + front, size, n) {
        Ok(cells) => Ok(Bucket { size, seed, cells }),
        Err(fault) => Err(fault),
    }
}

/// Reads the next bucket, at this offset and the start of the part, and adds it to the function. Returns how many bytes it has.
fn next_bucket(
    alloc: Global,
    part: &[u8],
    at: u64,
    version: Version,
    parts: &mut BrzParts,
) -> Result<u64, LoadFault>
    requires room { at + length part.now < 2 ^ 60 }
    requires some { length parts.old.buckets < bucket_count parts.old.keys parts.old.width }
    ensures inside { IfOk result (λ len. len ≤ length part.now) }
    ensures near { IfOk result (λ len. len ≤ ENOUGH) }
    ensures one { OnOk result (length parts.new.buckets ≡ length parts.old.buckets + 1) }
    ensures same { OnOk result (parts.new ≡ record parts.old { buckets = parts.new.buckets }) }
    ensures right { IfOk result (λ len. (bytes : List ℕ) → IsPart bytes at ENOUGH part.now → rest_at (form_of version) bytes at (left_of parts.old) parts.old ≡ rest_at (form_of version) bytes (at + len) (left_of parts.new) parts.new) }
    ensures fault { IfErr result (λ e. (bytes : List ℕ) → IsPart bytes at ENOUGH part.now → Fails e (rest_at (form_of version) bytes at (left_of parts.old) parts.old)) }
    ensures cause { (n : ℕ) → HasLoadCause n n result }
{
    let left = parts.left() - 1;
    let bucket = match read_bucket(alloc, part, at, version, parts, left) {
        Ok(bucket) => bucket,
        Err(fault) => return Err(fault),
    };
    let len = front_len(version) + Crumbs::image_len(bucket.cells.len(), 4);
    match parts.push(bucket.size, bucket.seed, bucket.cells) {
        Ok(()) => Ok(len),
        Err(PartsFault::Memory) => Err(LoadFault::Memory),
        Err(PartsFault::BadCount) => unreachable!(),
    }
}

/// The BRZ function of a header, whose dump ends with the source.
#[tactic(auto, unfolding(crate::specs::Spelling::brz_at))]
pub(crate) fn load_brz<S: Source>(
    alloc: Global,
    source: &mut S,
    version: Version,
    header: Header,
) -> Result<Brz, LoadFault>
    requires keys { (1 ≤ header.keys) × (header.keys ≤ MAX_KEYS) }
    requires ratio { IsRatio header.ratio }
    requires b { (MIN_WIDTH ≤ header.b) × (header.b ≤ MAX_WIDTH) }
    requires at { IsAt (S.told source.old) (S.place source.old) HEADER_LEN }
    ensures told { S.told source.new ≡ S.told source.old }
    ensures exact { ForSome (S.told source.old) (λ bytes. Answers (λ f. f) result (brz_at (form_of version) bytes header)) }
    ensures valid { IfOk result (λ f. IsBrz f) }
    ensures cause { HasLoadCause (S.faults source.old) (S.faults source.new) result }
{
    let mut piece = match Piece::new(alloc) {
        Ok(piece) => piece,
        Err(_) => return Err(LoadFault::Memory),
    };
    let mut parts = BrzParts::new(alloc, header.keys, header.ratio, header.b, header.seed);
    let mut at = HEADER_LEN;
    'buckets: while parts.left() > 0 {
        match piece.refill(source, at) {
            Ok(()) => {}
            Err(Failed) => return Err(LoadFault::Read),
        }
        match next_bucket(alloc, piece.rest(), at, version, &mut parts) {
            Ok(len) => {
                piece.skip(len as usize);
                at += len;
            }
            Err(fault) => return Err(fault),
        }
    }
    match piece.end(source, at) {
        Ok(()) => Ok(parts.finish()),
        Err(fault) => Err(fault),
    }
}
