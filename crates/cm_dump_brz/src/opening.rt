//! A function by BRZ is opened in the bytes of its dump.
ghost use Rattle.std.specs.Prelude.{◌≡◌, ◌+◌, ◌<◌, ◌≤◌, ◌^◌, ℕ, List, IfErr, IfOk, Ok, OnOk, count_by, drop, false, length};
ghost use Rattle.cm_bits.specs.Held.{packed_cells};
ghost use Rattle.cm_brz_func.specs.Functions.{Brz, IsBrz, IsBucket, brz_answer, bucket_count, keys_in};
ghost use Rattle.cm_dump.specs.Forms.{form_of};
ghost use Rattle.cm_dump.specs.Spelling.{brz_at, bucket_at, bucket_len, crumbs_at, is_off};
ghost use Rattle.cm_dump.specs.declared.header.TheConstants.{HEADER_LEN};
ghost use Rattle.cm_dump_brz.specs.Indexed.{HasOffsets, bucket_in, function_of, indexed_answer};
ghost use Rattle.cm_dump_brz.specs.Opened.{IsBrzFault, indexed};
ghost use Rattle.cm_dump_items.specs.Reading.{Answers, IsByteFault, item_at};
ghost use Rattle.cm_spec.specs.Cells.{is_busy};
ghost use Rattle.cm_spec.specs.Image.{packed_len};
ghost use Rattle.cm_spec.specs.Rule.{IsRatio};
ghost use Rattle.cm_spec.specs.declared.limits.TheConstants.{MAX_BUCKET, MAX_KEYS, MAX_VERTICES, MAX_WIDTH, MIN_WIDTH};

use crate::bucket::LentBucket;
use crate::fault::OpenFault;
use crate::items::{seed_at, size_at};
use crate::lent::LentBrz;
use cm_bits::packings::Fours;
use cm_bits::{LentCrumbs, Lookup};
use cm_dump::{HEADER_LEN, Header, Version, cells_of, front_len, is_off};
use cm_dump_images::lent_packed;
use cm_dump_items::{LoadFault, lent_end};
use cm_rank::Counted;

/// The image of the n cells of a bucket at this offset, of which `size` are not 3.
#[tactic(auto, unfolding(cm_dump::specs::Spelling::crumbs_at))]
fn counted_image<'a>(dump: &'a [u8], at: u64, size: u16, n: u32) -> Result<&'a [u8], LoadFault>
    requires at { at < 2 ^ 60 }
    requires few { n ≤ MAX_VERTICES }
    ensures inside { OnOk result (at + packed_len 4 n ≤ length dump.now) }
    ensures whole { IfOk result (λ image. length image.now ≡ packed_len 4 n) }
    ensures item { IfOk result (λ image. item_at dump.now at (packed_len 4 n) ≡ Ok image.now) }
    ensures busy { IfOk result (λ image. count_by (is_busy 3) (packed_cells 4 4 n image.now) ≡ size) }
    ensures exact { Answers (λ image. packed_cells 4 4 n image.now) result (crumbs_at dump.now at size n) }
    ensures kind { IfErr result IsByteFault }
{
    let image = match lent_packed::<Fours>(dump, at, n) {
        Ok(image) => image,
        Err(fault) => return Err(fault),
    };
    if LentCrumbs::new(n, image).count_busy(3, 0, n) == size as u32 {
        Ok(image)
    } else {
        Err(LoadFault::BadCount { at })
    }
}

/// The bucket at this offset of the dump of a header, after buckets of `held` keys, and before `left` more.
fn next_bucket<'a>(
    dump: &'a [u8],
    at: u64,
    version: Version,
    header: Header,
    held: u32,
    left: u32,
) -> Result<LentBucket<'a>, LoadFault>
    requires at { at < 2 ^ 32 }
    requires inside { at ≤ length dump.now }
    requires ratio { IsRatio header.ratio }
    requires held { held ≤ MAX_KEYS }
    ensures bucket { IfOk result (λ b. bucket_in (form_of version) dump.now header.ratio at ≡ Ok b) }
    ensures valid { IfOk result (λ b. IsBucket header.ratio b) }
    ensures fits { IfOk result (λ b. is_off header.keys (held + b.size) left ≡ false) }
    ensures inside { IfOk result (λ b. at + bucket_len (form_of version) b ≤ length dump.now) }
    ensures exact { (f : Brz) → f.keys ≡ header.keys → f.ratio ≡ header.ratio → keys_in f.buckets ≡ held → Answers (λ b. b) result (bucket_at (form_of version) dump.now at f left) }
    ensures kind { IfErr result IsByteFault }
{
    let size = match size_at(dump, at, version) {
        Ok(size) => size,
        Err(fault) => return Err(fault),
    };
    if is_off(header.keys, held + size as u32, left) {
        return Err(LoadFault::BadCount { at });
    }
    let seed = match seed_at(dump, at, version, size) {
        Ok(seed) => seed,
        Err(fault) => return Err(fault),
    };
    let n = cells_of(size, header.ratio);
    match counted_image(dump, at + front_len(version), size, n) {
        Ok(image) => Ok(LentBucket::new(size, seed, header.ratio, image)),
        Err(fault) => Err(fault),
    }
}

/// How many buckets a function of a header has.
fn buckets_of(header: Header) -> u32
    requires keys { (1 ≤ header.keys) × (header.keys ≤ MAX_KEYS) }
    requires some { 0 < header.b }
    ensures count { result ≡ bucket_count header.keys header.b }
    ensures some { 0 < result }
    ensures few { result ≤ header.keys }
{
    (header.keys + (header.b as u32 - 1)) / header.b as u32
}

/// Puts into the index where each bucket of a header's dump is, and how many keys lie before it. All of the dump is checked.
fn index_buckets(
    dump: &[u8],
    version: Version,
    header: Header,
    index: &mut [u64],
) -> Result<(), LoadFault>
    requires keys { (1 ≤ header.keys) × (header.keys ≤ MAX_KEYS) }
    requires ratio { IsRatio header.ratio }
    requires b { (MIN_WIDTH ≤ header.b) × (header.b ≤ MAX_WIDTH) }
    requires start { HEADER_LEN ≤ length dump.now }
    requires room { length index.old ≡ bucket_count header.keys header.b }
    requires some { 0 < length index.old }
    ensures len { length index.new ≡ length index.old }
    ensures exact { Answers (λ _. function_of (indexed version header dump.now index.new)) result (brz_at (form_of version) dump.now header) }
    ensures valid { OnOk result (IsBrz (function_of (indexed version header dump.now index.new))) }
    ensures offsets { OnOk result (HasOffsets (indexed version header dump.now index.new)) }
    ensures kind { IfErr result IsByteFault }
{
    let count = index.len() as u32;
    let mut at = HEADER_LEN;
    let mut held = 0;
    for j in 0..count {
        let bucket = match next_bucket(dump, at, version, header, held, count - 1 - j) {
            Ok(bucket) => bucket,
            Err(fault) => return Err(fault),
        };
        index[j as usize] = at * 4_294_967_296 + held as u64;
        at += front_len(version) + bucket.image_len();
        held += bucket.size() as u32;
    }
    match lent_end(dump, at) {
        Ok(()) => Ok(()),
        Err(fault) => Err(fault),
    }
}

/// Opens the function by BRZ of a header in the bytes of its dump. Puts a number for each bucket into the first places of the index. Returns
/// `Room` if it has fewer places than there are buckets, and reads no byte then, and `Dump` with the first fault of the bytes.
pub fn open_brz<'a>(
    dump: &'a [u8],
    version: Version,
    header: Header,
    index: &'a mut [u64],
) -> Result<LentBrz<'a>, OpenFault>
    requires keys { (1 ≤ header.keys) × (header.keys ≤ MAX_KEYS) }
    requires ratio { IsRatio header.ratio }
    requires b { (MIN_WIDTH ≤ header.b) × (header.b ≤ MAX_WIDTH) }
    requires start { HEADER_LEN ≤ length dump.now }
    ensures room { OnOk result (bucket_count header.keys header.b ≤ length index.old) }
    ensures spelled { IfOk result (λ f. brz_at (form_of version) dump.now header ≡ Ok (function_of f)) }
    ensures valid { IfOk result (λ f. IsBrz (function_of f)) }
    ensures answers { IfOk result (λ f. (key : List ℕ) → indexed_answer f key ≡ brz_answer (function_of f) key) }
    ensures fault { IfErr result (IsBrzFault version header dump.now (length index.old)) }
{
    let count = buckets_of(header);
    if index.len() < count as usize {
        return Err(OpenFault::Room { needed: count });
    }
    let used = &mut index[..count as usize];
    match index_buckets(dump, version, header, used) {
        Ok(()) => Ok(LentBrz::new(dump, version, header, used)),
        Err(fault) => Err(OpenFault::Dump(fault)),
    }
}
