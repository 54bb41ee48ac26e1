//! The header of a dump.
ghost use Rattle.std.specs.Prelude.{◌≡◌, ◌+◌, ◌<◌, ◌≤◌, ◌^◌, ℕ, List, OnOk, IfErr, IfOk, length};
ghost use Rattle.std.specs.Int.{w8, w16, w32};
ghost use Rattle.cm_dump_items.specs.Reading.{Answers, IsByteFault, IsPart, field_at, item_at};
ghost use Rattle.cm_spec.specs.declared.limits.TheConstants.{MAX_KEYS};
ghost use Rattle.cm_spec.specs.Rule.{IsRatio};
ghost use Rattle.cm_dump.specs.declared.versions.Version.{Version};
ghost use Rattle.cm_dump.specs.Forms.{form_of, version_1, version_2, version_of};
ghost use Rattle.cm_dump.specs.Headings.{IsParameter, algorithm_at, header_at, heading_at, least_b, magic_at, most_b, parameter_at};
ghost use Rattle.cm_dump.specs.declared.header.TheConstants.{HEADER_LEN};

use crate::LoadFault;
use crate::versions::{Version, most_keys};
use cm_brz_func::{MAX_WIDTH, MIN_WIDTH};
use cm_dump_items::{byte_of, lent_of, number_of, short_of};
use cm_spec::{MAX_RATIO, MIN_RATIO};

/// What every dump of version 1 begins with.
const MAGIC_ONE: [u8; 8] = *b"CMPHDMP1";

/// What every dump of version 2 begins with.
pub(crate) const MAGIC_TWO: [u8; 8] = *b"CMPHDMP2";

/// By what a function was built.
#[derive(Clone, Copy)]
pub enum Algorithm {
    Chm,
    Bdz,
    BdzPh,
    Brz,
}

/// What the header of a function says.
#[derive(Clone, Copy, Drop)]
pub struct Header {
    pub algorithm: Algorithm,
    /// Every `2^b`-th cell of BDZ has its rank kept, with b from 3 to 10; a bucket of BRZ has b keys on average, from `MIN_WIDTH` to
    /// `MAX_WIDTH`; 0 for the others.
    pub b: u16,
    /// How many keys the function was built over, from 1 to `MAX_KEYS`.
    pub keys: u32,
    /// The ratio of vertices to keys, in millionths, from 1,000,000 to 10,000,000.
    pub ratio: u32,
    /// The seed of its hash.
    pub seed: u32,
}

/// What the first bytes of a dump say.
#[derive(Clone, Copy, Drop)]
pub struct Heading {
    /// The version of the dump.
    pub version: Version,
    /// The rest of the header.
    pub header: Header,
}

/// The item of `n` bytes at this offset of the first bytes of a dump.
fn item_in<'a>(bytes: &'a [u8], at: usize, n: u64) -> Result<&'a [u8], LoadFault>
    requires room { length bytes.now < 2 ^ 62 }
    requires at { at + n ≤ HEADER_LEN }
    requires before { at ≤ length bytes.now }
    ensures inside { OnOk result (at + n ≤ length bytes.now) }
    ensures size { IfOk result (λ item. length item.now ≡ n) }
    ensures exact { (dump : List ℕ) → IsPart dump 0 HEADER_LEN bytes.now → Answers (λ item. item.now) result (item_at dump at n) }
    ensures kind { IfErr result IsByteFault }
{
    lent_of(&bytes[at..], at as u64, n)
}

/// The version that the first bytes of a dump name.
#[tactic(auto, unfolding(crate::specs::Headings::magic_at))]
fn version_in(bytes: &[u8]) -> Result<Version, LoadFault>
    requires room { length bytes.now < 2 ^ 62 }
    ensures inside { OnOk result (8 ≤ length bytes.now) }
    ensures version { IfOk result (λ version. (dump : List ℕ) → IsPart dump 0 HEADER_LEN bytes.now → version ≡ version_of dump) }
    ensures exact { (dump : List ℕ) → IsPart dump 0 HEADER_LEN bytes.now → Answers (λ _. tt) result (magic_at (form_of (version_of dump)) dump) }
    ensures kind { IfErr result IsByteFault }
{
    let magic = item_in(bytes, 0, 8)?;
    if magic[..] == MAGIC_TWO[..] {
        Ok(Version::Two)
    } else if magic[..] == MAGIC_ONE[..] {
        Ok(Version::One)
    } else {
        Err(LoadFault::BadMagic)
    }
}

/// The byte at this offset of the first bytes of a dump, from `low` to `high`.
fn byte_in(bytes: &[u8], at: usize, low: u8, high: u8) -> Result<u8, LoadFault>
    requires room { length bytes.now < 2 ^ 62 }
    requires at { at + 1 ≤ HEADER_LEN }
    requires before { at ≤ length bytes.now }
    ensures inside { OnOk result (at + 1 ≤ length bytes.now) }
    ensures range { IfOk result (λ b. (low ≤ b) × (b ≤ high)) }
    ensures exact { (dump : List ℕ) → IsPart dump 0 HEADER_LEN bytes.now → Answers (λ b. b) result (field_at w8 dump at low high) }
    ensures kind { IfErr result IsByteFault }
{
    byte_of(&bytes[at..], at as u64, low, high)
}

/// The number in two bytes at this offset of the first bytes of a dump, from `low` to `high`.
fn short_in(bytes: &[u8], at: usize, low: u16, high: u16) -> Result<u16, LoadFault>
    requires room { length bytes.now < 2 ^ 62 }
    requires at { at + 2 ≤ HEADER_LEN }
    requires before { at ≤ length bytes.now }
    ensures inside { OnOk result (at + 2 ≤ length bytes.now) }
    ensures range { IfOk result (λ x. (low ≤ x) × (x ≤ high)) }
    ensures exact { (dump : List ℕ) → IsPart dump 0 HEADER_LEN bytes.now → Answers (λ x. x) result (field_at w16 dump at low high) }
    ensures kind { IfErr result IsByteFault }
{
    short_of(&bytes[at..], at as u64, low, high)
}

/// The number in four bytes at this offset of the first bytes of a dump, from `low` to `high`.
fn number_in(bytes: &[u8], at: usize, low: u32, high: u32) -> Result<u32, LoadFault>
    requires room { length bytes.now < 2 ^ 62 }
    requires at { at + 4 ≤ HEADER_LEN }
    requires before { at ≤ length bytes.now }
    ensures inside { OnOk result (at + 4 ≤ length bytes.now) }
    ensures range { IfOk result (λ x. (low ≤ x) × (x ≤ high)) }
    ensures exact { (dump : List ℕ) → IsPart dump 0 HEADER_LEN bytes.now → Answers (λ x. x) result (field_at w32 dump at low high) }
    ensures kind { IfErr result IsByteFault }
{
    number_of(&bytes[at..], at as u64, low, high)
}

/// The algorithm by its number: 1 is CHM's, 2 BDZ's, 3 BDZ_PH's and 4 BRZ's.
#[tactic(auto, unfolding(crate::specs::Headings::algorithm_at))]
fn algorithm_in(bytes: &[u8]) -> Result<Algorithm, LoadFault>
    requires room { length bytes.now < 2 ^ 62 }
    requires before { 8 ≤ length bytes.now }
    ensures inside { OnOk result (9 ≤ length bytes.now) }
    ensures exact { (dump : List ℕ) → IsPart dump 0 HEADER_LEN bytes.now → Answers (λ a. a) result (algorithm_at dump) }
    ensures kind { IfErr result IsByteFault }
{
    let number = item_in(bytes, 8, 1)?;
    match number[0] {
        1 => Ok(Algorithm::Chm),
        2 => Ok(Algorithm::Bdz),
        3 => Ok(Algorithm::BdzPh),
        4 => Ok(Algorithm::Brz),
        _ => Err(LoadFault::BadAlgorithm),
    }
}

/// The least and the greatest parameter of an algorithm in a version.
fn parameters(version: Version, algorithm: Algorithm) -> (u16, u16)
    ensures least { result.0 ≡ least_b (form_of version) algorithm }
    ensures most { result.1 ≡ most_b (form_of version) algorithm }
    ensures narrow { version ≡ Version.One → (result.0 < 256) × (result.1 < 256) }
{
    match (algorithm, version) {
        (Algorithm::Chm, _) | (Algorithm::BdzPh, _) => (0, 0),
        (Algorithm::Bdz, _) => (3, 10),
        (Algorithm::Brz, Version::One) => (64, 175),
        (Algorithm::Brz, Version::Two) => (MIN_WIDTH, MAX_WIDTH),
    }
}

/// The parameter `b` of an algorithm in version 1: one byte, and two zeros after it.
#[tactic(auto, unfolding(crate::specs::Headings::parameter_at, cm_dump_items::specs::Reading::zeros_at))]
fn narrow_in(bytes: &[u8], algorithm: Algorithm) -> Result<u16, LoadFault>
    requires room { length bytes.now < 2 ^ 62 }
    requires before { 9 ≤ length bytes.now }
    ensures inside { OnOk result (12 ≤ length bytes.now) }
    ensures range { IfOk result (λ b. IsParameter version_2 algorithm b) }
    ensures exact { (dump : List ℕ) → IsPart dump 0 HEADER_LEN bytes.now → Answers (λ b. b) result (parameter_at version_1 dump algorithm) }
    ensures kind { IfErr result IsByteFault }
{
    let (least, most) = parameters(Version::One, algorithm);
    let b = byte_in(bytes, 9, least as u8, most as u8)?;
    byte_in(bytes, 10, 0, 0)?;
    byte_in(bytes, 11, 0, 0)?;
    Ok(b as u16)
}

/// The parameter `b` of an algorithm in version 2: a zero, and two bytes after it.
#[tactic(auto, unfolding(crate::specs::Headings::parameter_at, cm_dump_items::specs::Reading::zeros_at))]
fn wide_in(bytes: &[u8], algorithm: Algorithm) -> Result<u16, LoadFault>
    requires room { length bytes.now < 2 ^ 62 }
    requires before { 9 ≤ length bytes.now }
    ensures inside { OnOk result (12 ≤ length bytes.now) }
    ensures range { IfOk result (λ b. IsParameter version_2 algorithm b) }
    ensures exact { (dump : List ℕ) → IsPart dump 0 HEADER_LEN bytes.now → Answers (λ b. b) result (parameter_at version_2 dump algorithm) }
    ensures kind { IfErr result IsByteFault }
{
    let (least, most) = parameters(Version::Two, algorithm);
    byte_in(bytes, 9, 0, 0)?;
    short_in(bytes, 10, least, most)
}

/// The parameter `b` of an algorithm, in the range of a version, and the zeros beside it.
fn parameter_in(bytes: &[u8], version: Version, algorithm: Algorithm) -> Result<u16, LoadFault>
    requires room { length bytes.now < 2 ^ 62 }
    requires before { 9 ≤ length bytes.now }
    ensures inside { OnOk result (12 ≤ length bytes.now) }
    ensures range { IfOk result (λ b. IsParameter version_2 algorithm b) }
    ensures exact { (dump : List ℕ) → IsPart dump 0 HEADER_LEN bytes.now → Answers (λ b. b) result (parameter_at (form_of version) dump algorithm) }
    ensures kind { IfErr result IsByteFault }
{
    match version {
        Version::One => narrow_in(bytes, algorithm),
        Version::Two => wide_in(bytes, algorithm),
    }
}

/// The header of a dump of a version, after its magic.
#[tactic(auto, unfolding(crate::specs::Headings::header_at))]
fn header_in(bytes: &[u8], version: Version) -> Result<Header, LoadFault>
    requires room { length bytes.now < 2 ^ 62 }
    requires before { 8 ≤ length bytes.now }
    ensures inside { OnOk result (HEADER_LEN ≤ length bytes.now) }
    ensures parameter { IfOk result (λ h. IsParameter version_2 h.algorithm h.b) }
    ensures keys { IfOk result (λ h. (1 ≤ h.keys) × (h.keys ≤ MAX_KEYS)) }
    ensures ratio { IfOk result (λ h. IsRatio h.ratio) }
    ensures exact { (dump : List ℕ) → IsPart dump 0 HEADER_LEN bytes.now → Answers (λ h. h) result (header_at (form_of version) dump) }
    ensures kind { IfErr result IsByteFault }
{
    let algorithm = algorithm_in(bytes)?;
    let b = parameter_in(bytes, version, algorithm)?;
    let keys = number_in(bytes, 12, 1, most_keys(version))?;
    let ratio = number_in(bytes, 16, MIN_RATIO, MAX_RATIO)?;
    let seed = number_in(bytes, 20, 0, u32::MAX)?;
    Ok(Header {
        algorithm,
        b,
        keys,
        ratio,
        seed,
    })
}

/// The version and the header of a dump of which these are the first bytes: `HEADER_LEN` of them or more, or all that there are. Returns
/// their first fault, or `Truncated` if the dump ends within its header.
#[tactic(auto, unfolding(crate::specs::Headings::heading_at))]
pub fn heading_of(bytes: &[u8]) -> Result<Heading, LoadFault>
    requires room { length bytes.now < 2 ^ 62 }
    ensures inside { OnOk result (HEADER_LEN ≤ length bytes.now) }
    ensures version { IfOk result (λ h. (dump : List ℕ) → IsPart dump 0 HEADER_LEN bytes.now → h.version ≡ version_of dump) }
    ensures parameter { IfOk result (λ h. IsParameter version_2 h.header.algorithm h.header.b) }
    ensures keys { IfOk result (λ h. (1 ≤ h.header.keys) × (h.header.keys ≤ MAX_KEYS)) }
    ensures ratio { IfOk result (λ h. IsRatio h.header.ratio) }
    ensures exact { (dump : List ℕ) → IsPart dump 0 HEADER_LEN bytes.now → Answers (λ h. h.header) result (heading_at (form_of (version_of dump)) dump) }
    ensures kind { IfErr result IsByteFault }
{
    let version = version_in(bytes)?;
    let header = header_in(bytes, version)?;
    Ok(Heading { version, header })
}
