//! The header of a manifest.
ghost use Rattle.std.specs.Prelude.{◌≡◌, ◌≤◌, IfErr, IfOk, OnOk, length};
ghost use Rattle.cm_dump_items.specs.Reading.{Answers, IsByteFault, zeros_at};
ghost use Rattle.cm_route.specs.declared.route.TheConstants.{MAX_SHARDS};
ghost use Rattle.cm_shards_manifest.specs.ManifestBytes.{algorithm_number};
ghost use Rattle.cm_shards_manifest.specs.ManifestItems.{algorithm_of, header_at, magic_at};
ghost use Rattle.cm_shards_manifest.specs.declared.header.TheConstants.{HEADER_LEN};

use crate::fields::field;
use cm_algo_names::Algorithm;
use cm_dump_items::{LoadFault, lent_item};
use cm_route::MAX_SHARDS;

/// How many bytes stand before the first shard.
pub const HEADER_LEN: u64 = 20;

/// What every manifest begins with.
pub(crate) const MAGIC: [u8; 8] = *b"CMPHSHD1";

/// What the header of a manifest says.
#[derive(Clone, Copy, Drop)]
pub struct Header {
    /// The algorithm of all functions.
    pub algorithm: Algorithm,
    /// The seed of the route of keys into shards.
    pub seed: u32,
    /// How many shards there are, from 1 to `MAX_SHARDS`.
    pub shards: u32,
}

/// The number of an algorithm, as in function files.
pub(crate) fn algorithm_number(algorithm: Algorithm) -> u8
    ensures { result ≡ algorithm_number algorithm }
{
    match algorithm {
        Algorithm::Chm => 1,
        Algorithm::Bdz => 2,
        Algorithm::BdzPh => 3,
        Algorithm::Brz => 4,
    }
}

/// The algorithm of a number from 1 to 4.
fn algorithm_of(number: u8) -> Algorithm
    requires { (1 ≤ number) × (number ≤ 4) }
    ensures { result ≡ algorithm_of number }
{
    match number {
        1 => Algorithm::Chm,
        2 => Algorithm::Bdz,
        3 => Algorithm::BdzPh,
        _ => Algorithm::Brz,
    }
}

/// Checks that the first bytes are the magic. Returns `BadMagic` if they are not.
#[tactic(auto, unfolding(crate::specs::ManifestItems::magic_at))]
fn read_magic(file: &[u8]) -> Result<(), LoadFault>
    ensures exact { Answers (λ x. x) result (magic_at file.now) }
    ensures kind { IfErr result IsByteFault }
{
    let mut buf = [0; 8];
    buf.copy_from_slice(lent_item(file, 0, 8)?);
    if buf == MAGIC {
        Ok(())
    } else {
        Err(LoadFault::BadMagic)
    }
}

/// Checks that the three bytes after the algorithm are zero. Returns `BadField` at the first that is not.
#[tactic(auto, unfolding(cm_dump_items::specs::Reading::zeros_at))]
fn read_zeros(file: &[u8]) -> Result<(), LoadFault>
    ensures exact { Answers (λ x. x) result (zeros_at file.now 9 3) }
    ensures kind { IfErr result IsByteFault }
{
    field(file, 9, 1, 0, 0)?;
    field(file, 10, 1, 0, 0)?;
    field(file, 11, 1, 0, 0)?;
    Ok(())
}

/// The header of a manifest, which is at its start.
#[tactic(auto, unfolding(crate::specs::ManifestItems::header_at))]
pub(crate) fn read_header(file: &[u8]) -> Result<Header, LoadFault>
    ensures inside { OnOk result (HEADER_LEN ≤ length file.now) }
    ensures shards { IfOk result (λ h. (1 ≤ h.shards) × (h.shards ≤ MAX_SHARDS)) }
    ensures exact { Answers (λ h. h) result (header_at file.now) }
    ensures kind { IfErr result IsByteFault }
{
    read_magic(file)?;
    let number = field(file, 8, 1, 1, 4)? as u8;
    read_zeros(file)?;
    let seed = field(file, 12, 4, 0, u32::MAX as u64)? as u32;
    let shards = field(file, 16, 4, 1, MAX_SHARDS as u64)? as u32;
    Ok(Header {
        algorithm: algorithm_of(number),
        seed,
        shards,
    })
}
