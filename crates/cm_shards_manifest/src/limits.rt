//! The limits of names and manifests, and how much of a file is read.
ghost use Rattle.std.specs.Prelude.{◌≡◌, ◌+◌, ◌≤◌, ℕ, List, take};
ghost use Rattle.cm_shards_manifest.specs.ManifestFiles.{manifest_in};
ghost use Rattle.cm_shards_manifest.specs.declared.header.TheConstants.{HEADER_LEN};
ghost use Rattle.cm_shards_manifest.specs.declared.limits.TheConstants.{MAX_MANIFEST_BYTES};

use crate::header::{HEADER_LEN, read_header};
use cm_route::MAX_SHARDS;

/// The most bytes of a name in a manifest.
pub const MAX_NAME: u16 = 4_095;

/// The most bytes of a shard in a manifest: 58 beside its name.
const MAX_SHARD_LEN: usize = 58 + MAX_NAME as usize;

/// How many bytes the digest at the end of a manifest has.
const DIGEST_LEN: usize = 32;

/// The most bytes of a manifest: the header, as many shards as there may be, with the longest names, and the digest.
pub const MAX_MANIFEST_BYTES: usize = HEADER_LEN as usize
    + MAX_SHARDS as usize * MAX_SHARD_LEN
    + DIGEST_LEN;

/// How many bytes of a file decide which manifest it has, or which fault: those after them change nothing. `first` are its first
/// `HEADER_LEN` bytes, or all if it has fewer. If they are no header, they decide alone. Else one byte more than a manifest of as many
/// shards may have does, so that the file is seen to be longer.
pub fn read_limit(first: &[u8]) -> usize
    ensures enough { (bytes : List ℕ) → first.now ≡ take HEADER_LEN bytes → manifest_in (take result bytes) ≡ manifest_in bytes }
    ensures least { HEADER_LEN ≤ result }
    ensures most { result ≤ MAX_MANIFEST_BYTES + 1 }
{
    match read_header(first) {
        Ok(header) => {
            HEADER_LEN as usize + header.shards as usize * MAX_SHARD_LEN + DIGEST_LEN + 1
        }
        Err(_) => HEADER_LEN as usize,
    }
}
