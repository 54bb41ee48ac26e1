//! The manifest whose file bytes are.
ghost use Rattle.std.specs.Prelude.{◌≡◌, ◌+◌, ◌*◌, ◌<◌, ◌≤◌, ◌^◌, IfOk, IsUtf8, OnOk, length};
ghost use Rattle.cm_dump_items.specs.Reading.{Answers};
ghost use Rattle.cm_route.specs.declared.route.TheConstants.{MAX_SHARDS};
ghost use Rattle.cm_spec.specs.declared.limits.TheConstants.{MAX_VERTICES};
ghost use Rattle.cm_shards_manifest.specs.Loads.{IsLoaded, IsRead};
ghost use Rattle.cm_shards_manifest.specs.ManifestBytes.{shard_len, shards_len};
ghost use Rattle.cm_shards_manifest.specs.ManifestFiles.{digest_place, signed_at};
ghost use Rattle.cm_shards_manifest.specs.ManifestItems.{manifest_at, rest_at, shard_at, shards_at};
ghost use Rattle.cm_shards_manifest.specs.Manifests.{AreShards, IsManifest, IsShard, Manifest};
ghost use Rattle.cm_shards_manifest.specs.declared.header.TheConstants.{HEADER_LEN};
ghost use Rattle.cm_shards_manifest.specs.declared.limits.TheConstants.{MAX_NAME};

use crate::fault::{ManifestFault, ManifestUnread, named};
use crate::fields::{digest, field, text};
use crate::header::{HEADER_LEN, read_header};
use crate::{MAX_NAME, Manifest, Shard};
use cm_dump_items::{LoadFault, lent_end};
use cm_spec::{MAX_KEYS, MAX_VERTICES};
use cm_words_arguments::{Text, copy};
use sha2::{Digest, Sha256};
use std::alloc::Global;

/// What follows the name of a shard, at an offset of a file, if the spans before it have this sum.
#[tactic(auto, unfolding(crate::specs::ManifestItems::rest_at))]
fn read_rest(file: &[u8], at: u64, before: u64, name: Text) -> Result<Shard, LoadFault>
    requires room { at < 2 ^ 61 }
    requires name { (1 ≤ length name) × (length name ≤ MAX_NAME) }
    requires utf8 { IsUtf8 name }
    ensures inside { OnOk result (at + 56 ≤ length file.now) }
    ensures name { IfOk result (λ s. s.name ≡ name) }
    ensures offset { IfOk result (λ s. s.offset ≡ before) }
    ensures valid { IfOk result IsShard }
    ensures exact { Answers (λ s. s) result (rest_at file.now at before name) }
{
    let keys = field(file, at, 4, 1, MAX_KEYS as u64)? as u32;
    let span = field(file, at + 4, 4, 1, MAX_VERTICES as u64)? as u32;
    let offset = field(file, at + 8, 8, before, before)?;
    let len = field(file, at + 16, 8, 0, u64::MAX)?;
    let digest = digest(file, at + 24)?;
    Ok(Shard {
        name,
        keys,
        span,
        offset,
        len,
        digest,
    })
}

/// The shard at an offset of a file, if the spans before it have this sum.
#[tactic(auto, unfolding(crate::specs::ManifestItems::shard_at))]
fn read_shard(alloc: Global, file: &[u8], at: u64, before: u64) -> Result<Shard, LoadFault>
    requires room { at < 2 ^ 60 }
    ensures inside { IfOk result (λ s. at + shard_len s ≤ length file.now) }
    ensures offset { IfOk result (λ s. s.offset ≡ before) }
    ensures valid { IfOk result IsShard }
    ensures exact { Answers (λ s. s) result (shard_at file.now at before) }
{
    let n = field(file, at, 2, 1, MAX_NAME as u64)?;
    let name = match copy(alloc, text(file, at + 2, n)?) {
        Ok(name) => name,
        Err(_) => return Err(LoadFault::Memory),
    };
    read_rest(file, at + 2 + n, before, name)
}

/// The shards of a file, as many as this, and where they end.
fn read_shards(alloc: Global, file: &[u8], count: u32) -> Result<(Vec<Shard>, u64), LoadFault>
    requires few { count ≤ MAX_SHARDS }
    ensures end { IfOk result (λ r. r.1 ≡ HEADER_LEN + shards_len r.0.items) }
    ensures inside { IfOk result (λ r. r.1 < 2 ^ 61) }
    ensures count { IfOk result (λ r. length r.0.items ≡ count) }
    ensures valid { IfOk result (λ r. AreShards 0 r.0.items) }
    ensures exact { Answers (λ r. r.0.items) result (shards_at file.now HEADER_LEN 0 count) }
{
    let mut shards = Vec::new(alloc);
    let mut at = HEADER_LEN;
    let mut before = 0;
    for _ in 0..count {
        let shard = match read_shard(alloc, file, at, before) {
            Ok(shard) => shard,
            Err(fault) => return Err(fault),
        };
        at += 58 + shard.name.as_str().len() as u64;
        before += shard.span as u64;
        match shards.push(shard) {
            Ok(()) => {}
            Err(_) => return Err(LoadFault::Memory),
        }
    }
    Ok((shards, at))
}

/// The manifest of a file without its digest, and where the digest is.
#[tactic(auto, unfolding(crate::specs::ManifestItems::manifest_at))]
fn read_items(alloc: Global, file: &[u8]) -> Result<(Manifest, u64), LoadFault>
    ensures end { IfOk result (λ r. r.1 ≡ digest_place r.0) }
    ensures inside { IfOk result (λ r. r.1 < 2 ^ 61) }
    ensures valid { IfOk result (λ r. IsManifest r.0) }
    ensures exact { Answers (λ r. r.0) result (manifest_at file.now) }
{
    let header = read_header(file)?;
    let (shards, at) = read_shards(alloc, file, header.shards)?;
    Ok((Manifest::new(header.algorithm, header.seed, shards), at))
}

/// Checks that the digest at an offset of a file is that of the bytes before it, and ends the file.
#[tactic(auto, unfolding(crate::specs::ManifestFiles::signed_at))]
fn check_digest(file: &[u8], at: u64) -> Result<(), ManifestUnread>
    requires room { at < 2 ^ 61 }
    ensures exact { IsRead (λ x. x) result (signed_at file.now at) }
{
    let own = match digest(file, at) {
        Ok(own) => own,
        Err(fault) => return Err(named(fault)),
    };
    if own != Sha256::digest(&file[..at as usize]) {
        return Err(ManifestUnread::Bad(ManifestFault::BadDigest { at }));
    }
    match lent_end(file, at + 32) {
        Ok(()) => Ok(()),
        Err(fault) => Err(named(fault)),
    }
}

/// Reads the manifest whose file the bytes are. Returns `Memory` only if memory runs out. Any other error is the first fault of the bytes.
/// Memory is allocated as shards are read, whatever the header claims.
#[tactic(auto, unfolding(crate::specs::ManifestFiles::manifest_in))]
pub fn read_manifest(alloc: Global, bytes: &[u8]) -> Result<Manifest, ManifestUnread>
    ensures spelled { IsLoaded (λ m. m) bytes.now result }
    ensures valid { IfOk result IsManifest }
{
    let (manifest, at) = match read_items(alloc, bytes) {
        Ok(read) => read,
        Err(fault) => return Err(named(fault)),
    };
    check_digest(bytes, at)?;
    Ok(manifest)
}
