//! The file of a manifest, as bytes.
ghost use Rattle.std.specs.Prelude.{◌≡◌, ◌≤◌, ◌++◌, IfOk, OnOk, length};
ghost use Rattle.cm_shards_manifest.specs.ManifestBytes.{header_bytes, manifest_bytes, rest_bytes, shard_bytes, shards_bytes, signed_bytes};
ghost use Rattle.cm_shards_manifest.specs.declared.limits.TheConstants.{MAX_NAME};

use crate::header::{MAGIC, algorithm_number};
use crate::{Manifest, Shard};
use sha2::{Digest, Sha256};
use std::alloc::{AllocError, Global};

/// Appends the header of a manifest.
#[tactic(auto, unfolding(crate::specs::ManifestBytes::header_bytes))]
fn put_header(file: &mut Vec<u8>, manifest: &Manifest) -> Result<(), AllocError>
    ensures bytes { OnOk result (file.new.items ≡ file.old.items ++ header_bytes manifest.now.algorithm manifest.now.seed (length manifest.now.shards)) }
{
    let shards = manifest.shards().len() as u32;
    file.extend_from_slice(&MAGIC)?;
    file.extend_from_slice(&[algorithm_number(manifest.algorithm()), 0, 0, 0])?;
    file.extend_from_slice(&manifest.seed().to_le_bytes())?;
    file.extend_from_slice(&shards.to_le_bytes())
}

/// Appends what follows the name of a shard.
#[tactic(auto, unfolding(crate::specs::ManifestBytes::rest_bytes))]
fn put_rest(file: &mut Vec<u8>, shard: &Shard) -> Result<(), AllocError>
    ensures bytes { OnOk result (file.new.items ≡ file.old.items ++ rest_bytes shard.now) }
{
    file.extend_from_slice(&shard.keys.to_le_bytes())?;
    file.extend_from_slice(&shard.span.to_le_bytes())?;
    file.extend_from_slice(&shard.offset.to_le_bytes())?;
    file.extend_from_slice(&shard.len.to_le_bytes())?;
    file.extend_from_slice(&shard.digest)?;
    Ok(())
}

/// Appends a shard.
#[tactic(auto, unfolding(crate::specs::ManifestBytes::shard_bytes))]
fn put_shard(file: &mut Vec<u8>, shard: &Shard) -> Result<(), AllocError>
    requires name { length shard.now.name ≤ MAX_NAME }
    ensures bytes { OnOk result (file.new.items ≡ file.old.items ++ shard_bytes shard.now) }
{
    let name = shard.name.as_str().as_bytes();
    file.extend_from_slice(&(name.len() as u16).to_le_bytes())?;
    file.extend_from_slice(name)?;
    put_rest(file, shard)
}

/// Appends the shards of a manifest.
fn put_shards(file: &mut Vec<u8>, manifest: &Manifest) -> Result<(), AllocError>
    ensures bytes { OnOk result (file.new.items ≡ file.old.items ++ shards_bytes manifest.now.shards) }
{
    for shard in manifest.shards() {
        put_shard(file, shard)?;
    }
    Ok(())
}

/// The file of a manifest. It fails if memory runs out.
#[tactic(auto, unfolding(crate::specs::ManifestBytes::manifest_bytes, crate::specs::ManifestBytes::signed_bytes))]
pub fn manifest_file(alloc: Global, manifest: &Manifest) -> Result<Vec<u8>, AllocError>
    ensures bytes { IfOk result (λ file. file.items ≡ manifest_bytes manifest.now) }
{
    let mut file = Vec::new(alloc);
    put_header(&mut file, manifest)?;
    put_shards(&mut file, manifest)?;
    let digest = Sha256::digest(file.as_slice());
    file.extend_from_slice(&digest)?;
    Ok(file)
}
