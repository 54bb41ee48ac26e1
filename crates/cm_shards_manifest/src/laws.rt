//! Laws of manifests. Each function has an empty body, and its clauses are proved for all manifests, bytes and paths.
ghost use Rattle.std.specs.Path.{IsRelative};
ghost use Rattle.std.specs.Prelude.{◌≡◌, ◌≤◌, ◌++◌, ℕ, List, Ok, length};
ghost use Rattle.cm_bits.specs.Bound.{AllBelow};
ghost use Rattle.cm_shards_manifest.specs.ManifestBytes.{manifest_bytes};
ghost use Rattle.cm_shards_manifest.specs.ManifestFiles.{manifest_in};
ghost use Rattle.cm_shards_manifest.specs.Manifests.{IsManifest, Manifest};
ghost use Rattle.cm_shards_manifest.specs.Paths.{folder_of, name_of, path_of};
ghost use Rattle.cm_shards_manifest.specs.declared.limits.TheConstants.{MAX_MANIFEST_BYTES, MAX_NAME};

/// A name has at most 4,095 bytes, so that its length is a `u16`.
pub fn max_name()
    ensures { MAX_NAME ≡ 4095 }
{}

/// A manifest has at most 17,010,740 bytes: each has no more than `MAX_MANIFEST_BYTES`.
pub fn max_manifest_bytes()
    ensures value { MAX_MANIFEST_BYTES ≡ 17010740 }
    ensures most { (m : Manifest) → IsManifest m → length (manifest_bytes m) ≤ MAX_MANIFEST_BYTES }
{}

/// Bytes are the file of one manifest at most, and a manifest has one file. A manifest is read from its file as it was written, and so
/// equal files come from equal manifests. Bytes from which a manifest is read are its file.
pub fn files_spell()
    ensures spelling { (m : Manifest) → IsManifest m → manifest_in (manifest_bytes m) ≡ Ok m }
    ensures same { (m n : Manifest) → IsManifest m → IsManifest n → manifest_bytes m ≡ manifest_bytes n → m ≡ n }
    ensures bytes { (bytes : List ℕ) (m : Manifest) → AllBelow 256 bytes → manifest_in bytes ≡ Ok m → (manifest_bytes m ≡ bytes) × IsManifest m }
{}

/// The name of a function file, put behind the folder of the manifest, is the path of the file, if that begins with the folder. A path that
/// isn't from the root has a name that isn't either, so the folder may be moved with all that is in it.
pub fn names()
    ensures path { (manifest function rest : List ℕ) → function ≡ folder_of manifest ++ rest → IsRelative rest → path_of manifest (name_of manifest function) ≡ function }
    ensures relative { (manifest function : List ℕ) → IsRelative function → IsRelative (name_of manifest function) }
{}
