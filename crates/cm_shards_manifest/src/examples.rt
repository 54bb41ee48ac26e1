//! Worked examples of manifests. Each function has an empty body, and its clauses are checked by the prover.
ghost use Rattle.std.specs.Prelude.{◌≡◌, ◌++◌, [], ◌∷◌, Ok, Err, codes, drop, take};
ghost use Rattle.cm_dump_items.specs.declared.fault.LoadFault.TheVariants.{BadField, BadMagic, Truncated};
ghost use Rattle.cm_shards_manifest.specs.Examples.{digest_of, first_bytes, header, second_bytes, two_shards};
ghost use Rattle.cm_shards_manifest.specs.ManifestBytes.{signed_bytes};
ghost use Rattle.cm_shards_manifest.specs.ManifestFiles.{manifest_in};
ghost use Rattle.cm_shards_manifest.specs.ManifestItems.{manifest_at};
ghost use Rattle.cm_shards_manifest.specs.Manifests.{key_total, total};
ghost use Rattle.cm_shards_manifest.specs.Paths.{name_of, path_of};
ghost use Rattle.cm_shards_manifest.specs.declared.fault.ManifestFault.TheVariants as manifest;

/// The bytes of a manifest before its digest, and its sums.
#[tactic(auto, unfolding(crate::specs::ManifestBytes::signed_bytes, crate::specs::ManifestBytes::header_bytes, crate::specs::ManifestBytes::shard_bytes, crate::specs::ManifestBytes::rest_bytes))]
pub fn saved()
    ensures two { signed_bytes two_shards ≡ header 3 ++ (first_bytes ++ second_bytes 9) }
    ensures spans { total two_shards ≡ 15 }
    ensures keys { key_total two_shards ≡ 3 }
{}

/// What bytes say before the digest, and why they are no manifest.
#[tactic(auto, unfolding(crate::specs::ManifestItems::manifest_at, crate::specs::ManifestItems::shards_at, crate::specs::ManifestItems::shard_at, crate::specs::ManifestItems::rest_at, crate::specs::ManifestItems::name_at, crate::specs::ManifestItems::header_at, crate::specs::ManifestItems::magic_at, cm_dump_items::specs::Reading::item_at, cm_dump_items::specs::Reading::field_at, cm_dump_items::specs::Reading::zeros_at))]
pub fn loaded()
    ensures two { manifest_at (header 3 ++ (first_bytes ++ second_bytes 9)) ≡ Ok two_shards }
    ensures more { manifest_at (header 3 ++ (first_bytes ++ (second_bytes 9 ++ digest_of 7))) ≡ Ok two_shards }
    ensures empty { manifest_at [] ≡ Err (Truncated 0) }
    ensures no_magic { manifest_at (codes "CMPHSHD2" ++ drop 8 (header 3)) ≡ Err BadMagic }
    ensures no_algorithm { manifest_at (header 5) ≡ Err (BadField 8) }
    ensures not_zero { manifest_at (take 11 (header 3) ++ 1 ∷ drop 12 (header 3)) ≡ Err (BadField 11) }
    ensures no_shards { manifest_at (take 16 (header 3) ++ 0 ∷ 0 ∷ 0 ∷ 0 ∷ []) ≡ Err (BadField 16) }
    ensures no_name { manifest_at (header 3 ++ 0 ∷ 0 ∷ []) ≡ Err (BadField 20) }
    ensures not_utf8 { manifest_at (header 3 ++ 1 ∷ 0 ∷ 255 ∷ []) ≡ Err (BadField 22) }
    ensures offset { manifest_at (header 3 ++ (first_bytes ++ second_bytes 8)) ≡ Err (BadField 91) }
    ensures cut { manifest_at (header 3 ++ first_bytes) ≡ Err (Truncated 79) }
{}

/// What bytes without a whole digest are.
#[tactic(auto, unfolding(crate::specs::ManifestFiles::manifest_in, crate::specs::ManifestFiles::signed_at, crate::specs::ManifestItems::manifest_at, crate::specs::ManifestItems::shards_at, crate::specs::ManifestItems::shard_at, crate::specs::ManifestItems::rest_at, crate::specs::ManifestItems::name_at, crate::specs::ManifestItems::header_at, crate::specs::ManifestItems::magic_at, cm_dump_items::specs::Reading::item_at, cm_dump_items::specs::Reading::field_at, cm_dump_items::specs::Reading::zeros_at))]
pub fn unsigned()
    ensures none { manifest_in (header 3 ++ (first_bytes ++ second_bytes 9)) ≡ Err (manifest.Truncated 139) }
{}

/// The paths of names, and the names of paths.
#[tactic(auto, unfolding(crate::specs::Paths::folder_of, std::specs::Path::path_join))]
pub fn named()
    ensures beside { path_of (codes "out/all") (codes "shard-0000.mph") ≡ codes "out/shard-0000.mph" }
    ensures here { path_of (codes "all") (codes "shard-0000.mph") ≡ codes "shard-0000.mph" }
    ensures below { path_of (codes "a/b/all") (codes "c/x") ≡ codes "a/b/c/x" }
    ensures absolute { path_of (codes "out/all") (codes "/x") ≡ codes "/x" }
    ensures at_root { path_of (codes "/all") (codes "x") ≡ codes "/x" }
    ensures name { name_of (codes "out/all") (codes "out/shard-0000.mph") ≡ codes "shard-0000.mph" }
    ensures name_here { name_of (codes "all") (codes "out/shard-0000.mph") ≡ codes "out/shard-0000.mph" }
    ensures slashes { name_of (codes "out/all") (codes "out//x") ≡ codes "x" }
    ensures dot_before { name_of (codes "./out/all") (codes "out/x") ≡ codes "x" }
    ensures dot_after { name_of (codes "out/all") (codes ".//out///x") ≡ codes "x" }
    ensures dot_here { name_of (codes "./all") (codes "./x") ≡ codes "x" }
    ensures no_folder { name_of (codes "all") (codes "/x") ≡ codes "/x" }
    ensures elsewhere { name_of (codes "out/all") (codes "ou/x") ≡ codes "ou/x" }
    ensures no_name { name_of (codes "out/all") (codes "out/") ≡ [] }
{}
