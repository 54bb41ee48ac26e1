//! One shard of a manifest.

use cm_words_arguments::Text;

/// What a manifest says of the function of a shard.
#[derive(Drop)]
pub struct Shard {
    /// The path of its file, seen from the folder of the manifest: from 1 to `MAX_NAME` bytes.
    pub name: Text,
    /// How many keys it was built over, from 1 to `MAX_KEYS`.
    pub keys: u32,
    /// What its answers are below, from 1 to `MAX_VERTICES`.
    pub span: u32,
    /// The sum of the spans of the shards before it, which is added to its answers.
    pub offset: u64,
    /// How many bytes its file has.
    pub len: u64,
    /// The SHA-256 of its file.
    pub digest: [u8; 32],
}
