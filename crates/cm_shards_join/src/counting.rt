//! The counts of a split, compared with the keys of functions.
ghost use Rattle.std.specs.Prelude.{◌≡◌, ◌+◌, ◌<◌, ◌≤◌, ◌^◌, IfErr, IfOk, OnOk, Some, Ok};
ghost use Rattle.std.specs.Option.{ForSome};
ghost use Rattle.cm_shards_files.specs.Loading.{ChangesNoFile};
ghost use Rattle.cm_shards_join.specs.Counts.{line_apart, next_line};
ghost use Rattle.cm_shards_join.specs.Leaves.{HasReadCause, NamesCounts, NamesPath, Refuses};
ghost use Rattle.cm_shards_join.specs.Taking.{compare_counts, keys_text};
ghost use Rattle.cm_shards_split.specs.Names.{counts_path};

use crate::stop::JoinStop;
use cm_io::{Disk, DiskFault};
use cm_shards_files::read_start;
use cm_shards_manifest::Shard;
use cm_words_arguments::Text;
use itoa::Buffer;
use std::alloc::{AllocError, Global};
use std::path::Path;

/// The path of the counts in the folder of a split.
pub(crate) fn counts_path(alloc: Global, dir: &str) -> Result<Text, AllocError>
    ensures path { IfOk result (λ path. path ≡ counts_path dir.now) }
{
    let path = Path::new(dir).join(alloc, "counts")?;
    Ok(Text::new(path.into_string()))
}

/// The text of the numbers of keys of shards: one line each.
fn keys_text(alloc: Global, shards: &[Shard]) -> Result<Vec<u8>, AllocError>
    ensures text { IfOk result (λ text. text.items ≡ keys_text shards.now) }
{
    let mut text = Vec::new(alloc);
    for shard in shards {
        let mut buffer = Buffer::new();
        text.extend_from_slice(buffer.format(shard.keys).as_bytes())?;
        text.extend_from_slice(b"\n")?;
    }
    Ok(text)
}

/// The line after this one, if a byte ends it.
fn next_line(line: u64, byte: u8) -> u64
    requires room { line < 2 ^ 63 }
    ensures line { result ≡ next_line line byte }
    ensures few { result ≤ line + 1 }
{
    if byte == b'\n' { line + 1 } else { line }
}

/// The first line, counted from 1, at which two texts differ.
fn line_apart(text: &[u8], other: &[u8]) -> Option<u64>
    ensures line { result ≡ line_apart text.now other.now }
{
    let mut line: u64 = 1;
    for i in 0..text.len() {
        if i == other.len() {
            return Some(line);
        }
        if text[i] != other[i] {
            return Some(line);
        }
        line = next_line(line, text[i]);
    }
    if text.len() < other.len() {
        Some(line)
    } else {
        None
    }
}

/// Compares the counts in the folder of a split with the numbers of keys of shards.
fn compare_in<D: Disk>(
    alloc: Global,
    dir: &str,
    shards: &[Shard],
    disk: &mut D,
) -> Result<(), JoinStop>
    ensures disk { ChangesNoFile (D.state disk.old) (D.state disk.new) }
    ensures cause { HasReadCause (D.state disk.old).read_faults (D.state disk.new).read_faults result }
    ensures same { OnOk result (ForSome (D.state disk.old).files (λ files. compare_counts files (Some dir.now) shards.now ≡ Some (Ok tt))) }
    ensures refused { IfErr result (λ stop. ForSome (D.state disk.old).files (λ files. Refuses (compare_counts files (Some dir.now) shards.now) stop)) }
    ensures named { IfErr result (NamesPath (counts_path dir.now)) }
{
    let path = match counts_path(alloc, dir) {
        Ok(path) => path,
        Err(_) => return Err(JoinStop::Memory),
    };
    let text = match keys_text(alloc, shards) {
        Ok(text) => text,
        Err(_) => return Err(JoinStop::Memory),
    };
    // One byte more shows that the counts are longer.
    let limit = text.len() + 1;
    let counts = match read_start(alloc, path.as_str(), limit, disk) {
        Ok(counts) => counts,
        Err(DiskFault::Memory) => return Err(JoinStop::Memory),
        Err(DiskFault::Failed) => return Err(JoinStop::Read { path }),
    };
    match line_apart(text.as_slice(), counts.as_slice()) {
        None => Ok(()),
        Some(line) => Err(JoinStop::BadCounts { path, line }),
    }
}

/// Compares the counts of a split with the numbers of keys of shards, if the folder of a split is given.
pub(crate) fn compare<D: Disk>(
    alloc: Global,
    dir: &Option<Text>,
    shards: &[Shard],
    disk: &mut D,
) -> Result<(), JoinStop>
    ensures disk { ChangesNoFile (D.state disk.old) (D.state disk.new) }
    ensures cause { HasReadCause (D.state disk.old).read_faults (D.state disk.new).read_faults result }
    ensures same { OnOk result (ForSome (D.state disk.old).files (λ files. compare_counts files dir.now shards.now ≡ Some (Ok tt))) }
    ensures refused { IfErr result (λ stop. ForSome (D.state disk.old).files (λ files. Refuses (compare_counts files dir.now shards.now) stop)) }
    ensures named { IfErr result (NamesCounts dir.now) }
{
    match dir {
        Some(dir) => compare_in(alloc, dir.as_str(), shards, disk),
        None => Ok(()),
    }
}
