//! Files in memory.
ghost use Rattle.std.specs.Prelude.{◌≡◌, ◌++◌, OnOk, OnErr, IsOk, IsTrue, position, string_bytes, option_copied};
ghost use Rattle.std.specs.FinMap as maps;
ghost use Rattle.std.specs.Str.{bytes_eq};
ghost use Rattle.cm_io.specs.Files.{file_at};
ghost use Rattle.cm_io_append.specs.Extending.{bytes_or_none};
ghost use Rattle.cm_outer.specs.MemFiles.{files_of};

use std::alloc::{AllocError, Global};

/// A file by its path.
#[derive(Drop)]
pub(crate) struct MemFile {
    pub path: String,
    pub bytes: Vec<u8>,
}

/// The place of the first file of a path.
fn place_of(files: &[MemFile], path: &str) -> Option<usize>
    ensures place { result ≡ position (λ f. bytes_eq (string_bytes f.path) path.now) files.now }
{
    files.iter().position(|f| f.path.as_str() == path)
}

/// The bytes of a path, if it is there.
pub(crate) fn bytes_at<'a>(files: &'a [MemFile], path: &str) -> Option<&'a [u8]>
    ensures bytes { option_copied result ≡ file_at (files_of files.now) path.now }
{
    match place_of(files, path) {
        Some(i) => Some(&files[i].bytes),
        None => None,
    }
}

/// Makes the path hold these bytes. For a path that is there it takes no memory.
pub(crate) fn set_bytes(
    alloc: Global,
    files: &mut Vec<MemFile>,
    path: &str,
    bytes: Vec<u8>,
) -> Result<(), AllocError>
    ensures ok { OnOk result (files_of files.new.items ≡ maps.insert (files_of files.old.items) path.now bytes.items) }
    ensures err { OnErr result (files.new.items ≡ files.old.items) }
    ensures there { IsTrue (maps.contains_key (files_of files.old.items) path.now) → IsOk result }
{
    match place_of(files, path) {
        Some(i) => {
            files[i].bytes = bytes;
        }
        None => {
            let path = String::from_str(alloc, path)?;
            files.push(MemFile { path, bytes })?;
        }
    }
    Ok(())
}

/// Appends these bytes to those of a path, which is there. If memory runs out, the files stay as before.
pub(crate) fn extend_bytes(
    files: &mut [MemFile],
    path: &str,
    piece: &[u8],
) -> Result<(), AllocError>
    requires there { IsTrue (maps.contains_key (files_of files.old) path.now) }
    ensures ok { OnOk result (files_of files.new ≡ maps.insert (files_of files.old) path.now (bytes_or_none path.now (files_of files.old) ++ piece.now)) }
    ensures err { OnErr result (files_of files.new ≡ files_of files.old) }
{
    match place_of(files, path) {
        Some(i) => {
            files[i].bytes.extend_from_slice(piece)?;
            Ok(())
        }
        None => unreachable!(),
    }
}
