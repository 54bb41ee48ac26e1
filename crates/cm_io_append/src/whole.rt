//! The first bytes of a source, or all of them.
ghost use Rattle.std.specs.Prelude.{◌≡◌, ◌<◌, ◌≤◌, true, false, length, take, IfOk, OnOk};
ghost use Rattle.std.specs.Option.{ForSome};
ghost use Rattle.cm_io.specs.Causes.{HasDiskCause};
ghost use Rattle.cm_io_append.specs.Wholes.{HasRead};

use cm_io::{DiskFault, Source};

/// How many bytes are read at most by one call.
const CHUNK: usize = 65_536;

/// Appends the next bytes of a source to those that were read, until there are `limit` bytes, or all. Returns `Failed` exactly if the
/// count of faults rises. Memory is allocated as bytes are read, whatever the limit is.
pub fn read_prefix<S: Source>(
    source: &mut S,
    limit: usize,
    bytes: &mut Vec<u8>,
) -> Result<(), DiskFault>
    requires so_far { HasRead (S.told source.old) (S.place source.old) bytes.old.items }
    requires few { length bytes.old.items ≤ limit }
    ensures told { S.told source.new ≡ S.told source.old }
    ensures so_far { OnOk result (HasRead (S.told source.new) (S.place source.new) bytes.new.items) }
    ensures few { OnOk result (length bytes.new.items ≤ limit) }
    ensures prefix { OnOk result (ForSome (S.told source.old) (λ all. bytes.new.items ≡ take limit all)) }
    ensures cause { HasDiskCause (S.faults source.old) (S.faults source.new) result }
{
    let mut chunk = [0; CHUNK];
    while bytes.len() < limit {
        if !read_chunk(source, limit, &mut chunk, bytes)? {
            return Ok(());
        }
    }
    Ok(())
}

/// Appends the next bytes of a source to those that were read, which are fewer than the limit, and returns whether there are any.
fn read_chunk<S: Source>(
    source: &mut S,
    limit: usize,
    chunk: &mut [u8],
    bytes: &mut Vec<u8>,
) -> Result<bool, DiskFault>
    requires room { 0 < length chunk.old }
    requires few { length bytes.old.items < limit }
    requires so_far { HasRead (S.told source.old) (S.place source.old) bytes.old.items }
    ensures told { S.told source.new ≡ S.told source.old }
    ensures room { length chunk.new ≡ length chunk.old }
    ensures so_far { OnOk result (HasRead (S.told source.new) (S.place source.new) bytes.new.items) }
    ensures few { OnOk result (length bytes.new.items ≤ limit) }
    ensures more { IfOk result (λ more. more ≡ true → length bytes.old.items < length bytes.new.items) }
    ensures end { IfOk result (λ more. more ≡ false → ForSome (S.told source.old) (λ all. bytes.new.items ≡ all)) }
    ensures cause { HasDiskCause (S.faults source.old) (S.faults source.new) result }
{
    let want = (limit - bytes.len()).min(chunk.len());
    let n = source.read(&mut chunk[..want])?;
    bytes.extend_from_slice(&chunk[..n])?;
    Ok(n > 0)
}
