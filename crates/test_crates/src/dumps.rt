//! Dumps of many bytes, which are read in many pieces: loaded and saved again.
ghost use Rattle.std.specs.Prelude.{◌≡◌, IfOk};

use crate::equal::expect_true;
use cm_dump::{Version, load_versioned, save, saved_len};
use cm_outer::{MemSink, MemSource};
use std::alloc::{AllocError, Global};
use std::test::Fail;

/// A source of these bytes.
fn source_of(alloc: Global, bytes: &[u8]) -> Result<MemSource, AllocError>
    ensures start { IfOk result (λ source. source.place ≡ 0) }
{
    Ok(MemSource::new(bytes.to_vec(alloc)?, Vec::new(alloc), Vec::new(alloc)))
}

/// Whether a function is loaded from these bytes, in version 2, and saved as the same.
fn is_saved_again(alloc: Global, bytes: &[u8]) -> Result<bool, AllocError> {
    let mut source = source_of(alloc, bytes)?;
    let Ok(loaded) = load_versioned(alloc, &mut source) else {
        return Ok(false);
    };
    let mut out = MemSink::new(alloc, bytes.len(), Vec::new(alloc))?;
    let is_saved = save(&loaded.func, &mut out).is_ok();
    let is_long = saved_len(&loaded.func) == bytes.len() as u64;
    Ok(loaded.version == Version::Two && is_saved && is_long && out.bytes() == bytes)
}

/// The header of a function by CHM of 65,536 keys, with 136,971 cells of sixteen bits.
const CHM: [u8; 24] = [
    0x43, 0x4d, 0x50, 0x48, 0x44, 0x4d, 0x50, 0x32, 1, 0, 0, 0, 0, 0, 1, 0, 0x10, 0xe4, 0x1f, 0, 0,
    0, 0, 0,
];

/// The header of a function by BDZ of as many keys, with 80,613 cells and the 10,077 ranks of every eighth.
const BDZ: [u8; 24] = [
    0x43, 0x4d, 0x50, 0x48, 0x44, 0x4d, 0x50, 0x32, 2, 0, 3, 0, 0, 0, 1, 0, 0xb0, 0xc4, 0x12, 0, 0,
    0, 0, 0,
];

fn chm_dump(alloc: Global) -> Result<Vec<u8>, AllocError> {
    let mut bytes = CHM.to_vec(alloc)?;
    for i in 0..273_942u32 {
        bytes.push((i % 251) as u8)?;
    }
    Ok(bytes)
}

/// The first 65,536 cells are 0, and the others 3.
fn bdz_dump(alloc: Global) -> Result<Vec<u8>, AllocError> {
    let mut bytes = BDZ.to_vec(alloc)?;
    bytes.resize(24 + 16_384, 0)?;
    bytes.resize(24 + 20_153, 255)?;
    bytes.push(3)?;
    for i in 0..10_077u32 {
        bytes.extend_from_slice(&(8 * i).min(65_536).to_le_bytes())?;
    }
    Ok(bytes)
}

#[test]
fn long_dumps(rt: HostRuntime) -> Result<(), Fail> {
    let chm = chm_dump(rt.alloc())?;
    expect_true(&rt, is_saved_again(rt.alloc(), &chm)?);
    let bdz = bdz_dump(rt.alloc())?;
    expect_true(&rt, is_saved_again(rt.alloc(), &bdz)?);
    Ok(())
}
