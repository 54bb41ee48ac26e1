// Tables that hold one value.
ghost use Rattle.std.specs.Prelude.{◌≡◌, ◌<◌, ◌≤◌, replicate, IfOk};

use crate::{Cells, MAX_CELLS};
use std::alloc::{AllocError, Global};

/// A table of n cells that all hold the value. Fails only if memory runs out.
pub fn filled<C: Cells + Drop>(
    alloc: Global,
    n: u32,
    bound: u32,
    value: u32,
) -> Result<C, AllocError>
    requires room { n ≤ MAX_CELLS }
    requires fit { C.fits bound }
    requires below { value < bound }
    ensures bound { IfOk result (λ t. C.bound_of t ≡ bound) }
    ensures cells { IfOk result (λ t. C.cells t ≡ replicate n value) }
{
    let mut table = C::zeroed(alloc, n, bound)?;
    if value == 0 {
        return Ok(table);
    }
    for i in 0..n {
        table.set(i, value);
    }
    Ok(table)
}
