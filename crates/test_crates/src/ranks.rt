//! Ranks of cells that are not idle, over each table, compared with a plain loop.
ghost use Rattle.std.specs.Prelude.{◌≤◌, length};
ghost use Rattle.cm_rank.specs.Ranks.{StandsFor};

use crate::equal::{expect_equal, expect_true};
use cm_bits::{Bits, Cells, Crumbs, Fields, Plain, Trits};
use cm_rank::{Counted, RankTable};
use std::alloc::{AllocError, Global};
use std::process::Abort;
use std::test::Fail;

/// Whether the rank of each cell from `from` on is the one before it, and one more past a cell that is not idle.
fn counts_on<C: Counted>(cells: &C, table: &RankTable, idle: u32, from: u32) -> bool
    requires stands { StandsFor table.now (C.cells cells.now) }
{
    let len = cells.len();
    if from >= len {
        return true;
    }
    let mut rank = table.rank(cells, from);
    for i in from..len {
        if table.rank(cells, i) != rank {
            return false;
        }
        if cells.get(i) != idle {
            rank = rank.wrapping_add(1);
        }
    }
    true
}

/// A table of these cells, of which each is to be below the bound.
fn table_of<C: Cells>(alloc: Global, values: &[u32], bound: u32) -> Result<C, AllocError>
    requires room { length values.now ≤ 1000 }
    requires fit { C.fits bound }
{
    let mut cells = C::zeroed(alloc, values.len() as u32, bound)?;
    for i in 0..values.len() as u32 {
        let value = values[i as usize];
        if i < cells.len() && value < cells.bound() {
            cells.set(i, value);
        }
    }
    Ok(cells)
}

/// Checks the ranks of a table of these cells, and the number of its entries.
fn check<C: Cells + Counted + Drop>(
    rt: &impl Abort,
    alloc: Global,
    values: &[u32],
    bound: u32,
    idle: u32,
    entries: u32,
) -> Result<(), AllocError>
    requires room { length values.now ≤ 1000 }
    requires fit { C.fits bound }
{
    let cells: C = table_of(alloc, values, bound)?;
    let table = RankTable::build(alloc, &cells, idle, 3)?;
    expect_true(rt, counts_on(&cells, &table, idle, 0));
    expect_equal(rt, &table.entries(), &entries);
    Ok(())
}

#[test]
fn tables(rt: HostRuntime) -> Result<(), Fail> {
    let some = [3, 1, 3, 0, 3, 2, 3, 3, 3, 3, 0, 3, 1, 1, 1, 3];
    check::<Crumbs>(&rt, rt.alloc(), &some, 4, 3, 2)?;
    check::<Plain>(&rt, rt.alloc(), &some, 4, 1, 2)?;
    check::<Bits>(&rt, rt.alloc(), &[0, 1, 1, 0, 0, 0, 0, 0, 1], 2, 0, 2)?;
    check::<Trits>(&rt, rt.alloc(), &[2, 0, 1, 1, 2, 2, 0, 2, 1], 3, 2, 2)?;
    check::<Fields>(&rt, rt.alloc(), &[4, 4, 0, 3, 4, 1, 2, 4, 4], 5, 4, 2)?;
    Ok(())
}

/// Ranks near the end of a long table would take hours to count from its start.
#[test]
fn long_table(rt: HostRuntime) -> Result<(), Fail> {
    let cells = Crumbs::zeroed(rt.alloc(), 8_000_000, 4)?;
    let table = RankTable::build(rt.alloc(), &cells, 3, 7)?;
    expect_true(&rt, counts_on(&cells, &table, 3, 7_000_000));
    Ok(())
}
