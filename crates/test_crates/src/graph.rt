//! Incidences to which edges are linked one by one. Peeling makes them of all edges at once.
ghost use Rattle.std.specs.Prelude.{◌≡◌, ◌<◌};

use crate::equal::expect_equal;
use cm_graph::{Incidence, Linked, Steps, Xored};
use std::alloc::{AllocError, Global};
use std::marker::Brand;
use std::process::Abort;
use std::sync::ledger::{Blank, Ledger};
use std::test::Fail;

/// Links two edges that share a vertex, and unlinks the first: the degree of the vertex before, and its sole edge after.
fn star<I: Incidence<2> + Drop, L: Ledger>(
    alloc: Global,
    steps: &mut Steps<L>,
) -> Result<[u32; 2], AllocError> {
    let mut links = I::empty(alloc, 4, 3)?;
    links.link(0, [0, 1], steps);
    links.link(2, [0, 3], steps);
    let both = links.degree(0, steps);
    links.unlink(0, [0, 1], steps);
    Ok([both, links.sole(0, steps)])
}

/// What an incidence shows, with steps that nobody reads.
fn shows_by<I: Incidence<2> + Drop, L: Ledger>(
    rt: &impl Abort,
    alloc: Global,
    blank: Blank,
) -> Result<(), AllocError>
    requires name { blank.name ≡ L.name }
    requires parts { blank.parts ≡ L.parts }
    requires some { 0 < blank.parts }
{
    let mut steps = Steps::<L>::new(blank);
    let seen = star::<I, L>(alloc, &mut steps)?;
    expect_equal(rt, &seen, &[2, 2]);
    Ok(())
}

fn shows<I: Incidence<2> + Drop>(rt: &impl Abort, alloc: Global) -> Result<(), AllocError> {
    shows_by::<I, Brand>(rt, alloc, Blank::new(1))
}

#[test]
fn incidences(rt: HostRuntime) -> Result<(), Fail> {
    shows::<Xored<2>>(&rt, rt.alloc())?;
    shows::<Linked<2>>(&rt, rt.alloc())?;
    Ok(())
}
