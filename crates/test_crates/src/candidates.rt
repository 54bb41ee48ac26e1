//! How many keys of a 2-core are kept because they may equal others. No clause has their number.
use crate::equal::expect_true;
use crate::peeling::add;
use cm_graph::Edges;
use cm_witness::count_candidates;
use std::alloc::{AllocError, Global};
use std::test::Fail;

/// How many of the edges at these places are candidates, if there are such edges.
fn candidates_among(alloc: Global, edges: &Edges<2>, places: &[u32]) -> Result<usize, AllocError> {
    let len = edges.len();
    if places.iter().all(|place| *place < len) {
        count_candidates(alloc, edges, places)
    } else {
        Ok(0)
    }
}

/// Among different edges few are candidates, and among those that are there twice each is.
#[test]
fn candidates(rt: HostRuntime) -> Result<(), Fail> {
    let alloc = rt.alloc();
    let mut edges = Edges::<2>::new(alloc, 1001);
    let mut places = Vec::new(alloc);
    for i in 0..1000u32 {
        expect_true(&rt, add(&mut edges, i, i + 1)?);
        places.push(i)?;
    }
    expect_true(&rt, candidates_among(alloc, &edges, &places)? < 30);
    for i in 0..1000u32 {
        expect_true(&rt, add(&mut edges, i, i + 1)?);
        places.push(1000 + i)?;
    }
    expect_true(&rt, candidates_among(alloc, &edges, &places)? == 2000);
    Ok(())
}
