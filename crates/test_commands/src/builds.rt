//! Builds over keys that change from pass to pass, how a build takes its keys, and the cells of a path.
ghost use Rattle.std.specs.Prelude.{◌≡◌, ◌<◌};

use crate::equal::{expect_equal, expect_true};
use cm_algo::{BuildFault, Built, assign, build};
use cm_bits::{Cells, Fields};
use cm_chm::ChmScheme;
use cm_graph::{Edges, Steps, Xored};
use cm_io::{KeyBuf, KeyFault, KeyPass};
use cm_keys::{Keys, LINE_END};
use cm_outer::TurnSource;
use cm_peel::peel;
use cm_spec::MAX_EDGES;
use cm_tool::MadeKeys;
use std::alloc::{AllocError, Global};
use std::marker::Brand;
use std::sync::ledger::{Blank, Ledger};
use std::test::Fail;

/// The cells of a build by CHM with 2.09 vertices a key, with steps that nobody reads.
fn build_by<P: KeyPass, L: Ledger>(
    alloc: Global,
    keys: &mut P,
    blank: Blank,
) -> Result<Built<Fields>, BuildFault>
    requires name { blank.name ≡ L.name }
    requires parts { blank.parts ≡ L.parts }
    requires some { 0 < blank.parts }
{
    let mut steps = Steps::<L>::new(blank);
    build::<ChmScheme, Xored<2>, P, 2, L>(
        alloc,
        &ChmScheme {},
        keys,
        2_090_000,
        &[0, 1, 2, 3, 4, 5, 6, 7, 8, 9],
        &mut steps,
    )
}

fn built<P: KeyPass>(alloc: Global, keys: &mut P) -> Result<Built<Fields>, BuildFault> {
    build_by::<P, Brand>(alloc, keys, Blank::new(1))
}

#[test]
fn keys_that_change(rt: HostRuntime) -> Result<(), Fail> {
    let alloc = rt.alloc();
    // A build rewinds before its first pass, so that the first entry isn't read.
    let mut passes = vec![in alloc; Vec::new(alloc)]?;
    passes.push(b"a\nb\n".to_vec(alloc)?)?;
    passes.push(b"a\nb\nc\n".to_vec(alloc)?)?;
    let mut keys = Keys::new(TurnSource::new(passes), None, LINE_END);
    let outcome = built(alloc, &mut keys);
    let _source = keys.into_source();
    match outcome {
        Err(BuildFault::Changed { first, now }) => expect_equal(&rt, &(first, now), &(2, 3)),
        _ => panic!(rt; "another outcome"),
    }
    Ok(())
}

/// A pass that counts the keys that are copied out of it.
#[derive(Drop)]
struct Counting<P> {
    pass: P,
    copied: u64,
}

impl<P: KeyPass> KeyPass for Counting<P> {
    ghost told = { λ s. P.told s.pass };

    ghost place = { λ s. P.place s.pass };

    ghost last = { λ s. P.last s.pass };

    ghost usable = { λ s. P.usable s.pass };

    ghost faults = { λ s. P.faults s.pass };

    ghost failure = { λ s. P.failure s.pass };

    ghost gave = { λ s keys. P.gave s.pass keys };

    ghost at_end = { λ s. P.at_end s.pass };

    ghost stands = { λ s key. P.stands s.pass key };

    ghost next_line = { λ s. P.next_line s.pass };

    fn usable(&self) -> bool {
        self.pass.usable()
    }

    fn next(&mut self, key: &mut KeyBuf) -> Result<bool, KeyFault> {
        self.copied = self.copied.saturating_add(1);
        self.pass.next(key)
    }

    fn peek(&self) -> Option<(u32, &[u8])> {
        self.pass.peek()
    }

    fn pass(&mut self, len: usize) {
        self.pass.pass(len);
    }

    fn skip(&mut self) -> u32 {
        self.pass.skip()
    }

    fn hash_four(&mut self, _seed: u32) -> Option<[[u32; 3]; 4]> {
        None
    }

    fn rewind(&mut self) -> Result<(), KeyFault> {
        self.pass.rewind()
    }

    fn line(&self) -> u32 {
        self.pass.line()
    }
}

// 40,000 keys have 600,000 bytes, which come in ten reads. Each pass copies the keys that lie across two reads, and asks once more at
// the end; there is a pass to count them, and one for each seed.
#[test]
fn keys_are_hashed_where_they_stand(rt: HostRuntime) -> Result<(), Fail> {
    let mut keys = Counting {
        pass: Keys::new(MadeKeys::new(40_000), None, LINE_END),
        copied: 0,
    };
    let outcome = built(rt.alloc(), &mut keys);
    let Counting { pass, copied } = keys;
    let _text = pass.into_source();
    match outcome {
        Ok(function) => expect_true(&rt, copied <= (function.seed as u64 + 2) * 12),
        Err(_) => panic!(rt; "no function"),
    }
    Ok(())
}

fn listed(alloc: Global, cells: &Fields) -> Result<Vec<u32>, AllocError> {
    let mut listed = Vec::new(alloc);
    for v in 0..cells.len() {
        listed.push(cells.get(v))?;
    }
    Ok(listed)
}

/// Adds an edge, unless it isn't one over the vertices.
fn add(edges: &mut Edges<2>, first: u32, second: u32) -> Result<bool, AllocError> {
    let n = edges.vertices();
    if first < n && second < n && first != second && edges.len() < MAX_EDGES {
        edges.push([first, second])?;
        Ok(true)
    } else {
        Ok(false)
    }
}

/// CHM's cells of a graph, or none if it has no edge or if peeling leaves one.
fn assign_pairs<L: Ledger>(
    alloc: Global,
    edges: &Edges<2>,
    blank: Blank,
) -> Result<Option<Fields>, AllocError>
    requires name { blank.name ≡ L.name }
    requires parts { blank.parts ≡ L.parts }
    requires some { 0 < blank.parts }
{
    let mut steps = Steps::<L>::new(blank);
    let peeled = peel::<2, Xored<2>, L>(alloc, edges, &mut steps)?;
    if edges.len() == 0 {
        return Ok(None);
    }
    if !peeled.rest().is_empty() {
        return Ok(None);
    }
    let cells = assign(alloc, &ChmScheme {}, edges, &peeled, &[])?;
    Ok(Some(cells))
}

fn assigned(alloc: Global, edges: &Edges<2>) -> Result<Option<Fields>, AllocError> {
    assign_pairs::<Brand>(alloc, edges, Blank::new(1))
}

#[test]
fn cells_of_a_path(rt: HostRuntime) -> Result<(), Fail> {
    let mut edges = Edges::<2>::new(rt.alloc(), 4);
    for v in 0..3u32 {
        expect_true(&rt, add(&mut edges, v, v + 1)?);
    }
    let Some(cells) = assigned(rt.alloc(), &edges)? else {
        return Err(Fail::new("no cells"));
    };
    let cells = listed(rt.alloc(), &cells)?;
    expect_equal(&rt, &cells.as_slice(), &[2, 1, 0, 2].as_slice());
    Ok(())
}
