//! Measures peeling as a build does it: fills a list of edges that look random, and peels it over `Xored`, without levels.
//!
//! With no argument it works on small graphs and prints check sums. With the number of ends, 2 or 3, and a number of edges it works on
//! one graph of that size, and prints also how many microseconds each work took.
#![tactic(auto)]

ghost use Rattle.std.specs.Prelude.{◌≡◌, ◌≤◌, length};
ghost use Rattle.cm_spec.specs.declared.limits.TheConstants.{MAX_EDGES};

use cm_graph::Edges;
use cm_peel::Peeled;
use cm_spec::MAX_EDGES;
use std::alloc::Global;
use std::rt::Clock;
use std::time::Instant;
use std::{env, io};

mod made;
mod peeling;
mod random;

// How many edges a graph has, how many vertices for 1,000 edges, and whether times are printed.
#[derive(Clone, Copy)]
struct Plan {
    edges: u32,
    vertices: u32,
    timed: bool,
}

impl Plan {
    // Check sums alone.
    fn summed(vertices: u32) -> Plan
        ensures edges { result.edges ≤ MAX_EDGES }
        ensures vertices { result.vertices ≡ vertices }
    {
        Plan {
            edges: 20_000,
            vertices,
            timed: false,
        }
    }

    // Check sums and times.
    fn timed(edges: u32, vertices: u32) -> Plan
        ensures edges { result.edges ≡ edges }
        ensures vertices { result.vertices ≡ vertices }
    {
        Plan {
            edges,
            vertices,
            timed: true,
        }
    }
}

// Prints how long a work took.
fn tell(rt: &(impl Print + Clock), plan: Plan, work: &str, start: Instant) -> io::Result<()> {
    if plan.timed {
        let micros = start.elapsed(rt)?.as_micros();
        println!(rt; "time {work} {micros}")?;
    }
    Ok(())
}

// A check sum of the numbers that come one after another.
fn more(sum: u32, x: u32) -> u32 {
    sum.wrapping_mul(31).wrapping_add(x)
}

fn check(numbers: &[u32]) -> u32 {
    let mut sum = 0;
    for x in numbers {
        sum = more(sum, *x);
    }
    sum
}

// Prints what peeling returned: the pivots are those of the removed edges in their order.
fn tell_sums<const K: usize>(
    rt: &impl Print,
    edges: &Edges<K>,
    peeled: &Peeled<K>,
) -> io::Result<()>
    requires { length peeled.now.pivots ≡ length edges.now.edges }
{
    let order = peeled.order();
    let rest = peeled.rest();
    let m = edges.len();
    let mut pivots = 0;
    for e in order {
        if *e < m {
            pivots = more(pivots, peeled.pivot(*e));
        }
    }
    println!(rt;
        "{m} edges with {K} ends over {} vertices",
        edges.vertices()
    )?;
    println!(rt;
        "  removed {} order {} pivots {pivots} left {} rest {}",
        order.len(),
        check(order),
        rest.len(),
        check(rest)
    )
}

// Edges with three ends, one in each third of the vertices: filled, peeled and printed.
fn triples(rt: &(impl Print + Clock), alloc: Global, plan: Plan) -> io::Result<()>
    requires edges { plan.edges ≤ MAX_EDGES }
    requires vertices { plan.vertices ≤ 3000 }
{
    let third = plan.edges as u64 * plan.vertices as u64 / 3000 + 1;
    let start = Instant::now(rt)?;
    let edges = made::triples(alloc, plan.edges, third as u32)?;
    tell(rt, plan, "fill", start)?;
    let start = Instant::now(rt)?;
    let peeled = peeling::triples(alloc, &edges)?;
    tell(rt, plan, "peel", start)?;
    tell_sums(rt, &edges, &peeled)
}

// Edges with two ends anywhere: filled, peeled and printed.
fn pairs(rt: &(impl Print + Clock), alloc: Global, plan: Plan) -> io::Result<()>
    requires edges { plan.edges ≤ MAX_EDGES }
    requires vertices { plan.vertices ≤ 3000 }
{
    let n = plan.edges as u64 * plan.vertices as u64 / 1000 + 2;
    let start = Instant::now(rt)?;
    let edges = made::pairs(alloc, plan.edges, n as u32)?;
    tell(rt, plan, "fill", start)?;
    let start = Instant::now(rt)?;
    let peeled = peeling::pairs(alloc, &edges)?;
    tell(rt, plan, "peel", start)?;
    tell_sums(rt, &edges, &peeled)
}

// Small graphs, whose check sums are stored with the program: two that peel whole, and two that leave a core.
fn small(rt: &(impl Print + Clock), alloc: Global) -> io::Result<()> {
    triples(rt, alloc, Plan::summed(1_230))?;
    triples(rt, alloc, Plan::summed(1_180))?;
    pairs(rt, alloc, Plan::summed(2_090))?;
    pairs(rt, alloc, Plan::summed(1_500))
}

// One graph, timed.
fn large(rt: &(impl Print + Clock), alloc: Global, ends: &str, edges: u32) -> io::Result<()>
    requires { edges ≤ MAX_EDGES }
{
    match ends {
        "2" => pairs(rt, alloc, Plan::timed(edges, 2_090)),
        "3" => triples(rt, alloc, Plan::timed(edges, 1_230)),
        _ => Err(io::Error::from(io::ErrorKind::InvalidInput)),
    }
}

fn main(rt: HostRuntime) -> io::Result<()> {
    let alloc = rt.alloc();
    let mut words = env::args(&rt)?;
    let Some(ends) = words.nth(1) else {
        return small(&rt, alloc);
    };
    let Some(word) = words.next() else {
        return Err(io::Error::from(io::ErrorKind::InvalidInput));
    };
    match word.parse::<u32>() {
        Ok(edges) if edges <= MAX_EDGES => large(&rt, alloc, ends.as_str(), edges),
        _ => Err(io::Error::from(io::ErrorKind::InvalidInput)),
    }
}
