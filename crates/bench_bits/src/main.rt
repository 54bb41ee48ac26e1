//! Measures the packed tables: random writes and reads, the bytes of an image, and a table from its image.
//!
//! With no argument it works on small tables and prints check sums. With a number of turns it works on tables within the caches and
//! past them, or on the one that a second argument names, and prints for each work how many microseconds it took, and for how many
//! turns or bytes. With the name of a type it only makes the largest of these tables, so that its memory can be measured.
#![tactic(auto)]

ghost use Rattle.std.specs.Prelude.{◌≡◌, ◌<◌, ◌≤◌, length, IfOk};

use cm_bits::{Bits, Cells, Crumbs, Fields, MAX_CELLS, Plain, Trits};
use std::alloc::Global;
use std::rt::Clock;
use std::time::Instant;
use std::{env, io};

mod random;
mod work;

// At least this many bytes of images are written and read, so that the time of small ones can be measured.
const IMAGE_BYTES: u64 = 400_000_000;

// What is done with a table, under which name.
#[derive(Clone, Copy)]
struct Plan<'a> {
    name: &'a str,
    turns: u32,
    timed: bool,
    skipped: bool,
}

impl<'a> Plan<'a> {
    // Check sums alone.
    fn summed(name: &'a str) -> Plan<'a> {
        Plan {
            name,
            turns: 100_000,
            timed: false,
            skipped: false,
        }
    }
}

// How many turns are timed, and of which table alone.
#[derive(Clone, Copy)]
struct Asked<'a> {
    turns: u32,
    only: Option<&'a str>,
}

impl<'a> Asked<'a> {
    // Check sums and times.
    fn plan(&self, name: &'a str) -> Plan<'a> {
        Plan {
            name,
            turns: self.turns,
            timed: true,
            skipped: match self.only {
                Some(only) => only != name,
                None => false,
            },
        }
    }
}

// Prints how long a work took for an amount of turns or bytes.
fn tell(
    rt: &(impl Print + Clock),
    plan: Plan<'_>,
    work: &str,
    start: Instant,
    amount: u64,
) -> io::Result<()> {
    if plan.timed {
        let micros = start.elapsed(rt)?.as_micros();
        println!(rt; "time {} {work} {micros} {amount}", plan.name)?;
    }
    Ok(())
}

// Makes a table by random writes, and reads it at random.
fn random_work<C: Cells + Drop>(
    rt: &(impl Print + Clock),
    alloc: Global,
    plan: Plan<'_>,
    n: u32,
    bound: u32,
) -> io::Result<C>
    requires some { 0 < n }
    requires room { n ≤ MAX_CELLS }
    requires positive { 0 < bound }
    requires fit { C.fits bound }
    ensures len { IfOk result (λ t. length (C.cells t) ≡ n) }
    ensures bound { IfOk result (λ t. C.bound_of t ≡ bound) }
{
    let mut table = C::zeroed(alloc, n, bound)?;
    let start = Instant::now(rt)?;
    work::write(&mut table, plan.turns);
    tell(rt, plan, "set", start, plan.turns as u64)?;
    let start = Instant::now(rt)?;
    let sum = work::read(&table, plan.turns);
    tell(rt, plan, "get", start, plan.turns as u64)?;
    println!(rt; "{} cells {n} below {bound} sum {sum}", plan.name)?;
    Ok(table)
}

// How often an image of `len` bytes is written and read.
fn rounds_of(plan: Plan<'_>, len: u64) -> u64 {
    if plan.timed && len > 0 {
        IMAGE_BYTES / len + 1
    } else {
        1
    }
}

// Writes the image of a table, and reads a table from it.
fn image_work<C: Cells + Drop>(
    rt: &(impl Print + Clock),
    alloc: Global,
    plan: Plan<'_>,
    table: &C,
) -> io::Result<()>
    requires { 0 < length (C.cells table.now) }
{
    let n = table.len();
    let bound = table.bound();
    let len = C::image_len(n, bound);
    let rounds = rounds_of(plan, len);
    let mut image = vec![in alloc; 0u8; len as usize]?;
    let start = Instant::now(rt)?;
    for _ in 0..rounds {
        work::write_image(table, &mut image);
    }
    tell(rt, plan, "byte", start, len.wrapping_mul(rounds))?;
    let start = Instant::now(rt)?;
    for _ in 1..rounds {
        let _again: C = work::read_image(alloc, n, bound, &image)?;
    }
    let again: C = work::read_image(alloc, n, bound, &image)?;
    tell(rt, plan, "from_image", start, len.wrapping_mul(rounds))?;
    let sum = work::read(&again, 100_000);
    println!(rt;
        "{} bytes {len} check {} again {sum}",
        plan.name,
        work::check(&image)
    )
}

fn run<C: Cells + Drop>(
    rt: &(impl Print + Clock),
    alloc: Global,
    plan: Plan<'_>,
    n: u32,
    bound: u32,
) -> io::Result<()>
    requires some { 0 < n }
    requires room { n ≤ MAX_CELLS }
    requires positive { 0 < bound }
    requires fit { C.fits bound }
{
    if plan.skipped {
        return Ok(());
    }
    let table: C = random_work(rt, alloc, plan, n, bound)?;
    image_work(rt, alloc, plan, &table)
}

// Small tables, whose check sums are stored with the program.
fn small(rt: &(impl Print + Clock), alloc: Global) -> io::Result<()> {
    run::<Bits>(rt, alloc, Plan::summed("bits"), 100_001, 2)?;
    run::<Crumbs>(rt, alloc, Plan::summed("crumbs"), 100_001, 4)?;
    run::<Trits>(rt, alloc, Plan::summed("trits"), 100_001, 3)?;
    run::<Fields>(rt, alloc, Plan::summed("fields"), 100_001, 100_000)?;
    run::<Plain>(rt, alloc, Plan::summed("plain"), 100_001, 100_000)
}

// Tables whose images have about 128 KiB.
fn near(rt: &(impl Print + Clock), alloc: Global, asked: Asked<'_>) -> io::Result<()> {
    run::<Bits>(rt, alloc, asked.plan("near bits"), 1_000_001, 2)?;
    run::<Crumbs>(rt, alloc, asked.plan("near crumbs"), 500_001, 4)?;
    run::<Trits>(rt, alloc, asked.plan("near trits"), 600_001, 3)?;
    run::<Fields>(rt, alloc, asked.plan("near fields"), 60_001, 100_000)?;
    run::<Fields>(rt, alloc, asked.plan("near fields1"), 1_000_001, 1)?;
    run::<Fields>(rt, alloc, asked.plan("near fields3"), 500_001, 3)?;
    run::<Plain>(rt, alloc, asked.plan("near plain"), 32_001, 100_000)
}

// Tables that no cache holds: of bits, crumbs and trits as large as they can be.
fn far(rt: &(impl Print + Clock), alloc: Global, asked: Asked<'_>) -> io::Result<()> {
    run::<Bits>(rt, alloc, asked.plan("far bits"), MAX_CELLS, 2)?;
    run::<Crumbs>(rt, alloc, asked.plan("far crumbs"), MAX_CELLS, 4)?;
    run::<Trits>(rt, alloc, asked.plan("far trits"), MAX_CELLS, 3)?;
    run::<Fields>(rt, alloc, asked.plan("far fields"), 200_000_001, 100_000)?;
    run::<Plain>(rt, alloc, asked.plan("far plain"), 100_000_001, 100_000)
}

// Makes a table of zeros, and prints the length of its image.
fn hold<C: Cells + Drop>(rt: &impl Print, alloc: Global, n: u32, bound: u32) -> io::Result<()>
    requires room { n ≤ MAX_CELLS }
    requires fit { C.fits bound }
{
    let _table = C::zeroed(alloc, n, bound)?;
    println!(rt; "{}", C::image_len(n, bound))
}

// Makes the largest table of a type, or none.
fn hold_one(rt: &impl Print, alloc: Global, name: &str) -> io::Result<()> {
    match name {
        "bits" => hold::<Bits>(rt, alloc, MAX_CELLS, 2),
        "crumbs" => hold::<Crumbs>(rt, alloc, MAX_CELLS, 4),
        "trits" => hold::<Trits>(rt, alloc, MAX_CELLS, 3),
        "fields" => hold::<Fields>(rt, alloc, 200_000_001, 100_000),
        "plain" => hold::<Plain>(rt, alloc, 100_000_001, 100_000),
        _ => println!(rt; "0"),
    }
}

fn main(rt: HostRuntime) -> io::Result<()> {
    let alloc = rt.alloc();
    let Some(word) = env::args(&rt)?.nth(1) else {
        return small(&rt, alloc);
    };
    let only = env::args(&rt)?.nth(2);
    let only = match &only {
        Some(name) => Some(name.as_str()),
        None => None,
    };
    match word.parse::<u32>() {
        Ok(turns) => {
            let asked = Asked { turns, only };
            near(&rt, alloc, asked)?;
            far(&rt, alloc, asked)
        }
        Err(_) => hold_one(&rt, alloc, word.as_str()),
    }
}
