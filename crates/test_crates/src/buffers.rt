//! Builds by BRZ with two sizes of the buffer: the dumps are the same, whatever the runs in the spill are.
ghost use Rattle.std.specs.Prelude.{◌≡◌, ◌<◌, ◌≤◌, []};
ghost use Rattle.cm_spec.specs.declared.limits.TheConstants.{MAX_WIDTH, MIN_WIDTH};
ghost use Rattle.cm_spill.specs.declared.runs.TheConstants.{MAX_BYTES, MIN_BYTES};

use crate::equal::{expect_equal, expect_true};
use cm_brz::build::brz;
use cm_brz::{Brz, BrzFault, MIN_BYTES};
use cm_dump::{Func, save};
use cm_graph::Steps;
use cm_io::KeyPass;
use cm_keys::{Keys, LINE_END};
use cm_keys_made::MadeKeys;
use cm_outer::{MemSink, MemSource, MemSpill};
use std::alloc::{AllocError, Global};
use std::marker::Brand;
use std::process::Abort;
use std::sync::ledger::{Blank, Ledger};
use std::test::Fail;

/// These seeds suffice for each bucket.
const SEEDS: [u32; 32] = [
    0, 1, 2, 3, 4, 5, 6, 7, 8, 9, 10, 11, 12, 13, 14, 15, 16, 17, 18, 19, 20, 21, 22, 23, 24, 25,
    26, 27, 28, 29, 30, 31,
];

/// How many bytes the spill has room for.
const ROOM: usize = 4_194_304;

/// How many bytes a long key has.
const LONG: usize = 40_000;

/// The result of a build, with the spill that it used.
type Built = (Result<Brz, BrzFault>, MemSpill);

/// Builds with the ratio 1.23, and with steps that nobody reads.
fn build_by<P: KeyPass, L: Ledger>(
    alloc: Global,
    keys: &mut P,
    b: u16,
    buffer: u32,
    spill: MemSpill,
    blank: Blank,
) -> Built
    requires name { blank.name ≡ L.name }
    requires parts { blank.parts ≡ L.parts }
    requires some { 0 < blank.parts }
    requires width { (MIN_WIDTH ≤ b) × (b ≤ MAX_WIDTH) }
    requires buffer { (MIN_BYTES ≤ buffer) × (buffer ≤ MAX_BYTES) }
    requires empty { spill.appended.bytes ≡ [] }
{
    let mut steps = Steps::<L>::new(blank);
    brz(alloc, keys, 1_230_000, b, &SEEDS, buffer, spill, &mut steps)
}

fn built<P: KeyPass>(alloc: Global, keys: &mut P, b: u16, buffer: u32) -> Result<Built, AllocError>
    requires width { (MIN_WIDTH ≤ b) × (b ≤ MAX_WIDTH) }
    requires buffer { (MIN_BYTES ≤ buffer) × (buffer ≤ MAX_BYTES) }
{
    let spill = MemSpill::new(alloc, ROOM, Vec::new(alloc), Vec::new(alloc))?;
    Ok(build_by::<P, Brand>(alloc, keys, b, buffer, spill, Blank::new(1)))
}

/// The dump of the function, which is empty if there is none, and the bytes in the spill.
type Made = (Vec<u8>, Vec<u8>);

fn made<P: KeyPass>(alloc: Global, keys: &mut P, b: u16, buffer: u32) -> Result<Made, AllocError>
    requires width { (MIN_WIDTH ≤ b) × (b ≤ MAX_WIDTH) }
    requires buffer { (MIN_BYTES ≤ buffer) × (buffer ≤ MAX_BYTES) }
{
    let (result, spill) = built(alloc, keys, b, buffer)?;
    let mut out = MemSink::new(alloc, 65_536, Vec::new(alloc))?;
    let is_saved = match result {
        Ok(function) => save(&Func::Brz(function), &mut out).is_ok(),
        Err(_) => false,
    };
    let dump = if is_saved {
        out.into_bytes()
    } else {
        Vec::new(alloc)
    };
    Ok((dump, spill.into_bytes()))
}

/// Of 100,000 generated keys. Each has 14 bytes, and its record in the spill 24.
fn made_of_generated(alloc: Global, buffer: u32) -> Result<Made, AllocError>
    requires buffer { (MIN_BYTES ≤ buffer) × (buffer ≤ MAX_BYTES) }
{
    let mut keys = Keys::new(MadeKeys::new(100_000), None, LINE_END);
    let made = made(alloc, &mut keys, 128, buffer);
    let _text = keys.into_source();
    made
}

/// Of the lines of a text.
fn made_of_lines(alloc: Global, text: &[u8], buffer: u32) -> Result<Made, AllocError>
    requires buffer { (MIN_BYTES ≤ buffer) × (buffer ≤ MAX_BYTES) }
{
    let source = MemSource::new(text.to_vec(alloc)?, Vec::new(alloc), Vec::new(alloc));
    let mut keys = Keys::new(source, None, LINE_END);
    let made = made(alloc, &mut keys, 64, buffer);
    let _source = keys.into_source();
    made
}

/// Fails the test unless there are two equal dumps.
fn expect_same(rt: &impl Abort, first: &[u8], second: &[u8]) {
    expect_true(rt, !first.is_empty());
    expect_equal(rt, &second, &first);
}

#[test]
fn generated_keys(rt: HostRuntime) -> Result<(), Fail> {
    let (small, spilled) = made_of_generated(rt.alloc(), 1_048_576)?;
    let (large, others) = made_of_generated(rt.alloc(), 2_097_152)?;
    expect_same(&rt, small.as_slice(), large.as_slice());
    expect_equal(&rt, &(spilled.len(), others.len()), &(2_400_000, 2_400_000));
    Ok(())
}

/// Lines of `LONG` equal bytes: one of each byte of a range.
fn long_lines(alloc: Global, bytes: (u8, u8)) -> Result<Vec<u8>, AllocError> {
    let mut text = Vec::new(alloc);
    for byte in bytes.0..bytes.1 {
        let line = vec![in alloc; byte; LONG]?;
        text.extend_from_slice(&line)?;
        text.push(LINE_END)?;
    }
    Ok(text)
}

/// The line of each record of a long key in a spill.
fn lines_in(alloc: Global, spill: &[u8]) -> Result<Vec<u8>, AllocError> {
    let mut lines = Vec::new(alloc);
    for record in spill.chunks(LONG + 10) {
        lines.push(record.get(4).copied().unwrap_or(0))?;
    }
    Ok(lines)
}

/// The lines of the records in the spill of each of two buffers, which lead to the same dump.
fn lines_of_both(
    rt: &impl Abort,
    alloc: Global,
    bytes: (u8, u8),
    larger: u32,
) -> Result<Made, AllocError>
    requires larger { (MIN_BYTES ≤ larger) × (larger ≤ MAX_BYTES) }
{
    let text = long_lines(alloc, bytes)?;
    let (first, spilled) = made_of_lines(alloc, &text, MIN_BYTES)?;
    let (second, others) = made_of_lines(alloc, &text, larger)?;
    expect_same(rt, first.as_slice(), second.as_slice());
    Ok((lines_in(alloc, &spilled)?, lines_in(alloc, &others)?))
}

/// How many lines there are, and how often one is lower than the one before it.
fn falls(lines: &[u8]) -> (usize, u32) {
    let mut falls = 0u32;
    let mut last = 0;
    for line in lines {
        if *line < last {
            falls = falls.wrapping_add(1);
        }
        last = *line;
    }
    (lines.len(), falls)
}

/// With the least buffer each record is a run, so the spill has the records by line. With a large one all are one run, by bucket and then
/// by line.
#[test]
fn long_keys(rt: HostRuntime) -> Result<(), Fail> {
    let (lines, _others) = lines_of_both(&rt, rt.alloc(), (b'a', b'd'), 1_048_576)?;
    expect_equal(&rt, &lines.as_slice(), &[1, 2, 3].as_slice());
    let (lines, others) = lines_of_both(&rt, rt.alloc(), (48, 113), 4_194_304)?;
    expect_equal(&rt, &falls(&lines), &(65, 0));
    expect_equal(&rt, &falls(&others), &(65, 1));
    Ok(())
}
