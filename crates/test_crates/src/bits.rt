//! The images of packed tables, and the faults of bytes that are none.
use crate::equal::{expect_bytes, expect_equal, expect_equal_at};
use cm_bits::{
    Bits, Cells, Crumbs, Fields, ImageFault, MAX_CELLS, MAX_FIELD_BOUND, Plain, Trits, filled,
};
use std::alloc::{AllocError, Global};
use std::process::Abort;
use std::test::Fail;

/// Fails the test unless a table has this image.
fn expect_image<C: Cells>(rt: &impl Abort, table: &C, bytes: &[u8]) {
    expect_equal(
        rt,
        &C::image_len(table.len(), table.bound()),
        &(bytes.len() as u64),
    );
    for (i, byte) in bytes.iter().enumerate() {
        assert!(rt; (i as u64) < C::image_len(table.len(), table.bound()));
        expect_equal_at(rt, &i, &table.byte(i as u64), byte);
    }
}

/// Fails the test unless a table has these cells.
fn expect_cells<C: Cells>(rt: &impl Abort, table: &C, cells: &[u32]) {
    expect_equal(rt, &(table.len() as usize), &cells.len());
    for i in 0..table.len() {
        expect_equal_at(rt, &i, &Some(&table.get(i)), &cells.get(i as usize));
    }
}

/// A table of these cells.
fn table_of<C: Cells + Drop>(
    rt: &impl Abort,
    alloc: Global,
    bound: u32,
    cells: &[u32],
) -> Result<C, AllocError>
    requires fit { C.fits bound }
{
    assert!(rt; cells.len() <= 1000);
    let n = cells.len() as u32;
    let mut table = C::zeroed(alloc, n, bound)?;
    for i in 0..n {
        assert!(rt; i < table.len() && cells[i as usize] < table.bound());
        table.set(i, cells[i as usize]);
    }
    Ok(table)
}

/// A table of these cells has the image, and is read from it.
fn has_image<C: Cells + Drop>(
    rt: &impl Abort,
    alloc: Global,
    bound: u32,
    cells: &[u32],
    bytes: &[u8],
) -> Result<(), AllocError>
    requires fit { C.fits bound }
{
    let table: C = table_of(rt, alloc, bound, cells)?;
    expect_image(rt, &table, bytes);
    assert!(rt; cells.len() <= 1000);
    let n = cells.len() as u32;
    assert!(rt; C::image_len(n, bound) == bytes.len() as u64);
    match C::from_image(alloc, n, bound, bytes) {
        Ok(again) => expect_cells(rt, &again, cells),
        Err(_) => panic!(rt; "not read"),
    }
    Ok(())
}

/// Reading the bytes fails with this fault.
fn has_fault<C: Cells + Drop>(
    rt: &impl Abort,
    alloc: Global,
    n: u32,
    bound: u32,
    bytes: &[u8],
    fault: ImageFault,
)
    requires fit { C.fits bound }
{
    assert!(rt; n <= MAX_CELLS);
    assert!(rt; C::image_len(n, bound) == bytes.len() as u64);
    match C::from_image(alloc, n, bound, bytes) {
        Ok(_) => panic!(rt; "read"),
        Err(found) => expect_equal(rt, &found, &fault),
    }
}

/// Each of these tables of cells has the image beside it.
fn have_images<C: Cells + Drop>(
    rt: &impl Abort,
    alloc: Global,
    bound: u32,
    rows: &[(&[u32], &[u8])],
) -> Result<(), AllocError>
    requires fit { C.fits bound }
{
    for (cells, bytes) in rows {
        has_image::<C>(rt, alloc, bound, *cells, *bytes)?;
    }
    Ok(())
}

const TRITS: [(&[u32], &[u8]); 4] = [
    (&[2, 2, 2, 2, 2], &[0xf2]),
    (&[1, 0, 2], &[0x13]),
    (&[0, 1, 0, 0, 2, 1, 1], &[0xa5, 0x04]),
    (&[], &[]),
];

const BITS: [(&[u32], &[u8]); 2] = [(&[1, 0, 1, 1, 0, 0, 0, 1, 1], &[0x8d, 0x01]), (&[], &[])];

const CRUMBS: [(&[u32], &[u8]); 2] = [(&[3, 0, 2, 1, 3], &[0x63, 0x03]), (&[], &[])];

const PLAIN: [(&[u32], &[u8]); 2] = [(&[258, 999], &[2, 1, 0, 0, 0xe7, 3, 0, 0]), (&[], &[])];

const GREATEST: [(&[u32], &[u8]); 1] = [(&[0xffff_fffe], &[0xfe, 0xff, 0xff, 0xff])];

/// The bounds of packed cells, the cells, and the image.
const FIELDS: [(u32, &[u32], &[u8]); 6] = [
    (5, &[4, 1, 3], &[0xcc, 0x00]),
    (100_000, &[99_999, 1], &[0x9f, 0x86, 0x03, 0, 0]),
    (1, &[0, 0, 0], &[0]),
    (2, &[0, 1, 1], &[6]),
    (7, &[], &[]),
    (
        MAX_FIELD_BOUND,
        &[0x3ff_ffff, 0x3ff_ffff],
        &[0xff, 0xff, 0xff, 0xff, 0xff, 0xff, 0x0f],
    ),
];

#[test]
fn images(rt: HostRuntime) -> Result<(), Fail> {
    let alloc = rt.alloc();
    have_images::<Trits>(&rt, alloc, 3, &TRITS)?;
    have_images::<Bits>(&rt, alloc, 2, &BITS)?;
    have_images::<Crumbs>(&rt, alloc, 4, &CRUMBS)?;
    have_images::<Plain>(&rt, alloc, 1000, &PLAIN)?;
    have_images::<Plain>(&rt, alloc, u32::MAX, &GREATEST)?;
    for (bound, cells, bytes) in &FIELDS {
        assert!(rt; 0 < *bound && *bound <= MAX_FIELD_BOUND);
        has_image::<Fields>(&rt, alloc, *bound, *cells, *bytes)?;
    }
    Ok(())
}

/// Reading each of these numbers of cells from the bytes beside it fails with the fault.
fn have_faults<C: Cells + Drop>(
    rt: &impl Abort,
    alloc: Global,
    bound: u32,
    rows: &[(u32, &[u8], ImageFault)],
)
    requires fit { C.fits bound }
{
    for (n, bytes, fault) in rows {
        has_fault::<C>(rt, alloc, *n, bound, *bytes, *fault);
    }
}

const TRIT_FAULTS: [(u32, &[u8], ImageFault); 3] = [
    (5, &[0xf3], ImageFault::BadCell { cell: 0 }),
    (3, &[0x1b], ImageFault::BadPadding { byte: 0 }),
    (8, &[0xf2, 0xff], ImageFault::BadCell { cell: 5 }),
];

const BIT_FAULTS: [(u32, &[u8], ImageFault); 1] = [(
    9,
    &[0x8d, 0x02],
    ImageFault::BadPadding { byte: 1 },
)];

const CRUMB_FAULTS: [(u32, &[u8], ImageFault); 1] = [(
    5,
    &[0x63, 0x07],
    ImageFault::BadPadding { byte: 1 },
)];

/// Cells below 5.
const FIELD_FAULTS: [(u32, &[u8], ImageFault); 2] = [
    (3, &[0xec, 0x02], ImageFault::BadCell { cell: 1 }),
    (3, &[0xcc, 0x02], ImageFault::BadPadding { byte: 1 }),
];

/// Cells below 1, of a bit each.
const ZERO_FAULTS: [(u32, &[u8], ImageFault); 2] = [
    (10, &[0x00, 0x06], ImageFault::BadCell { cell: 9 }),
    (10, &[0x00, 0x04], ImageFault::BadPadding { byte: 1 }),
];

const PLAIN_FAULTS: [(u32, &[u8], ImageFault); 1] = [(
    2,
    &[0xe7, 3, 0, 0, 0xe8, 3, 0, 0],
    ImageFault::BadCell { cell: 1 },
)];

#[test]
fn faults(rt: HostRuntime) {
    let alloc = rt.alloc();
    have_faults::<Trits>(&rt, alloc, 3, &TRIT_FAULTS);
    have_faults::<Bits>(&rt, alloc, 2, &BIT_FAULTS);
    have_faults::<Crumbs>(&rt, alloc, 4, &CRUMB_FAULTS);
    have_faults::<Fields>(&rt, alloc, 5, &FIELD_FAULTS);
    have_faults::<Fields>(&rt, alloc, 1, &ZERO_FAULTS);
    have_faults::<Plain>(&rt, alloc, 1000, &PLAIN_FAULTS);
}

#[test]
fn lent_images(rt: HostRuntime) -> Result<(), Fail> {
    let alloc = rt.alloc();
    let trits: Trits = filled(alloc, 7, 3, 1)?;
    expect_bytes(&rt, trits.image(), &[0x79, 0x04]);
    let none = Crumbs::zeroed(alloc, 0, 4)?;
    expect_equal(&rt, &none.image().len(), &0);
    Ok(())
}
