//! Comparisons as calls that fail the test: a test of many checks is much cheaper to prove if the two ways on from a check are
//! proved once, here, and not at its place. What a test's proof needs is checked by `assert!` in the test.
use std::fmt::Debug;
use std::process::Abort;

/// Fails the test if the two differ. The message shows both.
pub fn expect_equal<T: PartialEq + Debug>(rt: &impl Abort, left: &T, right: &T) {
    assert_eq!(rt; left, right);
}

/// `expect_equal` in a row of a table, which the message shows with both.
pub fn expect_equal_at<R: PartialEq + Debug, T: PartialEq + Debug>(
    rt: &impl Abort,
    row: &R,
    left: &T,
    right: &T,
) {
    expect_equal(rt, &(row, left), &(row, right));
}

/// Fails the test if the part isn't a prefix of the whole. The message shows the row of the table.
pub fn expect_prefix_at<R: PartialEq + Debug>(rt: &impl Abort, row: &R, part: &[u8], whole: &[u8]) {
    expect_equal_at(rt, row, &Some(part), &whole.get(..part.len()));
}

/// Fails the test if this does not hold.
pub fn expect_true(rt: &impl Abort, holds: bool) {
    assert!(rt; holds);
}
