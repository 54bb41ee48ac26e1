//! Comparisons as calls that fail the test: a test of many checks is much cheaper to prove if the branch of a check is proved once, here,
//! and not at its place.
use std::fmt::Debug;
use std::process::Abort;

/// Fails the test if the two differ in a row of a table. The message shows the row and both.
pub fn expect_equal_at<R: PartialEq + Debug, T: PartialEq + Debug>(
    rt: &impl Abort,
    row: &R,
    left: &T,
    right: &T,
) {
    assert_eq!(rt; (row, left), (row, right));
}
