//! Comparisons as calls that fail the test: a test of many checks is much cheaper to prove if the two ways on from a check are proved once,
//! here, and not at its place.
use std::fmt::Debug;
use std::process::Abort;

/// Fails the test if the two differ. The message shows both.
pub(crate) fn expect_equal<T: PartialEq + Debug>(rt: &impl Abort, left: &T, right: &T) {
    assert_eq!(rt; left, right);
}
