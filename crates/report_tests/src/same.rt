//! What is found beside what is wanted. A test function is proved like any other, and an assertion with a message is dear: it stands here
//! once, and a call of it is cheap.

use std::fmt::Debug;
use std::process::Abort;

/// Both are the same; a row that says so is named where they are not.
pub(crate) fn same<T: PartialEq + Debug, R: Debug>(
    rt: &impl Abort,
    row: &R,
    found: &T,
    wanted: &T,
) {
    assert_eq!(rt; found, wanted, "{row:?}");
}
