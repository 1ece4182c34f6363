//! What the tests share.

use std::fmt::{Debug, Display};
use std::process::Abort;

/// It is so.
pub(super) fn holds(rt: &impl Abort, told: bool) {
    assert!(rt; told);
}

/// Two values are the same.
pub(super) fn same<T: PartialEq + Debug + Drop>(rt: &impl Abort, got: T, want: T) {
    assert_eq!(rt; got, want);
}

/// The same, and where.
pub(super) fn same_at<T: PartialEq + Debug + Drop>(
    rt: &impl Abort,
    got: T,
    want: T,
    at: impl Display + Drop,
) {
    assert_eq!(rt; got, want, "at {at}");
}
