//! What the tests share.

use std::fmt::Debug;
use std::process::Abort;

/// Two values are the same.
pub(super) fn same<T: PartialEq + Debug + Drop>(rt: &impl Abort, got: T, want: T) {
    assert_eq!(rt; got, want);
}
