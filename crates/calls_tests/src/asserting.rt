//! Assertions as functions: a macro is proved at each place where it stands, and these are proved once. The line that a failure names is
//! one of these, so it tells the row or the subject too.
use std::fmt::Debug;
use std::process::Abort;

/// What was found is what was expected.
pub(crate) fn same<T: PartialEq + Debug + Drop, P: Debug + Copy>(
    rt: &impl Abort,
    found: T,
    expected: T,
    at: P,
) {
    assert!(rt;
        found == expected,
        "{at:?}: {found:?} in place of {expected:?}"
    );
}
