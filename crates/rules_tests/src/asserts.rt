//! Assertions, each of them expanded only once.
ghost use Rattle.std.specs.Prelude.{IsTrue};

use std::fmt::Debug;
use std::process::Abort;

// Asserts a fact.
pub(crate) fn ensure(rt: &impl Abort, fact: bool)
    ensures { IsTrue fact }
{
    assert!(rt; fact);
}

// Asserts that two values are equal.
pub(crate) fn same<T: PartialEq + Debug + Drop>(rt: &impl Abort, found: T, wanted: T) {
    assert_eq!(rt; found, wanted);
}

// Asserts that two values are equal, and otherwise prints the row of the table with them.
pub(crate) fn same_at<R: Copy + PartialEq + Debug, T: PartialEq + Debug + Drop>(
    rt: &impl Abort,
    row: R,
    found: T,
    wanted: T,
) {
    same(rt, (row, found), (row, wanted));
}
