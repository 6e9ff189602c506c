//! Assertions for tests. The message of a std assertion is proved again at each use, but a call of these isn't. Each
//! crate of tests has its own copy, since the check lets no library end the process.
ghost use Rattle.std.specs.Prelude.{◌≡◌, true};

use std::fmt::Debug;
use std::process::Abort;
use std::str;

/// Asserts that both are equal.
pub fn assert_equal<T: PartialEq + Debug + Drop>(rt: &impl Abort, left: T, right: T) {
    assert_eq!(rt; left, right);
}

/// Asserts that both are equal. A failure prints the case beside each of them.
pub fn assert_equal_for<C: PartialEq + Debug + Drop, T: PartialEq + Debug + Drop>(
    rt: &impl Abort,
    case: C,
    left: T,
    right: T,
) {
    assert_equal(rt, (&case, left), (&case, right));
}

/// Asserts that it holds.
pub fn assert_true(rt: &impl Abort, holds: bool)
    ensures { holds ≡ true }
{
    assert!(rt; holds);
}

/// The value, which has to be there.
pub fn some<T>(rt: &impl Abort, found: Option<T>) -> T {
    found.expect(rt, "nothing is there")
}

/// The bytes as text.
pub fn text_of<'a>(rt: &impl Abort, bytes: &'a [u8]) -> &'a str {
    some(rt, str::from_utf8(bytes).ok())
}
