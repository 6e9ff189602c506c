//! What tests assert. The text that an assertion of std writes is proved again at each place, while a call isn't. So
//! tests call these functions.
use std::fmt::Debug;
use std::process::Abort;

/// Asserts that both are equal.
pub fn assert_equal<T: PartialEq + Debug + Drop>(rt: &impl Abort, left: T, right: T) {
    assert_eq!(rt; left, right);
}
