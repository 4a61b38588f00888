//! What many tests assert.

use std::fmt::Debug;
use std::process::Abort;

/// Asserts that what was found is what is wanted.
pub fn assert_same<T: Copy + Debug + PartialEq>(rt: &impl Abort, found: T, want: T) {
    assert_eq!(rt; found, want);
}
