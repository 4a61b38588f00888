//! What many tests assert.

use rht_io::MemSink;
use std::fmt::Debug;
use std::process::Abort;

/// Asserts that what was found is what is wanted. Where it isn't, the message names the case.
pub fn assert_same<T: Debug + PartialEq, A: Copy + Debug>(
    rt: &impl Abort,
    found: &T,
    want: &T,
    at: A,
) {
    assert_eq!(rt; found, want, "at {at:?}");
}

/// Asserts that the sink has this text.
pub fn assert_text(rt: &impl Abort, sink: &MemSink, want: &str) {
    assert_same(rt, &sink.bytes(), &want.as_bytes(), want);
}
