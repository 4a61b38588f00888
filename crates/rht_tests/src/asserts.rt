//! What many tests assert, and the table that they have. Ports are wanted by their key words: that of a port of net 0 is its number.

use rht_model::Closed;
use rht_words::{Config, Hash, Kind, Port, word_of};
use std::fmt::Debug;
use std::process::Abort;

/// A small table with one caller.
pub const SMALL: Config = Config {
    kind: Kind::Single,
    nodes: 8,
    pages: 4,
    callers: 1,
    hint: 0,
    min: 4,
    max: 0,
    seed: 1,
    rewalks: 1,
    hash: Hash::Low,
    shrink: false,
};

/// Asserts that what was found is what is wanted.
pub fn assert_same<T: Copy + Debug + PartialEq>(rt: &impl Abort, found: T, want: T) {
    assert_eq!(rt; found, want);
}

/// Asserts that a table of this size was closed in which just these were bound.
pub fn assert_bound(rt: &impl Abort, closed: &Closed, size: u32, bound: &[(u64, &[u32])]) {
    assert_same(rt, (closed.size, closed.keys as usize), (size, bound.len()));
    assert_same(rt, closed.bindings.len(), bound.len());
    for i in 0..bound.len() {
        let (port, owners) = bound[i];
        assert!(rt; i < closed.bindings.len());
        assert_same(rt, (i, word_of(closed.bindings.port(i))), (i, port));
        assert_same(rt, (i, closed.bindings.owners(i)), (i, owners));
    }
}

/// Asserts that these are the pairs of these ports.
pub fn assert_pairs(rt: &impl Abort, found: &[(Port, u32)], want: &[(u64, u32)]) {
    assert_same(rt, found.len(), want.len());
    for i in 0..want.len() {
        assert!(rt; i < found.len());
        let (port, owner) = found[i];
        assert_same(rt, (word_of(port), owner), want[i]);
    }
}
