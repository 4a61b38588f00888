//! What a worker knows that moves the entries of the current table.

use rht_chain::Locked;

/// A move of all entries of the current table.
#[derive(Clone, Copy)]
pub struct Rehash {
    /// The slot of the current table, which is to be emptied.
    pub root: u32,
    /// The slot of its future table, which is the current one once it is empty.
    pub future: u32,
    /// The shape of the table that is to be emptied.
    pub shape: u64,
    /// Whether it is known that a further call has something to do.
    pub again: bool,
}

/// A bucket of the current table that is locked while its entries are moved.
#[derive(Clone, Copy)]
pub struct Emptying {
    /// The move of which this is a part.
    pub rehash: Rehash,
    /// The number of the bucket in its table.
    pub number: u32,
    /// The bucket, with its word as it would be unlocked now.
    pub bucket: Locked,
}

/// A table to which an entry is moved.
#[derive(Clone, Copy, Debug, PartialEq, Eq)]
pub struct Target {
    /// Its slot.
    pub table: u32,
    /// Its shape.
    pub shape: u64,
    /// The seed of its hash.
    pub seed: u64,
}

/// A bucket that gets an entry, and is locked meanwhile.
#[derive(Clone, Copy, Debug, PartialEq, Eq)]
pub struct Second {
    /// The slot of its table.
    pub table: u32,
    /// The bucket, with its word as it was before it was locked.
    pub bucket: Locked,
}
