//! What the machines keep of a bucket that they have locked.

/// A bucket that this call has locked.
#[derive(Clone, Copy, Debug, PartialEq, Eq)]
pub struct Locked {
    /// The place of the bucket's word.
    pub place: usize,
    /// The word as it was before it was locked, which is even.
    pub word: u64,
}

/// What comes after a bucket is unlocked.
#[derive(Clone, Copy, Debug, PartialEq, Eq)]
pub enum Then<R> {
    /// The call goes on in the table of this slot.
    Table(u32),
    /// The call has this answer.
    Answer(R),
}
