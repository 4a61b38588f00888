//! Whether two callers have one table. No clause speaks of that (tested).
//!
//! Addresses of different blocks aren't compared, so a mark tells: a word for each table, with a bit for each of its
//! callers that none but that caller sets and clears.

use std::alloc::{AllocError, Global};
use std::sync::Arc;
use std::sync::atomic::{AtomicU64, Ordering};

/// A caller's bit in the word of its table.
#[derive(Drop)]
pub(crate) struct Mark {
    word: Arc<AtomicU64, Global>,
    bit: u64,
}

impl Mark {
    /// The mark of a table's first caller. The one refusal is want of memory.
    pub fn new(alloc: Global) -> Result<Mark, AllocError> {
        let Ok(word) = Arc::new(alloc, AtomicU64::new(0)) else {
            return Err(AllocError);
        };
        Ok(Mark { word, bit: 1 })
    }

    /// The mark of the next caller, of 64 at most.
    pub fn next(&self) -> Result<Mark, AllocError> {
        let word = Arc::try_clone(&self.word)?;
        let bit = self.bit.rotate_left(1);
        Ok(Mark { word, bit })
    }

    /// Whether both are of one table. That is found for two of one table, whatever other threads do. Of two
    /// tables it is found only where another thread closes handles together too, and its bit comes and goes just
    /// as this one's does.
    pub fn is_beside(&self, other: &Mark) -> bool {
        self.is_seen_by(other) && other.is_seen_by(self)
    }

    /// Whether the other one's word has this bit while it is set, and hasn't it behind that.
    fn is_seen_by(&self, other: &Mark) -> bool {
        self.word.fetch_or(self.bit, Ordering::SeqCst);
        let set = other.word.load(Ordering::SeqCst) & self.bit;
        self.word.fetch_and(!self.bit, Ordering::SeqCst);
        let cleared = other.word.load(Ordering::SeqCst) & self.bit;
        set != 0 && cleared == 0
    }
}
