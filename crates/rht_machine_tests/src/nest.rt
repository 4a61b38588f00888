//! The places of buckets, and tables made and given back, by hand from the layout. With 8 nodes and 4
//! pages the pages' 256 words stand from place 314 on, and the page map's word at 281. The state of slot
//! t is at 28 + 32 * t.

mod places;
mod tables;

use crate::asserts::Machine;
use rht_nest::{Bucket, Grow, Make, Place, Unmake};
use rht_words::{Next, Op};

/// All bits of a word.
const ALL: u64 = 18_446_744_073_709_551_615;

impl Machine for Place {
    type Answer = Bucket;

    fn plan(&self) -> Op {
        self.plan()
    }

    fn take(&mut self, old: u64) -> Next<Bucket> {
        self.take(old)
    }
}

impl Machine for Grow {
    type Answer = Option<u32>;

    fn plan(&self) -> Op {
        self.plan()
    }

    fn take(&mut self, old: u64) -> Next<Option<u32>> {
        self.take(old)
    }
}

impl Machine for Make {
    type Answer = Option<(u32, u64)>;

    fn plan(&self) -> Op {
        self.plan()
    }

    fn take(&mut self, old: u64) -> Next<Option<(u32, u64)>> {
        self.take(old)
    }
}

impl Machine for Unmake {
    type Answer = ();

    fn plan(&self) -> Op {
        self.plan()
    }

    fn take(&mut self, old: u64) -> Next<()> {
        self.take(old)
    }
}
