//! Where the threads of a table wait for one another before they begin, so that no thread is timed
//! while another one is only starting. It tells too how many have done their calls.

use std::sync::atomic::{AtomicU32, Ordering};
use std::thread;

/// How often a thread looks whether all have come, before it goes on without them.
const PATIENCE: u32 = 1 << 20;

/// Counts the threads that have come, and those that have left again.
#[derive(Drop)]
pub struct Gate {
    arrived: AtomicU32,
    gone: AtomicU32,
    all: u32,
}

impl Gate {
    /// A gate for so many threads.
    pub fn new(all: u32) -> Gate {
        Gate {
            arrived: AtomicU32::new(0),
            gone: AtomicU32::new(0),
            all,
        }
    }

    /// Comes to the gate, and goes through when all have come, or when the thread has looked too often.
    pub fn pass(&self) {
        self.arrived.fetch_add(1, Ordering::SeqCst);
        for _look in 0..PATIENCE {
            if self.arrived.load(Ordering::SeqCst) >= self.all {
                return;
            }
            thread::yield_now();
        }
    }

    /// Leaves, having done its calls.
    pub fn leave(&self) {
        self.gone.fetch_add(1, Ordering::SeqCst);
    }

    /// Whether so many threads have left.
    pub fn is_left_by(&self, threads: u32) -> bool {
        self.gone.load(Ordering::SeqCst) >= threads
    }
}
