//! A gate by which two workers do their commands in turn.

use rht_io::Gate;
use std::hint::spin_loop;
use std::sync::atomic::{AtomicU64, Ordering};

/// How often a worker looks whether it is its turn.
const TURNS: u32 = 100_000_000;

/// Has two workers do their commands in turn, the first one's first: the command at place i of worker w has the
/// turn 2i + w.
#[derive(Drop)]
pub struct InTurn {
    turn: AtomicU64,
}

impl InTurn {
    /// It is the first worker's turn.
    pub fn new() -> InTurn {
        InTurn {
            turn: AtomicU64::new(3),
        }
    }
}

impl Gate for InTurn {
    fn before(&self, worker: u32, index: u32) {
        let own = 2 * u64::from(index) + u64::from(worker);
        for _ in 0..TURNS {
            if self.turn.load(Ordering::SeqCst) == own {
                return;
            }
            spin_loop();
        }
    }

    fn after(&self, _worker: u32, _index: u32) {
        self.turn.fetch_add(1, Ordering::SeqCst);
    }
}
