//! What all have in common that run scripts: a worker for each caller of a table, with a pass and, where threads
//! can be started, a thread of its own, and what they leave together.
//!
//! Stands on `rht_run`, whose table all workers share. What a worker does on its pass is a `Job`, which
//! the crates above have. Read `specs/Jobs.antt` first, and `specs/WorkerCalls.antt`, which is for workers whose
//! commands stand for calls.
#![tactic(auto)]

mod running;

pub use running::{Job, Left, run_all};
