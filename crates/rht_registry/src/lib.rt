//! The workers of a script: their commands done by the callers of a table, in threads of their own,
//! and what they leave; and a script's schedule replayed, operation by operation.
//!
//! Stands on `rht_run`, whose table all workers share, on `rht_core`, whose runs a replay goes through
//! by itself, and on `rht_script`. Read `specs/Outcomes.antt` first, and for replays `specs/Replays.antt`.
#![tactic(auto)]

mod registry;
mod replaying;

pub use registry::{Outcome, run_workers};
pub use replaying::{ReplayError, replay};
