//! Commands that any worker may do: a dealt script is done by all workers of a table, each of which takes
//! whichever command is next.
//!
//! Stands on `rht_run`, whose table all workers share, on `crossbeam_queue`, through which they get the
//! numbers of the commands, and on `rht_script`, which reads dealt scripts and writes what was done. The
//! program deals a script by `run_dealt` and writes what it leaves by `write_dealt`.
//! Read `specs/Dealing.antt` first, and then `specs/Numbers.antt`, which is the rule of the queue.
#![tactic(auto)]

mod dealing;
mod dealt;
pub mod laws;
mod numbers;
mod ordering;
mod worker;
mod writer;

pub use dealing::run_dealt;
pub use dealt::Dealt;
pub use rht_script::Done;
pub use writer::{write_dealt, write_done};
