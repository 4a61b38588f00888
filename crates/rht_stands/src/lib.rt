//! What the words of a table stand for, read the slow way, and what they say at its closing.
//!
//! Stands on `rht_words`, `rht_model` and `rht_nest`. The laws of `rht_core` say by it what words
//! stand for in each run, and `rht_run` closes a table with it. Read `specs/StandsFor.antt` first.
#![tactic(auto)]

mod bound;
mod closing;

pub use bound::owners_of;
pub use closing::{ClosingRoom, current_size};
