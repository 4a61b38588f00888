//! The program's command forms, from words and bytes to a text, the line of an error and a status: a script that is
//! done or replayed, the script of a number, a dealt script, a lease script, a claimed history, and a resume script.
//!
//! Stands on `rht_script`, `rht_registry`, `rht_deal`, `rht_lease`, `rht_check`, `rht_resume` and `rht_run`, and
//! below them on `rht_model`, `rht_policy`, `rht_words` and `rht_io`; the definitions of `rht_core` say what a run
//! is. `program` has the top call and its theorem. Its source, sinks and gate are the caller's, which in the program
//! are real ones.
//!
//! A script's commands are done, and its schedule is replayed, by `rht_registry`, whose table is closed by
//! `rht_run`. Dealt scripts are done by `rht_deal`, lease scripts by `rht_lease` and resume scripts by
//! `rht_resume`, which close tables of their own. Claims are judged by `rht_check`.
#![tactic(auto)]

mod ending;
mod form;
mod input;
pub mod laws;
pub mod program;

pub use ending::{Ending, Failure};
