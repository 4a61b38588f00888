//! Looking a port up. A look-up takes no lock, and waits for nobody: it loads words, within its caller's
//! read section.
//!
//! Stands on `rht_words`, `rht_policy`, `rht_model`, and the pieces of `rht_nest` and `rht_grace`;
//! its proofs stand on `rht_ghost`. `rht_callers` has this machine among the others. The proofs of
//! `rht_core` say what it knows.
//! Read `specs/Find.antt` first: it is the machine as a table.
#![tactic(auto)]

mod find;
pub mod laws;

pub use find::{Find, FindAt, Head, compared, headed, led_on, locating, next_table};
