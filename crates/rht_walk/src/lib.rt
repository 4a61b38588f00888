//! Walks, which show ports with their first owners, bucket by bucket. A walk takes no lock, and waits
//! for nobody: it loads words, within its caller's read section.
//!
//! Stands on `rht_words`, `rht_model` for replies and rooms, and the pieces of `rht_nest` and
//! `rht_grace`. `rht_core` runs this machine among the others.
//! Read `specs/Walk.antt` first: it is the machine as a table. `specs/WalkLaws.antt` says what a call
//! does.
#![tactic(auto)]

pub mod laws;
mod walk;

pub use walk::{
    Chain, Visit, Walk, WalkAt, WalkEnd, begun, bucket_ended, led_on, reached, table_ended,
    unless_behind, visiting,
};
