//! Binding a port to an owner, in a table of one owner for each port or of a list for each.
//!
//! Stands on `rht_words`, `rht_policy`, `rht_model`, and the pieces of `rht_arena`, `rht_nest`,
//! `rht_chain` and `rht_grace`; its proofs stand on `rht_ghost`. `rht_callers` has this machine among
//! the others. Read `specs/Bind.antt` first: it is the machine as a table.
#![tactic(auto)]

mod bind;

pub use bind::{
    Attempt, Bind, BindAt, Claimed, Ending, FoundList, Full, Growing, Refusal, answering,
    at_bucket, behind_attempt, behind_page, bound_already, checked_attach, checked_count, closed,
    ended_attempt, found_or_future, future_or_count, giving, kicks, locating, making, probing,
    publishing, refused_or_found, replacing, unlocked, unlocking, unlocking_full, want_or_busy,
};
