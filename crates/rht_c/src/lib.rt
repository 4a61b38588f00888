//! The exports of a static library: a table in programs of other languages.
//!
//! Stands on `rht_session`, whose calls on handles these are; `embed/include/rht.h` says to C what they do. Each asks
//! for nothing but a handle that a call has left or that is blank. Read `specs/Exports.antt` first.
#![tactic(auto)]

mod lists;
mod opening;
mod pieces;
mod whole;
