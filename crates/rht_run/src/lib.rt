//! The running table: all shared state lies in the words of one table, and callers step through it
//! in threads of their own.
//!
//! Stands on `rht_callers`, whose callers it runs, on `rht_core`, which says what a run is, and on
//! the kit's `atomic_table`, whose rule ties the words to one run. Nothing else is shared.
//! `rht_registry` runs scripts on it.
//! Read `specs/Rule.antt` first, which is the rule, and then `specs/Passes.antt`, `Caused` and
//! `Served`, which are what the calls promise.
#![tactic(auto)]

mod binding;
mod buckets;
mod calls;
mod closing;
mod finding;
mod layout;
mod locating;
mod moving;
mod nodes;
mod opening;
mod pass;
mod pieces;
pub mod plays;
mod rebinding;
mod releasing;
mod ride;
mod searches;
mod seats;
mod seeking;
mod seeks;
mod serving;
mod starts;
mod steps;
mod table;
mod walking;
mod work_pieces;
mod working;

pub use closing::{ClosingSpace, NotClosed};
pub use pass::Pass;
pub use seats::{Held, SeatView};
pub use table::Table;
