//! All callers together: the events of a run, and its laws.
//!
//! Stands on `rht_callers`, which says what one caller is doing, on `rht_stands`, which says what
//! words stand for, on the machines, and for its proofs on `rht_ghost`. A run is what happens to a
//! table's words and its callers, event by event; `State` is one run on plain words.
//! Read `specs/Runs.antt` first, then `specs/StandsFor.antt` of `rht_stands`.
#![tactic(auto)]

mod book;
mod event;
pub mod laws;
mod state;

pub use book::Book;
pub use event::{Event, Stepped};
pub use rht_callers::{Doing, Local, PortCount};
pub use rht_stands::{ClosingRoom, owners_of};
pub use state::State;
