//! Resizing a table: a larger or a smaller one is attached, and the entries are moved to it. Tables that
//! were left are given back, once nobody can read them any more.
//!
//! Stands on `rht_words`, `rht_policy`, `rht_model`, and the pieces of `rht_arena`, `rht_nest`,
//! `rht_chain`, `rht_grace` and `rht_reclaim`; its proofs stand on `rht_ghost`. `rht_callers` has this
//! machine among the others. Read `specs/Work.antt` first: it is the machine as a table. `specs/Choice.antt` says
//! when a table is due, and `specs/Laws.antt` what the other crates rely on.
#![tactic(auto)]

mod last_entry;
mod last_table;
pub mod laws;
mod rehash;
pub mod work;

pub use last_entry::{Entry, LastEntry};
pub use last_table::{Last, LastTable, LastTableAt};
pub use rehash::{Emptying, Rehash, Second, Target};
pub use work::ending::Ending;
pub use work::{Due, Outcome, Wanted, Work, WorkAt};
