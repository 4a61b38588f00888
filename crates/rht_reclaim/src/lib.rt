//! How a retired table's words come back: which sections were open when it was retired, whether they have
//! been left, and the giving back of its pages and its slot.
//!
//! Stands on `rht_words`, `rht_arena` and the tables of `rht_nest`. The worker of `rht_move` holds two of
//! these pieces: the one that goes through the slots, and the one that keeps section words.
//! Read `specs/ReturnTables.antt` first, then `specs/GiveTable.antt` and `specs/KeepSections.antt`. `laws`
//! says what the other crates rely on.
#![tactic(auto)]

mod give_table;
mod keep_sections;
pub mod laws;
mod return_tables;

pub use give_table::{GiveTable, GiveTableAt};
pub use keep_sections::{KeepSections, KeepSectionsAt};
pub use return_tables::{ReturnTables, ReturnTablesAt};
