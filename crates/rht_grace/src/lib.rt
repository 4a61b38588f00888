//! Read sections, and what waits for them: a call is in a section while it reads a table, and the
//! nodes that a caller took out are given back once no section that was open then is.
//!
//! Stands on `rht_words`, on `rht_model` for replies and rooms, and on `rht_arena` for the giving back
//! of a node. Look-ups and writers hold the pieces of sections. Read `specs/Sections.antt` first, and
//! `specs/Tidy.antt` after it; `specs/TidyLaws.antt` says what a tidying does.
#![tactic(auto)]

mod batch;
pub mod laws;
mod sections;
mod tidy;

pub use batch::Batch;
pub use sections::{Enter, Leave};
pub use tidy::{Tidy, TidyAt};
