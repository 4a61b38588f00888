//! Calls, their replies, and the bindings that they speak of.
//!
//! Stands on `rht_words`. Every crate above names these types; what they mean is said here once,
//! in terms that know no bucket, no chain and no table.
//! Read `specs/Answers.antt` first, and `specs/Histories.antt` after it; `proofs/WorkedHistories.antt` has
//! examples of both.
#![tactic(auto)]

mod bindings;
mod finished;
mod history;
pub mod laws;
mod legal;
mod owners;
mod pair_list;
mod replies;
mod room;

pub use bindings::{Bindings, Closed};
pub use finished::Finished;
pub use history::{Call, Cursor, Entry, Reply};
pub use legal::is_legal;
pub use owners::Owners;
pub use replies::Replies;
pub use room::Room;
