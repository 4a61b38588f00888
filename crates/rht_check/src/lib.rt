//! Claimed histories, and the verdict on them.
//!
//! Stands on `rht_model`, whose legal histories a claim is judged by, and on `rht_script`, whose
//! lines it is written in. The program reads a claim, judges it by `check` and writes the verdict.
//! Read `specs/Verdicts.antt` first.
#![tactic(auto)]

mod claim;
mod commands_left;
mod judging;
pub mod laws;
mod owner_list;
mod port_map;
mod reader;
mod writer;

pub use claim::{Claim, Verdict};
pub use judging::check;
pub use reader::read_claim;
pub use writer::write_verdict;
