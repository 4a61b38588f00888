//! Free nodes: how one is taken, filled, and given back.
//!
//! Stands on `rht_words`. The machines that insert take a node here before they do anything else.
//! Read `specs/TakeNode.antt` first: it is the machine as a table. `specs/Laws.antt` says what the
//! other crates rely on.
#![tactic(auto)]

mod give_node;
mod give_run;
pub mod laws;
mod new_node;
mod run_bits;
mod take_node;
mod take_run;

pub use give_node::GiveNode;
pub use give_run::GiveRun;
pub use new_node::{NewNode, NewNodeAt};
pub use take_node::{TakeNode, TakeNodeAt};
pub use take_run::{TakeRun, TakeRunAt};
