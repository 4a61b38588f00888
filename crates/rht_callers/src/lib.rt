//! One caller: what it is doing, which is nothing or one of the machines, and its rooms; and the
//! reading of the count of ports, a machine of one operation.
//!
//! Stands on all machines. `rht_core` runs callers beside one another, and `rht_run` in threads.
//! Read `specs/Locals.antt` first.
#![tactic(auto)]

mod count;
mod local;

pub use count::PortCount;
pub use local::{Doing, Local};
