//! Bindings that end: each worker keeps a book of leases beside its pass of a table, and a sweep at a later
//! moment releases those that have ended.
//!
//! Stands on `rht_run`, whose table all workers share, and on `rht_script`, whose lines lease scripts have
//! beside their own. The program reads a lease script, does it by `run_leases` and writes what it leaves by
//! `write_leases`; a program of one's own keeps `Leases` beside a pass.
//! Read `specs/Books.antt` first: what a book is after each command, and which calls a command stands for.
#![tactic(auto)]

mod book;
pub mod laws;
mod lease;
mod leasing;
mod outcome;
mod reader;
mod replies;
mod worker;
mod writer;

pub use book::Leases;
pub use lease::{Lease, LeaseCall, LeaseReply, LeaseScript, Swept};
pub use leasing::run_leases;
pub use outcome::LeaseOutcome;
pub use reader::read_leases;
pub use replies::LeaseReplies;
pub use writer::write_leases;
