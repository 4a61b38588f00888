//! The tests of `rht_registry`, `rht_deal`, `rht_lease` and `rht_resume`: scripts done on a running table and dealt,
//! scripts whose bindings end, walks in pieces, and replays.
//!
//! There is no code here but tests. They use what the four crates hand out, and stand in a crate of
//! their own since a crate with tests is proved twice, with them and without.
#![tactic(auto)]

#[cfg(test)]
mod asserts;
#[cfg(test)]
mod dealing;
#[cfg(test)]
mod lease_reading;
#[cfg(test)]
mod leasing;
#[cfg(test)]
mod registry;
#[cfg(test)]
mod replaying;
#[cfg(test)]
mod resume_reading;
#[cfg(test)]
mod resuming;
#[cfg(test)]
mod turns;
