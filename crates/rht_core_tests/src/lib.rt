//! The tests of `rht_core`, and of `rht_stands` below it: runs of several callers, event by event, and what is bound
//! behind each; and what words stand for that no run gives.
//!
//! There is no code here but tests. They use what `rht_core` hands out, and stand in a crate of
//! their own since a crate with tests is proved twice, with them and without.
#![tactic(auto)]

#[cfg(test)]
mod runs;
