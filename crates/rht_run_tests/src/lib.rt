//! The tests of `rht_run`: calls of a running table, by one thread and by several.
//!
//! There is no code here but tests. They use what `rht_run` hands out, and stand in a crate of their own since a
//! crate with tests is proved twice, with them and without.
#![tactic(auto)]

#[cfg(test)]
mod asked;
#[cfg(test)]
mod asserts;
#[cfg(test)]
mod library;
#[cfg(test)]
mod rebinding;
#[cfg(test)]
mod run;
#[cfg(test)]
mod threads;
