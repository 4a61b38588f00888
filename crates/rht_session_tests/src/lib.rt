//! The tests of `rht_session`: handles of small tables, and what C is told of them.
//!
//! There is no code here but tests. They use what `rht_session` hands out, and stand in a crate of
//! their own since a crate with tests is proved twice, with them and without.
#![tactic(auto)]

#[cfg(test)]
mod asserts;
#[cfg(test)]
mod closings;
#[cfg(test)]
mod sessions;
