//! The tests of `rht_words`, `rht_model` and `rht_io`: numbers of the layout, bindings and histories, and the outside.
//!
//! There is no code here but tests. They use what the three crates hand out, and stand in a crate of
//! their own since a crate with tests is proved twice, with them and without.
#![tactic(auto)]

#[cfg(test)]
mod bindings;
#[cfg(test)]
mod histories;
#[cfg(test)]
mod outside;
#[cfg(test)]
mod words;
