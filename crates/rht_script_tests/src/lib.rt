//! The tests of `rht_script` and `rht_check`: inputs and what is read of them, values and what is written of them, and
//! claimed histories and their verdicts.
//!
//! There is no code here but tests. They use what the two crates hand out, and stand in a crate of
//! their own since a crate with tests is proved twice, with them and without.
#![tactic(auto)]

#[cfg(test)]
mod asserts;
#[cfg(test)]
mod claims;
#[cfg(test)]
mod dealt;
#[cfg(test)]
mod generator;
#[cfg(test)]
mod operations;
#[cfg(test)]
mod parts;
#[cfg(test)]
mod reader;
#[cfg(test)]
mod script;
#[cfg(test)]
mod writer;
