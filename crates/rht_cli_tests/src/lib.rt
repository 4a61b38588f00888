//! The tests of the program's forms: words and inputs, and the status, the text and the line of the error that a run
//! leaves.
//!
//! There is no code here but tests. They say what no clause says: that scripts are served at all, and the very bytes that
//! are printed, by hand from the rules of the printed text. They use what `rht_forms` hands out, and stand in a
//! crate of their own since a crate with tests is proved twice, with them and without.
#![tactic(auto)]

#[cfg(test)]
mod asserts;
#[cfg(test)]
mod claims;
#[cfg(test)]
mod deals;
#[cfg(test)]
mod faults;
#[cfg(test)]
mod growth;
#[cfg(test)]
mod hostile;
#[cfg(test)]
mod leases;
#[cfg(test)]
mod moves;
#[cfg(test)]
mod resumes;
#[cfg(test)]
mod scripts;
#[cfg(test)]
mod walks;
#[cfg(test)]
mod workers;
