//! The tests of machines and their pieces: each alone, operation by operation, told old values by hand.
//!
//! There is no code here but tests. They use what `rht_arena`, `rht_chain`, `rht_nest`, `rht_grace`,
//! `rht_reclaim`, `rht_find`, `rht_bind`, `rht_release`, `rht_move` and `rht_walk` hand out, and stand in
//! a crate of their own since a crate with tests is proved twice, with them and without.
#![tactic(auto)]

#[cfg(test)]
mod arena;
#[cfg(test)]
mod asserts;
#[cfg(test)]
mod bind;
#[cfg(test)]
mod chain;
#[cfg(test)]
mod find;
#[cfg(test)]
mod grace;
#[cfg(test)]
mod nest;
#[cfg(test)]
mod reclaim;
#[cfg(test)]
mod release;
#[cfg(test)]
mod resize;
#[cfg(test)]
mod tidy;
#[cfg(test)]
mod walk;
