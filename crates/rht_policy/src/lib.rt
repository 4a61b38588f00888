//! When a table grows and shrinks, to which size, and which bucket a port belongs to.
//!
//! Stands on `rht_words`. The machines that insert, release and move ask it; they hold its
//! numbers within the bounds that its functions require.
//! Read `specs/Thresholds.antt` first, then `specs/Mix.antt`.
#![tactic(auto)]

mod mix;
mod sizes;
mod thresholds;

pub use mix::{Lookup3, Low, Mix, bucket_of, hash_of};
pub use sizes::{max_elems, shrunk, starting};
pub use thresholds::{above_75, above_100, above_max, below_30};

#[cfg(test)]
mod tests;
