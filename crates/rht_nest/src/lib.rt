//! Tables of buckets: the places of the buckets, how a table is made and given back, and how a nested
//! one grows.
//!
//! Stands on `rht_words`, `rht_policy` and `rht_arena`. The machines that read a table ask here where a
//! port's bucket is, and those that attach one make it here.
//! Read `specs/Place.antt` first, then `specs/Locate.antt`, `specs/Make.antt` and `specs/Grow.antt`.
//! `laws` says what the other crates rely on.
#![tactic(auto)]

mod grow;
pub mod laws;
mod locate;
mod make;
mod place;
mod reach;
mod tables;
mod unmake;

pub use grow::{Grow, GrowAt};
pub use locate::{Locate, LocateAt, Located, LocatedBucket};
pub use make::{Make, MakeAt};
pub use place::{Bucket, Place, flat_place, is_deep, top_entries, top_page};
pub use reach::{Reach, ReachAt};
pub use tables::{is_nested, run_of};
pub use unmake::{Unmake, UnmakeAt};
