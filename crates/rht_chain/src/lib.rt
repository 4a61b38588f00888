//! A bucket's chain under its lock: taking the lock, walking the chain, changing one link, and
//! letting go.
//!
//! Stands on `rht_words`. The machines that insert, remove and move hold these pieces in their
//! states.
//! Read `specs/Lock.antt` first, then `specs/LockedWalk.antt`. `specs/Laws.antt` says what the other
//! crates rely on.
#![tactic(auto)]

mod chains;
pub mod laws;
mod lock;
mod locked;
mod locked_walk;
mod probe;
mod relink;
mod unlock;

pub use chains::seen_in;
pub use lock::{Lock, LockAt};
pub use locked::{Locked, Then};
pub use locked_walk::{LockedWalk, LockedWalkAt, Seen};
pub use probe::{Probe, ProbeAt, Probed, walk_began};
pub use relink::{Relink, RelinkAt};
pub use unlock::Unlock;
