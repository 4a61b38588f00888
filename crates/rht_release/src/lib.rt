//! Taking a binding out, putting another owner in one's place, and listing the owners of a port.
//!
//! Stands on `rht_words`, `rht_policy`, `rht_model`, and the pieces of `rht_arena`, `rht_nest`,
//! `rht_chain` and `rht_grace`; its proofs stand on `rht_ghost`. The three machines share the way to the
//! port, `Seek`, and go it in their caller's read section. A removal and a replacement share the search
//! for the owner, `ListSearch`.
//! Read `specs/Seek.antt` first, then `specs/Release.antt`: they are the machines as tables. Each
//! machine has a module, in which the functions between its states are public.
#![tactic(auto)]

pub mod all;
mod found_port;
mod list_search;
pub mod rebind;
pub mod release;
pub mod seek;

pub use all::{All, AllAt};
pub use found_port::FoundPort;
pub use list_search::{ListPlace, ListSearch};
pub use rebind::{Rebind, RebindAt, RebindEnd};
pub use release::{Release, ReleaseAt};
pub use seek::{Seek, SeekAt};
