//! The words of a table: its numbers, its config, where each word stands, what it says, what it is
//! at opening, and the operations on one word.
//!
//! Stands on nothing. Every other crate but `rht_io` stands on this one, so its types are plain data.
//! Begin with `Config` and `Geometry`; then read `specs/Places.antt`, which is the layout, and
//! `specs/Laws.antt`, which is what the other crates rely on.
#![tactic(auto)]

mod config;
mod env;
mod geometry;
pub mod laws;
pub mod limits;
mod links;
mod machine;
mod maps;
mod op;
mod opening;
pub mod places;
mod port;
mod shape;
mod sizes;
mod ways;
mod words;

pub use config::{Config, Hash, Kind};
pub use env::Env;
pub use geometry::Geometry;
pub use limits::Limits;
pub use links::{
    entry_of, future_of, head_of, is_locked, link_of, marker_of, node_of, page_of, plain_of,
    slot_of, table_of, unlocked,
};
pub use machine::{Next, Start};
pub use maps::{bit_of, bits_above, lowest_free, map_bits};
pub use op::Op;
pub use opening::opening_word;
pub use port::{Port, owner_of, port_of, word_of};
pub use shape::Shape;
pub use sizes::{rounded_down, rounded_up, starting_size};
pub use ways::Ways;
pub use words::apply;
