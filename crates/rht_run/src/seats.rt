//! What a seat knows, as the rule speaks of it. No value of these types is made.

use rht_core::{Book, Local};
use rht_policy::Mix;
use rht_words::Env;
use std::collections::LinkedList;

/// A caller, with what the run has of it.
pub struct Held<M: Mix> {
    /// Its number, from 0.
    pub number: u64,
    /// What it is doing.
    pub local: Local<M>,
    /// The calls that it has made.
    pub book: Book,
}

/// What a seat knows: the table that is run, its callers, and, of the first seat alone, how many
/// numbers it has drawn.
pub struct SeatView<M: Mix> {
    /// The table's numbers and its config.
    pub env: Env,
    /// Its callers: one in a pass, more while the table is opened and closed.
    pub held: LinkedList<Held<M>>,
    /// How many numbers were drawn, where this is the first seat.
    pub drawn: Option<u64>,
}
