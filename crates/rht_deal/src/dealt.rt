//! What dealing a script leaves, as plain data.

use rht_model::Closed;
use rht_script::Done;

/// What dealing a script leaves.
#[derive(Debug, Drop)]
pub struct Dealt {
    /// All commands, in the order of their numbers.
    pub done: Vec<Done>,
    /// What is bound at the end.
    pub closed: Closed,
}
