//! Calls that have ended. The definitions speak of them; the program keeps none.

use crate::history::{Call, Reply};
use rht_words::Port;
use std::collections::LinkedList;

/// A call that has ended.
pub struct Finished {
    /// What was asked.
    pub call: Call,
    /// What was answered.
    pub reply: Reply,
    /// The owners that came with `Listed`; empty for every other reply.
    pub owners: LinkedList<u32>,
    /// The pairs that came with `Walked`; empty for every other reply.
    pub pairs: LinkedList<(Port, u32)>,
}
