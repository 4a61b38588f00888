//! What became of a command that any worker may do, as plain data.

use rht_model::{Owners, Reply};

/// A command that was done: by whom, which one it is, and what it was answered.
#[derive(Debug, Drop)]
pub struct Done {
    /// The worker that did it, counted from 1.
    pub worker: u32,
    /// Which command of the script it is, counted from 1.
    pub number: u32,
    /// The reply to it.
    pub reply: Reply,
    /// The owners that came with the reply, where that is `Listed`; otherwise none.
    pub owners: Owners,
}
