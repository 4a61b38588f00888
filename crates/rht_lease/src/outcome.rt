//! What the commands of a lease script leave, as plain data.

use crate::replies::LeaseReplies;
use rht_model::Closed;

/// What the commands of a lease script leave.
#[derive(Debug, Drop)]
pub struct LeaseOutcome {
    /// The answers to each worker's commands, worker by worker.
    pub replies: Vec<LeaseReplies>,
    /// What is bound at the end.
    pub closed: Closed,
}
