//! What the commands of a resume script leave, as plain data.

use crate::replies::ResumeReplies;
use rht_model::Closed;

/// What the commands of a resume script leave.
#[derive(Debug, Drop)]
pub struct ResumeOutcome {
    /// The answers to each worker's commands, worker by worker.
    pub replies: Vec<ResumeReplies>,
    /// What is bound at the end.
    pub closed: Closed,
}
