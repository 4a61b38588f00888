//! The events of a run.

use rht_model::{Call, Reply};
use rht_words::Op;

/// One thing that happens.
#[derive(Clone, Copy, Debug, PartialEq, Eq)]
pub enum Event {
    /// The word of enrolled callers is raised by 1, and where that makes a further caller, there
    /// is one from now on.
    Enroll,
    /// A caller is given a call, without an operation. Nothing happens where it has one already,
    /// or isn't enrolled. A call that takes a node begins its search at word `start` of the node map,
    /// where the table's ways let it.
    Begin { caller: u32, call: Call, start: u32 },
    /// A caller performs the operation that it plans. Nothing happens where it has no call.
    Step { caller: u32 },
}

/// What an event did.
#[derive(Clone, Copy, Debug, PartialEq, Eq)]
pub struct Stepped {
    /// The operation, and the word before it. `None` where there was no operation.
    pub did: Option<(Op, u64)>,
    /// The reply, where the event ended a call.
    pub reply: Option<Reply>,
}
