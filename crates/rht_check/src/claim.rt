//! A claimed history and the verdict on it, as plain data.

use rht_model::{Bindings, Owners, Reply};
use rht_script::Script;

/// A claimed history: what each worker asked, and the replies that it is claimed to have had.
#[derive(Debug, Drop)]
pub struct Claim {
    /// The commands of the workers. Its schedule is empty.
    pub script: Script,
    /// The claims in the order in which the history has them: each a worker, counted from 1, the
    /// reply to its next command, and the owners beside that.
    pub claims: Vec<(u32, Reply, Owners)>,
}

/// What is found of a claimed history. Claims and workers are counted from 1.
#[derive(Debug, Drop)]
pub enum Verdict {
    /// It is legal and has all commands; these are the bindings that it leaves, in rising order of
    /// ports.
    Legal { bindings: Bindings },
    /// The worker of this claim has no command left, and all claims before it are right.
    Extra { claim: u32 },
    /// This claim's reply can't be had there, and all claims before it are right.
    Wrong { claim: u32 },
    /// All claims are right, and this is the first worker with commands left.
    Unfinished { worker: u32 },
}
