//! The reading of how many ports are bound: one operation.

ghost use Rattle.std.specs.Prelude.{◌≡◌, ◌<◌};
ghost use Rattle.rht_words.specs.Operations.{op_place};
ghost use Rattle.rht_words.specs.Places.{words_in};
ghost use Rattle.rht_callers.specs.PortCounts.{count_plan, count_after};

use rht_model::Reply;
use rht_words::{Env, Next, Op, places};

/// A reading of the count of ports. The kernel reads `nelems` of the table so.
#[derive(Clone, Copy, Debug, PartialEq, Eq)]
pub struct PortCount {
    /// The table.
    pub env: Env,
}

impl PortCount {
    /// The one operation.
    pub fn plan(&self) -> Op
        ensures plan { result ≡ count_plan self.now }
        ensures place { op_place result < words_in self.now.env.geometry }
    {
        Op::load(places::port_count())
    }

    /// Takes in the word's old value, which is the answer.
    pub fn take(&mut self, old: u64) -> Next<Reply>
        ensures { (self.new, result) ≡ count_after self.old old }
    {
        Next::Done(Reply::Counted { count: old })
    }
}
