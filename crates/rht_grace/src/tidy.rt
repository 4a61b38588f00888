//! The giving back of a caller's nodes that were taken out, state by state.

ghost use Rattle.std.specs.Prelude.{◌≡◌, ◌<◌, ◌≤◌, length};
ghost use Rattle.rht_words.specs.Operations.{op_place};
ghost use Rattle.rht_words.specs.Places.{words_in};
ghost use Rattle.rht_grace.specs.Tidy.{tidy_new, tidy_plan, tidy_after, begun, after_at, asked, asking, giving, keeping, asked_at, IsTidyAtIn};

use crate::batch::Batch;
use rht_arena::GiveNode;
use rht_model::Reply;
use rht_words::{Geometry, Next, Op, places};
use std::marker::Model;

/// Where a tidying stands. Each state has one operation.
#[derive(Clone, Copy)]
pub enum TidyAt {
    /// Loads a caller's section word, which is kept. Callers open and leave sections meanwhile; one
    /// that opens a section behind this load can't reach the nodes.
    Keeping { caller: u32 },
    /// Loads the section word of a caller again, of whom an odd one is kept. Where it is another one
    /// the caller has left its section.
    Asking { caller: u32 },
    /// Gives back the waiting node at this place. Each section that was open when it began to wait has
    /// been left.
    Giving { index: u32 },
}

/// Gives back the waiting nodes of a batch, all at once, once each section that was open when they
/// began to wait has been left. Where no node waits, the fresh ones begin to. The answer is `Clear`,
/// or `Pending` where a section is still open. It waits for nobody. The kernel's counterpart is the
/// end of a grace period, behind which `kfree_rcu` frees.
#[derive(Drop)]
pub struct Tidy {
    geometry: Geometry,
    batch: Batch,
    at: TidyAt,
}

impl Model for Tidy {
    ghost use Rattle.rht_grace.specs.Tidy.{TidyModel, IsTidyIn};

    ghost Value = { TidyModel };

    ghost view = { λ m. record { geometry = m.geometry; batch = m.batch; at = m.at } };

    ghost invariant = { λ m. IsTidyIn m.geometry m.batch m.at };
}

impl Tidy {
    /// Before the first operation.
    pub fn new(geometry: Geometry, batch: Batch) -> Tidy
        requires { batch.geometry ≡ geometry }
        ensures { result ≡ tidy_new geometry batch }
    {
        let mut batch = batch;
        let at = begin(&mut batch);
        Tidy {
            geometry,
            batch,
            at,
        }
    }

    /// The batch, with the nodes that aren't given back.
    pub fn into_parts(self) -> Batch
        ensures { result ≡ self.batch }
    {
        self.batch
    }

    /// The next operation.
    #[inline(always)]
    pub fn plan(&self) -> Op
        ensures plan { result ≡ tidy_plan self.now }
        ensures place { op_place result < words_in self.now.geometry }
    {
        match self.at {
            TidyAt::Keeping { caller } | TidyAt::Asking { caller } => {
                Op::load(places::section(caller))
            }
            TidyAt::Giving { index } => {
                GiveNode::new(self.geometry, self.batch.waiting_node(index)).plan()
            }
        }
    }

    /// Takes in the word's old value.
    pub fn take(&mut self, old: u64) -> Next<Reply>
        ensures { (self.new, result) ≡ tidy_after self.old old }
    {
        let (at, next) = after(self.geometry, &mut self.batch, self.at, old);
        self.at = at;
        next
    }
}

/// Where a tidying of this batch begins. Where no node waits the fresh ones wait from now on.
fn begin(batch: &mut Batch) -> TidyAt
    ensures begun { (batch.new, result) ≡ begun batch.old }
    ensures at { IsTidyAtIn batch.new result }
    ensures geometry { batch.new.geometry ≡ batch.old.geometry }
{
    if batch.waiting_len() == 0 {
        batch.turn();
        TidyAt::Keeping { caller: 0 }
    } else {
        match batch.first_odd(0) {
            Some(caller) => TidyAt::Asking { caller },
            None => TidyAt::Giving { index: 0 },
        }
    }
}

/// Where it stands after a state that found this word, and what it says.
fn after(geometry: Geometry, batch: &mut Batch, at: TidyAt, old: u64) -> (TidyAt, Next<Reply>)
    requires same { batch.old.geometry ≡ geometry }
    requires within { IsTidyAtIn batch.old at }
    ensures after { (batch.new, result.0, result.1) ≡ after_at geometry batch.old at old }
    ensures at { IsTidyAtIn batch.new result.0 }
    ensures geometry { batch.new.geometry ≡ geometry }
{
    match at {
        TidyAt::Keeping { caller } => {
            batch.keep(caller, old);
            keeping(geometry, batch, caller + 1)
        }
        TidyAt::Asking { caller } => asked(batch, caller, old),
        TidyAt::Giving { index } => giving(batch, index + 1),
    }
}

/// The section words are loaded from this caller's on. Behind the last one the callers are asked.
fn keeping(geometry: Geometry, batch: &mut Batch, caller: u32) -> (TidyAt, Next<Reply>)
    requires { batch.old.geometry ≡ geometry }
    ensures after { (batch.new, result.0, result.1) ≡ keeping geometry batch.old caller }
    ensures at { IsTidyAtIn batch.new result.0 }
    ensures geometry { batch.new.geometry ≡ geometry }
{
    if caller < geometry.callers {
        (TidyAt::Keeping { caller }, Next::Go)
    } else {
        asking(batch, 0)
    }
}

/// After a caller was asked. One that has the word that is kept is in the same section still.
fn asked(batch: &mut Batch, caller: u32, word: u64) -> (TidyAt, Next<Reply>)
    requires { caller < batch.old.geometry.callers }
    ensures after { (batch.new, result.0, result.1) ≡ asked batch.old caller word }
    ensures at { IsTidyAtIn batch.new result.0 }
    ensures geometry { batch.new.geometry ≡ batch.old.geometry }
{
    if word == batch.word(caller) {
        let section = word;
        (
            TidyAt::Asking { caller },
            Next::Done(Reply::Pending { caller, section }),
        )
    } else {
        batch.keep(caller, 0);
        asking(batch, caller + 1)
    }
}

/// Asks the callers from this one on of whom an odd word is kept. Where there is none the nodes are
/// given back.
fn asking(batch: &mut Batch, caller: u32) -> (TidyAt, Next<Reply>)
    requires { caller ≤ batch.old.geometry.callers }
    ensures after { (batch.new, result.0, result.1) ≡ asking batch.old caller }
    ensures at { IsTidyAtIn batch.new result.0 }
    ensures geometry { batch.new.geometry ≡ batch.old.geometry }
{
    match batch.first_odd(caller) {
        Some(caller) => (TidyAt::Asking { caller }, Next::Go),
        None => giving(batch, 0),
    }
}

/// The waiting nodes are given back from the one at this place on. Behind the last one none waits.
fn giving(batch: &mut Batch, index: u32) -> (TidyAt, Next<Reply>)
    ensures after { (batch.new, result.0, result.1) ≡ giving batch.old index }
    ensures at { IsTidyAtIn batch.new result.0 }
    ensures geometry { batch.new.geometry ≡ batch.old.geometry }
{
    let returned = batch.waiting_len();
    if index < returned {
        (TidyAt::Giving { index }, Next::Go)
    } else {
        batch.clear();
        (
            TidyAt::Keeping { caller: 0 },
            Next::Done(Reply::Clear { returned }),
        )
    }
}
