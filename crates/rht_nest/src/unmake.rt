//! Giving a table back that was made and not attached: its pages, and then its slot.

ghost use Rattle.std.specs.Prelude.{◌≡◌, ◌<◌};
ghost use Rattle.rht_words.specs.Operations.{op_place};
ghost use Rattle.rht_words.specs.Places.{words_in};
ghost use Rattle.rht_arena.specs.GiveRun.{give_run_after};
ghost use Rattle.rht_nest.specs.Unmake.{unmake_new, unmake_plan, unmake_after, unmake_after_at, run_given, IsUnmakeAtIn};

use crate::tables::run_of;
use rht_arena::GiveRun;
use rht_words::{Geometry, Next, Op, places};
use std::marker::Model;

/// Where the giving back of a table stands. Each state but the one that holds a piece has one
/// operation.
#[derive(Clone, Copy)]
pub enum UnmakeAt {
    /// Gives the pages of the buckets back, or the top page of a nested table.
    Giving { give: GiveRun },
    /// Stores in the slot's state that it is free.
    SlotBack,
}

/// Gives a table back. Whoever gives it back has made it, and nobody reads it. The kernel's
/// counterpart is `bucket_table_free`.
#[derive(Clone, Copy)]
pub struct Unmake {
    geometry: Geometry,
    slot: u32,
    at: UnmakeAt,
}

impl Model for Unmake {
    ghost use Rattle.std.specs.Prelude.{◌<◌};
    ghost use Rattle.rht_nest.specs.Unmake.{UnmakeModel, IsUnmakeAtIn};

    ghost Value = { UnmakeModel };

    ghost view = { λ m. record { geometry = m.geometry; slot = m.slot; at = m.at } };

    ghost inverse = { λ m. record { geometry = m.geometry; slot = m.slot; at = m.at } };

    ghost invariant = { λ m. (m.slot < 8) × IsUnmakeAtIn m.geometry m.at };
}

impl Unmake {
    /// Before the first word of the page map that has bits of the table's pages. This is the word of its
    /// shape. A nested table has its top page alone, since it was made and not attached.
    #[inline(always)]
    pub fn new(geometry: Geometry, slot: u32, shape: u64) -> Unmake
        requires { slot < 8 }
        ensures { result ≡ unmake_new geometry slot shape }
    {
        let (first, pages) = run_of(geometry, shape);
        Unmake {
            geometry,
            slot,
            at: UnmakeAt::Giving {
                give: GiveRun::new(geometry, first, pages),
            },
        }
    }

    /// The machine in another state.
    #[inline(always)]
    pub fn with(&self, at: UnmakeAt) -> Unmake
        requires { IsUnmakeAtIn self.now.geometry at }
        ensures { result ≡ record self.now { at = at } }
    {
        Unmake {
            geometry: self.geometry,
            slot: self.slot,
            at,
        }
    }

    /// The next operation.
    #[inline(always)]
    pub fn plan(&self) -> Op
        ensures plan { result ≡ unmake_plan self.now }
        ensures place { op_place result < words_in self.now.geometry }
    {
        match self.at {
            UnmakeAt::Giving { give } => give.plan(),
            UnmakeAt::SlotBack => Op::store(places::state(self.slot), 0),
        }
    }

    /// Takes in the word's old value.
    #[inline(always)]
    pub fn take(&mut self, old: u64) -> Next<()>
        ensures { (self.new, result) ≡ unmake_after self.old old }
    {
        let (machine, next) = self.after(old);
        *self = machine;
        next
    }

    /// As `take`, but by value: for a machine that has this one in a state.
    #[inline(always)]
    pub fn after(self, old: u64) -> (Unmake, Next<()>)
        ensures after { result ≡ unmake_after self old }
        ensures at { IsUnmakeAtIn self.geometry result.0.at }
    {
        let (at, next) = after_at(self.geometry, &self.at, old);
        (self.with(at), next)
    }
}

/// Where the giving back stands after a state that found this word, and what it says.
#[inline(always)]
#[tactic(auto, using(crate::proofs::MakesStay::unmake_stays_at))]
fn after_at(geometry: Geometry, at: &UnmakeAt, old: u64) -> (UnmakeAt, Next<()>)
    requires { IsUnmakeAtIn geometry at.now }
    ensures after { result ≡ unmake_after_at at.now old }
    ensures at { IsUnmakeAtIn geometry result.0 }
{
    match *at {
        UnmakeAt::Giving { give } => (run_given(give, old), Next::Go),
        UnmakeAt::SlotBack => (*at, Next::Done(())),
    }
}

/// After an operation of the giving back of pages.
#[inline(always)]
fn run_given(give: GiveRun, old: u64) -> UnmakeAt
    ensures { result ≡ run_given (give_run_after give old).0 (give_run_after give old).1 }
{
    let (give, next) = give.after(old);
    match next {
        Next::Go => UnmakeAt::Giving { give },
        Next::Done(()) => UnmakeAt::SlotBack,
    }
}
