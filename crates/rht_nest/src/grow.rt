//! Entering a page where an entry of a nested table leads to none.

ghost use Rattle.std.specs.Prelude.{◌≡◌, ◌<◌};
ghost use Rattle.rht_words.specs.Operations.{op_place};
ghost use Rattle.rht_words.specs.Places.{words_in, IsBucketPlace};
ghost use Rattle.rht_arena.specs.TakeRun.{take_run_after, IsTakeRunIn};
ghost use Rattle.rht_arena.specs.GiveRun.{give_run_after};
ghost use Rattle.rht_nest.specs.Grow.{grow_new, grow_plan, grow_after, grow_after_at, page_taken, page_entered, page_given, IsTakingPage, IsGrowAtIn, IsGrowEndIn};

use rht_arena::{GiveRun, TakeRun};
use rht_words::{Geometry, Next, Op, entry_of};
use std::marker::Model;

/// Where the growing of a nested table stands. Each state but those that hold a piece has one
/// operation.
#[derive(Clone, Copy)]
pub enum GrowAt {
    /// Takes a free page.
    Taking { take: TakeRun },
    /// Exchanges the link to the page for 0 in the entry. From here on the page is the table's, unless
    /// another caller has entered one before.
    Entering { page: u32 },
    /// Gives the page back, since this other one is there.
    Giving { there: u32, give: GiveRun },
}

/// Gives a missing page of a nested table. The answer is the page that is there then, whoever entered
/// it; none where each page was seen taken. The kernel's counterpart is `nested_table_alloc`.
#[derive(Clone, Copy)]
pub struct Grow {
    geometry: Geometry,
    entry: usize,
    at: GrowAt,
}

impl Model for Grow {
    ghost use Rattle.rht_words.specs.Places.{IsBucketPlace};
    ghost use Rattle.rht_nest.specs.Grow.{GrowModel, IsGrowAtIn};

    ghost Value = { GrowModel };

    ghost view = { λ m. record { geometry = m.geometry; entry = m.entry; at = m.at } };

    ghost inverse = { λ m. record { geometry = m.geometry; entry = m.entry; at = m.at } };

    ghost invariant = { λ m. IsBucketPlace m.geometry m.entry × IsGrowAtIn m.geometry m.at };
}

impl Grow {
    /// Before a page is taken for the entry at this place.
    #[inline(always)]
    pub fn new(geometry: Geometry, entry: usize) -> Grow
        requires { IsBucketPlace geometry entry }
        ensures { result ≡ grow_new geometry entry }
    {
        Grow {
            geometry,
            entry,
            at: GrowAt::Taking {
                take: TakeRun::of_one_page(geometry),
            },
        }
    }

    /// The machine in another state.
    #[inline(always)]
    pub fn with(&self, at: GrowAt) -> Grow
        requires { IsGrowAtIn self.now.geometry at }
        ensures { result ≡ record self.now { at = at } }
    {
        Grow {
            geometry: self.geometry,
            entry: self.entry,
            at,
        }
    }

    /// The next operation.
    #[inline(always)]
    pub fn plan(&self) -> Op
        ensures plan { result ≡ grow_plan self.now }
        ensures place { op_place result < words_in self.now.geometry }
    {
        match self.at {
            GrowAt::Taking { take } => take.plan(),
            GrowAt::Entering { page } => Op::exchange(self.entry, 0, entry_of(page)),
            GrowAt::Giving { give, .. } => give.plan(),
        }
    }

    /// Takes in the word's old value.
    #[inline(always)]
    pub fn take(&mut self, old: u64) -> Next<Option<u32>>
        ensures taken { (self.new, result) ≡ grow_after self.old old }
        ensures page { IsGrowEndIn self.old.geometry result }
    {
        let (machine, next) = self.after(old);
        *self = machine;
        next
    }

    /// As `take`, but by value: for a machine that has this one in a state.
    #[inline(always)]
    pub fn after(self, old: u64) -> (Grow, Next<Option<u32>>)
        ensures after { result ≡ grow_after self old }
        ensures geometry { result.0.geometry ≡ self.geometry }
        ensures entry { result.0.entry ≡ self.entry }
        ensures page { IsGrowEndIn self.geometry result.1 }
    {
        let (at, next) = after_at(self.geometry, &self.at, old);
        (self.with(at), next)
    }
}

/// Where the growing stands after a state that found this word, and what it says.
#[inline(always)]
#[tactic(auto, using(crate::proofs::Grows::grow_stays_at))]
fn after_at(geometry: Geometry, at: &GrowAt, old: u64) -> (GrowAt, Next<Option<u32>>)
    requires { IsGrowAtIn geometry at.now }
    ensures after { result ≡ grow_after_at geometry at.now old }
    ensures at { IsGrowAtIn geometry result.0 }
    ensures page { IsGrowEndIn geometry result.1 }
{
    match *at {
        GrowAt::Taking { take } => page_taken(take, old),
        GrowAt::Entering { page } => page_entered(geometry, page, old),
        GrowAt::Giving { there, give } => page_given(there, give, old),
    }
}

/// After an operation of the taking of a page.
#[inline(always)]
fn page_taken(take: TakeRun, old: u64) -> (GrowAt, Next<Option<u32>>)
    ensures { result ≡ page_taken (take_run_after take old).0 (take_run_after take old).1 }
{
    let (take, next) = take.after(old);
    match next {
        Next::Go => (GrowAt::Taking { take }, Next::Go),
        Next::Done(None) => (GrowAt::Taking { take }, Next::Done(None)),
        Next::Done(Some(page)) => (GrowAt::Entering { page }, Next::Go),
    }
}

/// After the exchange of the entry, which was this before: 0 where the page was entered.
#[inline(always)]
fn page_entered(geometry: Geometry, page: u32, entry: u64) -> (GrowAt, Next<Option<u32>>)
    requires { page < geometry.pages }
    ensures { result ≡ page_entered geometry page entry }
{
    if entry == 0 {
        return (GrowAt::Entering { page }, Next::Done(Some(page)));
    }
    let there = (entry - 1).min(u64::from(geometry.pages - 1)) as u32;
    let give = GiveRun::new(geometry, page, 1);
    (GrowAt::Giving { there, give }, Next::Go)
}

/// After an operation of the giving back.
#[inline(always)]
fn page_given(there: u32, give: GiveRun, old: u64) -> (GrowAt, Next<Option<u32>>)
    ensures { result ≡ page_given there (give_run_after give old).0 (give_run_after give old).1 }
{
    let (give, next) = give.after(old);
    match next {
        Next::Go => (GrowAt::Giving { there, give }, Next::Go),
        Next::Done(()) => (GrowAt::Giving { there, give }, Next::Done(Some(there))),
    }
}
