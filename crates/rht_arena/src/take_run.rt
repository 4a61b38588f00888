//! Taking a run of free pages: the runs are looked through in rising order, and one whose pages are
//! all seen free is taken word by word of the page map.

ghost use Rattle.std.specs.Prelude.{◌≡◌, ◌<◌};
ghost use Rattle.rht_words.specs.Operations.{op_place};
ghost use Rattle.rht_words.specs.Places.{words_in};
ghost use Rattle.rht_arena.specs.TakeRun.{first_run, take_run_new, take_run_plan, take_run_after, next_run, given_below, claimed, looked, cleared, IsRunAt, IsTakeRunAtIn, IsRunEndIn};
ghost use Rattle.rht_arena.specs.PageRuns.{run_bits, IsRunIn};

use crate::run_bits::run_bits;
use rht_words::{Geometry, Next, Op, Start};
use std::marker::Model;

/// Where the taking of a run stands. Each state has one operation.
#[derive(Clone, Copy, Debug, PartialEq, Eq)]
pub enum TakeRunAt {
    /// Loads a word of the page map. The pages of the run in the words before it are taken; those in
    /// this one others take and give back meanwhile.
    MapWord { first: u32, index: u32 },
    /// Clears the bits of the run's pages in a word in which all were seen set. It takes effect here
    /// where all of them still are; where only some are, these are cleared and have to be given back.
    Claim { first: u32, index: u32 },
    /// Sets again the bits that were cleared in a word, for a run of which a page was lost.
    GiveBack { first: u32, index: u32, bits: u64 },
}

/// Takes a run of free pages that begins at a multiple of its length. The answer is its first page;
/// none where in each such run a page was seen taken.
#[derive(Clone, Copy, Debug, PartialEq, Eq)]
pub struct TakeRun {
    geometry: Geometry,
    pages: u32,
    at: TakeRunAt,
}

impl Model for TakeRun {
    ghost use Rattle.rht_arena.specs.TakeRun.{TakeRunModel, IsTakeRunAtIn};

    ghost Value = { TakeRunModel };

    ghost view = { λ m. record { geometry = m.geometry; pages = m.pages; at = m.at } };

    ghost inverse = { λ m. record { geometry = m.geometry; pages = m.pages; at = m.at } };

    ghost invariant = { λ m. IsTakeRunAtIn m.geometry m.pages m.at };
}

impl TakeRun {
    /// Before the first run of so many pages, of which 0 are read as 1. Where there are fewer pages
    /// than that there is no such run, and no operation.
    #[inline(always)]
    pub fn new(geometry: Geometry, pages: u32) -> Start<TakeRun, Option<u32>>
        ensures { result ≡ take_run_new geometry pages }
    {
        let pages = pages.max(1);
        if pages <= geometry.pages {
            Start::Running(TakeRun {
                geometry,
                pages,
                at: TakeRunAt::MapWord { first: 0, index: 0 },
            })
        } else {
            Start::Done(None)
        }
    }

    /// Before the first page, of a run of one page.
    #[inline(always)]
    pub fn of_one_page(geometry: Geometry) -> TakeRun
        ensures { result ≡ first_run geometry 1 }
    {
        TakeRun {
            geometry,
            pages: 1,
            at: TakeRunAt::MapWord { first: 0, index: 0 },
        }
    }

    /// The machine in another state.
    #[inline(always)]
    pub fn with(&self, at: TakeRunAt) -> TakeRun
        requires { IsTakeRunAtIn self.now.geometry self.now.pages at }
        ensures { result ≡ record self.now { at = at } }
    {
        TakeRun {
            geometry: self.geometry,
            pages: self.pages,
            at,
        }
    }

    /// The next operation.
    #[inline(always)]
    pub fn plan(&self) -> Op
        ensures plan { result ≡ take_run_plan self.now }
        ensures place { op_place result < words_in self.now.geometry }
    {
        match self.at {
            TakeRunAt::MapWord { index, .. } => Op::load(self.geometry.page_map(index)),
            TakeRunAt::Claim { first, index } => Op::and(
                self.geometry.page_map(index),
                !run_bits(first, self.pages, index),
            ),
            TakeRunAt::GiveBack { index, bits, .. } => {
                Op::or(self.geometry.page_map(index), bits)
            }
        }
    }

    /// Takes in the word's old value.
    #[inline(always)]
    pub fn take(&mut self, old: u64) -> Next<Option<u32>>
        ensures taken { (self.new, result) ≡ take_run_after self.old old }
        ensures run { IsRunEndIn self.old.geometry self.old.pages result }
    {
        let (machine, next) = self.after(old);
        *self = machine;
        next
    }

    /// As `take`, but by value: for a machine that has this one in a state.
    #[inline(always)]
    pub fn after(self, old: u64) -> (TakeRun, Next<Option<u32>>)
        ensures after { result ≡ take_run_after self old }
        ensures geometry { result.0.geometry ≡ self.geometry }
        ensures pages { result.0.pages ≡ self.pages }
        ensures run { IsRunEndIn self.geometry self.pages result.1 }
    {
        match self.at {
            TakeRunAt::MapWord { first, index } => self.looked(first, index, old),
            TakeRunAt::Claim { first, index } => self.cleared(first, index, old),
            TakeRunAt::GiveBack { first, index, .. } => self.given_below(first, index),
        }
    }

    /// After the load of a word: where all pages of the run in it are free they are claimed.
    #[inline(always)]
    fn looked(self, first: u32, index: u32, word: u64) -> (TakeRun, Next<Option<u32>>)
        requires { IsRunAt self.geometry self.pages first index }
        ensures after { result ≡ looked self first index word }
        ensures run { IsRunEndIn self.geometry self.pages result.1 }
    {
        let bits = run_bits(first, self.pages, index);
        if word & bits == bits {
            (self.with(TakeRunAt::Claim { first, index }), Next::Go)
        } else {
            self.given_below(first, index)
        }
    }

    /// After bits of a word were cleared. What was found set of them is to be given back, where that
    /// isn't all.
    #[inline(always)]
    #[tactic(auto, using(crate::proofs::RunBits::of_bits))]
    fn cleared(self, first: u32, index: u32, word: u64) -> (TakeRun, Next<Option<u32>>)
        requires { IsRunAt self.geometry self.pages first index }
        ensures after { result ≡ cleared self first index word }
        ensures run { IsRunEndIn self.geometry self.pages result.1 }
    {
        let bits = run_bits(first, self.pages, index);
        let found = word & bits;
        if found == bits {
            self.claimed(first, index)
        } else if found == 0 {
            self.given_below(first, index)
        } else {
            let bits = found;
            (
                self.with(TakeRunAt::GiveBack { first, index, bits }),
                Next::Go,
            )
        }
    }

    /// The run's pages up to those of this word are taken.
    #[inline(always)]
    fn claimed(self, first: u32, index: u32) -> (TakeRun, Next<Option<u32>>)
        requires { IsRunAt self.geometry self.pages first index }
        ensures after { result ≡ claimed self first index }
        ensures run { IsRunEndIn self.geometry self.pages result.1 }
    {
        if 64 * (index + 1) < first + self.pages {
            let index = index + 1;
            (self.with(TakeRunAt::MapWord { first, index }), Next::Go)
        } else {
            (self, Next::Done(Some(first)))
        }
    }

    /// Goes to the word before this one, in which all pages of the run were cleared, or where there is
    /// none to the next run.
    #[inline(always)]
    fn given_below(self, first: u32, index: u32) -> (TakeRun, Next<Option<u32>>)
        requires { IsRunAt self.geometry self.pages first index }
        ensures after { result ≡ given_below self first index }
        ensures run { IsRunEndIn self.geometry self.pages result.1 }
    {
        if 64 * index <= first {
            self.next_run(first)
        } else {
            let index = index - 1;
            let bits = run_bits(first, self.pages, index);
            (
                self.with(TakeRunAt::GiveBack { first, index, bits }),
                Next::Go,
            )
        }
    }

    /// Goes to the run behind this one.
    #[inline(always)]
    fn next_run(self, first: u32) -> (TakeRun, Next<Option<u32>>)
        requires { IsRunIn self.geometry first self.pages }
        ensures after { result ≡ next_run self first }
        ensures run { IsRunEndIn self.geometry self.pages result.1 }
    {
        if first + 2 * self.pages <= self.geometry.pages {
            let first = first + self.pages;
            let index = first / 64;
            (self.with(TakeRunAt::MapWord { first, index }), Next::Go)
        } else {
            (self, Next::Done(None))
        }
    }
}
