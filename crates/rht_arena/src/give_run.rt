//! Giving a run of pages back, one operation for each word of the page map that has bits of it.

ghost use Rattle.std.specs.Prelude.{◌≡◌, ◌<◌};
ghost use Rattle.rht_words.specs.Operations.{op_place};
ghost use Rattle.rht_words.specs.Places.{words_in};
ghost use Rattle.rht_arena.specs.PageRuns.{IsRunIn};
ghost use Rattle.rht_arena.specs.GiveRun.{give_run_new, give_run_plan, give_run_after};

use crate::run_bits::run_bits;
use rht_words::{Geometry, Next, Op};
use std::marker::Model;

/// Gives a run of pages back. Whoever gives it holds it, and nobody reads its words any more.
#[derive(Clone, Copy)]
pub struct GiveRun {
    geometry: Geometry,
    first: u32,
    pages: u32,
    index: u32,
}

impl Model for GiveRun {
    ghost use Rattle.rht_arena.specs.GiveRun.{GiveRunModel};
    ghost use Rattle.rht_arena.specs.PageRuns.{IsRunIn, IsRunWord};

    ghost Value = { GiveRunModel };

    ghost view = { λ m. record { geometry = m.geometry; first = m.first; pages = m.pages; index = m.index } };

    ghost inverse = { λ m. record { geometry = m.geometry; first = m.first; pages = m.pages; index = m.index } };

    ghost invariant = { λ m. IsRunIn m.geometry m.first m.pages × IsRunWord m.first m.pages m.index };
}

impl GiveRun {
    /// Before the word of the first page.
    #[inline(always)]
    pub fn new(geometry: Geometry, first: u32, pages: u32) -> GiveRun
        requires { IsRunIn geometry first pages }
        ensures { result ≡ give_run_new geometry first pages }
    {
        GiveRun {
            geometry,
            first,
            pages,
            index: first / 64,
        }
    }

    /// Sets the bits of the run's pages in a word.
    #[inline(always)]
    pub fn plan(&self) -> Op
        ensures plan { result ≡ give_run_plan self.now }
        ensures place { op_place result < words_in self.now.geometry }
    {
        Op::or(
            self.geometry.page_map(self.index),
            run_bits(self.first, self.pages, self.index),
        )
    }

    /// Goes to the next word, whatever this one was.
    #[inline(always)]
    pub fn take(&mut self, old: u64) -> Next<()>
        ensures taken { (self.new, result) ≡ give_run_after self.old old }
    {
        let (machine, next) = self.after(old);
        *self = machine;
        next
    }

    /// As `take`, but by value: for a machine that has this one in a state.
    #[inline(always)]
    pub fn after(self, _old: u64) -> (GiveRun, Next<()>)
        ensures after { result ≡ give_run_after self _old }
        ensures geometry { result.0.geometry ≡ self.geometry }
    {
        let mut machine = self;
        if 64 * (machine.index + 1) < machine.first + machine.pages {
            machine.index += 1;
            (machine, Next::Go)
        } else {
            (machine, Next::Done(()))
        }
    }
}
