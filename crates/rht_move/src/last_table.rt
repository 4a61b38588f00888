//! Finding the last table: from one table on through the futures, to the one that has none.

ghost use Rattle.std.specs.Prelude.{◌≡◌, ◌<◌, IfSome};
ghost use Rattle.rht_words.specs.Operations.{op_place};
ghost use Rattle.rht_words.specs.Places.{words_in};
ghost use Rattle.rht_move.specs.LastTable.{last_table_new, last_table_plan, last_table_after, next_or_shape, IsLastTableAtIn, IsLastEndIn};

use rht_words::{Geometry, Next, Op, places, slot_of};
use std::marker::Model;

/// Where the search for the last table stands. Each state has one operation.
#[derive(Clone, Copy)]
pub enum LastTableAt {
    /// Loads the future of a table. Others may attach a further one at any time.
    Future { table: u32 },
    /// Loads the shape of the table that had no future.
    Shape { table: u32 },
}

/// The table that had no future when that was loaded.
#[derive(Clone, Copy, Debug, PartialEq, Eq)]
pub struct Last {
    /// Its slot.
    pub table: u32,
    /// Its shape.
    pub shape: u64,
}

/// Finds the last table behind another one. The kernel's counterpart is `rhashtable_last_table`.
#[derive(Clone, Copy)]
pub struct LastTable {
    geometry: Geometry,
    at: LastTableAt,
}

impl Model for LastTable {
    ghost use Rattle.rht_move.specs.LastTable.{LastTableModel, IsLastTableAtIn};

    ghost Value = { LastTableModel };

    ghost view = { λ m. record { geometry = m.geometry; at = m.at } };

    ghost inverse = { λ m. record { geometry = m.geometry; at = m.at } };

    ghost invariant = { λ m. IsLastTableAtIn m.at };
}

impl LastTable {
    /// Before the future of the table in this slot is loaded.
    #[inline(always)]
    pub fn new(geometry: Geometry, table: u32) -> LastTable
        requires { table < 8 }
        ensures { result ≡ last_table_new geometry table }
    {
        LastTable {
            geometry,
            at: LastTableAt::Future { table },
        }
    }

    /// The machine in another state.
    #[inline(always)]
    pub fn with(&self, at: LastTableAt) -> LastTable
        requires { IsLastTableAtIn at }
        ensures { result ≡ record self.now { at = at } }
    {
        LastTable {
            geometry: self.geometry,
            at,
        }
    }

    /// The next operation.
    #[inline(always)]
    pub fn plan(&self) -> Op
        ensures plan { result ≡ last_table_plan self.now }
        ensures place { op_place result < words_in self.now.geometry }
    {
        Op::load(match self.at {
            LastTableAt::Future { table } => places::future(table),
            LastTableAt::Shape { table } => places::shape(table),
        })
    }

    /// Takes in the word's old value.
    #[inline(always)]
    pub fn take(&mut self, old: u64) -> Next<Last>
        ensures taken { (self.new, result) ≡ last_table_after self.old old }
        ensures found { IsLastEndIn result }
    {
        let (machine, next) = self.after(old);
        *self = machine;
        next
    }

    /// As `take`, but by value: for a machine that has this one in a state.
    #[inline(always)]
    pub fn after(self, old: u64) -> (LastTable, Next<Last>)
        ensures after { result ≡ last_table_after self old }
        ensures at { IsLastTableAtIn result.0.at }
        ensures found { IsLastEndIn result.1 }
    {
        match self.at {
            LastTableAt::Future { table } => {
                let at = next_or_shape(table, slot_of(old));
                (self.with(at), Next::Go)
            }
            LastTableAt::Shape { table } => (self, Next::Done(Last { table, shape: old })),
        }
    }
}

/// Behind a table with a future the search goes on, and the shape of one without is loaded.
#[inline(always)]
pub fn next_or_shape(table: u32, future: Option<u32>) -> LastTableAt
    requires table { table < 8 }
    requires future { IfSome future (λ next. next < 8) }
    ensures at { result ≡ next_or_shape table future }
    ensures within { IsLastTableAtIn result }
{
    match future {
        Some(next) => LastTableAt::Future { table: next },
        None => LastTableAt::Shape { table },
    }
}
