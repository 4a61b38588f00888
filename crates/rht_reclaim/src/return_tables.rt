//! Giving back the retired tables over which no read section is open any more.

ghost use Rattle.std.specs.Prelude.{◌≡◌, ◌<◌};
ghost use Rattle.rht_words.specs.Operations.{op_place};
ghost use Rattle.rht_words.specs.Places.{words_in};
ghost use Rattle.rht_reclaim.specs.GiveTable.{give_table_after, IsGiveTableIn};
ghost use Rattle.rht_reclaim.specs.ReturnTables.{return_tables_new, return_tables_plan, return_tables_after, return_tables_after_at, next_slot, next_caller, state_seen, kept_seen, section_seen, given_back, IsAskedIn, IsReturnTablesAtIn};

use crate::give_table::GiveTable;
use rht_words::{Geometry, Next, Op, places};
use std::marker::Model;

/// How many slots there are.
const SLOTS: u32 = 8;

/// What the state of a slot says whose table is retired.
const RETIRED: u64 = 2;

/// Where it stands. Each state but the one that holds a piece has one operation. Callers open and leave
/// sections meanwhile; one that opens a section now can't reach a retired table.
#[derive(Clone, Copy)]
pub enum ReturnTablesAt {
    /// Loads the state of a slot, which says whether its table is retired.
    State { slot: u32 },
    /// Loads the section word that was kept for a caller when the table in the slot was retired.
    KeptWord { slot: u32, caller: u32 },
    /// Loads that caller's section word. The one that was kept is odd, so the caller was in a section.
    SectionWord { slot: u32, caller: u32, kept: u64 },
    /// Gives the table back: each section that was open when it was retired has been left.
    Giving { give: GiveTable },
}

/// Goes through all slots and gives back each retired table, unless it finds a section open that was so
/// when the table was retired. It waits for nobody: such a table stays for a later call. Whoever does so
/// has the work lock. The kernel's counterpart is what `call_rcu` does behind a grace period.
#[derive(Clone, Copy)]
pub struct ReturnTables {
    geometry: Geometry,
    at: ReturnTablesAt,
}

impl Model for ReturnTables {
    ghost use Rattle.rht_reclaim.specs.ReturnTables.{ReturnTablesModel, IsReturnTablesAtIn};

    ghost Value = { ReturnTablesModel };

    ghost view = { λ m. record { geometry = m.geometry; at = m.at } };

    ghost inverse = { λ m. record { geometry = m.geometry; at = m.at } };

    ghost invariant = { λ m. IsReturnTablesAtIn m.geometry m.at };
}

impl ReturnTables {
    /// Before the load of the first slot's state.
    #[inline(always)]
    pub fn new(geometry: Geometry) -> ReturnTables
        ensures { result ≡ return_tables_new geometry }
    {
        ReturnTables {
            geometry,
            at: ReturnTablesAt::State { slot: 0 },
        }
    }

    /// The machine in another state.
    #[inline(always)]
    pub fn with(&self, at: ReturnTablesAt) -> ReturnTables
        requires { IsReturnTablesAtIn self.now.geometry at }
        ensures { result ≡ record self.now { at = at } }
    {
        ReturnTables {
            geometry: self.geometry,
            at,
        }
    }

    /// The next operation.
    #[inline(always)]
    pub fn plan(&self) -> Op
        ensures plan { result ≡ return_tables_plan self.now }
        ensures place { op_place result < words_in self.now.geometry }
    {
        match self.at {
            ReturnTablesAt::State { slot } => Op::load(places::state(slot)),
            ReturnTablesAt::KeptWord { slot, caller } => {
                Op::load(places::loaded_section(slot, caller))
            }
            ReturnTablesAt::SectionWord { caller, .. } => Op::load(places::section(caller)),
            ReturnTablesAt::Giving { give } => give.plan(),
        }
    }

    /// Takes in the word's old value.
    #[inline(always)]
    pub fn take(&mut self, old: u64) -> Next<()>
        ensures { (self.new, result) ≡ return_tables_after self.old old }
    {
        let (machine, next) = self.after(old);
        *self = machine;
        next
    }

    /// As `take`, but by value: for a machine that has this one in a state.
    #[inline(always)]
    pub fn after(self, old: u64) -> (ReturnTables, Next<()>)
        ensures after { result ≡ return_tables_after self old }
        ensures at { IsReturnTablesAtIn self.geometry result.0.at }
    {
        let (at, next) = after_at(self.geometry, &self.at, old);
        (self.with(at), next)
    }
}

/// Where it stands after a state that found this word, and what it says.
#[inline(always)]
fn after_at(geometry: Geometry, at: &ReturnTablesAt, old: u64) -> (ReturnTablesAt, Next<()>)
    requires { IsReturnTablesAtIn geometry at.now }
    ensures after { result ≡ return_tables_after_at geometry at.now old }
    ensures at { IsReturnTablesAtIn geometry result.0 }
{
    match *at {
        ReturnTablesAt::State { slot } => state_seen(geometry, slot, old),
        ReturnTablesAt::KeptWord { slot, caller } => kept_seen(geometry, slot, caller, old),
        ReturnTablesAt::SectionWord { slot, caller, kept } => {
            section_seen(geometry, slot, caller, kept, old)
        }
        ReturnTablesAt::Giving { give } => given_back(geometry, give, old),
    }
}

/// After the load of a slot's state. Of a retired table the words that were kept are looked at.
#[inline(always)]
fn state_seen(geometry: Geometry, slot: u32, state: u64) -> (ReturnTablesAt, Next<()>)
    requires { slot < 8 }
    ensures after { result ≡ state_seen slot state }
    ensures at { IsReturnTablesAtIn geometry result.0 }
{
    if state == RETIRED {
        (ReturnTablesAt::KeptWord { slot, caller: 0 }, Next::Go)
    } else {
        next_slot(geometry, ReturnTablesAt::State { slot }, slot)
    }
}

/// After the load of a word that was kept: an odd one is compared with the caller's section word.
#[inline(always)]
fn kept_seen(geometry: Geometry, slot: u32, caller: u32, kept: u64) -> (ReturnTablesAt, Next<()>)
    requires { IsAskedIn geometry slot caller }
    ensures after { result ≡ kept_seen geometry slot caller kept }
    ensures at { IsReturnTablesAtIn geometry result.0 }
{
    if kept % 2 == 1 {
        (ReturnTablesAt::SectionWord { slot, caller, kept }, Next::Go)
    } else {
        next_caller(geometry, slot, caller)
    }
}

/// After the load of the caller's section word. Where it is the one that was kept the table stays.
#[inline(always)]
fn section_seen(
    geometry: Geometry,
    slot: u32,
    caller: u32,
    kept: u64,
    word: u64,
) -> (ReturnTablesAt, Next<()>)
    requires { IsAskedIn geometry slot caller }
    ensures after { result ≡ section_seen geometry slot caller kept word }
    ensures at { IsReturnTablesAtIn geometry result.0 }
{
    if word == kept {
        let at = ReturnTablesAt::SectionWord { slot, caller, kept };
        next_slot(geometry, at, slot)
    } else {
        next_caller(geometry, slot, caller)
    }
}

/// Behind a slot comes the next one, and behind the last one the machine ends.
#[inline(always)]
fn next_slot(geometry: Geometry, at: ReturnTablesAt, slot: u32) -> (ReturnTablesAt, Next<()>)
    requires at { IsReturnTablesAtIn geometry at }
    requires slot { slot < 8 }
    ensures after { result ≡ next_slot at slot }
    ensures at { IsReturnTablesAtIn geometry result.0 }
{
    if slot + 1 < SLOTS {
        (ReturnTablesAt::State { slot: slot + 1 }, Next::Go)
    } else {
        (at, Next::Done(()))
    }
}

/// Behind a caller comes the next one. Behind the last one the table is given back.
#[inline(always)]
fn next_caller(geometry: Geometry, slot: u32, caller: u32) -> (ReturnTablesAt, Next<()>)
    requires { IsAskedIn geometry slot caller }
    ensures after { result ≡ next_caller geometry slot caller }
    ensures at { IsReturnTablesAtIn geometry result.0 }
{
    let caller = caller + 1;
    if caller < geometry.callers {
        (ReturnTablesAt::KeptWord { slot, caller }, Next::Go)
    } else {
        let give = GiveTable::new(geometry, slot);
        (ReturnTablesAt::Giving { give }, Next::Go)
    }
}

/// After an operation of the giving back of a table: once that has ended the next slot comes.
#[inline(always)]
fn given_back(geometry: Geometry, give: GiveTable, old: u64) -> (ReturnTablesAt, Next<()>)
    requires { IsGiveTableIn geometry give }
    ensures after { result ≡ given_back (give_table_after give old).0 (give_table_after give old).1 }
    ensures at { IsReturnTablesAtIn geometry result.0 }
{
    let (give, next) = give.after(old);
    let at = ReturnTablesAt::Giving { give };
    match next {
        Next::Go => (at, Next::Go),
        Next::Done(()) => next_slot(geometry, at, give.slot()),
    }
}
