//! Making a table: a slot is taken, then the pages of its buckets or, where there is no such run, the
//! top page of a nested one, and then its words are stored.

ghost use Rattle.std.specs.Prelude.{◌≡◌, ℕ, ◌<◌};
ghost use Rattle.rht_words.specs.Operations.{op_place};
ghost use Rattle.rht_words.specs.Places.{words_in};
ghost use Rattle.rht_arena.specs.TakeRun.{take_run_new, take_run_after};
ghost use Rattle.rht_nest.specs.Tables.{table_seed};
ghost use Rattle.rht_nest.specs.Make.{make_new, make_plan, make_after, make_after_at, may_nest, made_pages, shape_made, made_shape, run_found, no_run, run_taken, run_started, top_taken, slot_seen, IsMakeAtIn, IsMakeEndIn};

use crate::tables::table_pages;
use rht_arena::TakeRun;
use rht_words::{Geometry, Next, Op, Shape, Start, places};
use std::marker::Model;

/// How many slots there are.
const SLOTS: u32 = 8;

/// Where the making of a table stands. Each state but those that hold a piece has one operation.
/// From the exchange that takes the slot on nobody else knows it, until it is attached.
#[derive(Clone, Copy)]
pub enum MakeAt {
    /// Exchanges 1 for 0 in the state of a slot. It takes effect here where the slot was free.
    Slot {
        slot: u32,
    },
    /// Takes a run of free pages for the buckets.
    Taking {
        slot: u32,
        take: TakeRun,
    },
    /// Takes a free page for the top of a nested table, since no run of pages was to be had.
    TakingTop {
        slot: u32,
        take: TakeRun,
    },
    /// Stores in the slot's state that it is free again, since no pages were to be had.
    SlotBack {
        slot: u32,
    },
    /// Adds 1 to the next serial. The number before it is this table's.
    NextSerial {
        slot: u32,
        nested: bool,
        page: u32,
    },
    /// Stores the shape in the slot.
    Shape {
        slot: u32,
        nested: bool,
        page: u32,
        serial: u64,
    },
    /// Stores the seed, which the serial makes another one for each table.
    Seed {
        slot: u32,
        nested: bool,
        page: u32,
        serial: u64,
    },
    /// Stores that there is no future table.
    Future {
        slot: u32,
        nested: bool,
        page: u32,
        serial: u64,
    },
    /// Stores the serial, after which the table is made.
    Serial {
        slot: u32,
        nested: bool,
        page: u32,
        serial: u64,
    },
}

/// Makes an empty table that no future leads to yet. The answer is its slot and the word of its shape;
/// none where no slot was free, or no run of pages and, where the table may be nested, no page. The
/// kernel's counterparts are `bucket_table_alloc` and `nested_bucket_table_alloc`.
#[derive(Clone, Copy)]
pub struct Make {
    geometry: Geometry,
    exponent: u32,
    seed: u32,
    nested: bool,
    at: MakeAt,
}

impl Model for Make {
    ghost use Rattle.rht_nest.specs.Make.{MakeModel, IsMakeAtIn};

    ghost Value = { MakeModel };

    ghost view = { λ m. record { geometry = m.geometry; exponent = m.exponent; seed = m.seed; nested = m.nested; at = m.at } };

    ghost inverse = { λ m. record { geometry = m.geometry; exponent = m.exponent; seed = m.seed; nested = m.nested; at = m.at } };

    ghost invariant = { λ m. IsMakeAtIn m.geometry m.exponent m.nested m.at };
}

impl Make {
    /// Before the first slot. The size is a power of two from 4 to 131,072; another number is read as
    /// the greatest power of two that divides it, and that as the nearest of these. The seed is the
    /// config's. `nested` says whether a nested table may be made where there is no run of pages for a
    /// flat one; of less than 128 buckets none is.
    #[inline(always)]
    pub fn new(geometry: Geometry, size: u32, seed: u32, nested: bool) -> Make
        ensures { result ≡ make_new geometry size seed nested }
    {
        Make {
            geometry,
            exponent: size.trailing_zeros().min(17).max(2),
            seed,
            nested,
            at: MakeAt::Slot { slot: 0 },
        }
    }

    /// The machine in another state.
    #[inline(always)]
    pub fn with(&self, at: MakeAt) -> Make
        requires { IsMakeAtIn self.now.geometry self.now.exponent self.now.nested at }
        ensures { result ≡ record self.now { at = at } }
    {
        Make {
            geometry: self.geometry,
            exponent: self.exponent,
            seed: self.seed,
            nested: self.nested,
            at,
        }
    }

    /// The next operation.
    #[inline(always)]
    pub fn plan(&self) -> Op
        ensures plan { result ≡ make_plan self.now }
        ensures place { op_place result < words_in self.now.geometry }
    {
        match self.at {
            MakeAt::Slot { slot } => Op::exchange(places::state(slot), 0, 1),
            MakeAt::Taking { take, .. } => take.plan(),
            MakeAt::TakingTop { take, .. } => take.plan(),
            MakeAt::SlotBack { slot } => Op::store(places::state(slot), 0),
            MakeAt::NextSerial { .. } => Op::add(places::next_serial(), 1),
            MakeAt::Shape {
                slot,
                nested,
                page,
                ..
            } => Op::store(places::shape(slot), made_shape(self.exponent, nested, page)),
            MakeAt::Seed { slot, serial, .. } => {
                Op::store(places::seed(slot), table_seed(self.seed, serial))
            }
            MakeAt::Future { slot, .. } => Op::store(places::future(slot), 0),
            MakeAt::Serial { slot, serial, .. } => Op::store(places::serial(slot), serial),
        }
    }

    /// Takes in the word's old value.
    #[inline(always)]
    pub fn take(&mut self, old: u64) -> Next<Option<(u32, u64)>>
        ensures taken { (self.new, result) ≡ make_after self.old old }
        ensures made { IsMakeEndIn self.old.geometry self.old.exponent self.old.nested result }
    {
        let (machine, next) = self.after(old);
        *self = machine;
        next
    }

    /// As `take`, but by value: for a machine that has this one in a state.
    #[inline(always)]
    pub fn after(self, old: u64) -> (Make, Next<Option<(u32, u64)>>)
        ensures after { result ≡ make_after self old }
        ensures at { IsMakeAtIn self.geometry self.exponent self.nested result.0.at }
        ensures made { IsMakeEndIn self.geometry self.exponent self.nested result.1 }
    {
        let (at, next) = after_at(self.geometry, self.exponent, self.nested, &self.at, old);
        (self.with(at), next)
    }
}

/// Where the making stands after a state that found this word, and what it says.
#[inline(always)]
#[tactic(auto, using(crate::proofs::MakesStay::make_stays_at))]
fn after_at(
    geometry: Geometry,
    exponent: u32,
    allowed: bool,
    at: &MakeAt,
    old: u64,
) -> (MakeAt, Next<Option<(u32, u64)>>)
    requires { IsMakeAtIn geometry exponent allowed at.now }
    ensures after { result ≡ make_after_at geometry exponent allowed at.now old }
    ensures at { IsMakeAtIn geometry exponent allowed result.0 }
    ensures made { IsMakeEndIn geometry exponent allowed result.1 }
{
    let nests = may_nest(exponent, allowed);
    match *at {
        MakeAt::Slot { slot } => slot_seen(geometry, exponent, nests, slot, old),
        MakeAt::Taking { slot, take } => (run_taken(geometry, nests, slot, take, old), Next::Go),
        MakeAt::TakingTop { slot, take } => (top_taken(slot, take, old), Next::Go),
        MakeAt::SlotBack { .. } => (*at, Next::Done(None)),
        MakeAt::NextSerial { slot, nested, page } => {
            let serial = old;
            let next = MakeAt::Shape {
                slot,
                nested,
                page,
                serial,
            };
            (next, Next::Go)
        }
        MakeAt::Shape {
            slot,
            nested,
            page,
            serial,
        } => {
            let next = MakeAt::Seed {
                slot,
                nested,
                page,
                serial,
            };
            (next, Next::Go)
        }
        MakeAt::Seed {
            slot,
            nested,
            page,
            serial,
        } => {
            let next = MakeAt::Future {
                slot,
                nested,
                page,
                serial,
            };
            (next, Next::Go)
        }
        MakeAt::Future {
            slot,
            nested,
            page,
            serial,
        } => {
            let next = MakeAt::Serial {
                slot,
                nested,
                page,
                serial,
            };
            (next, Next::Go)
        }
        MakeAt::Serial {
            slot,
            nested,
            page,
            ..
        } => {
            let made = (slot, made_shape(exponent, nested, page));
            (*at, Next::Done(Some(made)))
        }
    }
}

/// Whether a nested table may be made of so many buckets: one of less than 128 would have but one page
/// of them.
#[inline(always)]
fn may_nest(exponent: u32, allowed: bool) -> bool
    ensures { result ≡ may_nest exponent allowed }
{
    allowed && 7 <= exponent
}

/// After the exchange of a slot's state, which was this: 0 where the slot was free.
#[inline(always)]
fn slot_seen(
    geometry: Geometry,
    exponent: u32,
    nests: bool,
    slot: u32,
    state: u64,
) -> (MakeAt, Next<Option<(u32, u64)>>)
    requires { slot < 8 }
    ensures { result ≡ slot_seen geometry exponent nests slot state }
{
    if state == 0 {
        (run_started(geometry, exponent, nests, slot), Next::Go)
    } else if slot + 1 < SLOTS {
        (MakeAt::Slot { slot: slot + 1 }, Next::Go)
    } else {
        (MakeAt::Slot { slot }, Next::Done(None))
    }
}

/// With a slot taken, before its pages are. Where the table of words has fewer pages than a flat table
/// takes, there is no run without an operation.
#[inline(always)]
fn run_started(geometry: Geometry, exponent: u32, nests: bool, slot: u32) -> MakeAt
    ensures { result ≡ run_started geometry nests slot (take_run_new geometry (made_pages exponent)) }
{
    match TakeRun::new(geometry, made_pages(exponent)) {
        Start::Running(take) => MakeAt::Taking { slot, take },
        Start::Done(Some(page)) => run_found(slot, page),
        Start::Done(None) => no_run(geometry, nests, slot),
    }
}

/// After an operation of the taking of pages.
#[inline(always)]
fn run_taken(geometry: Geometry, nests: bool, slot: u32, take: TakeRun, old: u64) -> MakeAt
    ensures { result ≡ run_taken geometry nests slot (take_run_after take old).0 (take_run_after take old).1 }
{
    let (take, next) = take.after(old);
    match next {
        Next::Go => MakeAt::Taking { slot, take },
        Next::Done(Some(page)) => run_found(slot, page),
        Next::Done(None) => no_run(geometry, nests, slot),
    }
}

/// With a run of pages taken, from this one on.
#[inline(always)]
fn run_found(slot: u32, page: u32) -> MakeAt
    ensures { result ≡ run_found slot page }
{
    MakeAt::NextSerial {
        slot,
        nested: false,
        page,
    }
}

/// Where there is no run of pages a nested table is made, if it may be, and else the slot is given
/// back.
#[inline(always)]
fn no_run(geometry: Geometry, nests: bool, slot: u32) -> MakeAt
    ensures { result ≡ no_run geometry nests slot }
{
    if nests {
        let take = TakeRun::of_one_page(geometry);
        MakeAt::TakingTop { slot, take }
    } else {
        MakeAt::SlotBack { slot }
    }
}

/// After an operation of the taking of a top page. Where there is none the slot is given back.
#[inline(always)]
fn top_taken(slot: u32, take: TakeRun, old: u64) -> MakeAt
    ensures { result ≡ top_taken slot (take_run_after take old).0 (take_run_after take old).1 }
{
    let (take, next) = take.after(old);
    match next {
        Next::Go => MakeAt::TakingTop { slot, take },
        Next::Done(Some(page)) => MakeAt::NextSerial {
            slot,
            nested: true,
            page,
        },
        Next::Done(None) => MakeAt::SlotBack { slot },
    }
}

/// The shape of a flat table from its first page on, or of a nested one with this top page. The entries
/// of that are so many that each further level is of six bits.
#[inline(always)]
fn shape_made(exponent: u32, nested: bool, page: u32) -> Shape
    ensures { result ≡ shape_made exponent nested page }
{
    let nest = if nested {
        exponent.saturating_sub(1) % 6 + 1
    } else {
        0
    };
    Shape {
        exponent,
        nest,
        page,
    }
}

/// The word of the shape of a table.
#[inline(always)]
fn made_shape(exponent: u32, nested: bool, page: u32) -> u64
    ensures { result ≡ made_shape exponent nested page }
{
    shape_made(exponent, nested, page).into()
}

/// How many pages a flat table takes.
#[inline(always)]
fn made_pages(exponent: u32) -> u32
    ensures { result ≡ made_pages exponent }
{
    table_pages(shape_made(exponent, false, 0))
}

/// The seed of the table with this serial.
#[inline(always)]
fn table_seed(seed: u32, serial: u64) -> u64
    ensures { result ≡ table_seed seed serial }
{
    (u64::from(seed) + serial % (1 << 32)) % (1 << 32)
}
