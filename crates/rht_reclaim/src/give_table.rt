//! Giving a retired table back, which nobody can read any more: its pages, and then its slot. Of a nested
//! one a page goes behind the pages to which its entries lead.

ghost use Rattle.std.specs.Prelude.{◌≡◌, ◌<◌};
ghost use Rattle.rht_words.specs.Operations.{op_place};
ghost use Rattle.rht_words.specs.Places.{words_in, IsBucketPlace};
ghost use Rattle.rht_words.specs.Links.{page_of};
ghost use Rattle.rht_arena.specs.GiveRun.{give_run_after};
ghost use Rattle.rht_reclaim.specs.GiveTable.{give_table_new, give_table_plan, give_table_after, give_table_after_at, give_page, entry_at, shape_seen, run_returned, top_seen, leaf_seen, next_top, next_leaf, IsGiveTableAtIn};

use rht_arena::GiveRun;
use rht_nest::{is_deep, is_nested, run_of, top_entries, top_page};
use rht_words::{Geometry, Next, Op, page_of, places};
use std::marker::Model;

/// How many words a page has.
const PAGE_WORDS: u32 = 64;

/// Where the giving back of a retired table stands. Each state but the one that holds a piece has one
/// operation. Nobody else works on the table's words meanwhile.
#[derive(Clone, Copy)]
pub enum GiveTableAt {
    /// Loads the shape of the table, which says where its pages are.
    Shape,
    /// Gives the pages of a flat table back.
    Run {
        give: GiveRun,
    },
    /// Loads an entry of a nested table's top page.
    TopEntry {
        shape: u64,
        top: u32,
    },
    /// Loads an entry of the page of entries to which this one of the top page leads.
    LeafEntry {
        shape: u64,
        top: u32,
        page: u32,
        leaf: u32,
    },
    /// Stores 0 in that entry, which leads to a page of buckets. From here on nothing leads to it.
    ClearLeaf {
        shape: u64,
        top: u32,
        page: u32,
        leaf: u32,
        below: u32,
    },
    /// Gives that page of buckets back.
    GiveLeaf {
        shape: u64,
        top: u32,
        page: u32,
        leaf: u32,
        below: u32,
    },
    /// Stores 0 in an entry of the top page. The page to which it leads has no entries any more.
    ClearTop {
        shape: u64,
        top: u32,
        page: u32,
    },
    /// Gives that page back.
    GivePage {
        shape: u64,
        top: u32,
        page: u32,
    },
    /// Gives the top page back, of which all entries are 0.
    GiveTop {
        shape: u64,
    },
    /// Stores in the slot's state that it is free.
    FreeSlot,
}

/// Gives a retired table back: whoever does so has the work lock, and each section has been left that
/// was open when the table was retired. The kernel's counterpart is `bucket_table_free`, with
/// `nested_bucket_table_free`.
#[derive(Clone, Copy)]
pub struct GiveTable {
    geometry: Geometry,
    slot: u32,
    at: GiveTableAt,
}

impl Model for GiveTable {
    ghost use Rattle.std.specs.Prelude.{◌<◌};
    ghost use Rattle.rht_reclaim.specs.GiveTable.{GiveTableModel, IsGiveTableAtIn};

    ghost Value = { GiveTableModel };

    ghost view = { λ m. record { geometry = m.geometry; slot = m.slot; at = m.at } };

    ghost inverse = { λ m. record { geometry = m.geometry; slot = m.slot; at = m.at } };

    ghost invariant = { λ m. (m.slot < 8) × IsGiveTableAtIn m.geometry m.at };
}

impl GiveTable {
    /// Before the load of the shape of the table in this slot.
    #[inline(always)]
    pub fn new(geometry: Geometry, slot: u32) -> GiveTable
        requires { slot < 8 }
        ensures { result ≡ give_table_new geometry slot }
    {
        GiveTable {
            geometry,
            slot,
            at: GiveTableAt::Shape,
        }
    }

    /// The slot of the table.
    #[inline(always)]
    pub fn slot(&self) -> u32
        ensures slot { result ≡ self.now.slot }
        ensures within { result < 8 }
    {
        self.slot
    }

    /// The machine in another state.
    #[inline(always)]
    pub fn with(&self, at: GiveTableAt) -> GiveTable
        requires { IsGiveTableAtIn self.now.geometry at }
        ensures { result ≡ record self.now { at = at } }
    {
        GiveTable {
            geometry: self.geometry,
            slot: self.slot,
            at,
        }
    }

    /// The next operation.
    #[inline(always)]
    pub fn plan(&self) -> Op
        ensures plan { result ≡ give_table_plan self.now }
        ensures place { op_place result < words_in self.now.geometry }
    {
        let geometry = self.geometry;
        match self.at {
            GiveTableAt::Shape => Op::load(places::shape(self.slot)),
            GiveTableAt::Run { give } => give.plan(),
            GiveTableAt::TopEntry { shape, top } => {
                Op::load(entry_at(geometry, top_page(geometry, shape), top))
            }
            GiveTableAt::LeafEntry { page, leaf, .. } => Op::load(entry_at(geometry, page, leaf)),
            GiveTableAt::ClearLeaf { page, leaf, .. } => {
                Op::store(entry_at(geometry, page, leaf), 0)
            }
            GiveTableAt::GiveLeaf { below, .. } => give_page(geometry, below),
            GiveTableAt::ClearTop { shape, top, .. } => {
                Op::store(entry_at(geometry, top_page(geometry, shape), top), 0)
            }
            GiveTableAt::GivePage { page, .. } => give_page(geometry, page),
            GiveTableAt::GiveTop { shape } => give_page(geometry, top_page(geometry, shape)),
            GiveTableAt::FreeSlot => Op::store(places::state(self.slot), 0),
        }
    }

    /// Takes in the word's old value.
    #[inline(always)]
    pub fn take(&mut self, old: u64) -> Next<()>
        ensures { (self.new, result) ≡ give_table_after self.old old }
    {
        let (machine, next) = self.after(old);
        *self = machine;
        next
    }

    /// As `take`, but by value: for a machine that has this one in a state.
    #[inline(always)]
    pub fn after(self, old: u64) -> (GiveTable, Next<()>)
        ensures after { result ≡ give_table_after self old }
        ensures at { IsGiveTableAtIn self.geometry result.0.at }
    {
        let (at, next) = after_at(self.geometry, &self.at, old);
        (self.with(at), next)
    }
}

/// The place of an entry of a page.
#[inline(always)]
fn entry_at(geometry: Geometry, page: u32, index: u32) -> usize
    requires page { page < geometry.pages }
    requires index { index < 64 }
    ensures place { result ≡ entry_at geometry page index }
    ensures within { IsBucketPlace geometry result }
{
    geometry.page_word(page, index)
}

/// The giving back of one page, which is one operation.
#[inline(always)]
fn give_page(geometry: Geometry, page: u32) -> Op
    requires { page < geometry.pages }
    ensures give { result ≡ give_page geometry page }
    ensures place { op_place result < words_in geometry }
{
    GiveRun::new(geometry, page, 1).plan()
}

/// Where the giving back stands after a state that found this word, and what it says.
#[inline(always)]
#[tactic(auto, using(crate::proofs::GivesStay::give_table_stays_at))]
fn after_at(geometry: Geometry, at: &GiveTableAt, old: u64) -> (GiveTableAt, Next<()>)
    requires { IsGiveTableAtIn geometry at.now }
    ensures after { result ≡ give_table_after_at geometry at.now old }
    ensures at { IsGiveTableAtIn geometry result.0 }
{
    match *at {
        GiveTableAt::Shape => (shape_seen(geometry, old), Next::Go),
        GiveTableAt::Run { give } => (run_returned(give, old), Next::Go),
        GiveTableAt::TopEntry { shape, top } => {
            (top_seen(shape, top, page_of(geometry.pages, old)), Next::Go)
        }
        GiveTableAt::LeafEntry {
            shape,
            top,
            page,
            leaf,
        } => {
            let below = page_of(geometry.pages, old);
            (leaf_seen(shape, top, page, leaf, below), Next::Go)
        }
        GiveTableAt::ClearLeaf {
            shape,
            top,
            page,
            leaf,
            below,
        } => {
            let next = GiveTableAt::GiveLeaf {
                shape,
                top,
                page,
                leaf,
                below,
            };
            (next, Next::Go)
        }
        GiveTableAt::GiveLeaf {
            shape,
            top,
            page,
            leaf,
            ..
        } => (next_leaf(shape, top, page, leaf), Next::Go),
        GiveTableAt::ClearTop { shape, top, page } => {
            (GiveTableAt::GivePage { shape, top, page }, Next::Go)
        }
        GiveTableAt::GivePage { shape, top, .. } => (next_top(shape, top), Next::Go),
        GiveTableAt::GiveTop { .. } => (GiveTableAt::FreeSlot, Next::Go),
        GiveTableAt::FreeSlot => (*at, Next::Done(())),
    }
}

/// After the load of the shape.
#[inline(always)]
fn shape_seen(geometry: Geometry, shape: u64) -> GiveTableAt
    ensures { result ≡ shape_seen geometry shape }
{
    if is_nested(shape) {
        return GiveTableAt::TopEntry { shape, top: 0 };
    }
    let (first, pages) = run_of(geometry, shape);
    GiveTableAt::Run {
        give: GiveRun::new(geometry, first, pages),
    }
}

/// After an operation of the giving back of a flat table's pages.
#[inline(always)]
fn run_returned(give: GiveRun, old: u64) -> GiveTableAt
    ensures { result ≡ run_returned (give_run_after give old).0 (give_run_after give old).1 }
{
    let (give, next) = give.after(old);
    match next {
        Next::Go => GiveTableAt::Run { give },
        Next::Done(()) => GiveTableAt::FreeSlot,
    }
}

/// After the load of an entry of the top page, which leads to this page or to none.
#[inline(always)]
fn top_seen(shape: u64, top: u32, page: Option<u32>) -> GiveTableAt
    requires { top < 64 }
    ensures { result ≡ top_seen shape top page }
{
    match page {
        None => next_top(shape, top),
        Some(page) if is_deep(shape) => GiveTableAt::LeafEntry {
            shape,
            top,
            page,
            leaf: 0,
        },
        Some(page) => GiveTableAt::ClearTop { shape, top, page },
    }
}

/// After the load of an entry of a page of entries, which leads to this page of buckets or to none.
#[inline(always)]
fn leaf_seen(shape: u64, top: u32, page: u32, leaf: u32, below: Option<u32>) -> GiveTableAt
    requires { leaf < 64 }
    ensures { result ≡ leaf_seen shape top page leaf below }
{
    match below {
        None => next_leaf(shape, top, page, leaf),
        Some(below) => GiveTableAt::ClearLeaf {
            shape,
            top,
            page,
            leaf,
            below,
        },
    }
}

/// Behind an entry of the top page the next one is loaded. Behind the last one the top page is given
/// back.
#[inline(always)]
fn next_top(shape: u64, top: u32) -> GiveTableAt
    requires { top < 64 }
    ensures { result ≡ next_top shape top }
{
    if top + 1 < top_entries(shape) {
        GiveTableAt::TopEntry {
            shape,
            top: top + 1,
        }
    } else {
        GiveTableAt::GiveTop { shape }
    }
}

/// Behind an entry of a page of entries the next one is loaded. Behind the last one the page's own entry
/// is cleared.
#[inline(always)]
fn next_leaf(shape: u64, top: u32, page: u32, leaf: u32) -> GiveTableAt
    requires { leaf < 64 }
    ensures { result ≡ next_leaf shape top page leaf }
{
    if leaf + 1 < PAGE_WORDS {
        GiveTableAt::LeafEntry {
            shape,
            top,
            page,
            leaf: leaf + 1,
        }
    } else {
        GiveTableAt::ClearTop { shape, top, page }
    }
}
