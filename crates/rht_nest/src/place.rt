//! Where the word of a bucket is. A flat table's bucket is found without an operation; the way to a
//! nested table's leads over entries, each of which is a word of a page.

ghost use Rattle.std.specs.Prelude.{◌≡◌, ◌<◌, ◌≤◌};
ghost use Rattle.rht_words.specs.Operations.{op_place};
ghost use Rattle.rht_words.specs.Places.{words_in, IsBucketPlace};
ghost use Rattle.rht_nest.specs.Place.{flat_place, top_page, top_entries, is_deep, nested_place, place_new, place_plan, entry_place, entered, place_after, IsPlaceStartIn, IsPlaceEndIn, IsEnteredIn};

use crate::tables::is_nested;
use rht_words::{Geometry, Next, Op, Shape, Start, page_of};
use std::marker::Model;

/// The low bits of a bucket's number that pick a word of a page, of which there are 64.
const PAGE_BITS: u32 = 6;

/// The binary exponent of the least size with two levels of entries.
const DEEP: u32 = 13;

/// Where a bucket was found to be.
#[derive(Clone, Copy, Debug, PartialEq, Eq)]
pub enum Bucket {
    /// At this place is its word.
    At(usize),
    /// The entry at this place leads to no page, so the bucket is empty and has no word.
    Absent(usize),
}

/// Finds the place of a bucket's word in a nested table. An entry that leads to a page does so for as
/// long as the table is in use. The kernel's counterpart is `__rht_bucket_nested`.
#[derive(Clone, Copy, Debug, PartialEq, Eq)]
pub struct Place {
    geometry: Geometry,
    entry: u32,
    rest: u32,
    deep: bool,
}

impl Model for Place {
    ghost use Rattle.std.specs.Prelude.{◌*◌, ◌<◌};
    ghost use Rattle.rht_nest.specs.Place.{PlaceModel};

    ghost Value = { PlaceModel };

    ghost view = { λ m. record { geometry = m.geometry; entry = m.entry; rest = m.rest; deep = m.deep } };

    ghost inverse = { λ m. record { geometry = m.geometry; entry = m.entry; rest = m.rest; deep = m.deep } };

    ghost invariant = { λ m. m.entry < 64 * m.geometry.pages };
}

impl Place {
    /// Before the first entry on the way to the bucket in a table of this shape. In a flat table the
    /// bucket is known at once.
    #[inline(always)]
    pub fn new(geometry: Geometry, shape: u64, bucket: u32) -> Start<Place, Bucket>
        ensures begins { result ≡ place_new geometry shape bucket }
        ensures found { IsPlaceStartIn geometry result }
    {
        if is_nested(shape) {
            Start::Running(Place::nested(geometry, shape, bucket))
        } else {
            Start::Done(Bucket::At(flat_place(geometry, shape, bucket)))
        }
    }

    /// The same where the table is known to be nested. A top page past the last one is read as the
    /// last.
    #[inline(always)]
    #[tactic(auto, using(crate::proofs::Places::top_entry_in))]
    pub fn nested(geometry: Geometry, shape: u64, bucket: u32) -> Place
        ensures { result ≡ nested_place geometry shape bucket }
    {
        let entries = top_entries(shape);
        Place {
            geometry,
            entry: 64 * top_page(geometry, shape) + bucket % entries,
            rest: bucket / entries,
            deep: is_deep(shape),
        }
    }

    /// The place of the entry that is looked at next.
    #[inline(always)]
    pub fn entry(&self) -> usize
        ensures place { result ≡ entry_place self.now }
        ensures within { IsBucketPlace self.now.geometry result }
    {
        self.geometry.page_word(0, self.entry)
    }

    /// Loads that entry.
    #[inline(always)]
    pub fn plan(&self) -> Op
        ensures plan { result ≡ place_plan self.now }
        ensures place { op_place result < words_in self.now.geometry }
    {
        Op::load(self.entry())
    }

    /// Takes in the entry's old value.
    #[inline(always)]
    pub fn take(&mut self, old: u64) -> Next<Bucket>
        ensures taken { (self.new, result) ≡ place_after self.old old }
        ensures found { IsPlaceEndIn self.old.geometry result }
    {
        let (machine, next) = self.after(old);
        *self = machine;
        next
    }

    /// As `take`, but by value: for a machine that has this one in a state.
    #[inline(always)]
    pub fn after(self, old: u64) -> (Place, Next<Bucket>)
        ensures after { result ≡ place_after self old }
        ensures geometry { result.0.geometry ≡ self.geometry }
        ensures found { IsPlaceEndIn self.geometry result.1 }
    {
        let Some(page) = page_of(self.geometry.pages, old) else {
            return (self, Next::Done(Bucket::Absent(self.entry())));
        };
        match self.entered(page) {
            Start::Running(next) => (next, Next::Go),
            Start::Done(place) => (self, Next::Done(Bucket::At(place))),
        }
    }

    /// The way on once the entry leads to this page: the next entry, or the place of the bucket's
    /// word.
    #[inline(always)]
    pub fn entered(self, page: u32) -> Start<Place, usize>
        requires { page < self.geometry.pages }
        ensures entered { result ≡ entered self page }
        ensures found { IsEnteredIn self.geometry result }
    {
        let word = 64 * page + self.rest % 64;
        if self.deep {
            Start::Running(Place {
                geometry: self.geometry,
                entry: word,
                rest: self.rest / 64,
                deep: false,
            })
        } else {
            Start::Done(self.geometry.page_word(0, word))
        }
    }
}

/// The top page of the nested table of this shape. One past the last is read as the last.
#[inline(always)]
pub fn top_page(geometry: Geometry, shape: u64) -> u32
    ensures page { result ≡ top_page geometry shape }
    ensures within { result < geometry.pages }
{
    Shape::from(shape).page.min(geometry.pages - 1)
}

/// How many entries of its top page are in use.
#[inline(always)]
#[tactic(auto, using(crate::proofs::Places::few_entries, crate::proofs::Places::some_entries))]
pub fn top_entries(shape: u64) -> u32
    ensures entries { result ≡ top_entries shape }
    ensures some { 0 < result }
    ensures few { result ≤ 64 }
{
    1 << Shape::from(shape).nest.min(PAGE_BITS)
}

/// Whether there is a page of entries between its top page and each page of buckets.
#[inline(always)]
pub fn is_deep(shape: u64) -> bool
    ensures { result ≡ is_deep shape }
{
    DEEP <= Shape::from(shape).exponent
}

/// The place of a bucket's word in a flat table of this shape. Behind the last page, where no table
/// has a bucket, it is that page's last word.
#[inline(always)]
pub fn flat_place(geometry: Geometry, shape: u64, bucket: u32) -> usize
    ensures place { result ≡ flat_place geometry shape bucket }
    ensures within { IsBucketPlace geometry result }
{
    let index = 64 * u64::from(Shape::from(shape).page) + u64::from(bucket);
    let last = u64::from(64 * geometry.pages - 1);
    geometry.page_word(0, index.min(last) as u32)
}
