//! Finding the word of a port's bucket in the table of a slot.

ghost use Rattle.std.specs.Prelude.{◌≡◌, ◌<◌};
ghost use Rattle.rht_words.specs.Operations.{op_place};
ghost use Rattle.rht_words.specs.Places.{words_in};
ghost use Rattle.rht_words.specs.declared.machine.Next.{Next};
ghost use Rattle.rht_nest.specs.Locate.{locate_new, locate_plan, locate_after, locate_after_at, hashed, entry_followed, IsEntryIn, IsLocateAtIn, IsLocateEndIn};
ghost use Rattle.rht_nest.specs.Place.{place_after};

use crate::place::{Bucket, Place, flat_place};
use crate::tables::is_nested;
use rht_policy::{Mix, bucket_of};
use rht_words::{Geometry, Next, Op, Port, places, slot_of};
use std::marker::Model;

/// Where the finding of a bucket stands. Each state has one operation.
#[derive(Clone, Copy, Debug, PartialEq, Eq)]
pub enum LocateAt {
    /// Loads the shape of the table, which never changes while the table is in use.
    Shape,
    /// Loads its seed, which never changes either, and works out the bucket. In a flat table that is
    /// all.
    Seed {
        shape: u64,
    },
    /// Loads the future of a nested table, before the entries on the way to the bucket are looked at.
    /// Where the bucket turns out to be missing, this is what counts: where no table is behind at this
    /// moment, the port is bound in none, unless the bucket is there by then.
    Early {
        shape: u64,
        place: Place,
    },
    /// Loads the next entry.
    Entry {
        shape: u64,
        early: Option<u32>,
        place: Place,
    },
}

/// Where the bucket is.
#[derive(Clone, Copy, Debug, PartialEq, Eq)]
pub enum LocatedBucket {
    /// At this place is its word.
    At(usize),
    /// It is missing, and so is empty: the way to it stands at an entry that leads to no page. The
    /// table behind, by the load before the entries; none where there was none.
    Missing { place: Place, early: Option<u32> },
}

/// Where a port's bucket is.
#[derive(Clone, Copy, Debug, PartialEq, Eq)]
pub struct Located {
    /// The table's shape.
    pub shape: u64,
    /// The bucket.
    pub bucket: LocatedBucket,
}

/// Finds the word of a port's bucket. The kernel's counterpart is `rht_bucket`.
#[derive(Clone, Copy, Debug, PartialEq, Eq)]
pub struct Locate {
    geometry: Geometry,
    table: u32,
    at: LocateAt,
}

impl Model for Locate {
    ghost use Rattle.std.specs.Prelude.{◌<◌};
    ghost use Rattle.rht_nest.specs.Locate.{LocateModel, IsLocateAtIn};

    ghost Value = { LocateModel };

    ghost view = { λ m. record { geometry = m.geometry; table = m.table; at = m.at } };

    ghost inverse = { λ m. record { geometry = m.geometry; table = m.table; at = m.at } };

    ghost invariant = { λ m. (m.table < 8) × IsLocateAtIn m.geometry m.at };
}

impl Locate {
    /// Before the shape of this slot's table is loaded.
    #[inline(always)]
    pub fn new(geometry: Geometry, table: u32) -> Locate
        requires { table < 8 }
        ensures { result ≡ locate_new geometry table }
    {
        Locate {
            geometry,
            table,
            at: LocateAt::Shape,
        }
    }

    /// The slot of the table.
    #[inline(always)]
    pub fn table(&self) -> u32
        ensures table { result ≡ self.now.table }
        ensures slot { result < 8 }
    {
        self.table
    }

    /// The machine in another state.
    #[inline(always)]
    pub fn with(&self, at: LocateAt) -> Locate
        requires { IsLocateAtIn self.now.geometry at }
        ensures { result ≡ record self.now { at = at } }
    {
        Locate {
            geometry: self.geometry,
            table: self.table,
            at,
        }
    }

    /// The next operation.
    #[inline(always)]
    pub fn plan(&self) -> Op
        ensures plan { result ≡ locate_plan self.now }
        ensures place { op_place result < words_in self.now.geometry }
    {
        match self.at {
            LocateAt::Shape => Op::load(places::shape(self.table)),
            LocateAt::Seed { .. } => Op::load(places::seed(self.table)),
            LocateAt::Early { .. } => Op::load(places::future(self.table)),
            LocateAt::Entry { place, .. } => place.plan(),
        }
    }

    /// Takes in the word's old value, for this port.
    #[inline(always)]
    pub fn after<M: Mix>(self, port: Port, old: u64) -> (Locate, Next<Located>)
        ensures after { result ≡ locate_after M.mix_of port self old }
        ensures found { IsLocateEndIn self.geometry result.1 }
    {
        after_at::<M>(self, &self.at, port, old)
    }

    /// Once the number of the bucket is known.
    #[inline(always)]
    fn hashed(self, shape: u64, bucket: u32) -> (Locate, Next<Located>)
        ensures after { result ≡ hashed self shape bucket }
        ensures found { IsLocateEndIn self.geometry result.1 }
    {
        if is_nested(shape) {
            let place = Place::nested(self.geometry, shape, bucket);
            (self.with(LocateAt::Early { shape, place }), Next::Go)
        } else {
            let bucket = LocatedBucket::At(flat_place(self.geometry, shape, bucket));
            (self, Next::Done(Located { shape, bucket }))
        }
    }

    /// After an entry, which was this.
    #[inline(always)]
    fn entry_followed(
        self,
        shape: u64,
        early: Option<u32>,
        place: Place,
        old: u64,
    ) -> (Locate, Next<Located>)
        requires { IsEntryIn self.geometry shape early place }
        ensures after { result ≡ entry_followed self shape early (place_after place old).0 (place_after place old).1 }
        ensures found { IsLocateEndIn self.geometry result.1 }
    {
        let (place, next) = place.after(old);
        let bucket = match next {
            Next::Go => {
                let at = LocateAt::Entry {
                    shape,
                    early,
                    place,
                };
                return (self.with(at), Next::Go);
            }
            Next::Done(Bucket::At(place)) => LocatedBucket::At(place),
            Next::Done(Bucket::Absent(_)) => LocatedBucket::Missing { place, early },
        };
        (self, Next::Done(Located { shape, bucket }))
    }
}

/// What comes after a state that found this word.
#[inline(always)]
fn after_at<M: Mix>(locate: Locate, at: &LocateAt, port: Port, old: u64) -> (Locate, Next<Located>)
    requires { IsLocateAtIn locate.geometry at.now }
    ensures after { result ≡ locate_after_at M.mix_of port locate at.now old }
    ensures found { IsLocateEndIn locate.geometry result.1 }
{
    match *at {
        LocateAt::Shape => (locate.with(LocateAt::Seed { shape: old }), Next::Go),
        LocateAt::Seed { shape } => locate.hashed(shape, bucket_of::<M>(port, shape, old)),
        LocateAt::Early { shape, place } => {
            let early = slot_of(old);
            let entry = LocateAt::Entry {
                shape,
                early,
                place,
            };
            (locate.with(entry), Next::Go)
        }
        LocateAt::Entry {
            shape,
            early,
            place,
        } => locate.entry_followed(shape, early, place, old),
    }
}
