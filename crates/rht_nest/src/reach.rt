//! Finding the word of a port's bucket, for a call that knows nothing of the tables before this one. It
//! asks for no table behind on its way: where the bucket is missing the call loads the future after that.

ghost use Rattle.std.specs.Prelude.{◌≡◌, ◌<◌};
ghost use Rattle.rht_words.specs.Operations.{op_place};
ghost use Rattle.rht_words.specs.Places.{words_in};
ghost use Rattle.rht_nest.specs.Place.{place_new, place_after, IsPlaceIn, IsPlaceEndIn};
ghost use Rattle.rht_nest.specs.Reach.{reach_new, reach_plan, reach_after, reach_after_at, begun, followed, IsReachAtIn};

use crate::place::{Bucket, Place};
use rht_policy::{Mix, bucket_of};
use rht_words::{Geometry, Next, Op, Port, Start, places};
use std::marker::Model;

/// Where the reaching of a bucket stands. Each state has one operation.
#[derive(Clone, Copy, Debug, PartialEq, Eq)]
pub enum ReachAt {
    /// Loads the shape of the table, which never changes while the table is in use.
    Shape,
    /// Loads its seed, which never changes either, and works out the bucket. In a flat table that is
    /// all.
    Seed { shape: u64 },
    /// Loads the next entry on the way to the bucket of a nested table. Others may enter pages
    /// meanwhile, so a bucket that is found missing may be there soon after.
    Entry { place: Place },
}

/// Finds the word of a port's bucket, or that the bucket is missing. The kernel's counterpart is
/// `rht_bucket`, as `__rhashtable_lookup` calls it.
#[derive(Clone, Copy, Debug, PartialEq, Eq)]
pub struct Reach {
    geometry: Geometry,
    table: u32,
    at: ReachAt,
}

impl Model for Reach {
    ghost use Rattle.std.specs.Prelude.{◌<◌};
    ghost use Rattle.rht_nest.specs.Reach.{ReachModel, IsReachAtIn};

    ghost Value = { ReachModel };

    ghost view = { λ m. record { geometry = m.geometry; table = m.table; at = m.at } };

    ghost inverse = { λ m. record { geometry = m.geometry; table = m.table; at = m.at } };

    ghost invariant = { λ m. (m.table < 8) × IsReachAtIn m.geometry m.at };
}

impl Reach {
    /// Before the shape of this slot's table is loaded.
    #[inline(always)]
    pub fn new(geometry: Geometry, table: u32) -> Reach
        requires { table < 8 }
        ensures { result ≡ reach_new geometry table }
    {
        Reach {
            geometry,
            table,
            at: ReachAt::Shape,
        }
    }

    /// The slot of the table.
    #[inline(always)]
    pub fn table(&self) -> u32
        ensures table { result ≡ self.now.table }
        ensures slot { result < 8 }
    {
        self.table
    }

    /// The machine in another state.
    #[inline(always)]
    pub fn with(&self, at: ReachAt) -> Reach
        requires { IsReachAtIn self.now.geometry at }
        ensures { result ≡ record self.now { at = at } }
    {
        Reach {
            geometry: self.geometry,
            table: self.table,
            at,
        }
    }

    /// The next operation.
    #[inline(always)]
    pub fn plan(&self) -> Op
        ensures plan { result ≡ reach_plan self.now }
        ensures place { op_place result < words_in self.now.geometry }
    {
        match self.at {
            ReachAt::Shape => Op::load(places::shape(self.table)),
            ReachAt::Seed { .. } => Op::load(places::seed(self.table)),
            ReachAt::Entry { place } => place.plan(),
        }
    }

    /// Takes in the word's old value, for this port.
    #[inline(always)]
    pub fn after<M: Mix>(self, port: Port, old: u64) -> (Reach, Next<Bucket>)
        ensures after { result ≡ reach_after M.mix_of port self old }
        ensures found { IsPlaceEndIn self.geometry result.1 }
    {
        after_at::<M>(self, &self.at, port, old)
    }

    /// Once the number of the bucket is known.
    #[inline(always)]
    fn begun(self, shape: u64, bucket: u32) -> (Reach, Next<Bucket>)
        ensures after { result ≡ begun self (place_new self.geometry shape bucket) }
        ensures found { IsPlaceEndIn self.geometry result.1 }
    {
        match Place::new(self.geometry, shape, bucket) {
            Start::Running(place) => (self.with(ReachAt::Entry { place }), Next::Go),
            Start::Done(bucket) => (self, Next::Done(bucket)),
        }
    }

    /// After an entry, which was this.
    #[inline(always)]
    fn followed(self, place: Place, old: u64) -> (Reach, Next<Bucket>)
        requires { IsPlaceIn self.geometry place }
        ensures after { result ≡ followed self (place_after place old).0 (place_after place old).1 }
        ensures found { IsPlaceEndIn self.geometry result.1 }
    {
        let (place, next) = place.after(old);
        match next {
            Next::Go => (self.with(ReachAt::Entry { place }), Next::Go),
            Next::Done(bucket) => (self, Next::Done(bucket)),
        }
    }
}

/// What comes after a state that found this word.
#[inline(always)]
fn after_at<M: Mix>(reach: Reach, at: &ReachAt, port: Port, old: u64) -> (Reach, Next<Bucket>)
    requires { IsReachAtIn reach.geometry at.now }
    ensures after { result ≡ reach_after_at M.mix_of port reach at.now old }
    ensures found { IsPlaceEndIn reach.geometry result.1 }
{
    match *at {
        ReachAt::Shape => (reach.with(ReachAt::Seed { shape: old }), Next::Go),
        ReachAt::Seed { shape } => reach.begun(shape, bucket_of::<M>(port, shape, old)),
        ReachAt::Entry { place } => reach.followed(place, old),
    }
}
