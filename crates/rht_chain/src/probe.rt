//! Locking a bucket and walking its chain to the first node with a key.

ghost use Rattle.std.specs.Prelude.{◌≡◌, ◌<◌};
ghost use Rattle.rht_words.specs.Operations.{op_place};
ghost use Rattle.rht_words.specs.Places.{IsBucketPlace, words_in};
ghost use Rattle.rht_chain.specs.Lock.{lock_after};
ghost use Rattle.rht_chain.specs.LockedWalk.{locked_walk_after};
ghost use Rattle.rht_chain.specs.Probe.{probe_new, probe_plan, probe_after, probe_after_at, lock_taken, walk_began, walk_taken, IsProbeAtIn, IsProbeEndIn};

use crate::lock::Lock;
use crate::locked::Locked;
use crate::locked_walk::{LockedWalk, Seen};
use rht_words::{Geometry, Next, Op, Start};
use std::marker::Model;

/// Where a probe stands. Each state holds a piece.
#[derive(Clone, Copy)]
pub enum ProbeAt {
    /// Takes the lock of the bucket.
    Locking { lock: Lock },
    /// Walks the chain of the locked bucket.
    Walking { bucket: Locked, walk: LockedWalk },
}

/// What was seen in a bucket, which stays locked.
#[derive(Clone, Copy, Debug, PartialEq, Eq)]
pub struct Probed {
    /// The bucket.
    pub bucket: Locked,
    /// What the walk has seen.
    pub seen: Seen,
}

/// Locks a bucket and walks its chain. An empty chain is seen with the taking of the lock.
#[derive(Clone, Copy)]
pub struct Probe {
    geometry: Geometry,
    key: u64,
    at: ProbeAt,
}

impl Model for Probe {
    ghost use Rattle.rht_chain.specs.Probe.{ProbeModel, IsProbeAtIn};

    ghost Value = { ProbeModel };

    ghost view = { λ m. record { geometry = m.geometry; key = m.key; at = m.at } };

    ghost inverse = { λ m. record { geometry = m.geometry; key = m.key; at = m.at } };

    ghost invariant = { λ m. IsProbeAtIn m.geometry m.at };
}

impl Probe {
    /// Before the bucket's word, which stands at this place, is loaded.
    #[inline(always)]
    pub fn new(geometry: Geometry, place: usize, key: u64) -> Probe
        requires { IsBucketPlace geometry place }
        ensures { result ≡ probe_new geometry place key }
    {
        Probe {
            geometry,
            key,
            at: ProbeAt::Locking {
                lock: Lock::new(place),
            },
        }
    }

    /// The machine in another state.
    #[inline(always)]
    pub fn with(&self, at: ProbeAt) -> Probe
        requires { IsProbeAtIn self.now.geometry at }
        ensures { result ≡ record self.now { at = at } }
    {
        Probe {
            geometry: self.geometry,
            key: self.key,
            at,
        }
    }

    /// The next operation.
    #[inline(always)]
    pub fn plan(&self) -> Op
        ensures plan { result ≡ probe_plan self.now }
        ensures place { op_place result < words_in self.now.geometry }
    {
        match self.at {
            ProbeAt::Locking { lock } => lock.plan(),
            ProbeAt::Walking { walk, .. } => walk.plan(),
        }
    }

    /// Takes in the word's old value.
    #[inline(always)]
    pub fn take(&mut self, old: u64) -> Next<Probed>
        ensures taken { (self.new, result) ≡ probe_after self.old old }
        ensures seen { IsProbeEndIn self.old.geometry result }
    {
        let (machine, next) = self.after(old);
        *self = machine;
        next
    }

    /// As `take`, but by value: for a machine that has this one in a state.
    #[inline(always)]
    pub fn after(self, old: u64) -> (Probe, Next<Probed>)
        ensures after { result ≡ probe_after self old }
        ensures at { IsProbeAtIn self.geometry result.0.at }
        ensures seen { IsProbeEndIn self.geometry result.1 }
    {
        let (at, next) = after_at(self.geometry, self.key, &self.at, old);
        (self.with(at), next)
    }
}

/// Where the probe stands after a state that found this word, and what it says.
#[inline(always)]
#[tactic(auto, using(crate::proofs::PiecesStay::probe_stays_at))]
fn after_at(geometry: Geometry, key: u64, at: &ProbeAt, old: u64) -> (ProbeAt, Next<Probed>)
    requires { IsProbeAtIn geometry at.now }
    ensures after { result ≡ probe_after_at geometry key at.now old }
    ensures at { IsProbeAtIn geometry result.0 }
    ensures seen { IsProbeEndIn geometry result.1 }
{
    match *at {
        ProbeAt::Locking { lock } => lock_taken(geometry, key, lock, old),
        ProbeAt::Walking { bucket, walk } => walk_taken(bucket, walk, old),
    }
}

/// After an operation of the lock: where it was taken the walk begins.
#[inline(always)]
fn lock_taken(geometry: Geometry, key: u64, lock: Lock, old: u64) -> (ProbeAt, Next<Probed>)
    ensures { result ≡ lock_taken geometry key (lock_after lock old).0 (lock_after lock old).1 }
{
    let (lock, next) = lock.after(old);
    match next {
        Next::Go => (ProbeAt::Locking { lock }, Next::Go),
        Next::Done(word) => walk_began(geometry, key, lock, word),
    }
}

/// The walk of the bucket that has just been locked, whose word was this one.
#[inline(always)]
pub fn walk_began(geometry: Geometry, key: u64, lock: Lock, word: u64) -> (ProbeAt, Next<Probed>)
    ensures { result ≡ walk_began geometry key lock record { place = lock.place; word = word } }
{
    let place = lock.place();
    let bucket = Locked { place, word };
    match LockedWalk::new(geometry, place, word, key) {
        Start::Running(walk) => (ProbeAt::Walking { bucket, walk }, Next::Go),
        Start::Done(seen) => (
            ProbeAt::Locking { lock },
            Next::Done(Probed { bucket, seen }),
        ),
    }
}

/// After an operation of the walk: where it has ended it is told what was seen.
#[inline(always)]
fn walk_taken(bucket: Locked, walk: LockedWalk, old: u64) -> (ProbeAt, Next<Probed>)
    ensures { result ≡ walk_taken bucket (locked_walk_after walk old).0 (locked_walk_after walk old).1 }
{
    let (walk, next) = walk.after(old);
    let at = ProbeAt::Walking { bucket, walk };
    match next {
        Next::Go => (at, Next::Go),
        Next::Done(seen) => (at, Next::Done(Probed { bucket, seen })),
    }
}
