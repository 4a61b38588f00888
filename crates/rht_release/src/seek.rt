//! The way to a port: through the tables, to the bucket in which it is found.

ghost use Rattle.std.specs.Prelude.{◌≡◌, ◌<◌, IfSome};
ghost use Rattle.rht_words.specs.Operations.{op_place};
ghost use Rattle.rht_words.specs.Places.{words_in};
ghost use Rattle.rht_nest.specs.Locate.{locate_after, IsLocatedBucketIn, IsLocateIn};
ghost use Rattle.rht_chain.specs.Probe.{probe_after};
ghost use Rattle.rht_release.specs.Seek.{seek_new, seek_plan, seek_after, seek_after_at, locating, located, bucket_or_early, early_or_none, probed, found_or_future, leaving, left, IsSeekAtIn, IsSeekEndIn};

use crate::found_port::FoundPort;
use rht_chain::{Locked, Probe, Probed, Unlock};
use rht_nest::{Locate, LocatedBucket};
use rht_policy::Mix;
use rht_words::{Geometry, Next, Op, Port, places, slot_of, table_of, word_of};
use std::marker::Model;

/// Where the way to a port stands. Each state but those that hold a piece has one operation.
#[derive(Clone, Copy)]
pub enum SeekAt {
    /// Loads which table is the current one.
    CurrentTable,
    /// Finds the port's bucket in a table. In a nested one it may be missing: the page with its word
    /// isn't there, so nothing was ever in it. Then the way goes on in the table behind, which was
    /// loaded before the entries. Where there was none, no table bound the port at that load: somebody
    /// may have bound it since.
    Locating {
        locate: Locate,
    },
    /// Locks the bucket and walks its chain, for which the kernel has `rhashtable_lookup_one`.
    Probing {
        table: u32,
        shape: u64,
        probe: Probe,
    },
    /// Loads the future of a table in which the port wasn't found. Where there is none, no table
    /// binds the port at this moment, and none will while this bucket is locked.
    Future {
        table: u32,
        bucket: Locked,
    },
    /// Unlocks a bucket in which the port wasn't found.
    Leaving {
        table: u32,
        unlock: Unlock,
        future: Option<u32>,
    },
}

/// Finds a port and locks its bucket. The answer is none where no table binds it, and then no
/// bucket is locked. The kernel's counterpart is the loop over the tables in
/// `__rhashtable_remove_fast`.
#[derive(Clone, Copy)]
pub struct Seek {
    geometry: Geometry,
    at: SeekAt,
}

impl Model for Seek {
    ghost use Rattle.rht_release.specs.Seek.{SeekModel, IsSeekAtIn};

    ghost Value = { SeekModel };

    ghost view = { λ m. record { geometry = m.geometry; at = m.at } };

    ghost inverse = { λ m. record { geometry = m.geometry; at = m.at } };

    ghost invariant = { λ m. IsSeekAtIn m.geometry m.at };
}

impl Seek {
    /// Before the first operation.
    #[inline(always)]
    pub fn new(geometry: Geometry) -> Seek
        ensures { result ≡ seek_new geometry }
    {
        Seek {
            geometry,
            at: SeekAt::CurrentTable,
        }
    }

    /// The machine in another state.
    #[inline(always)]
    pub fn with(&self, at: SeekAt) -> Seek
        requires { IsSeekAtIn self.now.geometry at }
        ensures { result ≡ record self.now { at = at } }
    {
        Seek {
            geometry: self.geometry,
            at,
        }
    }

    /// The next operation.
    #[inline(always)]
    pub fn plan(&self) -> Op
        ensures plan { result ≡ seek_plan self.now }
        ensures place { op_place result < words_in self.now.geometry }
    {
        match self.at {
            SeekAt::CurrentTable => Op::load(places::current_table()),
            SeekAt::Locating { locate } => locate.plan(),
            SeekAt::Probing { probe, .. } => probe.plan(),
            SeekAt::Future { table, .. } => Op::load(places::future(table)),
            SeekAt::Leaving { unlock, .. } => unlock.plan(),
        }
    }

    /// Takes in the word's old value, for this port.
    #[inline(always)]
    pub fn after<M: Mix>(self, port: Port, old: u64) -> (Seek, Next<Option<FoundPort>>)
        ensures after { result ≡ seek_after M.mix_of port self old }
        ensures at { IsSeekAtIn self.geometry result.0.at }
        ensures found { IsSeekEndIn self.geometry result.1 }
    {
        let (at, next) = after_at::<M>(self.geometry, port, &self.at, old);
        (self.with(at), next)
    }
}

/// Where the way stands after a state that found this word, and what it says.
#[inline(always)]
#[tactic(auto, using(crate::proofs::SeekStays::seek_stays_at))]
fn after_at<M: Mix>(
    geometry: Geometry,
    port: Port,
    at: &SeekAt,
    old: u64,
) -> (SeekAt, Next<Option<FoundPort>>)
    requires { IsSeekAtIn geometry at.now }
    ensures after { result ≡ seek_after_at M.mix_of geometry port at.now old }
    ensures at { IsSeekAtIn geometry result.0 }
    ensures found { IsSeekEndIn geometry result.1 }
{
    match *at {
        SeekAt::CurrentTable => (locating(geometry, table_of(old)), Next::Go),
        SeekAt::Locating { locate } => located::<M>(geometry, port, locate, old),
        SeekAt::Probing {
            table,
            shape,
            probe,
        } => probed(table, shape, probe, old),
        SeekAt::Future { table, bucket } => (leaving(table, bucket, slot_of(old)), Next::Go),
        SeekAt::Leaving {
            table,
            unlock,
            future,
        } => left(geometry, table, unlock, future),
    }
}

/// The port's bucket in the table of this slot is looked for.
#[inline(always)]
pub fn locating(geometry: Geometry, table: u32) -> SeekAt
    requires { table < 8 }
    ensures { result ≡ locating geometry table }
{
    SeekAt::Locating {
        locate: Locate::new(geometry, table),
    }
}

/// After an operation that looks for the bucket: once it is known it is locked.
#[inline(always)]
fn located<M: Mix>(
    geometry: Geometry,
    port: Port,
    locate: Locate,
    old: u64,
) -> (SeekAt, Next<Option<FoundPort>>)
    requires { IsLocateIn geometry locate }
    ensures { result ≡ located geometry port (locate_after M.mix_of port locate old).0 (locate_after M.mix_of port locate old).1 }
{
    let (locate, next) = locate.after::<M>(port, old);
    match next {
        Next::Go => (SeekAt::Locating { locate }, Next::Go),
        Next::Done(there) => bucket_or_early(geometry, port, locate, there.shape, there.bucket),
    }
}

/// The locking of the port's bucket. One that is missing is empty.
#[inline(always)]
pub fn bucket_or_early(
    geometry: Geometry,
    port: Port,
    locate: Locate,
    shape: u64,
    bucket: LocatedBucket,
) -> (SeekAt, Next<Option<FoundPort>>)
    requires { IsLocatedBucketIn geometry bucket }
    ensures { result ≡ bucket_or_early geometry port locate shape bucket }
{
    match bucket {
        LocatedBucket::At(place) => {
            let probing = SeekAt::Probing {
                table: locate.table(),
                shape,
                probe: Probe::new(geometry, place, word_of(port)),
            };
            (probing, Next::Go)
        }
        LocatedBucket::Missing { early, .. } => early_or_none(geometry, locate, early),
    }
}

/// Behind a missing bucket the way goes on in the table that was behind before. Where none was, no
/// table binds the port.
#[inline(always)]
pub fn early_or_none(
    geometry: Geometry,
    locate: Locate,
    early: Option<u32>,
) -> (SeekAt, Next<Option<FoundPort>>)
    requires { IfSome early (λ next. next < 8) }
    ensures { result ≡ early_or_none geometry locate early }
{
    match early {
        Some(next) => (locating(geometry, next), Next::Go),
        None => (SeekAt::Locating { locate }, Next::Done(None)),
    }
}

/// After an operation in the bucket: where it has ended, what was seen is looked at.
#[inline(always)]
fn probed(table: u32, shape: u64, probe: Probe, old: u64) -> (SeekAt, Next<Option<FoundPort>>)
    ensures { result ≡ probed table shape (probe_after probe old).0 (probe_after probe old).1 }
{
    let (probe, next) = probe.after(old);
    match next {
        Next::Go => {
            let probing = SeekAt::Probing {
                table,
                shape,
                probe,
            };
            (probing, Next::Go)
        }
        Next::Done(end) => found_or_future(table, shape, probe, end),
    }
}

/// Where the port was found the way has ended, and else the table's future is loaded.
#[inline(always)]
pub fn found_or_future(
    table: u32,
    shape: u64,
    probe: Probe,
    end: Probed,
) -> (SeekAt, Next<Option<FoundPort>>)
    ensures { result ≡ found_or_future table shape probe end end.seen.found }
{
    let bucket = end.bucket;
    let Some(node) = end.seen.found else {
        return (SeekAt::Future { table, bucket }, Next::Go);
    };
    let probing = SeekAt::Probing {
        table,
        shape,
        probe,
    };
    let found = FoundPort {
        table,
        shape,
        bucket,
        node,
        before: end.seen.before,
    };
    (probing, Next::Done(Some(found)))
}

/// The unlocking of a bucket in which the port wasn't found, and what comes after it.
#[inline(always)]
pub fn leaving(table: u32, bucket: Locked, future: Option<u32>) -> SeekAt
    ensures { result ≡ leaving table bucket future }
{
    SeekAt::Leaving {
        table,
        unlock: Unlock::new(bucket.place, bucket.word),
        future,
    }
}

/// Behind the unlocking the way goes on in the future table. Where there is none, no table binds
/// the port.
#[inline(always)]
pub fn left(
    geometry: Geometry,
    table: u32,
    unlock: Unlock,
    future: Option<u32>,
) -> (SeekAt, Next<Option<FoundPort>>)
    requires { IfSome future (λ next. next < 8) }
    ensures { result ≡ left geometry table unlock future }
{
    match future {
        Some(next) => (locating(geometry, next), Next::Go),
        None => {
            let leaving = SeekAt::Leaving {
                table,
                unlock,
                future,
            };
            (leaving, Next::Done(None))
        }
    }
}
