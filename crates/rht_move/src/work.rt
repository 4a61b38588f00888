//! The worker, state by state: it gives back the tables that nobody can read any more, attaches one
//! where that is due, and moves the current table's entries to its future one.

ghost use Rattle.std.specs.Prelude.{◌≡◌, ◌<◌};
ghost use Rattle.rht_words.specs.Operations.{op_place};
ghost use Rattle.rht_words.specs.Places.{words_in};
ghost use Rattle.rht_chain.specs.LockedWalk.{IsNodeOrNone};
ghost use Rattle.rht_move.specs.Work.{work_new, work_plan, work_after, after_at, cut_plan, lock_seen, reply_of, IsWorkAtIn};

pub mod attaching;
pub mod choice;
pub mod ending;
pub mod moving;
pub mod reclaiming;

use crate::last_entry::{Entry, LastEntry};
use crate::last_table::{Last, LastTable};
use crate::rehash::{Emptying, Rehash, Second, Target};
use crate::work::attaching::{attached, counted, future_or_idle, last_seen, made, seeking, unmade};
use crate::work::ending::{Ending, closed};
use crate::work::moving::{
    bucket_of_root, cut_off, entry_passed, entry_table_seen, first_entry, keyed, locked, retiring,
    second_locked, unlocked_bucket, walked,
};
use crate::work::reclaiming::{keeping, kept, returned, returning};
use rht_chain::{Lock, Unlock};
use rht_grace::{Enter, Leave};
use rht_model::Reply;
use rht_nest::{Make, Place, Unmake};
use rht_policy::Mix;
use rht_reclaim::{KeepSections, ReturnTables};
use rht_words::{
    Env, Geometry, Next, Op, future_of, head_of, link_of, marker_of, places, slot_of, table_of,
};
use std::marker::{Model, PhantomData};

/// A table that is due behind the last one.
#[derive(Clone, Copy, Debug, PartialEq, Eq)]
pub struct Wanted {
    /// The slot of the current table.
    pub root: u32,
    /// The last table.
    pub last: Last,
    /// How many buckets the table is to have.
    pub size: u32,
}

/// What is known of a table that is due behind the last one.
#[derive(Clone, Copy, Debug, PartialEq, Eq)]
pub enum Due {
    /// No table was due.
    Nothing,
    /// A table was due, and is attached.
    Attached,
    /// A table is due, and isn't attached in this call.
    Later,
}

/// How a call ends that has had the work lock.
#[derive(Clone, Copy, Debug, PartialEq, Eq)]
pub enum Outcome {
    /// Nothing was to be done.
    Idle,
    /// A table of this size was due, and couldn't be had.
    NoTable { size: u32 },
    /// Entries were moved; with `again`, there is more to do, as where the move stopped before a nested
    /// table.
    Moved { again: bool },
}

/// Where a worker stands. Each state but those that hold a piece has one operation. All but the
/// first have the work lock: nobody else stores the current table, retires a table, gives one back
/// that was attached, or moves an entry, while others bind, release and attach tables.
#[derive(Clone, Copy)]
pub enum WorkAt {
    /// Takes the work lock, where nobody has it. This and the states up to `RootShape` are those of
    /// `rht_deferred_worker`.
    WorkLock,
    /// Gives back the retired tables that nobody can read any more. Others open and leave sections
    /// meanwhile, from which they can't come to these tables.
    Returning {
        returns: ReturnTables,
    },
    /// Opens the read section, by one more in its caller's section word.
    Opening,
    /// Loads which table is the current one.
    CurrentTable,
    /// Finds the last table, from the current one on.
    LastTable {
        root: u32,
        seek: LastTable,
    },
    /// Loads how many ports are bound, by which it chooses whether a table is due.
    Count {
        root: u32,
        last: Last,
    },
    /// Makes the table that is due, which nobody else knows.
    Making {
        wanted: Wanted,
        make: Make,
    },
    /// Attaches it behind the last table, where nobody else has attached one there. For this the
    /// kernel has `rhashtable_rehash_attach`.
    Attaching {
        root: u32,
        last: u32,
        slot: u32,
        shape: u64,
    },
    /// Gives the table back, since another one was attached.
    Unmaking {
        root: u32,
        unmake: Unmake,
    },
    /// Loads the future of the current table, to which its entries are moved. Once there is one, it
    /// stays.
    RootFuture {
        root: u32,
        due: Due,
    },
    /// Loads the shape of the current table.
    RootShape {
        root: u32,
        future: u32,
        again: bool,
    },
    /// Loads an entry on the way to a bucket of the current table, where that is nested. A bucket that
    /// is missing is empty, and is passed by. This and the states up to `Unlocking` are those of
    /// `rhashtable_rehash_chain`.
    Entry {
        rehash: Rehash,
        number: u32,
        place: Place,
    },
    /// Locks a bucket of the current table.
    Locking {
        rehash: Rehash,
        number: u32,
        lock: Lock,
    },
    /// Finds the last table, to which the bucket's last entry is moved: others may have attached one
    /// since the entry before.
    EntryTable {
        emptying: Emptying,
        seek: LastTable,
    },
    /// Loads the seed of that table. This and the states up to `CuttingOff` are those of
    /// `rhashtable_rehash_one`.
    Seed {
        emptying: Emptying,
        last: Last,
    },
    /// Loads the word of the locked bucket, which nobody else changes.
    BucketWord {
        emptying: Emptying,
        target: Target,
    },
    /// Walks to the bucket's last entry.
    Walking {
        emptying: Emptying,
        target: Target,
        walk: LastEntry,
    },
    /// Loads the key of that entry.
    Key {
        emptying: Emptying,
        target: Target,
        entry: Entry,
    },
    /// Locks the bucket of the key in the table behind, the slot of which is this.
    LockingSecond {
        emptying: Emptying,
        entry: Entry,
        table: u32,
        lock: Lock,
    },
    /// Stores the second bucket's first link in the entry, which is still in the first bucket's
    /// chain: both chains have one end from here on.
    EntryLink {
        emptying: Emptying,
        entry: Entry,
        second: Second,
    },
    /// Makes the entry the second bucket's first, and unlocks that. The entry is in both chains from
    /// here on.
    Linking {
        emptying: Emptying,
        entry: Entry,
        second: Second,
    },
    /// Ends the first bucket's chain before the entry. Others may have changed the second bucket's
    /// chain since it was unlocked.
    CuttingOff {
        emptying: Emptying,
        entry: Entry,
    },
    /// Unlocks the bucket, which is empty, or keeps what can't be moved now.
    Unlocking {
        rehash: Rehash,
        number: u32,
        unlock: Unlock,
        stop: bool,
    },
    /// Stores that the future table is the current one, since all buckets are empty. This and the
    /// states behind it are those of `rhashtable_rehash_table`.
    Publishing {
        rehash: Rehash,
    },
    /// Loads the future of the new current table.
    NewFuture {
        rehash: Rehash,
    },
    /// Closes the read section, by one more in the section word.
    Closing {
        ending: Ending,
    },
    /// Stores that the table before is retired. A section that was opened behind the publishing can't
    /// come to it.
    Retiring {
        root: u32,
        again: bool,
    },
    /// Keeps the section words of all callers in its slot. By these a later worker tells whether the
    /// table can be given back. This begins its grace period, as `call_rcu` does.
    KeepingSections {
        keep: KeepSections,
        again: bool,
    },
    /// Lets go of the work lock.
    LettingGo {
        outcome: Outcome,
    },
}

/// A resize, where one is due. The answers are `Elsewhere`, `Idle`, `NoTable` and `Moved`. The
/// kernel's counterpart is `rht_deferred_worker`.
#[derive(Drop)]
pub struct Work<M: Mix> {
    env: Env,
    caller: u32,
    at: WorkAt,
    mix: PhantomData<M>,
}

impl<M: Mix> Model for Work<M> {
    ghost use Rattle.std.specs.Prelude.{◌<◌};
    ghost use Rattle.rht_move.specs.Work.{WorkModel, IsWorkAtIn};

    ghost Value = { WorkModel };

    ghost view = { λ m. record { env = m.env; caller = m.caller; at = m.at } };

    ghost invariant = { λ m. (m.caller < 16) × IsWorkAtIn m.env m.at };
}

impl<M: Mix> Work<M> {
    /// Before the first operation.
    #[inline(always)]
    pub fn new(env: Env, caller: u32) -> Work<M>
        requires { caller < 16 }
        ensures { result ≡ work_new env caller }
    {
        Work {
            env,
            caller,
            at: WorkAt::WorkLock,
            mix: PhantomData,
        }
    }

    /// The worker in another state.
    #[inline(always)]
    pub fn with(&self, at: WorkAt) -> Work<M>
        requires { IsWorkAtIn self.now.env at }
        ensures { result ≡ record self.now { at = at } }
    {
        Work { at, ..*self }
    }

    /// The next operation.
    #[inline(always)]
    pub fn plan(&self) -> Op
        ensures plan { result ≡ work_plan self.now }
        ensures place { op_place result < words_in self.now.env.geometry }
    {
        let geometry = self.env.geometry;
        match self.at {
            WorkAt::WorkLock => Op::exchange(places::work_lock(), 0, 1),
            WorkAt::Returning { returns } => returns.plan(),
            WorkAt::Opening => Enter::new(self.caller).plan(),
            WorkAt::CurrentTable => Op::load(places::current_table()),
            WorkAt::LastTable { seek, .. } | WorkAt::EntryTable { seek, .. } => seek.plan(),
            WorkAt::Count { .. } => Op::load(places::port_count()),
            WorkAt::Making { make, .. } => make.plan(),
            WorkAt::Attaching { last, slot, .. } => {
                Op::exchange(places::future(last), 0, future_of(slot))
            }
            WorkAt::Unmaking { unmake, .. } => unmake.plan(),
            WorkAt::RootFuture { root, .. } => Op::load(places::future(root)),
            WorkAt::RootShape { root, .. } => Op::load(places::shape(root)),
            WorkAt::Entry { place, .. } => place.plan(),
            WorkAt::Locking { lock, .. } | WorkAt::LockingSecond { lock, .. } => lock.plan(),
            WorkAt::Seed { last, .. } => Op::load(places::seed(last.table)),
            WorkAt::BucketWord { emptying, .. } => Op::load(emptying.bucket.place),
            WorkAt::Walking { walk, .. } => walk.plan(),
            WorkAt::Key { entry, .. } => Op::load(geometry.key(entry.node)),
            WorkAt::EntryLink { entry, second, .. } => {
                let link = head_of(second.bucket.place, second.bucket.word);
                Op::store(geometry.chain_link(entry.node), link)
            }
            WorkAt::Linking { entry, second, .. } => {
                Op::store(second.bucket.place, link_of(entry.node))
            }
            WorkAt::CuttingOff { emptying, entry } => {
                cut_plan(geometry, emptying.bucket.place, entry.before)
            }
            WorkAt::Unlocking { unlock, .. } => unlock.plan(),
            WorkAt::Publishing { rehash } => {
                Op::store(places::current_table(), u64::from(rehash.future))
            }
            WorkAt::NewFuture { rehash } => Op::load(places::future(rehash.future)),
            WorkAt::Closing { .. } => Leave::new(self.caller).plan(),
            WorkAt::Retiring { root, .. } => Op::store(places::state(root), 2),
            WorkAt::KeepingSections { keep, .. } => keep.plan(),
            WorkAt::LettingGo { .. } => Op::store(places::work_lock(), 0),
        }
    }

    /// Takes in the word's old value.
    #[inline(always)]
    #[tactic(auto, using(crate::proofs::WorkStays::work_stays))]
    pub fn take(&mut self, old: u64) -> Next<Reply>
        ensures { (self.new, result) ≡ work_after M.mix_of self.old old }
    {
        let (at, next) = after::<M>(self.env, &self.at, old);
        self.at = at;
        next
    }
}

/// Where the worker stands after a state that found this value, and what it says.
#[inline(always)]
fn after<M: Mix>(env: Env, at: &WorkAt, old: u64) -> (WorkAt, Next<Reply>)
    requires { IsWorkAtIn env at.now }
    ensures { result ≡ after_at M.mix_of env at.now old }
{
    let geometry = env.geometry;
    let next = match *at {
        WorkAt::WorkLock => return lock_seen(geometry, old),
        WorkAt::Returning { returns } => returned(returns, old),
        WorkAt::Opening => WorkAt::CurrentTable,
        WorkAt::CurrentTable => seeking(geometry, table_of(old)),
        WorkAt::LastTable { root, seek } => last_seen(root, seek, old),
        WorkAt::Count { root, last } => counted(env, root, last, old),
        WorkAt::Making { wanted, make } => made(wanted, make, old),
        WorkAt::Attaching {
            root,
            slot,
            shape,
            ..
        } => attached(geometry, root, slot, shape, old),
        WorkAt::Unmaking { root, unmake } => unmade(root, unmake, old),
        WorkAt::RootFuture { root, due } => future_or_idle(root, due, slot_of(old)),
        WorkAt::RootShape {
            root,
            future,
            again,
        } => {
            let rehash = Rehash {
                root,
                future,
                shape: old,
                again,
            };
            bucket_of_root(geometry, rehash, 0)
        }
        WorkAt::Entry {
            rehash,
            number,
            place,
        } => entry_passed(geometry, rehash, number, place, old),
        WorkAt::Locking {
            rehash,
            number,
            lock,
        } => locked(geometry, rehash, number, lock, old),
        WorkAt::EntryTable { emptying, seek } => entry_table_seen(emptying, seek, old),
        WorkAt::Seed { emptying, last } => {
            let target = Target {
                table: last.table,
                shape: last.shape,
                seed: old,
            };
            WorkAt::BucketWord { emptying, target }
        }
        WorkAt::BucketWord { emptying, target } => first_entry(geometry, emptying, target, old),
        WorkAt::Walking {
            emptying,
            target,
            walk,
        } => walked(emptying, target, walk, old),
        WorkAt::Key {
            emptying,
            target,
            entry,
        } => keyed::<M>(geometry, emptying, target, entry, old),
        WorkAt::LockingSecond {
            emptying,
            entry,
            table,
            lock,
        } => second_locked(emptying, entry, table, lock, old),
        WorkAt::EntryLink {
            emptying,
            entry,
            second,
        } => WorkAt::Linking {
            emptying,
            entry,
            second,
        },
        WorkAt::Linking {
            emptying,
            entry,
            ..
        } => WorkAt::CuttingOff { emptying, entry },
        WorkAt::CuttingOff { emptying, entry } => cut_off(geometry, emptying, entry.before),
        WorkAt::Unlocking {
            rehash,
            number,
            stop,
            ..
        } => unlocked_bucket(geometry, rehash, number, stop),
        WorkAt::Publishing { rehash } => WorkAt::NewFuture { rehash },
        WorkAt::NewFuture { rehash } => retiring(rehash, slot_of(old)),
        WorkAt::Closing { ending } => closed(ending),
        WorkAt::Retiring { root, again } => keeping(geometry, root, again),
        WorkAt::KeepingSections { keep, again } => kept(keep, again, old),
        WorkAt::LettingGo { outcome } => return (*at, Next::Done(reply_of(outcome))),
    };
    (next, Next::Go)
}

/// After the exchange of the work lock, which was this before: 0 where nobody had it.
#[inline(always)]
pub fn lock_seen(geometry: Geometry, lock: u64) -> (WorkAt, Next<Reply>)
    ensures { result ≡ lock_seen geometry lock }
{
    if lock == 0 {
        (returning(geometry), Next::Go)
    } else {
        (WorkAt::WorkLock, Next::Done(Reply::Elsewhere))
    }
}

/// The store that ends the chain of the bucket at this place before its last entry: in the node
/// before, or in the bucket's word, which stays locked.
#[inline(always)]
pub fn cut_plan(geometry: Geometry, place: usize, before: Option<u32>) -> Op
    requires place { place < words_in geometry }
    requires before { IsNodeOrNone geometry before }
    ensures plan { result ≡ cut_plan geometry place before }
    ensures place { op_place result < words_in geometry }
{
    match before {
        Some(before) => Op::store(geometry.chain_link(before), marker_of(place)),
        None => Op::store(place, 1),
    }
}

/// What a call answers that has let go of the work lock.
#[inline(always)]
pub fn reply_of(outcome: Outcome) -> Reply
    ensures { result ≡ reply_of outcome }
{
    match outcome {
        Outcome::Idle => Reply::Idle,
        Outcome::NoTable { size } => Reply::NoTable { size },
        Outcome::Moved { again } => Reply::Moved { again },
    }
}
