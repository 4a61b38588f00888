//! Moving the entries of the current table to the last one, in straight code. The pieces that wait here
//! answer `None` behind 2^64 - 1 rounds, which no run uses up: whoever called them waits for ever there.

ghost use Rattle.std.specs.Prelude.{◌≡◌, false, IfSome};
ghost use Rattle.rht_chain.specs.Lock.{lock_new};
ghost use Rattle.rht_move.specs.LastTable.{last_table_new};
ghost use Rattle.rht_move.specs.LastEntry.{last_entry_new};
ghost use Rattle.rht_move.specs.Work.{bucket_of_root, entry_table, unlocked_bucket, unlocking};
ghost use Rattle.rht_move.specs.declared.work.WorkAt.TheVariants as works;
ghost use Rattle.rht_nest.specs.Tables.{is_nested};
ghost use Rattle.rht_nest.specs.Place.{flat_place};
ghost use Rattle.rht_run.specs.Rides.{IsRiding, Stepped, driven};
ghost use Rattle.rht_run.specs.WorkPieces.{work_at, bucket_locked, entry_sought, move_ended};

use crate::pieces::{Frame, Whole};
use crate::ride::Ride;
use crate::seats::SeatView;
use crate::table::Table;
use crate::work_pieces::{BucketLocking, EntrySeeking, SecondLocking};
use atomic_table::Seat;
use rht_chain::{Locked, Unlock};
use rht_model::Reply;
use rht_move::work::WorkAt;
use rht_move::{
    Emptying, Entry, Last, LastEntry, LastTable, LastTableAt, Rehash, Second, Target, Work,
};
use rht_nest::{flat_place, is_nested};
use rht_policy::{Mix, bucket_of};
use rht_words::{Env, Geometry, Next, Shape, head_of, node_of, port_of, slot_of, unlocked};

impl<M: Mix> Table<M> {
    /// Empties the buckets of a flat table, one after another. The answer is whether it has stopped
    /// before a nested table, to which nothing is moved.
    #[inline(always)]
    pub(crate) fn move_buckets<K: Ride>(
        &self,
        seat: &mut Seat<(), SeatView<M>>,
        env: Env,
        caller: u32,
        rehash: Rehash,
    ) -> Option<bool>
        requires begins { IsRiding M.mix_of self.now K.riding (work_at env caller (bucket_of_root env.geometry rehash 0)) seat.old }
        requires flat { is_nested rehash.shape ≡ false }
        ensures { IfSome result (λ stopped. IsRiding M.mix_of self.now K.riding (work_at env caller (move_ended rehash stopped)) seat.new) }
    {
        for number in 0..Shape::from(rehash.shape).size() {
            let Some(stop) = self.move_bucket::<K>(seat, env, caller, rehash, number) else {
                return None;
            };
            if stop {
                return Some(true);
            }
        }
        Some(false)
    }

    /// Locks a bucket of a flat table and empties it. The answer is whether it was unlocked before that
    /// was done, since the last table is nested.
    #[inline(always)]
    fn move_bucket<K: Ride>(
        &self,
        seat: &mut Seat<(), SeatView<M>>,
        env: Env,
        caller: u32,
        rehash: Rehash,
        number: u32,
    ) -> Option<bool>
        requires { IsRiding M.mix_of self.now K.riding (work_at env caller (works.Locking rehash number (lock_new (flat_place env.geometry rehash.shape number)))) seat.old }
        ensures { IfSome result (λ stop. IsRiding M.mix_of self.now K.riding (work_at env caller (unlocked_bucket env.geometry rehash number stop)) seat.new) }
    {
        let frame = BucketLocking {
            env,
            caller,
            rehash,
            number,
        };
        let place = flat_place(env.geometry, rehash.shape, number);
        let Some(bucket) = self.take_lock::<K, BucketLocking>(seat, &frame, place, u64::MAX) else {
            return None;
        };
        self.empty_bucket::<K>(seat, env, caller, rehash, number, bucket)
    }

    /// Moves the entries of a locked bucket, from its last one on, and unlocks it.
    #[inline(always)]
    fn empty_bucket<K: Ride>(
        &self,
        seat: &mut Seat<(), SeatView<M>>,
        env: Env,
        caller: u32,
        rehash: Rehash,
        number: u32,
        bucket: Locked,
    ) -> Option<bool>
        requires { IsRiding M.mix_of self.now K.riding (work_at env caller (bucket_locked env rehash number bucket)) seat.old }
        ensures { IfSome result (λ stop. IsRiding M.mix_of self.now K.riding (work_at env caller (unlocked_bucket env.geometry rehash number stop)) seat.new) }
    {
        let mut bucket = bucket;
        for _ in 0..u64::MAX {
            let emptying = Emptying {
                rehash,
                number,
                bucket,
            };
            let Some(last) = self.entry_table::<K>(seat, env, caller, emptying) else {
                return None;
            };
            if is_nested(last.shape) {
                self.unlock_bucket::<K>(seat, env, caller, emptying, true);
                return Some(true);
            }
            let target = self.load_target::<K>(seat, env, caller, emptying, last);
            let at = WorkAt::BucketWord { emptying, target };
            let word = unlocked(self.working::<K>(seat, env, caller, at));
            let place = bucket.place;
            bucket = Locked { place, word };
            let emptying = Emptying {
                rehash,
                number,
                bucket,
            };
            let Some(first) = node_of(env.geometry.nodes, head_of(place, word)) else {
                self.unlock_bucket::<K>(seat, env, caller, emptying, false);
                return Some(false);
            };
            let Some(left) = self.move_last::<K>(seat, env, caller, emptying, target, first) else {
                return None;
            };
            bucket = left;
        }
        None
    }

    /// Looks for the last table, to which the last entry of a locked bucket goes.
    #[inline(always)]
    fn entry_table<K: Ride>(
        &self,
        seat: &mut Seat<(), SeatView<M>>,
        env: Env,
        caller: u32,
        emptying: Emptying,
    ) -> Option<Last>
        requires { IsRiding M.mix_of self.now K.riding (work_at env caller (entry_table env.geometry emptying)) seat.old }
        ensures { IfSome result (λ last. IsRiding M.mix_of self.now K.riding (work_at env caller (entry_sought emptying last)) seat.new) }
    {
        let frame = EntrySeeking {
            env,
            caller,
            emptying,
        };
        let root = emptying.rehash.root;
        self.last_table::<K, EntrySeeking>(seat, &frame, env.geometry, root)
    }

    /// Moves the last entry of a locked bucket, whose first one is this node, and answers the bucket
    /// without it.
    #[inline(always)]
    fn move_last<K: Ride>(
        &self,
        seat: &mut Seat<(), SeatView<M>>,
        env: Env,
        caller: u32,
        emptying: Emptying,
        target: Target,
        first: u32,
    ) -> Option<Locked>
        requires { IsRiding M.mix_of self.now K.riding (work_at env caller (works.Walking emptying target (last_entry_new env.geometry first))) seat.old }
        ensures { IfSome result (λ left. IsRiding M.mix_of self.now K.riding (work_at env caller (bucket_locked env emptying.rehash emptying.number left)) seat.new) }
    {
        let Some(entry) = self.last_entry::<K>(seat, env, caller, emptying, target, first) else {
            return None;
        };
        self.move_entry::<K>(seat, env, caller, emptying, target, entry)
    }

    /// Loads the seed of the table to which the entry goes.
    #[inline(always)]
    fn load_target<K: Ride>(
        &self,
        seat: &mut Seat<(), SeatView<M>>,
        env: Env,
        caller: u32,
        emptying: Emptying,
        last: Last,
    ) -> Target
        requires { IsRiding M.mix_of self.now K.riding (work_at env caller (works.Seed emptying last)) seat.old }
        ensures { IsRiding M.mix_of self.now K.riding (work_at env caller (works.BucketWord emptying result)) seat.new }
    {
        let at = WorkAt::Seed { emptying, last };
        let seed = self.working::<K>(seat, env, caller, at);
        let Last { table, shape } = last;
        Target { table, shape, seed }
    }

    /// Walks from this node to the last one of the bucket's chain.
    #[inline(always)]
    fn last_entry<K: Ride>(
        &self,
        seat: &mut Seat<(), SeatView<M>>,
        env: Env,
        caller: u32,
        emptying: Emptying,
        target: Target,
        first: u32,
    ) -> Option<Entry>
        requires { IsRiding M.mix_of self.now K.riding (work_at env caller (works.Walking emptying target (last_entry_new env.geometry first))) seat.old }
        ensures { IfSome result (λ entry. IsRiding M.mix_of self.now K.riding (work_at env caller (works.Key emptying target entry)) seat.new) }
    {
        let mut walk = LastEntry::new(env.geometry, first);
        for _ in 0..u64::MAX {
            let at = WorkAt::Walking {
                emptying,
                target,
                walk,
            };
            let link = self.working::<K>(seat, env, caller, at);
            let (next, answer) = walk.after(link);
            if let Next::Done(entry) = answer {
                return Some(entry);
            }
            walk = next;
        }
        None
    }

    /// Moves this entry, the bucket's last one, and answers the bucket without it.
    #[inline(always)]
    fn move_entry<K: Ride>(
        &self,
        seat: &mut Seat<(), SeatView<M>>,
        env: Env,
        caller: u32,
        emptying: Emptying,
        target: Target,
        entry: Entry,
    ) -> Option<Locked>
        requires { IsRiding M.mix_of self.now K.riding (work_at env caller (works.Key emptying target entry)) seat.old }
        ensures { IfSome result (λ left. IsRiding M.mix_of self.now K.riding (work_at env caller (bucket_locked env emptying.rehash emptying.number left)) seat.new) }
    {
        let Target { table, shape, seed } = target;
        let at = WorkAt::Key {
            emptying,
            target,
            entry,
        };
        let key = self.working::<K>(seat, env, caller, at);
        let number = bucket_of::<M>(port_of(key), shape, seed);
        let place = flat_place(env.geometry, shape, number);
        let frame = SecondLocking {
            env,
            caller,
            emptying,
            entry,
            table,
        };
        let Some(bucket) = self.take_lock::<K, SecondLocking>(seat, &frame, place, u64::MAX) else {
            return None;
        };
        let second = Second { table, bucket };
        Some(self.relink_entry::<K>(seat, env, caller, emptying, entry, second))
    }

    /// Makes the entry the second bucket's first, and cuts it off from the chain of the first bucket,
    /// which is what this answers.
    #[inline(always)]
    fn relink_entry<K: Ride>(
        &self,
        seat: &mut Seat<(), SeatView<M>>,
        env: Env,
        caller: u32,
        emptying: Emptying,
        entry: Entry,
        second: Second,
    ) -> Locked
        requires { IsRiding M.mix_of self.now K.riding (work_at env caller (works.EntryLink emptying entry second)) seat.old }
        ensures { IsRiding M.mix_of self.now K.riding (work_at env caller (bucket_locked env emptying.rehash emptying.number result)) seat.new }
    {
        let at = WorkAt::EntryLink {
            emptying,
            entry,
            second,
        };
        self.working::<K>(seat, env, caller, at);
        let at = WorkAt::Linking {
            emptying,
            entry,
            second,
        };
        self.working::<K>(seat, env, caller, at);
        let at = WorkAt::CuttingOff { emptying, entry };
        self.working::<K>(seat, env, caller, at);
        match entry.before {
            None => Locked {
                place: emptying.bucket.place,
                word: 0,
            },
            Some(_) => emptying.bucket,
        }
    }

    /// Unlocks the bucket. With `stop` the move ends there.
    #[inline(always)]
    fn unlock_bucket<K: Ride>(
        &self,
        seat: &mut Seat<(), SeatView<M>>,
        env: Env,
        caller: u32,
        emptying: Emptying,
        stop: bool,
    )
        requires { IsRiding M.mix_of self.now K.riding (work_at env caller (unlocking emptying stop)) seat.old }
        ensures { IsRiding M.mix_of self.now K.riding (work_at env caller (unlocked_bucket env.geometry emptying.rehash emptying.number stop)) seat.new }
    {
        let Emptying {
            rehash,
            number,
            bucket,
        } = emptying;
        let unlock = Unlock::new(bucket.place, bucket.word);
        let at = WorkAt::Unlocking {
            rehash,
            number,
            unlock,
            stop,
        };
        self.working::<K>(seat, env, caller, at);
    }

    /// Goes from the table of this slot through the futures to the last one, and loads its shape.
    #[inline(always)]
    pub(crate) fn last_table<K: Ride, F: Frame<M, LastTable, Last>>(
        &self,
        seat: &mut Seat<(), SeatView<M>>,
        frame: &F,
        geometry: Geometry,
        table: u32,
    ) -> Option<Last>
        requires { IsRiding M.mix_of self.now K.riding (F.holding frame.now (last_table_new geometry table)) seat.old }
        ensures { IfSome result (λ last. Stepped M.mix_of self.now K.riding (F.behind frame.now last) seat.new) }
    {
        let mut table = table;
        for _ in 0..u64::MAX {
            let seek = LastTable::new(geometry, table);
            let future = slot_of(self.operate::<K, Last, LastTable, F>(seat, frame, &seek));
            let Some(next) = future else {
                let seek = seek.with(LastTableAt::Shape { table });
                let shape = self.operate::<K, Last, LastTable, F>(seat, frame, &seek);
                return Some(Last { table, shape });
            };
            table = next;
        }
        None
    }

    /// The operation of the resizing in this state.
    #[inline(always)]
    pub(crate) fn working<K: Ride>(
        &self,
        seat: &mut Seat<(), SeatView<M>>,
        env: Env,
        caller: u32,
        at: WorkAt,
    ) -> u64
        requires { IsRiding M.mix_of self.now K.riding (work_at env caller at) seat.old }
        ensures { Stepped M.mix_of self.now K.riding (driven M.mix_of (work_at env caller at) result) seat.new }
    {
        let work = Work::<M>::new(env, caller).with(at);
        self.operate::<K, Reply, Work<M>, Whole>(seat, &Whole, &work)
    }
}
