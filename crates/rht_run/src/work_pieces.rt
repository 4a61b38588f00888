//! The pieces of a resizing, and the states of its machine that hold them: the search for the last
//! table, which it makes for itself and for each entry, and the locks of its two buckets.

ghost use Rattle.std.specs.Prelude.{◌≡◌, ℕ};
ghost use Rattle.rht_callers.specs.declared.local.Doing.TheVariants.{Working};
ghost use Rattle.rht_chain.specs.Lock.{lock_after};
ghost use Rattle.rht_move.specs.LastTable.{last_table_plan, last_table_after, IsLastTableIn};
ghost use Rattle.rht_move.specs.Work.{work_plan, work_after, IsWorkAtIn};
ghost use Rattle.rht_move.specs.declared.work.WorkAt.TheVariants as works;
ghost use Rattle.rht_run.specs.Rides.{replied};
ghost use Rattle.rht_run.specs.WorkPieces.{work_at, work_on, work_seeking, entry_sought, entry_seeking, bucket_locked, bucket_locking, entry_linked, second_locking};

use crate::pieces::{Frame, Piece, Whole};
use rht_chain::{Lock, Locked};
use rht_model::Reply;
use rht_move::{Emptying, Entry, Last, LastTable, Rehash, Work};
use rht_policy::Mix;
use rht_words::{Env, Next, Op};

impl<M: Mix> Piece<M, Reply> for Work<M> {
    ghost plan_of = { work_plan };

    ghost after_of = { work_after M.mix_of };

    ghost is_in = { λ env m. IsWorkAtIn env m.at };

    #[inline(always)]
    fn planned(&self) -> Op {
        self.plan()
    }

    #[inline(always)]
    fn told(&mut self, old: u64) -> Next<Reply> {
        self.take(old)
    }
}

impl<M: Mix> Frame<M, Work<M>, Reply> for Whole {
    ghost use Rattle.std.specs.Prelude.{refl};

    ghost holding = { λ f m. Working m };

    ghost behind = { λ f reply. replied reply };

    ghost busy = { λ f m. refl };

    ghost empties = { λ f m room. refl };

    ghost beside = { λ f m batch. refl };

    ghost pairs = { λ f m room. refl };

    ghost plans = { λ f m. refl };

    ghost within = { λ env c f m is. is.at_in };

    ghost goes = { λ f m old. refl };

    ghost keeps = { λ f m room old. refl };
}

// ---- the last table

impl<M: Mix> Piece<M, Last> for LastTable {
    ghost plan_of = { last_table_plan };

    ghost after_of = { last_table_after };

    ghost is_in = { λ env p. IsLastTableIn env.geometry p };

    #[inline(always)]
    fn planned(&self) -> Op {
        self.plan()
    }

    #[inline(always)]
    fn told(&mut self, old: u64) -> Next<Last> {
        self.take(old)
    }
}

/// A resizing that looks for the last table, behind the current one in this slot.
#[derive(Clone, Copy)]
pub struct WorkSeeking {
    pub env: Env,
    pub caller: u32,
    pub root: u32,
}

impl<M: Mix> Frame<M, LastTable, Last> for WorkSeeking {
    ghost use Rattle.std.specs.Prelude.{refl};

    ghost holding = { λ f p. work_at f.env f.caller (works.LastTable f.root p) };

    ghost behind = { λ f last. work_on f.env f.caller (works.Count f.root last) };

    ghost busy = { λ f p. refl };

    ghost empties = { λ f p room. refl };

    ghost beside = { λ f p batch. refl };

    ghost pairs = { λ f p room. refl };

    ghost plans = { λ f p. refl };

    ghost within = { λ env c f p is. is.at_in.seek_in };

    ghost goes = { λ f p old. work_seeking f.env f.caller f.root (last_table_after p old) };

    ghost keeps = { λ f p room old. refl };
}

/// A resizing that looks for the table to which the last entry of this bucket goes.
#[derive(Clone, Copy)]
pub struct EntrySeeking {
    pub env: Env,
    pub caller: u32,
    pub emptying: Emptying,
}

impl<M: Mix> Frame<M, LastTable, Last> for EntrySeeking {
    ghost use Rattle.std.specs.Prelude.{refl};

    ghost holding = { λ f p. work_at f.env f.caller (works.EntryTable f.emptying p) };

    ghost behind = { λ f last. work_on f.env f.caller (entry_sought f.emptying last) };

    ghost busy = { λ f p. refl };

    ghost empties = { λ f p room. refl };

    ghost beside = { λ f p batch. refl };

    ghost pairs = { λ f p room. refl };

    ghost plans = { λ f p. refl };

    ghost within = { λ env c f p is. is.at_in.seek_in };

    ghost goes = { λ f p old. entry_seeking f.env f.caller f.emptying (last_table_after p old) };

    ghost keeps = { λ f p room old. refl };
}

// ---- the locks

/// A resizing that locks the bucket of this number, to empty it.
#[derive(Clone, Copy)]
pub struct BucketLocking {
    pub env: Env,
    pub caller: u32,
    pub rehash: Rehash,
    pub number: u32,
}

impl<M: Mix> Frame<M, Lock, Locked> for BucketLocking {
    ghost use Rattle.std.specs.Prelude.{refl};

    ghost holding = { λ f p. work_at f.env f.caller (works.Locking f.rehash f.number p) };

    ghost behind = { λ f bucket. work_on f.env f.caller (bucket_locked f.env f.rehash f.number bucket) };

    ghost busy = { λ f p. refl };

    ghost empties = { λ f p room. refl };

    ghost beside = { λ f p batch. refl };

    ghost pairs = { λ f p room. refl };

    ghost plans = { λ f p. refl };

    ghost within = { λ env c f p is. is.at_in.lock_in };

    ghost goes = { λ f p old. bucket_locking f.env f.caller f.rehash f.number (lock_after p old) };

    ghost keeps = { λ f p room old. refl };
}

/// A resizing that locks the bucket to which this entry goes, in the table of this slot.
#[derive(Clone, Copy)]
pub struct SecondLocking {
    pub env: Env,
    pub caller: u32,
    pub emptying: Emptying,
    pub entry: Entry,
    pub table: u32,
}

impl<M: Mix> Frame<M, Lock, Locked> for SecondLocking {
    ghost use Rattle.std.specs.Prelude.{refl};

    ghost holding = { λ f p. work_at f.env f.caller (works.LockingSecond f.emptying f.entry f.table p) };

    ghost behind = { λ f bucket. work_on f.env f.caller (entry_linked f.emptying f.entry f.table bucket) };

    ghost busy = { λ f p. refl };

    ghost empties = { λ f p room. refl };

    ghost beside = { λ f p batch. refl };

    ghost pairs = { λ f p room. refl };

    ghost plans = { λ f p. refl };

    ghost within = { λ env c f p is. is.at_in.lock_in };

    ghost goes = { λ f p old. second_locking f.env f.caller f.emptying f.entry f.table (lock_after p old) };

    ghost keeps = { λ f p room old. refl };
}
