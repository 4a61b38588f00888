//! A resizing, in straight code: from the work lock to the reply. Retired tables are given back first. What
//! is seldom leaves by calls out of line: a table is attached there, and from a nested table on the machine
//! runs as a whole.

ghost use Rattle.std.specs.Prelude.{◌≡◌};
ghost use Rattle.rht_model.specs.declared.history.Call.TheVariants.{Work as WorkCall};
ghost use Rattle.rht_move.specs.Work.{bucket_of_root, keeping, letting_go, not_made, reply_of, returning};
ghost use Rattle.rht_move.specs.declared.work.Outcome.TheVariants.{Moved};
ghost use Rattle.rht_move.specs.declared.work.WorkAt.TheVariants as works;
ghost use Rattle.rht_move.specs.declared.work.ending.Ending.TheVariants as endings;
ghost use Rattle.rht_nest.specs.Unmake.{unmake_new};
ghost use Rattle.rht_run.specs.Rides.{IsBefore, IsRiding, HasEnded};
ghost use Rattle.rht_run.specs.WorkPieces.{work_at, wanted_of, rehash_of, making};

use crate::layout::physical;
use crate::pieces::Whole;
use crate::ride::{Ride, never};
use crate::seats::SeatView;
use crate::table::Table;
use crate::work_pieces::WorkSeeking;
use atomic_table::Seat;
use rht_model::Reply;
use rht_move::work::attaching::is_later;
use rht_move::work::choice::{Choice, choice_of};
use rht_move::work::ending::{Ending, letting_go};
use rht_move::work::moving::bucket_of_root;
use rht_move::work::{Due, Outcome, Wanted, WorkAt, reply_of};
use rht_move::{Last, Rehash, Work};
use rht_nest::{Make, Unmake, is_nested};
use rht_policy::Mix;
use rht_reclaim::{KeepSections, ReturnTables};
use rht_words::{Env, Next, places, slot_of, table_of};
use std::sync::Wait;

impl<M: Mix> Table<M> {
    /// Resizes the table where that is due, from the first operation to the reply. It stays out of line,
    /// so that a worker's loop is as short as without it.
    #[inline(never)]
    pub(crate) fn drive_work<R: Wait, K: Ride>(
        &self,
        rt: &R,
        seat: &mut Seat<(), SeatView<M>>,
        caller: u32,
    ) -> Reply
        requires before { IsBefore M.mix_of self.now K.riding seat.old }
        requires number { K.riding.number ≡ caller }
        requires call { K.riding.call ≡ WorkCall }
        ensures { HasEnded M.mix_of self.now K.riding result seat.new }
    {
        let env = self.env;
        let work = Work::<M>::new(env, caller);
        let at = physical(places::work_lock());
        let lock = self.begin::<K, Reply, Work<M>, Whole>(seat, &Whole, &work, at);
        if lock == 0 {
            return self.resize::<R, K>(rt, seat, caller);
        }
        Reply::Elsewhere
    }

    /// Gives back the retired tables that nobody can read any more. Then chooses by the last table's shape
    /// and by the count of ports what is due, and does it.
    fn resize<R: Wait, K: Ride>(
        &self,
        rt: &R,
        seat: &mut Seat<(), SeatView<M>>,
        caller: u32,
    ) -> Reply
        requires { IsRiding M.mix_of self.now K.riding (work_at self.now.env caller (returning self.now.env.geometry)) seat.old }
        ensures { HasEnded M.mix_of self.now K.riding result seat.new }
    {
        let env = self.env;
        self.return_tables::<R, K>(rt, seat, caller);
        self.working::<K>(seat, env, caller, WorkAt::Opening);
        let root = table_of(self.working::<K>(seat, env, caller, WorkAt::CurrentTable));
        let frame = WorkSeeking { env, caller, root };
        let Some(last) = self.last_table::<K, WorkSeeking>(seat, &frame, env.geometry, root) else {
            never(rt);
            unreachable!()
        };
        let count = self.working::<K>(seat, env, caller, WorkAt::Count { root, last });
        match choice_of(env, count, last.shape, root == last.table) {
            Choice::Attach { size } => {
                self.attach::<R, K>(rt, seat, caller, root, last.table, last.shape, size)
            }
            Choice::Later => self.move_table::<R, K>(rt, seat, caller, root, Due::Later),
            Choice::Nothing => self.move_table::<R, K>(rt, seat, caller, root, Due::Nothing),
        }
    }

    /// Goes through all slots, and gives back each retired table unless somebody may still read it.
    fn return_tables<R: Wait, K: Ride>(&self, rt: &R, seat: &mut Seat<(), SeatView<M>>, caller: u32)
        requires { IsRiding M.mix_of self.now K.riding (work_at self.now.env caller (returning self.now.env.geometry)) seat.old }
        ensures { IsRiding M.mix_of self.now K.riding (work_at self.now.env caller works.Opening) seat.new }
    {
        let env = self.env;
        let mut returns = ReturnTables::new(env.geometry);
        for _ in 0..u64::MAX {
            let at = WorkAt::Returning { returns };
            let old = self.working::<K>(seat, env, caller, at);
            let (next, answer) = returns.after(old);
            if let Next::Done(()) = answer {
                return;
            }
            returns = next;
        }
        never(rt);
        unreachable!()
    }

    /// Makes a table of this size, and attaches it behind the last one, which has this shape.
    #[cold]
    #[inline(never)]
    fn attach<R: Wait, K: Ride>(
        &self,
        rt: &R,
        seat: &mut Seat<(), SeatView<M>>,
        caller: u32,
        root: u32,
        last: u32,
        shape: u64,
        size: u32,
    ) -> Reply
        requires { IsRiding M.mix_of self.now K.riding (work_at self.now.env caller (making self.now.env (wanted_of root last shape size))) seat.old }
        ensures { HasEnded M.mix_of self.now K.riding result seat.new }
    {
        let env = self.env;
        let last = Last { table: last, shape };
        let wanted = Wanted { root, last, size };
        let mut make = Make::new(env.geometry, size, env.config.seed, false);
        for _ in 0..u64::MAX {
            let at = WorkAt::Making { wanted, make };
            let old = self.working::<K>(seat, env, caller, at);
            let (next, answer) = make.after(old);
            match answer {
                Next::Go => make = next,
                Next::Done(None) => return self.not_made::<R, K>(rt, seat, caller, wanted),
                Next::Done(Some((slot, shape))) => {
                    return self.made::<R, K>(rt, seat, caller, root, last.table, slot, shape);
                }
            }
        }
        never(rt);
        unreachable!()
    }

    /// Goes on where the table can't be had.
    fn not_made<R: Wait, K: Ride>(
        &self,
        rt: &R,
        seat: &mut Seat<(), SeatView<M>>,
        caller: u32,
        wanted: Wanted,
    ) -> Reply
        requires { IsRiding M.mix_of self.now K.riding (work_at self.now.env caller (not_made wanted)) seat.old }
        ensures { HasEnded M.mix_of self.now K.riding result seat.new }
    {
        let Wanted { root, last, size } = wanted;
        if root == last.table || is_nested(last.shape) {
            let outcome = Outcome::NoTable { size };
            return self.let_go::<K>(seat, self.env, caller, outcome);
        }
        self.move_table::<R, K>(rt, seat, caller, root, Due::Later)
    }

    /// Attaches the table that was made behind the last one. Where another one was attached there before,
    /// it is given back.
    fn made<R: Wait, K: Ride>(
        &self,
        rt: &R,
        seat: &mut Seat<(), SeatView<M>>,
        caller: u32,
        root: u32,
        last: u32,
        slot: u32,
        shape: u64,
    ) -> Reply
        requires { IsRiding M.mix_of self.now K.riding (work_at self.now.env caller (works.Attaching root last slot shape)) seat.old }
        ensures { HasEnded M.mix_of self.now K.riding result seat.new }
    {
        let env = self.env;
        let at = WorkAt::Attaching {
            root,
            last,
            slot,
            shape,
        };
        let future = self.working::<K>(seat, env, caller, at);
        if future == 0 {
            return self.move_table::<R, K>(rt, seat, caller, root, Due::Attached);
        }
        let mut unmake = Unmake::new(env.geometry, slot, shape);
        for _ in 0..u64::MAX {
            let at = WorkAt::Unmaking { root, unmake };
            let old = self.working::<K>(seat, env, caller, at);
            let (next, answer) = unmake.after(old);
            if let Next::Done(()) = answer {
                return self.move_table::<R, K>(rt, seat, caller, root, Due::Later);
            }
            unmake = next;
        }
        never(rt);
        unreachable!()
    }

    /// Moves the entries of the current table to its future one, where it has one.
    #[inline(never)]
    fn move_table<R: Wait, K: Ride>(
        &self,
        rt: &R,
        seat: &mut Seat<(), SeatView<M>>,
        caller: u32,
        root: u32,
        due: Due,
    ) -> Reply
        requires { IsRiding M.mix_of self.now K.riding (work_at self.now.env caller (works.RootFuture root due)) seat.old }
        ensures { HasEnded M.mix_of self.now K.riding result seat.new }
    {
        let env = self.env;
        let at = WorkAt::RootFuture { root, due };
        let future = slot_of(self.working::<K>(seat, env, caller, at));
        let Some(future) = future else {
            return self.let_go::<K>(seat, env, caller, Outcome::Idle);
        };
        let again = is_later(due);
        let at = WorkAt::RootShape {
            root,
            future,
            again,
        };
        let shape = self.working::<K>(seat, env, caller, at);
        if is_nested(shape) {
            return self.move_nested::<R, K>(rt, seat, caller, root, future, shape, again);
        }
        let rehash = Rehash {
            root,
            future,
            shape,
            again,
        };
        let Some(stopped) = self.move_buckets::<K>(seat, env, caller, rehash) else {
            never(rt);
            unreachable!()
        };
        if stopped {
            return self.let_go::<K>(seat, env, caller, Outcome::Moved { again: true });
        }
        self.publish::<R, K>(rt, seat, env, caller, rehash)
    }

    /// Moves the entries of a nested table.
    #[cold]
    #[inline(never)]
    fn move_nested<R: Wait, K: Ride>(
        &self,
        rt: &R,
        seat: &mut Seat<(), SeatView<M>>,
        caller: u32,
        root: u32,
        future: u32,
        shape: u64,
        again: bool,
    ) -> Reply
        requires { IsRiding M.mix_of self.now K.riding (work_at self.now.env caller (bucket_of_root self.now.env.geometry (rehash_of root future shape again) 0)) seat.old }
        ensures { HasEnded M.mix_of self.now K.riding result seat.new }
    {
        let rehash = Rehash {
            root,
            future,
            shape,
            again,
        };
        let at = bucket_of_root(self.env.geometry, rehash, 0);
        let work = Work::<M>::new(self.env, caller).with(at);
        self.run_whole::<R, K, Reply, Work<M>, Whole>(rt, seat, &Whole, work)
    }

    /// Makes the future table the current one, and retires the table before, which is empty.
    #[inline(always)]
    fn publish<R: Wait, K: Ride>(
        &self,
        rt: &R,
        seat: &mut Seat<(), SeatView<M>>,
        env: Env,
        caller: u32,
        rehash: Rehash,
    ) -> Reply
        requires { IsRiding M.mix_of self.now K.riding (work_at env caller (works.Publishing rehash)) seat.old }
        ensures { HasEnded M.mix_of self.now K.riding result seat.new }
    {
        self.working::<K>(seat, env, caller, WorkAt::Publishing { rehash });
        let at = WorkAt::NewFuture { rehash };
        let future = slot_of(self.working::<K>(seat, env, caller, at));
        let root = rehash.root;
        let Some(_) = future else {
            return self.retire::<R, K>(rt, seat, env, caller, root, rehash.again);
        };
        self.retire::<R, K>(rt, seat, env, caller, root, true)
    }

    /// Closes the read section, and retires the table of this slot. With `again` a further call has
    /// something to do.
    #[inline(always)]
    fn retire<R: Wait, K: Ride>(
        &self,
        rt: &R,
        seat: &mut Seat<(), SeatView<M>>,
        env: Env,
        caller: u32,
        root: u32,
        again: bool,
    ) -> Reply
        requires { IsRiding M.mix_of self.now K.riding (work_at env caller (works.Closing (endings.Retiring root again))) seat.old }
        ensures { HasEnded M.mix_of self.now K.riding result seat.new }
    {
        let ending = Ending::Retiring { root, again };
        self.working::<K>(seat, env, caller, WorkAt::Closing { ending });
        self.working::<K>(seat, env, caller, WorkAt::Retiring { root, again });
        self.keep_sections::<R, K>(rt, seat, env, caller, root, again);
        self.unlock_work::<K>(seat, env, caller, Outcome::Moved { again })
    }

    /// Keeps the section words of all callers in this slot, whose table was just retired.
    fn keep_sections<R: Wait, K: Ride>(
        &self,
        rt: &R,
        seat: &mut Seat<(), SeatView<M>>,
        env: Env,
        caller: u32,
        root: u32,
        again: bool,
    )
        requires { IsRiding M.mix_of self.now K.riding (work_at env caller (keeping env.geometry root again)) seat.old }
        ensures { IsRiding M.mix_of self.now K.riding (work_at env caller (works.LettingGo (Moved again))) seat.new }
    {
        let mut keep = KeepSections::new(env.geometry, root);
        for _ in 0..u64::MAX {
            let at = WorkAt::KeepingSections { keep, again };
            let old = self.working::<K>(seat, env, caller, at);
            let (next, answer) = keep.after(old);
            if let Next::Done(()) = answer {
                return;
            }
            keep = next;
        }
        never(rt);
        unreachable!()
    }

    /// Closes the read section, and lets go of the work lock.
    #[inline(always)]
    fn let_go<K: Ride>(
        &self,
        seat: &mut Seat<(), SeatView<M>>,
        env: Env,
        caller: u32,
        outcome: Outcome,
    ) -> Reply
        requires { IsRiding M.mix_of self.now K.riding (work_at env caller (letting_go outcome)) seat.old }
        ensures { HasEnded M.mix_of self.now K.riding result seat.new }
    {
        self.working::<K>(seat, env, caller, letting_go(outcome));
        self.unlock_work::<K>(seat, env, caller, outcome)
    }

    /// Lets go of the work lock, and answers.
    #[inline(always)]
    fn unlock_work<K: Ride>(
        &self,
        seat: &mut Seat<(), SeatView<M>>,
        env: Env,
        caller: u32,
        outcome: Outcome,
    ) -> Reply
        requires { IsRiding M.mix_of self.now K.riding (work_at env caller (works.LettingGo outcome)) seat.old }
        ensures { HasEnded M.mix_of self.now K.riding result seat.new }
    {
        self.working::<K>(seat, env, caller, WorkAt::LettingGo { outcome });
        reply_of(outcome)
    }
}
