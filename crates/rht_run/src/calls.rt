//! The calls. Each makes one operation after another until one of them has its reply, and its clause
//! `cause` says what its own operations have to show for that.

ghost use Rattle.std.specs.Prelude.{◌≡◌, ℕ, ◌+◌, ◌*◌, true, false, None, Some};
ghost use Rattle.rht_model.specs.declared.history.Call.{Call as CallOf};
ghost use Rattle.rht_model.specs.declared.history.Call.TheVariants.{Find, Bind, Release, Rebind, All, Walk, Work, Tidy, Count};
ghost use Rattle.rht_core.specs.Locals.{is_idle};
ghost use Rattle.rht_core.specs.Replies.{IsFindReply, IsBindReply, IsReleaseReply, IsRebindReply, IsAllReply, IsWalkReply, IsWorkReply, IsTidyReply, IsCountReply, AreOwnersWith, ArePairsWith};
ghost use Rattle.rht_grace.specs.TidyLaws.{tidy_bound};
ghost use Rattle.rht_run.specs.declared.pass.Pass.{Pass as PassOf};
ghost use Rattle.rht_run.specs.Rule.{MayBegin};
ghost use Rattle.rht_run.specs.Passes.{IsPassOf, IsCalling, IsSamePass, HasCalled, HasSetOut, Turned, HasGone};
ghost use Rattle.rht_run.specs.Caused.{IsCaused, HasLookedUp, HasLeftBatch};
ghost use Rattle.rht_run.specs.Tidying.{HasTidiedBatch};

use crate::binding::leave_bind;
use crate::finding::looked_up;
use crate::layout::physical;
use crate::pass::Pass;
use crate::releasing::{leave_release, released};
use crate::ride::{clear_rooms, keep_node};
use crate::table::Table;
use rht_core::Doing;
use rht_model::{Call, Cursor, Reply};
use rht_policy::Mix;
use rht_words::{Geometry, Next, Port, word_of};
use std::marker::Brand;
use std::sync::Wait;

impl<M: Mix> Table<M> {
    /// The first operation of a call. A reply ends the call, as that of a count always does. Without one
    /// the pass is in the call, and goes on by `step`. It waits for nobody, and takes no memory.
    pub fn start(&self, pass: &mut Pass<M>, call: Call) -> Option<Reply>
        requires pass { IsPassOf M.mix_of self.now pass.old }
        requires may { MayBegin self.now.env pass.old.number call pass.old.local }
        ensures turned { Turned M.mix_of self.now call 1 pass.old result pass.new }
        ensures gone { HasGone M.mix_of self.now (Some call) pass.old result pass.new }
    {
        self.go::<Brand>(pass, Some(call))
    }

    /// The next operation of the call in progress. A reply ends the call; without one the pass is in it
    /// still. It waits for nobody: where the call waits for another caller, the operation is one look
    /// whether that one has gone on. It takes no memory.
    pub fn step(&self, pass: &mut Pass<M>) -> Option<Reply>
        requires pass { IsPassOf M.mix_of self.now pass.old }
        requires busy { is_idle pass.old.local ≡ false }
        ensures pass { IsPassOf M.mix_of self.now pass.new }
        ensures same { IsSamePass pass.old pass.new }
        ensures turned { (call : CallOf) (steps : ℕ) (before : PassOf M) → IsCalling M.mix_of self.now call steps before pass.old
            → Turned M.mix_of self.now call (steps + 1) before result pass.new }
        ensures gone { HasGone M.mix_of self.now None pass.old result pass.new }
    {
        self.go::<Brand>(pass, None)
    }

    /// Begins a call and makes its operations in straight code, as long as it need not wait. It tries to lock
    /// a bucket at most `rounds` times; then it stops, as it does before a rare way. A reply ends the call;
    /// without one the pass is in it, and goes on by `step`. It takes no memory.
    #[inline(always)]
    pub fn set_out(&self, pass: &mut Pass<M>, call: Call, rounds: u64) -> Option<Reply>
        requires pass { IsPassOf M.mix_of self.now pass.old }
        requires may { MayBegin self.now.env pass.old.number call pass.old.local }
        ensures { HasSetOut M.mix_of self.now call pass.old result pass.new }
    {
        match call {
            Call::Bind { port, owner, once } => self.bind_in(pass, port, owner, once, rounds),
            Call::Release { port, owner } => self.release_in(pass, port, owner, rounds),
            _ => self.start(pass, call),
        }
    }

    /// Sets out on a bind.
    #[inline(always)]
    fn bind_in(
        &self,
        pass: &mut Pass<M>,
        port: Port,
        owner: u32,
        once: bool,
        rounds: u64,
    ) -> Option<Reply>
        requires pass { IsPassOf M.mix_of self.now pass.old }
        requires idle { is_idle pass.old.local ≡ true }
        ensures { HasSetOut M.mix_of self.now (Bind port owner once) pass.old result pass.new }
    {
        clear_rooms(&mut pass.local);
        let number = pass.number;
        let came = self.drive_bind::<Brand>(&mut pass.seat, number, port, owner, once, rounds);
        match came {
            Ok(reply) => Some(reply),
            Err(at) => {
                leave_bind(&mut pass.local, self.env, number, port, owner, once, at);
                None
            }
        }
    }

    /// Sets out on a release.
    #[inline(always)]
    fn release_in(&self, pass: &mut Pass<M>, port: Port, owner: u32, rounds: u64) -> Option<Reply>
        requires pass { IsPassOf M.mix_of self.now pass.old }
        requires idle { is_idle pass.old.local ≡ true }
        ensures { HasSetOut M.mix_of self.now (Release port owner) pass.old result pass.new }
    {
        clear_rooms(&mut pass.local);
        let came = self.drive_release::<Brand>(&mut pass.seat, pass.number, port, owner, rounds);
        match came {
            Ok((kick, removed)) => {
                keep_node(&mut pass.local, removed);
                Some(released(kick))
            }
            Err(at) => {
                leave_release(&mut pass.local, self.env, pass.number, port, owner, at);
                None
            }
        }
    }

    /// A call that may wait for other callers.
    #[inline(always)]
    fn call<R: Wait>(&self, rt: &R, pass: &mut Pass<M>, call: Call) -> Reply
        requires pass { IsPassOf M.mix_of self.now pass.old }
        requires may { MayBegin self.now.env pass.old.number call pass.old.local }
        ensures { HasCalled M.mix_of self.now call result pass.old pass.new }
    {
        if let Some(reply) = self.set_out(pass, call, u64::MAX) {
            return reply;
        }
        for _ in rt.forever() {
            if let Some(reply) = self.step(pass) {
                return reply;
            }
        }
        unreachable!()
    }

    /// Looks a port up: `Found` with its first owner, or `Missing`. It waits for nobody, and makes no more
    /// operations than `find_bound` says: all are loads, but for the first and the last one, which open and
    /// close its read section. The answer was so at a moment of the call, and a port that is bound
    /// throughout it is found (`looked`). Its cause is nothing. `cause` and `looked` both hold of this call;
    /// each speaks of one run. The kernel's counterpart is `rhashtable_lookup_fast`.
    #[inline(always)]
    pub fn find(&self, pass: &mut Pass<M>, port: Port) -> Reply
        requires pass { IsPassOf M.mix_of self.now pass.old }
        requires idle { is_idle pass.old.local ≡ true }
        ensures called { HasCalled M.mix_of self.now (Find port) result pass.old pass.new }
        ensures reply { IsFindReply result }
        ensures cause { IsCaused M.mix_of self.now (Find port) result pass.old pass.new }
        ensures looked { HasLookedUp M.mix_of self.now port result pass.old pass.new }
    {
        clear_rooms(&mut pass.local);
        looked_up(self.drive_find::<Brand>(&mut pass.seat, pass.number, port))
    }

    /// Binds a port to an owner, and is tried once alone: it may answer `Again`. The kernel's
    /// counterparts are `rhashtable_lookup_insert_key` and `rhltable_insert_key`.
    ///
    /// `Bound` comes with a kick exactly where this call attached a table, or, behind the last table that
    /// it walked, raised the count of ports and by this has that table more ports than three quarters of
    /// its buckets, and may grow. `Exists` comes only in a table of one owner each.
    ///
    /// It is refused as `NoNode` where it found the bit of each node clear, each at some operation of its
    /// own; and as `TooBig` where it loaded that count, which is as many ports as the table may hold or
    /// more. The other refusals come where the last table that it walked is full: it counted 16 nodes
    /// or more in the port's own bucket of it, or loaded a count above its size, and it may grow.
    /// `Again` names the table that this call attached behind that one, or found there as its future;
    /// for the other two it found none there. `Busy` comes where another table is the current one, and
    /// by the count the full one isn't due to grow. `NoTable` comes where it found each slot taken, or
    /// each run of pages in its turn and then, from 128 buckets on, each page, for the size that was
    /// wanted: twice that of the full table where this is due to grow by the count, and otherwise its
    /// own. It also comes, with the last table's own size, where that table is nested, it found the
    /// page of the port's bucket missing there, and found each page taken.
    pub fn bind_once<R: Wait>(&self, rt: &R, pass: &mut Pass<M>, port: Port, owner: u32) -> Reply
        requires pass { IsPassOf M.mix_of self.now pass.old }
        requires idle { is_idle pass.old.local ≡ true }
        ensures called { HasCalled M.mix_of self.now (Bind port owner true) result pass.old pass.new }
        ensures reply { IsBindReply true result }
        ensures cause { IsCaused M.mix_of self.now (Bind port owner true) result pass.old pass.new }
    {
        // A call may be made of each port, since a port's key word is below 2^48.
        let _ = word_of(port);
        let once = true;
        self.call(rt, pass, Call::Bind { port, owner, once })
    }

    /// Binds a port to an owner, and tries again where `bind_once` answers `Again`. Each other reply comes
    /// when it does of that one.
    pub fn bind<R: Wait>(&self, rt: &R, pass: &mut Pass<M>, port: Port, owner: u32) -> Reply
        requires pass { IsPassOf M.mix_of self.now pass.old }
        requires idle { is_idle pass.old.local ≡ true }
        ensures called { HasCalled M.mix_of self.now (Bind port owner false) result pass.old pass.new }
        ensures reply { IsBindReply false result }
        ensures cause { IsCaused M.mix_of self.now (Bind port owner false) result pass.old pass.new }
    {
        // A call may be made of each port, since a port's key word is below 2^48.
        let _ = word_of(port);
        let once = false;
        self.call(rt, pass, Call::Bind { port, owner, once })
    }

    /// Takes one binding of a port to this owner out: `Released`, or `Absent` where there is none. Its node
    /// goes into the pass's batch. The kernel's counterpart is `rhashtable_remove_fast`.
    ///
    /// `Released` comes with a kick exactly where this call, behind the last table that it walked, lowered
    /// the count of ports, shrinking is on, and by this that table has fewer ports than three tenths of
    /// its buckets, rounded down, and more buckets than the least size.
    #[inline(always)]
    pub fn release<R: Wait>(&self, rt: &R, pass: &mut Pass<M>, port: Port, owner: u32) -> Reply
        requires pass { IsPassOf M.mix_of self.now pass.old }
        requires idle { is_idle pass.old.local ≡ true }
        ensures called { HasCalled M.mix_of self.now (Release port owner) result pass.old pass.new }
        ensures reply { IsReleaseReply result }
        ensures cause { IsCaused M.mix_of self.now (Release port owner) result pass.old pass.new }
    {
        // A call may be made of each port, since a port's key word is below 2^48.
        let _ = word_of(port);
        self.call(rt, pass, Call::Release { port, owner })
    }

    /// Puts a new owner in the place of the first of the port's owners that is this one: `Rebound`, `Absent`
    /// where the port isn't bound to this owner, or `NoNode` where it found the bit of each node clear,
    /// each at some operation of its own. The node of the old owner goes into the pass's batch. The
    /// kernel's counterpart is `rhashtable_replace_fast`, which follows no list.
    pub fn rebind<R: Wait>(
        &self,
        rt: &R,
        pass: &mut Pass<M>,
        port: Port,
        owner: u32,
        new: u32,
    ) -> Reply
        requires pass { IsPassOf M.mix_of self.now pass.old }
        requires idle { is_idle pass.old.local ≡ true }
        ensures called { HasCalled M.mix_of self.now (Rebind port owner new) result pass.old pass.new }
        ensures reply { IsRebindReply result }
        ensures cause { IsCaused M.mix_of self.now (Rebind port owner new) result pass.old pass.new }
    {
        clear_rooms(&mut pass.local);
        let (reply, removed) = self.drive_rebind::<R, Brand>(
            rt,
            &mut pass.seat,
            pass.number,
            port,
            owner,
            new,
        );
        keep_node(&mut pass.local, removed);
        reply
    }

    /// Lists the owners of a port: `Listed`, for which it has nothing further to show, and they stand in
    /// `Pass::owners`. The kernel's counterpart is `rhltable_lookup`.
    pub fn all<R: Wait>(&self, rt: &R, pass: &mut Pass<M>, port: Port) -> Reply
        requires pass { IsPassOf M.mix_of self.now pass.old }
        requires idle { is_idle pass.old.local ≡ true }
        ensures called { HasCalled M.mix_of self.now (All port) result pass.old pass.new }
        ensures reply { IsAllReply result }
        ensures owners { AreOwnersWith result pass.new.local.owners.items }
        ensures cause { IsCaused M.mix_of self.now (All port) result pass.old pass.new }
    {
        // A call may be made of each port, since a port's key word is below 2^48.
        let _ = word_of(port);
        self.call(rt, pass, Call::All { port })
    }

    /// Walks the table bucket by bucket, from a cursor on or without one from the first bucket, and keeps
    /// each port that it sees with its first owner: the pairs stand in `Pass::pairs`. It ends behind a
    /// bucket once `limit` pairs or more are kept; at a limit of 0 it walks one bucket. It waits for
    /// nobody, takes no memory, and opens one read section around all of its loads.
    ///
    /// `Walked` says how many pairs there are, and where the walk goes on; without a cursor it has come to
    /// the table's end, and found no table behind. Any cursor will do. `Again` comes without pairs, and
    /// names the table with which a walk has to begin anew: the current one, where the cursor isn't of
    /// that or it has no such bucket; or one to which entries may have been moved meanwhile.
    ///
    /// The pairs are what its own loads found (`cause`), and not the table of one moment. What the calls show
    /// together that go from the first bucket to the table's end is told by `shown` of `rht_core`'s laws: each
    /// port that stays bound meanwhile, each once, and none that wasn't bound so at a moment of it. The
    /// kernel's counterparts are `rhashtable_walk_start`, `rhashtable_walk_next` and `rhashtable_walk_stop`.
    pub fn walk(&self, pass: &mut Pass<M>, from: Option<Cursor>, limit: u32) -> Reply
        requires pass { IsPassOf M.mix_of self.now pass.old }
        requires idle { is_idle pass.old.local ≡ true }
        ensures called { HasCalled M.mix_of self.now (Walk from limit) result pass.old pass.new }
        ensures reply { IsWalkReply result }
        ensures pairs { ArePairsWith result pass.new.local.pairs.items }
        ensures cause { IsCaused M.mix_of self.now (Walk from limit) result pass.old pass.new }
    {
        self.walked(pass, from, limit)
    }

    /// Gives back each retired table over which no read section is open any more. Then it attaches a
    /// table where one is due, and moves the current table's entries into its future one, where it has
    /// one. It waits for the locks of buckets, and for no section. The kernel's counterparts are
    /// `rht_deferred_worker`, and of the giving back what `call_rcu` does behind a grace period.
    ///
    /// `Elsewhere` comes where it found the work lock taken: another caller is at it, for which this one
    /// doesn't wait. Otherwise it chose by the last table's shape and by the count what was due. `Idle`
    /// comes where nothing was, and the current table had no future; `NoTable` where a table of this size
    /// was due that couldn't be had, while the last one was the current one or nested; `Moved` where it
    /// made another table the current one. There is more to do exactly where that one had a future, or no
    /// table of the size that was due had been attached. `Moved`, with more to do, comes also where it
    /// looked anew for the last table, which wasn't the current one and was nested, and so it stopped.
    pub fn work<R: Wait>(&self, rt: &R, pass: &mut Pass<M>) -> Reply
        requires pass { IsPassOf M.mix_of self.now pass.old }
        requires idle { is_idle pass.old.local ≡ true }
        ensures called { HasCalled M.mix_of self.now Work result pass.old pass.new }
        ensures reply { IsWorkReply result }
        ensures cause { IsCaused M.mix_of self.now Work result pass.old pass.new }
    {
        clear_rooms(&mut pass.local);
        self.drive_work::<R, Brand>(rt, &mut pass.seat, pass.number)
    }

    /// Gives back the nodes that wait in the pass's batch, all of them or none, so that binds can take them
    /// again. Each takes an operation, so a bind may take the first while the call goes on.
    /// It waits for nobody, and takes no memory.
    ///
    /// A node that a release or a rebind took out comes into its pass's batch. Where none of these waits
    /// yet, they all begin to: until each read section that is open then has been left. What comes into
    /// the batch while others wait is for a later call.
    ///
    /// `Clear` comes once it has found all those sections left, and says how many nodes it gave back.
    /// `Pending` comes where it found a caller in one of them still, also where the batch is empty. It
    /// names that caller and its section word, and has given back none. So tidy again later, behind the
    /// end of that caller's call.
    ///
    /// The kernel's counterparts are `call_rcu` and `kfree_rcu`, behind which it frees by itself. Where
    /// this call answers `Pending`, `synchronize_rcu` would wait.
    pub fn tidy(&self, pass: &mut Pass<M>) -> Reply
        requires pass { IsPassOf M.mix_of self.now pass.old }
        requires idle { is_idle pass.old.local ≡ true }
        ensures called { HasCalled M.mix_of self.now Tidy result pass.old pass.new }
        ensures reply { IsTidyReply result }
        ensures cause { IsCaused M.mix_of self.now Tidy result pass.old pass.new }
        ensures left { HasLeftBatch M.mix_of self.now result pass.old pass.new }
        ensures batch { HasTidiedBatch self.now result pass.old pass.new }
    {
        self.tidied(pass)
    }

    /// Tidies. After the first operation its machine is held beside the pass, which gets its batch back at the
    /// end. A tidying has at most `most` operations, so nothing follows its loop.
    fn tidied(&self, pass: &mut Pass<M>) -> Reply
        requires pass { IsPassOf M.mix_of self.now pass.old }
        requires idle { is_idle pass.old.local ≡ true }
        ensures called { HasCalled M.mix_of self.now Tidy result pass.old pass.new }
        ensures batch { HasTidiedBatch self.now result pass.old pass.new }
    {
        if let Some(reply) = self.start(pass, Call::Tidy) {
            return reply;
        }
        let doing = std::mem::replace(&mut pass.local.doing, Doing::Idle);
        let Doing::Tidying(tidy) = doing else {
            unreachable!()
        };
        let mut tidy = tidy;
        let most = most_of_tidying(self.env.geometry);
        for rounds in 0..most {
            let op = tidy.plan();
            let at = physical(op.place());
            let old = self.perform::<Brand>(&mut pass.seat, op, at);
            if let Next::Done(reply) = tidy.take(old) {
                pass.local.batch = Some(tidy.into_parts());
                return reply;
            }
        }
        unreachable!()
    }

    /// Counts the bound ports: `Counted`. The ports bound where it loaded the count were at most so many,
    /// and with the other callers that were in the middle of a call at least. It waits for nobody.
    pub fn count(&self, pass: &mut Pass<M>) -> Reply
        requires pass { IsPassOf M.mix_of self.now pass.old }
        requires idle { is_idle pass.old.local ≡ true }
        ensures called { HasCalled M.mix_of self.now Count result pass.old pass.new }
        ensures reply { IsCountReply result }
        ensures cause { IsCaused M.mix_of self.now Count result pass.old pass.new }
    {
        let Some(reply) = self.start(pass, Call::Count) else {
            unreachable!()
        };
        reply
    }
}

/// How many operations a tidying makes at most: two for each caller, one for each node, and one.
fn most_of_tidying(geometry: Geometry) -> u64
    ensures { result ≡ tidy_bound geometry }
{
    u64::from(2 * geometry.callers + geometry.nodes + 1)
}
