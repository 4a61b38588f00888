//! Pieces of machines, and the states of the machines that hold them.

ghost use Rattle.std.specs.Prelude.{◌≡◌, ℕ, Option, None, Some, false};
ghost use Rattle.rht_words.specs.declared.op.Op.{Op};
ghost use Rattle.rht_words.specs.declared.machine.Next.{Next};
ghost use Rattle.rht_words.specs.declared.env.Env.{Env};
ghost use Rattle.rht_arena.specs.NewNode.{new_node_plan, new_node_after, IsNewNodeIn};
ghost use Rattle.rht_bind.specs.Bind.{bind_plan, bind_after, IsBindAtIn};
ghost use Rattle.rht_bind.specs.declared.bind.BindAt.TheVariants as binds;
ghost use Rattle.rht_chain.specs.Lock.{lock_plan, lock_after, IsLockIn};
ghost use Rattle.rht_chain.specs.Probe.{probe_plan, probe_after, IsProbeIn};
ghost use Rattle.rht_find.specs.Find.{find_plan, find_after, IsFindAtIn};
ghost use Rattle.rht_model.specs.Rooms.{Kept, emptied};
ghost use Rattle.rht_nest.specs.Locate.{locate_plan, locate_after, IsLocateIn};
ghost use Rattle.rht_model.specs.declared.history.Reply.{Reply as ReplyOf};
ghost use Rattle.rht_callers.specs.declared.local.Doing.{Doing};
ghost use Rattle.rht_grace.specs.Batch.{BatchModel};
ghost use Rattle.rht_callers.specs.Batches.{batch_beside};
ghost use Rattle.rht_callers.specs.declared.local.Doing.TheVariants.{Binding, Finding};
ghost use Rattle.rht_core.specs.Locals.{does_nothing, doing_plan, owners_beside, owners_after, pairs_beside};
ghost use Rattle.rht_walk.specs.Walk.{Pairs};
ghost use Rattle.rht_core.specs.Laws.{IsDoingIn};
ghost use Rattle.rht_run.specs.Rides.{piece_next, replied, driven};
ghost use Rattle.rht_run.specs.Pieces.{bucket_lock_after, probe_locks, probe_locked, port_locate_after};
ghost use Rattle.rht_run.specs.PieceFrames.{probe_locking, bind_at, bind_filling, bind_filled, bind_locating, bind_located, bind_probing, bind_probed};

use rht_arena::NewNode;
use rht_bind::{Attempt, Bind};
use rht_chain::{Lock, Locked, Probe, Probed};
use rht_find::Find;
use rht_model::Reply;
use rht_nest::{Locate, Located};
use rht_policy::Mix;
use rht_words::{Env, Next, Op, Port};

/// A piece, which performs one operation after another, to an answer.
pub trait Piece<M: Mix, A> {
    ghost plan_of: { Self → Op };

    ghost after_of: { Self → ℕ → Self × Next A };

    // all that it names is the table's
    ghost is_in: { Env → Self → Type 0 };

    /// The next operation.
    fn planned(&self) -> Op
        ensures { result ≡ plan_of self.now };

    /// Takes in the word's old value.
    fn told(&mut self, old: u64) -> Next<A>
        ensures { (self.new, result) ≡ after_of self.old old };
}

/// A state of a machine that holds a piece, without that piece. It has no code.
pub trait Frame<M: Mix, P: Piece<M, A>, A> {
    // what the caller does while the piece runs
    ghost holding: { Self → P → Doing M };

    // and once it has answered, with the reply where that ends the call, and the node that the call took out
    ghost behind: { Self → A → Doing M × Option (ReplyOf × Option ℕ) };

    ghost busy: { (f : Self) (p : P) → does_nothing (holding f p) ≡ false };

    ghost empties: { (f : Self) (p : P) (room : Kept ℕ) → owners_beside (holding f p) room ≡ emptied room };

    ghost beside: { (f : Self) (p : P) (batch : Option BatchModel) → batch_beside (holding f p) batch ≡ batch };

    ghost pairs: { (f : Self) (p : P) (room : Pairs) → pairs_beside (holding f p) room ≡ emptied room };

    ghost plans: { (f : Self) (p : P) → doing_plan (holding f p) ≡ Some (P.plan_of p) };

    ghost within: { (env : Env) (c : ℕ) (f : Self) (p : P) → IsDoingIn env c (holding f p) → P.is_in env p };

    ghost goes: { (f : Self) (p : P) (old : ℕ) → driven M.mix_of (holding f p) old ≡ piece_next (λ q. holding f q) (λ a. behind f a) (P.after_of p old) };

    ghost keeps: { (f : Self) (p : P) (room : Kept ℕ) (old : ℕ) → owners_after M.mix_of (holding f p) room old ≡ room };
}

/// The whole machine of a call. Its reply ends the call.
#[derive(Clone, Copy)]
pub struct Whole;

// ---- pieces

impl<M: Mix> Piece<M, Probed> for Probe {
    ghost plan_of = { probe_plan };

    ghost after_of = { probe_after };

    ghost is_in = { λ env p. IsProbeIn env.geometry p };

    #[inline(always)]
    fn planned(&self) -> Op {
        self.plan()
    }

    #[inline(always)]
    fn told(&mut self, old: u64) -> Next<Probed> {
        self.take(old)
    }
}

impl<M: Mix> Piece<M, Locked> for Lock {
    ghost plan_of = { lock_plan };

    ghost after_of = { bucket_lock_after };

    ghost is_in = { λ env p. IsLockIn env.geometry p };

    #[inline(always)]
    fn planned(&self) -> Op {
        self.plan()
    }

    #[inline(always)]
    fn told(&mut self, old: u64) -> Next<Locked> {
        let (lock, next) = self.after(old);
        *self = lock;
        match next {
            Next::Go => Next::Go,
            Next::Done(word) => {
                let place = lock.place();
                Next::Done(Locked { place, word })
            }
        }
    }
}

/// A state of a machine that holds a probe, which takes its lock.
#[derive(Drop)]
pub struct ProbeLocking<'a, F> {
    pub frame: &'a F,
    pub probe: &'a Probe,
}

impl<'a, M: Mix, F: Frame<M, Probe, Probed>> Frame<M, Lock, Locked> for ProbeLocking<'a, F> {
    ghost use Rattle.std.proofs.Common.{◌∙◌};

    ghost holding = { λ f lock. F.holding f.frame.now (probe_locks f.probe.now lock) };

    ghost behind = { λ f bucket. piece_next (λ p. F.holding f.frame.now p) (λ a. F.behind f.frame.now a) (probe_locked f.probe.now bucket) };

    ghost busy = { λ f lock. F.busy f.frame.now (probe_locks f.probe.now lock) };

    ghost empties = { λ f lock room. F.empties f.frame.now (probe_locks f.probe.now lock) room };

    ghost beside = { λ f lock batch. F.beside f.frame.now (probe_locks f.probe.now lock) batch };

    ghost pairs = { λ f lock room. F.pairs f.frame.now (probe_locks f.probe.now lock) room };

    ghost plans = { λ f lock. F.plans f.frame.now (probe_locks f.probe.now lock) };

    ghost within = { λ env c f lock is. (F.within env c f.frame.now (probe_locks f.probe.now lock) is).at_in };

    ghost goes = { λ f lock old. F.goes f.frame.now (probe_locks f.probe.now lock) old ∙ probe_locking (λ p. F.holding f.frame.now p) (λ a. F.behind f.frame.now a) f.probe.now (lock_after lock old) };

    ghost keeps = { λ f lock room old. F.keeps f.frame.now (probe_locks f.probe.now lock) room old };
}

/// The finding of this port's bucket.
#[derive(Clone, Copy)]
pub struct PortLocate {
    pub port: Port,
    pub locate: Locate,
}

/// Where this port's bucket is in the table of this slot.
#[derive(Clone, Copy)]
pub struct PortLocated {
    pub port: Port,
    pub table: u32,
    pub found: Located,
}

impl<M: Mix> Piece<M, PortLocated> for PortLocate {
    ghost plan_of = { λ p. locate_plan p.locate };

    ghost after_of = { port_locate_after M.mix_of };

    ghost is_in = { λ env p. IsLocateIn env.geometry p.locate };

    #[inline(always)]
    fn planned(&self) -> Op {
        self.locate.plan()
    }

    #[inline(always)]
    fn told(&mut self, old: u64) -> Next<PortLocated> {
        let port = self.port;
        let (locate, next) = self.locate.after::<M>(port, old);
        self.locate = locate;
        match next {
            Next::Go => Next::Go,
            Next::Done(found) => {
                let table = locate.table();
                Next::Done(PortLocated { port, table, found })
            }
        }
    }
}

// ---- the look-up

impl<M: Mix> Piece<M, Reply> for Find<M> {
    ghost plan_of = { find_plan };

    ghost after_of = { find_after M.mix_of };

    ghost is_in = { λ env m. IsFindAtIn env m.at };

    #[inline(always)]
    fn planned(&self) -> Op {
        self.plan()
    }

    #[inline(always)]
    fn told(&mut self, old: u64) -> Next<Reply> {
        self.take(old)
    }
}

impl<M: Mix> Frame<M, Find<M>, Reply> for Whole {
    ghost use Rattle.std.specs.Prelude.{refl};

    ghost holding = { λ f m. Finding m };

    ghost behind = { λ f reply. replied reply };

    ghost busy = { λ f m. refl };

    ghost empties = { λ f m room. refl };

    ghost beside = { λ f m batch. refl };

    ghost pairs = { λ f m room. refl };

    ghost plans = { λ f m. refl };

    ghost within = { λ env c f m is. is.at_in };

    ghost goes = { λ f m old. refl };

    ghost keeps = { λ f m room old. refl };
}

// ---- the bind

impl<M: Mix> Piece<M, Option<u32>> for NewNode {
    ghost plan_of = { new_node_plan };

    ghost after_of = { new_node_after };

    ghost is_in = { λ env p. IsNewNodeIn env.geometry p };

    #[inline(always)]
    fn planned(&self) -> Op {
        self.plan()
    }

    #[inline(always)]
    fn told(&mut self, old: u64) -> Next<Option<u32>> {
        self.take(old)
    }
}

impl<M: Mix> Piece<M, Reply> for Bind<M> {
    ghost plan_of = { bind_plan };

    ghost after_of = { bind_after M.mix_of };

    ghost is_in = { λ env m. IsBindAtIn env m.at };

    #[inline(always)]
    fn planned(&self) -> Op {
        self.plan()
    }

    #[inline(always)]
    fn told(&mut self, old: u64) -> Next<Reply> {
        self.take(old)
    }
}

impl<M: Mix> Frame<M, Bind<M>, Reply> for Whole {
    ghost use Rattle.std.specs.Prelude.{refl};

    ghost holding = { λ f m. Binding m };

    ghost behind = { λ f reply. replied reply };

    ghost busy = { λ f m. refl };

    ghost empties = { λ f m room. refl };

    ghost beside = { λ f m batch. refl };

    ghost pairs = { λ f m room. refl };

    ghost plans = { λ f m. refl };

    ghost within = { λ env c f m is. is.at_in };

    ghost goes = { λ f m old. refl };

    ghost keeps = { λ f m room old. refl };
}

/// A bind that takes a node and fills it.
#[derive(Clone, Copy)]
pub struct BindFilling {
    pub env: Env,
    pub caller: u32,
    pub port: Port,
    pub owner: u32,
    pub once: bool,
}

impl<M: Mix> Frame<M, NewNode, Option<u32>> for BindFilling {
    ghost use Rattle.std.specs.Prelude.{refl};

    ghost holding = { λ f p. bind_at f.env f.caller f.port f.owner f.once (binds.Filling p) };

    ghost behind = { λ f node. bind_filled f.env f.caller f.port f.owner f.once node };

    ghost busy = { λ f p. refl };

    ghost empties = { λ f p room. refl };

    ghost beside = { λ f p batch. refl };

    ghost pairs = { λ f p room. refl };

    ghost plans = { λ f p. refl };

    ghost within = { λ env c f p is. is.at_in };

    ghost goes = { λ f p old. bind_filling f.env f.caller f.port f.owner f.once (new_node_after p old) };

    ghost keeps = { λ f p room old. refl };
}

/// A bind that finds the port's bucket.
#[derive(Clone, Copy)]
pub struct BindLocating {
    pub env: Env,
    pub caller: u32,
    pub owner: u32,
    pub once: bool,
    pub attempt: Attempt,
}

impl<M: Mix> Frame<M, PortLocate, PortLocated> for BindLocating {
    ghost use Rattle.std.specs.Prelude.{refl};

    ghost holding = { λ f p. bind_at f.env f.caller p.port f.owner f.once (binds.Locating f.attempt p.locate) };

    ghost behind = { λ f there. bind_located f.env f.caller there.port f.owner f.once f.attempt there.table there.found };

    ghost busy = { λ f p. refl };

    ghost empties = { λ f p room. refl };

    ghost beside = { λ f p batch. refl };

    ghost pairs = { λ f p room. refl };

    ghost plans = { λ f p. refl };

    ghost within = { λ env c f p is. is.at_in.locate_in };

    ghost goes = { λ f p old. bind_locating f.env f.caller p.port f.owner f.once f.attempt (locate_after M.mix_of p.port p.locate old) };

    ghost keeps = { λ f p room old. refl };
}

/// A bind that is in the port's bucket.
#[derive(Clone, Copy)]
pub struct BindProbing {
    pub env: Env,
    pub caller: u32,
    pub port: Port,
    pub owner: u32,
    pub once: bool,
    pub attempt: Attempt,
    pub table: u32,
    pub shape: u64,
}

impl<M: Mix> Frame<M, Probe, Probed> for BindProbing {
    ghost use Rattle.std.specs.Prelude.{refl};

    ghost holding = { λ f p. bind_at f.env f.caller f.port f.owner f.once (binds.Probing f.attempt f.table f.shape p) };

    ghost behind = { λ f end. bind_probed f.env f.caller f.port f.owner f.once f.attempt f.table f.shape end };

    ghost busy = { λ f p. refl };

    ghost empties = { λ f p room. refl };

    ghost beside = { λ f p batch. refl };

    ghost pairs = { λ f p room. refl };

    ghost plans = { λ f p. refl };

    ghost within = { λ env c f p is. is.at_in.probe_in };

    ghost goes = { λ f p old. bind_probing f.env f.caller f.port f.owner f.once f.attempt f.table f.shape (probe_after p old) };

    ghost keeps = { λ f p room old. refl };
}
