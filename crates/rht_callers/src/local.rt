//! One caller: what it is doing, and its rooms.

ghost use Rattle.std.specs.Prelude.{◌≡◌, ◌<◌, IfSome, IfOk, Some};
ghost use Rattle.rht_words.specs.Operations.{op_place};
ghost use Rattle.rht_words.specs.Places.{words_in};
ghost use Rattle.rht_words.specs.declared.env.Env.{Env};
ghost use Rattle.rht_callers.specs.Locals.{does_nothing, is_idle, machine_from, machine_of, doing_plan, soft, plan_of, may_hold, may_begin, doing_after, without_node, owners_after, pairs_after, local_after, begun_with, fresh, IsDoingOf, IsLocalOf};
ghost use Rattle.rht_callers.specs.Batches.{with_out, node_out, out_of, batch_after, IsBatchIn, CanPut};

use crate::count::PortCount;
use rht_bind::Bind;
use rht_find::Find;
use rht_grace::{Batch, Tidy};
use rht_model::{Call, Reply, Room};
use rht_move::Work;
use rht_policy::Mix;
use rht_release::{All, Rebind, Release};
use rht_walk::Walk;
use rht_words::{Env, Next, Op, Port};
use std::alloc::{AllocError, Global};

/// What a caller is doing: nothing, or one of the machines.
#[derive(Drop)]
pub enum Doing<M: Mix> {
    /// It is in no call.
    Idle,
    /// It looks a port up.
    Finding(Find<M>),
    /// It binds a port.
    Binding(Bind<M>),
    /// It lists the owners of a port. Until it ends it has its caller's room of owners.
    Listing(All<M>),
    /// It takes a binding out.
    Releasing(Release<M>),
    /// It puts another owner in one's place.
    Rebinding(Rebind<M>),
    /// It resizes the table, where that is due.
    Working(Work<M>),
    /// It reads how many ports are bound.
    Counting(PortCount),
    /// It gives back the nodes that it took out. Until it ends it has its caller's batch.
    Tidying(Tidy),
    /// It walks the table's buckets. Until it ends it has its caller's room of pairs.
    Walking(Walk),
}

impl<M: Mix> Doing<M> {
    /// Whether this is nothing.
    pub fn is_idle(&self) -> bool
        ensures { result ≡ does_nothing self.now }
    {
        match self {
            Doing::Idle => true,
            Doing::Finding(_)
            | Doing::Binding(_)
            | Doing::Listing(_)
            | Doing::Releasing(_)
            | Doing::Rebinding(_)
            | Doing::Working(_)
            | Doing::Counting(_)
            | Doing::Tidying(_)
            | Doing::Walking(_) => false,
        }
    }

    /// The next operation. `None` where nothing is done.
    pub fn plan(&self) -> Option<Op>
        ensures plan { result ≡ doing_plan self.now }
        ensures place { (env : Env) → IsDoingOf env self.now → IfSome result (λ op. op_place op < words_in env.geometry) }
    {
        match self {
            Doing::Idle => None,
            Doing::Finding(find) => Some(find.plan()),
            Doing::Binding(bind) => Some(bind.plan()),
            Doing::Listing(all) => Some(all.plan()),
            Doing::Releasing(release) => Some(release.plan()),
            Doing::Rebinding(rebind) => Some(rebind.plan()),
            Doing::Working(work) => Some(work.plan()),
            Doing::Counting(count) => Some(count.plan()),
            Doing::Tidying(tidy) => Some(tidy.plan()),
            Doing::Walking(walk) => Some(walk.plan()),
        }
    }

    /// Takes in the old value of the word that the operation was on. A reply ends the call. A
    /// listing that ends gives the room back to `owners`, a walk to `pairs`, and a tidying the batch
    /// to `batch`. A node that a release or a rebind has taken out goes into the batch.
    pub fn take(
        &mut self,
        owners: &mut Room<u32>,
        pairs: &mut Room<(Port, u32)>,
        batch: &mut Option<Batch>,
        old: u64,
    ) -> Option<Reply>
        requires put { CanPut batch.old (out_of M.mix_of self.old old) }
        ensures taken { (self.new, result) ≡ doing_after M.mix_of self.old old }
        ensures owners { owners.new ≡ owners_after M.mix_of self.old owners.old old }
        ensures pairs { pairs.new ≡ pairs_after self.old pairs.old old }
        ensures batch { batch.new ≡ batch_after M.mix_of self.old batch.old old }
        ensures env { (env : Env) → IsDoingOf env self.old → IsDoingOf env self.new }
    {
        let next = match self {
            Doing::Idle => return None,
            Doing::Finding(find) => find.take(old),
            Doing::Binding(bind) => bind.take(old),
            Doing::Listing(all) => all.take(old),
            Doing::Releasing(release) => without_node(release.take(old), batch),
            Doing::Rebinding(rebind) => without_node(rebind.take(old), batch),
            Doing::Working(work) => work.take(old),
            Doing::Counting(count) => count.take(old),
            Doing::Tidying(tidy) => tidy.take(old),
            Doing::Walking(walk) => walk.take(old),
        };
        match next {
            Next::Go => None,
            Next::Done(reply) => {
                match std::mem::replace(self, Doing::Idle) {
                    Doing::Listing(all) => *owners = all.into_parts(),
                    Doing::Tidying(tidy) => *batch = Some(tidy.into_parts()),
                    Doing::Walking(walk) => *pairs = walk.into_parts(),
                    _ => {}
                }
                Some(reply)
            }
        }
    }
}

/// Whether the call may be made while its caller holds a section open, where it does.
fn may_hold(held: bool, call: &Call) -> bool
    ensures { result ≡ may_hold held call.now }
{
    if !held {
        return true;
    }
    match call {
        Call::Find { .. } | Call::Walk { .. } | Call::Count => true,
        Call::Bind { .. } | Call::All { .. } | Call::Release { .. } => false,
        Call::Rebind { .. } | Call::Work | Call::Tidy => false,
    }
}

/// The operation that a caller makes where its machine plans this one: while it holds a section
/// open, one that would turn the section loads its word.
fn soft(held: bool, op: Op) -> Op
    ensures soft { result ≡ soft held op }
    ensures place { op_place result ≡ op_place op }
{
    if let Op::Add { place, by } = op {
        if held && 8 <= place && place < 24 && by == 1 {
            return Op::load(place);
        }
    }
    op
}

/// The reply. A node that was taken out goes into the batch.
fn without_node(next: Next<(Reply, Option<u32>)>, batch: &mut Option<Batch>) -> Next<Reply>
    requires { CanPut batch.old (node_out next) }
    ensures reply { result ≡ without_node next }
    ensures batch { batch.new ≡ with_out batch.old (node_out next) }
{
    match next {
        Next::Go => Next::Go,
        Next::Done((reply, removed)) => {
            if let Some(node) = removed {
                put(batch, node);
            }
            Next::Done(reply)
        }
    }
}

/// Puts a node into the batch.
fn put(batch: &mut Option<Batch>, node: u32)
    requires { CanPut batch.old (Some node) }
    ensures { batch.new ≡ with_out batch.old (Some node) }
{
    if let Some(batch) = batch {
        batch.put(node);
    }
}

/// One caller. Its rooms have all the memory that its calls will need.
#[derive(Drop)]
pub struct Local<M: Mix> {
    /// What it is doing.
    pub doing: Doing<M>,
    /// The owners that came with `Listed`, once the call has ended. While the caller lists owners
    /// the listing has this room.
    pub owners: Room<u32>,
    /// The pairs that came with `Walked`, once the call has ended. While the caller walks the walk has
    /// this room.
    pub pairs: Room<(Port, u32)>,
    /// The nodes that its calls took out and that aren't given back. `None` while the caller tidies:
    /// then the tidying has them.
    pub batch: Option<Batch>,
    /// It holds its read section open over its calls.
    pub held: bool,
}

impl<M: Mix> Local<M> {
    /// A caller that has made no call, with rooms for all nodes. The one refusal is want of memory.
    pub fn new(alloc: Global, env: Env) -> Result<Local<M>, AllocError>
        ensures { IfOk result (λ local. local ≡ fresh env) }
    {
        Ok(Local {
            doing: Doing::Idle,
            owners: Room::with_limit(alloc, env.geometry.nodes)?,
            pairs: Room::with_limit(alloc, env.geometry.nodes)?,
            batch: Some(Batch::new(alloc, env.geometry)?),
            held: false,
        })
    }

    /// Whether the caller is in no call.
    pub fn is_idle(&self) -> bool
        ensures { result ≡ is_idle self.now }
    {
        self.doing.is_idle()
    }

    /// Whether the caller may be given the call: it is in no call, and while it holds its section
    /// open the call is a look-up, a walk, or a reading of the count.
    pub fn may_begin(&self, call: &Call) -> bool
        ensures { result ≡ may_begin self.now call.now }
    {
        self.is_idle() && may_hold(self.held, call)
    }

    /// The owners of the last finished call, while the caller is in no call and where that one
    /// answered `Listed`; otherwise none.
    pub fn owners(&self) -> &[u32]
        ensures { result.now ≡ self.now.owners.items }
    {
        self.owners.as_slice()
    }

    /// The pairs of the last finished call, while the caller is in no call and where that one
    /// answered `Walked`; otherwise none.
    pub fn pairs(&self) -> &[(Port, u32)]
        ensures { result.now ≡ self.now.pairs.items }
    {
        self.pairs.as_slice()
    }

    /// Begins a call, and empties both rooms; no memory is taken or given back. It does nothing for a
    /// tidying without a batch, which no idle caller lacks.
    pub fn begin(&mut self, env: Env, caller: u32, call: Call)
        requires owners { self.old.owners.limit ≡ env.geometry.nodes }
        requires pairs { self.old.pairs.limit ≡ env.geometry.nodes }
        requires batch { IsBatchIn env self.old.batch }
        requires caller { caller < 16 }
        ensures { self.new ≡ begun_with self.old (machine_of env caller self.old.batch call) }
    {
        self.begin_from(env, caller, call, 0);
    }

    /// The same, where the call looks for a free node from this word of the node map on, if it takes one.
    pub fn begin_from(&mut self, env: Env, caller: u32, call: Call, start: u32)
        requires owners { self.old.owners.limit ≡ env.geometry.nodes }
        requires pairs { self.old.pairs.limit ≡ env.geometry.nodes }
        requires batch { IsBatchIn env self.old.batch }
        requires caller { caller < 16 }
        ensures { self.new ≡ begun_with self.old (machine_from env caller self.old.batch call start) }
    {
        let doing = match call {
            Call::Find { port } => Doing::Finding(Find::new(env, caller, port)),
            Call::Bind { port, owner, once } => {
                Doing::Binding(Bind::from(env, caller, port, owner, once, start))
            }
            Call::All { port } => Doing::Listing(All::new(env, caller, port, self.owners.take())),
            Call::Release { port, owner } => {
                Doing::Releasing(Release::new(env, caller, port, owner))
            }
            Call::Rebind { port, owner, new } => {
                Doing::Rebinding(Rebind::from(env, caller, port, owner, new, start))
            }
            Call::Work => Doing::Working(Work::new(env, caller)),
            Call::Count => Doing::Counting(PortCount { env }),
            Call::Tidy => match self.batch.take() {
                Some(batch) => Doing::Tidying(Tidy::new(env.geometry, batch)),
                None => return,
            },
            Call::Walk { from, limit } => {
                Doing::Walking(Walk::new(env, caller, from, limit, self.pairs.take()))
            }
        };
        self.owners.clear();
        self.pairs.clear();
        self.doing = doing;
    }

    /// The next operation. `None` where the caller is idle.
    pub fn plan(&self) -> Option<Op>
        ensures plan { result ≡ plan_of self.now }
        ensures place { (env : Env) → IsLocalOf env self.now → IfSome result (λ op. op_place op < words_in env.geometry) }
    {
        match self.doing.plan() {
            None => None,
            Some(op) => Some(soft(self.held, op)),
        }
    }

    /// Takes in the old value of the word that the operation was on. A reply ends the call. A node that
    /// the call has taken out goes into the batch, so it has to be none of those that are in it.
    pub fn take(&mut self, old: u64) -> Option<Reply>
        requires put { CanPut self.old.batch (out_of M.mix_of self.old.doing old) }
        ensures taken { (self.new, result) ≡ local_after M.mix_of self.old old }
        ensures env { (env : Env) → IsLocalOf env self.old → IsLocalOf env self.new }
    {
        self.doing
            .take(&mut self.owners, &mut self.pairs, &mut self.batch, old)
    }
}
