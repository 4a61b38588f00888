//! The listing of a port's owners, state by state.

ghost use Rattle.std.specs.Prelude.{◌≡◌, ◌<◌};
ghost use Rattle.rht_words.specs.Operations.{op_place};
ghost use Rattle.rht_words.specs.Places.{words_in};
ghost use Rattle.rht_release.specs.Seek.{seek_after};
ghost use Rattle.rht_release.specs.All.{all_new, all_plan, all_after, after_at, room_after, sought, list_followed, IsAllAtIn};

use crate::found_port::FoundPort;
use crate::seek::Seek;
use rht_chain::Unlock;
use rht_grace::{Enter, Leave};
use rht_model::{Reply, Room};
use rht_policy::Mix;
use rht_words::{Env, Next, Op, Port, node_of, owner_of};
use std::marker::{Model, PhantomData};

/// Where a listing stands. Each state but the one that holds a piece has one operation.
#[derive(Clone, Copy)]
pub enum AllAt {
    /// Opens the read section, by one more in its caller's section word.
    Opening,
    /// Finds the port and locks its bucket.
    Seeking { seek: Seek },
    /// Loads the owner of a node of the port's list, which is kept.
    Owner { found: FoundPort, node: u32 },
    /// Loads the link to the next node of the list. Behind the last one all owners are known.
    ListLink { found: FoundPort, node: u32 },
    /// Unlocks the bucket.
    Unlocking { table: u32, unlock: Unlock },
    /// Closes the read section, by one more in the section word. All owners are kept by then.
    Closing,
}

/// Lists all owners of a port, the latest first. The answer is `Listed`, and the owners are in the
/// caller's room. The kernel has no such call: `rhltable_lookup` gives the list to its caller.
#[derive(Drop)]
pub struct All<M: Mix> {
    env: Env,
    caller: u32,
    port: Port,
    room: Room<u32>,
    at: AllAt,
    mix: PhantomData<M>,
}

impl<M: Mix> Model for All<M> {
    ghost use Rattle.std.specs.Prelude.{◌<◌};
    ghost use Rattle.rht_release.specs.All.{AllModel, IsAllAtIn};

    ghost Value = { AllModel };

    ghost view = { λ m. record { env = m.env; caller = m.caller; port = m.port; room = m.room; at = m.at } };

    ghost invariant = { λ m. (m.caller < 16) × IsAllAtIn m.env m.at };
}

impl<M: Mix> All<M> {
    /// Before the first operation. What was in the room goes.
    #[inline(always)]
    pub fn new(env: Env, caller: u32, port: Port, room: Room<u32>) -> All<M>
        requires { caller < 16 }
        ensures { result ≡ all_new env caller port room }
    {
        let mut room = room;
        room.clear();
        All {
            env,
            caller,
            port,
            room,
            at: AllAt::Opening,
            mix: PhantomData,
        }
    }

    /// The listing in another state.
    #[inline(always)]
    pub fn with(self, at: AllAt) -> All<M>
        requires { IsAllAtIn self.env at }
        ensures { result ≡ record self { at = at } }
    {
        All {
            env: self.env,
            caller: self.caller,
            port: self.port,
            room: self.room,
            at,
            mix: PhantomData,
        }
    }

    /// The caller's room, with the owners that were kept.
    #[inline(always)]
    pub fn into_parts(self) -> Room<u32>
        ensures { result ≡ self.room }
    {
        self.room
    }

    /// The next operation.
    #[inline(always)]
    pub fn plan(&self) -> Op
        ensures plan { result ≡ all_plan self.now }
        ensures place { op_place result < words_in self.now.env.geometry }
    {
        let geometry = self.env.geometry;
        match self.at {
            AllAt::Opening => Enter::new(self.caller).plan(),
            AllAt::Seeking { seek } => seek.plan(),
            AllAt::Owner { node, .. } => Op::load(geometry.owner(node)),
            AllAt::ListLink { node, .. } => Op::load(geometry.list_link(node)),
            AllAt::Unlocking { unlock, .. } => unlock.plan(),
            AllAt::Closing => Leave::new(self.caller).plan(),
        }
    }

    /// Takes in the word's old value. An owner that finds the room full isn't kept.
    #[inline(always)]
    #[tactic(auto, using(crate::proofs::AllStays::all_stays))]
    pub fn take(&mut self, old: u64) -> Next<Reply>
        ensures { (self.new, result) ≡ all_after M.mix_of self.old old }
    {
        let (at, next) = after::<M>(self.env, self.port, &self.at, old);
        keep_owner(&mut self.room, &self.at, old);
        self.at = at;
        match next {
            Next::Go => Next::Go,
            Next::Done(()) => {
                let len = self.room.len();
                Next::Done(Reply::Listed { len })
            }
        }
    }
}

/// Where the listing stands after a state that found this value, and whether it has ended.
#[inline(always)]
fn after<M: Mix>(env: Env, port: Port, at: &AllAt, old: u64) -> (AllAt, Next<()>)
    requires { IsAllAtIn env at.now }
    ensures { result ≡ after_at M.mix_of env port at.now old }
{
    let next = match *at {
        AllAt::Opening => AllAt::Seeking {
            seek: Seek::new(env.geometry),
        },
        AllAt::Seeking { seek } => sought::<M>(port, seek, old),
        AllAt::Owner { found, node } => AllAt::ListLink { found, node },
        AllAt::ListLink { found, .. } => list_followed(found, node_of(env.geometry.nodes, old)),
        AllAt::Unlocking { .. } => AllAt::Closing,
        AllAt::Closing => return (*at, Next::Done(())),
    };
    (next, Next::Go)
}

/// Keeps an owner that was loaded, where there is room.
#[inline(always)]
pub fn keep_owner(room: &mut Room<u32>, at: &AllAt, old: u64)
    ensures { room.new ≡ room_after at.now room.old old }
{
    match *at {
        AllAt::Owner { .. } => room.keep(owner_of(old)),
        AllAt::Opening
        | AllAt::Seeking { .. }
        | AllAt::ListLink { .. }
        | AllAt::Unlocking { .. }
        | AllAt::Closing => {}
    }
}

/// After an operation on the way. Where the port was found its owners are loaded, from the first on.
#[inline(always)]
fn sought<M: Mix>(port: Port, seek: Seek, old: u64) -> AllAt
    ensures { result ≡ sought (seek_after M.mix_of port seek old).0 (seek_after M.mix_of port seek old).1 }
{
    let (seek, next) = seek.after::<M>(port, old);
    match next {
        Next::Go => AllAt::Seeking { seek },
        Next::Done(None) => AllAt::Closing,
        Next::Done(Some(found)) => {
            let node = found.node;
            AllAt::Owner { found, node }
        }
    }
}

/// The next node's owner is loaded. Behind the last node the bucket is unlocked.
#[inline(always)]
pub fn list_followed(found: FoundPort, next: Option<u32>) -> AllAt
    ensures { result ≡ list_followed found next }
{
    match next {
        Some(node) => AllAt::Owner { found, node },
        None => AllAt::Unlocking {
            table: found.table,
            unlock: found.unlock(),
        },
    }
}
