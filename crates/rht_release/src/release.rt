//! The removal, state by state.

ghost use Rattle.std.specs.Prelude.{◌≡◌, ◌<◌};
ghost use Rattle.rht_words.specs.Operations.{op_place};
ghost use Rattle.rht_words.specs.Places.{words_in};
ghost use Rattle.rht_chain.specs.LockedWalk.{IsNodeOrNone};
ghost use Rattle.rht_chain.specs.Relink.{relink_after};
ghost use Rattle.rht_release.specs.Seek.{seek_after};
ghost use Rattle.rht_release.specs.ListSearch.{search_after, IsSearchIn};
ghost use Rattle.rht_release.specs.Release.{release_new, release_plan, release_after, after_at, removed_reply, sought, searched, unlocking, cut_or_chain, unlink_or_promote, promoting, promoted, unlinked, closing, kicks, IsReleaseAtIn};

use crate::found_port::FoundPort;
use crate::list_search::{ListPlace, ListSearch};
use crate::seek::Seek;
use rht_chain::{Relink, Unlock};
use rht_grace::{Enter, Leave};
use rht_model::Reply;
use rht_policy::{Mix, below_30};
use rht_words::{Env, Geometry, Next, Op, Port, Shape, link_of, node_of, places};
use std::marker::{Model, PhantomData};

/// Where a release stands. Each state but those that hold a piece has one operation. While it has
/// found the port the bucket is locked, and nobody else changes its chain or the port's list.
#[derive(Clone, Copy)]
pub enum ReleaseAt {
    /// Opens the read section, by one more in its caller's section word.
    Opening,
    /// Finds the port and locks its bucket.
    Seeking {
        seek: Seek,
    },
    /// Looks for the first node of the port's list with the owner. Behind the last node the port isn't
    /// bound to the owner.
    Searching {
        found: FoundPort,
        search: ListSearch,
    },
    /// Loads the link behind the first node with the owner. This and the states from here on are
    /// those of the kernel's `__rhashtable_remove_fast_one`.
    LinkBehind {
        found: FoundPort,
        node: u32,
        before: Option<u32>,
    },
    /// Stores that link in the node before, in the list. The binding is taken out from here on.
    CuttingOut {
        found: FoundPort,
        node: u32,
        before: u32,
        link: u64,
    },
    /// Loads the link behind the list's first node in the chain.
    ChainLink {
        found: FoundPort,
        second: Option<u32>,
    },
    /// Stores that link in the list's second node, which is in no chain yet.
    SecondLink {
        found: FoundPort,
        second: u32,
        link: u64,
    },
    /// Puts the second node in the first one's place, and unlocks the bucket. The binding is taken
    /// out from the first store on.
    Promoting {
        found: FoundPort,
        relink: Relink,
    },
    /// Takes the list's only node out of the chain, and unlocks the bucket. The port isn't bound
    /// from the first store on.
    Unlinking {
        found: FoundPort,
        relink: Relink,
    },
    /// Lowers how many ports are bound. The node is in no chain any more.
    Lowering {
        node: u32,
        shape: u64,
    },
    /// Unlocks the bucket, whose word is as it was before.
    Unlocking {
        table: u32,
        unlock: Unlock,
        removed: Option<u32>,
    },
    /// Closes the read section, by one more in the section word. Then the release ends with this
    /// reply, and with this node taken out, or none.
    Closing {
        reply: Reply,
        removed: Option<u32>,
    },
}

/// Takes the first binding of a port to an owner out. The answers are `Released`, with the node
/// that was taken out, and `Absent`. The kernel's counterparts are `rhashtable_remove_fast` and
/// `rhltable_remove`, whose heart is `__rhashtable_remove_fast_one`.
#[derive(Drop)]
pub struct Release<M: Mix> {
    env: Env,
    caller: u32,
    port: Port,
    owner: u32,
    at: ReleaseAt,
    mix: PhantomData<M>,
}

impl<M: Mix> Model for Release<M> {
    ghost use Rattle.std.specs.Prelude.{◌<◌};
    ghost use Rattle.rht_release.specs.Release.{ReleaseModel, IsReleaseAtIn};

    ghost Value = { ReleaseModel };

    ghost view = { λ m. record { env = m.env; caller = m.caller; port = m.port; owner = m.owner; at = m.at } };

    ghost invariant = { λ m. (m.caller < 16) × IsReleaseAtIn m.env m.at };
}

impl<M: Mix> Release<M> {
    /// Before the first operation.
    #[inline(always)]
    pub fn new(env: Env, caller: u32, port: Port, owner: u32) -> Release<M>
        requires { caller < 16 }
        ensures { result ≡ release_new env caller port owner }
    {
        Release {
            env,
            caller,
            port,
            owner,
            at: ReleaseAt::Opening,
            mix: PhantomData,
        }
    }

    /// The release in another state.
    #[inline(always)]
    pub fn with(&self, at: ReleaseAt) -> Release<M>
        requires { IsReleaseAtIn self.now.env at }
        ensures { result ≡ record self.now { at = at } }
    {
        Release {
            env: self.env,
            caller: self.caller,
            port: self.port,
            owner: self.owner,
            at,
            mix: PhantomData,
        }
    }

    /// The next operation.
    #[inline(always)]
    pub fn plan(&self) -> Op
        ensures plan { result ≡ release_plan self.now }
        ensures place { op_place result < words_in self.now.env.geometry }
    {
        let geometry = self.env.geometry;
        match self.at {
            ReleaseAt::Opening => Enter::new(self.caller).plan(),
            ReleaseAt::Seeking { seek } => seek.plan(),
            ReleaseAt::Searching { search, .. } => search.plan(geometry),
            ReleaseAt::LinkBehind { node, .. } => Op::load(geometry.list_link(node)),
            ReleaseAt::CuttingOut { before, link, .. } => {
                Op::store(geometry.list_link(before), link)
            }
            ReleaseAt::ChainLink { found, .. } => Op::load(geometry.chain_link(found.node)),
            ReleaseAt::SecondLink { second, link, .. } => {
                Op::store(geometry.chain_link(second), link)
            }
            ReleaseAt::Promoting { relink, .. } | ReleaseAt::Unlinking { relink, .. } => {
                relink.plan()
            }
            ReleaseAt::Lowering { .. } => Op::sub(places::port_count(), 1),
            ReleaseAt::Unlocking { unlock, .. } => unlock.plan(),
            ReleaseAt::Closing { .. } => Leave::new(self.caller).plan(),
        }
    }

    /// Takes in the word's old value.
    #[inline(always)]
    #[tactic(auto, using(crate::proofs::ReleaseStays::release_stays))]
    pub fn take(&mut self, old: u64) -> Next<(Reply, Option<u32>)>
        ensures { (self.new, result) ≡ release_after M.mix_of self.old old }
    {
        let (at, next) = after::<M>(self.env, self.port, self.owner, &self.at, old);
        self.at = at;
        next
    }
}

/// Where the release stands after a state that found this value, and what it says.
#[inline(always)]
fn after<M: Mix>(
    env: Env,
    port: Port,
    owner: u32,
    at: &ReleaseAt,
    old: u64,
) -> (ReleaseAt, Next<(Reply, Option<u32>)>)
    requires { IsReleaseAtIn env at.now }
    ensures { result ≡ after_at M.mix_of env port owner at.now old }
{
    let geometry = env.geometry;
    let next = match *at {
        ReleaseAt::Opening => ReleaseAt::Seeking {
            seek: Seek::new(geometry),
        },
        ReleaseAt::Seeking { seek } => sought::<M>(port, seek, old),
        ReleaseAt::Searching { found, search } => searched(geometry, owner, found, search, old),
        ReleaseAt::LinkBehind {
            found,
            node,
            before,
        } => cut_or_chain(geometry, found, node, old, before),
        ReleaseAt::CuttingOut { found, node, .. } => unlocking(found, Some(node)),
        ReleaseAt::ChainLink { found, second } => unlink_or_promote(geometry, found, old, second),
        ReleaseAt::SecondLink { found, second, .. } => promoting(geometry, found, second),
        ReleaseAt::Promoting { found, relink } => promoted(found, relink),
        ReleaseAt::Unlinking { found, relink } => unlinked(found, relink),
        ReleaseAt::Lowering { node, shape } => {
            let kick = kicks(env, shape, old);
            closing(Reply::Released { kick }, Some(node))
        }
        ReleaseAt::Unlocking { removed, .. } => closing(removed_reply(removed), removed),
        ReleaseAt::Closing { reply, removed } => return (*at, Next::Done((reply, removed))),
    };
    (next, Next::Go)
}

/// After an operation on the way. Where the port was found its owners are looked at, from the
/// first on.
#[inline(always)]
fn sought<M: Mix>(port: Port, seek: Seek, old: u64) -> ReleaseAt
    ensures { result ≡ sought (seek_after M.mix_of port seek old).0 (seek_after M.mix_of port seek old).1 }
{
    let (seek, next) = seek.after::<M>(port, old);
    match next {
        Next::Go => ReleaseAt::Seeking { seek },
        Next::Done(None) => closing(Reply::Absent, None),
        Next::Done(Some(found)) => ReleaseAt::Searching {
            found,
            search: ListSearch::new(found.node),
        },
    }
}

/// After an operation along the list. A node with the owner is taken out. Behind the last one the port
/// isn't bound to the owner.
#[inline(always)]
fn searched(
    geometry: Geometry,
    owner: u32,
    found: FoundPort,
    search: ListSearch,
    old: u64,
) -> ReleaseAt
    requires { IsSearchIn geometry search }
    ensures { result ≡ searched found (search_after geometry owner search old).0 (search_after geometry owner search old).1 }
{
    let (search, next) = search.after(geometry, owner, old);
    match next {
        Next::Go => ReleaseAt::Searching { found, search },
        Next::Done(None) => unlocking(found, None),
        Next::Done(Some(ListPlace { node, before })) => ReleaseAt::LinkBehind {
            found,
            node,
            before,
        },
    }
}

/// A later node of the list is cut out of it. The first one is in the chain, where the second one
/// takes its place, if there is one.
#[inline(always)]
pub fn cut_or_chain(
    geometry: Geometry,
    found: FoundPort,
    node: u32,
    link: u64,
    before: Option<u32>,
) -> ReleaseAt
    ensures { result ≡ cut_or_chain geometry found node link before }
{
    match before {
        Some(before) => ReleaseAt::CuttingOut {
            found,
            node,
            before,
            link,
        },
        None => ReleaseAt::ChainLink {
            found,
            second: node_of(geometry.nodes, link),
        },
    }
}

/// The only node of the list is unlinked from the chain. A second one gets the first one's link.
#[inline(always)]
pub fn unlink_or_promote(
    geometry: Geometry,
    found: FoundPort,
    link: u64,
    second: Option<u32>,
) -> ReleaseAt
    requires { IsNodeOrNone geometry found.before }
    ensures { result ≡ unlink_or_promote geometry found link second }
{
    match second {
        Some(second) => ReleaseAt::SecondLink {
            found,
            second,
            link,
        },
        None => ReleaseAt::Unlinking {
            found,
            relink: found.relink(geometry, link),
        },
    }
}

/// The putting of the list's second node in the first one's place.
#[inline(always)]
pub fn promoting(geometry: Geometry, found: FoundPort, second: u32) -> ReleaseAt
    requires { IsNodeOrNone geometry found.before }
    ensures { result ≡ promoting geometry found second }
{
    ReleaseAt::Promoting {
        found,
        relink: found.relink(geometry, link_of(second)),
    }
}

/// After a store of the promotion. Behind the last one the read section is closed.
#[inline(always)]
fn promoted(found: FoundPort, relink: Relink) -> ReleaseAt
    ensures { result ≡ promoted found (relink_after relink).0 (relink_after relink).1 }
{
    let (relink, next) = relink.after();
    match next {
        Next::Go => ReleaseAt::Promoting { found, relink },
        Next::Done(()) => closing(Reply::Released { kick: false }, Some(found.node)),
    }
}

/// After a store of the unlinking. Behind the last one there is one port less.
#[inline(always)]
fn unlinked(found: FoundPort, relink: Relink) -> ReleaseAt
    ensures { result ≡ unlinked found (relink_after relink).0 (relink_after relink).1 }
{
    let (relink, next) = relink.after();
    match next {
        Next::Go => ReleaseAt::Unlinking { found, relink },
        Next::Done(()) => ReleaseAt::Lowering {
            node: found.node,
            shape: found.shape,
        },
    }
}

/// Whether a table of this shape is due to shrink once the count, which was this, has been
/// lowered. What is left is cut to the most ports that there can be, which no run passes; a count
/// of 0, which no run gives, leaves 0.
#[inline(always)]
pub fn kicks(env: Env, shape: u64, count: u64) -> bool
    ensures { result ≡ kicks env shape count }
{
    env.config.shrink
        && below_30(
            count.saturating_sub(1).min(65_536),
            Shape::from(shape).size(),
            env.config.min,
        )
}

/// The unlocking of the bucket, with this node taken out, or none.
#[inline(always)]
pub fn unlocking(found: FoundPort, removed: Option<u32>) -> ReleaseAt
    ensures { result ≡ unlocking found removed }
{
    ReleaseAt::Unlocking {
        table: found.table,
        unlock: found.unlock(),
        removed,
    }
}

/// The closing of the read section, behind which the release ends so.
#[inline(always)]
pub fn closing(reply: Reply, removed: Option<u32>) -> ReleaseAt
    ensures { result ≡ closing reply removed }
{
    ReleaseAt::Closing { reply, removed }
}

/// The reply where this node was taken out of a list, or none was.
#[inline(always)]
pub fn removed_reply(removed: Option<u32>) -> Reply
    ensures { result ≡ removed_reply removed }
{
    match removed {
        Some(_) => Reply::Released { kick: false },
        None => Reply::Absent,
    }
}
