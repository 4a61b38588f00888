//! The replacement, state by state.

ghost use Rattle.std.specs.Prelude.{◌≡◌, ◌<◌};
ghost use Rattle.rht_words.specs.Operations.{op_place};
ghost use Rattle.rht_words.specs.Places.{words_in};
ghost use Rattle.rht_arena.specs.NewNode.{new_node_after};
ghost use Rattle.rht_chain.specs.LockedWalk.{IsNodeOrNone};
ghost use Rattle.rht_chain.specs.Relink.{relink_after};
ghost use Rattle.rht_release.specs.Seek.{seek_after};
ghost use Rattle.rht_release.specs.ListSearch.{search_after, IsSearchIn};
ghost use Rattle.rht_release.specs.Rebind.{rebind_from, rebind_new, rebind_plan, rebind_after, after_at, filled, giving, sought, searched, swap_or_chain, unlocking, replacing, replaced, absent, closed, IsRebindAtIn, IsRebindEndIn};

use crate::found_port::FoundPort;
use crate::list_search::ListSearch;
use crate::seek::Seek;
use rht_arena::{GiveNode, NewNode};
use rht_chain::{Relink, Unlock};
use rht_grace::{Enter, Leave};
use rht_model::Reply;
use rht_policy::Mix;
use rht_words::{Env, Geometry, Next, Op, Port, link_of, word_of};
use std::marker::{Model, PhantomData};

/// How a rebind has gone that closes its read section.
#[derive(Clone, Copy, Debug, PartialEq, Eq)]
pub enum RebindEnd {
    /// The new owner is bound, and the old one's node taken out. The rebind ends.
    Rebound { removed: u32 },
    /// The port isn't bound to the old owner. The new node is given back.
    Absent { node: u32 },
}

/// Where a rebind stands. Each state but those that hold a piece has one operation.
#[derive(Clone, Copy)]
pub enum RebindAt {
    /// Takes a free node and stores the port and the new owner in it.
    Filling {
        new: NewNode,
    },
    /// Opens the read section, by one more in its caller's section word.
    Opening {
        node: u32,
    },
    /// Finds the port and locks its bucket.
    Seeking {
        node: u32,
        seek: Seek,
    },
    /// Looks for the first node of the port's list with the old owner. Behind the last node the port
    /// isn't bound to that owner.
    Searching {
        node: u32,
        found: FoundPort,
        search: ListSearch,
    },
    /// Loads the link behind the old node in the list.
    LinkBehind {
        node: u32,
        found: FoundPort,
        old: u32,
        before: Option<u32>,
    },
    /// Stores that link in the new node, which nobody else sees yet.
    OwnListLink {
        node: u32,
        found: FoundPort,
        old: u32,
        before: Option<u32>,
        link: u64,
    },
    /// Puts the new node in a later one's place, by the link of the node before in the list. The new
    /// owner is bound from here on. The kernel replaces no node within a list.
    Swapping {
        node: u32,
        found: FoundPort,
        old: u32,
        before: u32,
    },
    /// Loads the link behind the old node in the chain, where that is the list's first. This and the
    /// two states behind it are those of the kernel's `__rhashtable_replace_fast`.
    ChainLink {
        node: u32,
        found: FoundPort,
    },
    /// Stores that link in the new node, which nobody else sees yet.
    Link {
        node: u32,
        found: FoundPort,
        link: u64,
    },
    /// Puts the new node in the old one's place, and unlocks the bucket. The new owner is bound
    /// from the first store on.
    Replacing {
        node: u32,
        found: FoundPort,
        relink: Relink,
    },
    /// Unlocks the bucket, whose word is as it was before.
    Unlocking {
        table: u32,
        unlock: Unlock,
        end: RebindEnd,
    },
    /// Closes the read section, by one more in the section word.
    Closing {
        end: RebindEnd,
    },
    /// Gives the new node back.
    Giving {
        give: GiveNode,
    },
}

/// Puts a new owner in the place of the first owner of a port that is the old one. The answers are
/// `Rebound`, with the node that was taken out, and `Absent` and `NoNode`. The kernel's counterpart is
/// `rhashtable_replace_fast`, which follows no list.
#[derive(Drop)]
pub struct Rebind<M: Mix> {
    env: Env,
    caller: u32,
    port: Port,
    owner: u32,
    new_owner: u32,
    at: RebindAt,
    mix: PhantomData<M>,
}

impl<M: Mix> Model for Rebind<M> {
    ghost use Rattle.std.specs.Prelude.{◌<◌};
    ghost use Rattle.rht_release.specs.Rebind.{RebindModel, IsRebindAtIn};

    ghost Value = { RebindModel };

    ghost view = { λ m. record { env = m.env; caller = m.caller; port = m.port; owner = m.owner; new_owner = m.new_owner; at = m.at } };

    ghost invariant = { λ m. (m.caller < 16) × IsRebindAtIn m.env m.at };
}

impl<M: Mix> Rebind<M> {
    /// Before the first operation.
    #[inline(always)]
    pub fn new(env: Env, caller: u32, port: Port, owner: u32, new: u32) -> Rebind<M>
        requires { caller < 16 }
        ensures { result ≡ rebind_new env caller port owner new }
    {
        Rebind::from(env, caller, port, owner, new, 0)
    }

    /// The same with a search for a free node from word `start` of the node map on, where the table's ways let it.
    #[inline(always)]
    pub fn from(env: Env, caller: u32, port: Port, owner: u32, new: u32, start: u32) -> Rebind<M>
        requires { caller < 16 }
        ensures { result ≡ rebind_from env caller port owner new start }
    {
        Rebind {
            env,
            caller,
            port,
            owner,
            new_owner: new,
            at: RebindAt::Filling {
                new: NewNode::from(env.geometry, word_of(port), new, env.start_in(start)),
            },
            mix: PhantomData,
        }
    }

    /// The rebind in another state.
    #[inline(always)]
    pub fn with(&self, at: RebindAt) -> Rebind<M>
        requires { IsRebindAtIn self.now.env at }
        ensures { result ≡ record self.now { at = at } }
    {
        Rebind {
            env: self.env,
            caller: self.caller,
            port: self.port,
            owner: self.owner,
            new_owner: self.new_owner,
            at,
            mix: PhantomData,
        }
    }

    /// The next operation.
    #[inline(always)]
    pub fn plan(&self) -> Op
        ensures plan { result ≡ rebind_plan self.now }
        ensures place { op_place result < words_in self.now.env.geometry }
    {
        let geometry = self.env.geometry;
        match self.at {
            RebindAt::Filling { new } => new.plan(),
            RebindAt::Opening { .. } => Enter::new(self.caller).plan(),
            RebindAt::Seeking { seek, .. } => seek.plan(),
            RebindAt::Searching { search, .. } => search.plan(geometry),
            RebindAt::LinkBehind { old, .. } => Op::load(geometry.list_link(old)),
            RebindAt::OwnListLink { node, link, .. } => Op::store(geometry.list_link(node), link),
            RebindAt::Swapping { node, before, .. } => {
                Op::store(geometry.list_link(before), link_of(node))
            }
            RebindAt::ChainLink { found, .. } => Op::load(geometry.chain_link(found.node)),
            RebindAt::Link { node, link, .. } => Op::store(geometry.chain_link(node), link),
            RebindAt::Replacing { relink, .. } => relink.plan(),
            RebindAt::Unlocking { unlock, .. } => unlock.plan(),
            RebindAt::Closing { .. } => Leave::new(self.caller).plan(),
            RebindAt::Giving { give } => give.plan(),
        }
    }

    /// Takes in the word's old value.
    #[inline(always)]
    #[tactic(auto, using(crate::proofs::RebindStays::rebind_stays))]
    pub fn take(&mut self, old: u64) -> Next<(Reply, Option<u32>)>
        ensures { (self.new, result) ≡ rebind_after M.mix_of self.old old }
    {
        let (at, next) = after::<M>(self.env, self.port, self.owner, &self.at, old);
        self.at = at;
        next
    }
}

/// Where the rebind stands after a state that found this value, and what it says.
#[inline(always)]
fn after<M: Mix>(
    env: Env,
    port: Port,
    owner: u32,
    at: &RebindAt,
    old: u64,
) -> (RebindAt, Next<(Reply, Option<u32>)>)
    requires { IsRebindAtIn env at.now }
    ensures { result ≡ after_at M.mix_of env port owner at.now old }
{
    let geometry = env.geometry;
    let next = match *at {
        RebindAt::Filling { new } => return filled(new, old),
        RebindAt::Opening { node } => RebindAt::Seeking {
            node,
            seek: Seek::new(geometry),
        },
        RebindAt::Seeking { node, seek } => sought::<M>(port, node, seek, old),
        RebindAt::Searching {
            node,
            found,
            search,
        } => searched(geometry, owner, node, found, search, old),
        RebindAt::LinkBehind {
            node,
            found,
            old: replaced,
            before,
        } => RebindAt::OwnListLink {
            node,
            found,
            old: replaced,
            before,
            link: old,
        },
        RebindAt::OwnListLink {
            node,
            found,
            old,
            before,
            ..
        } => swap_or_chain(node, found, old, before),
        RebindAt::Swapping { found, old, .. } => {
            unlocking(found, RebindEnd::Rebound { removed: old })
        }
        RebindAt::ChainLink { node, found } => RebindAt::Link {
            node,
            found,
            link: old,
        },
        RebindAt::Link { node, found, .. } => replacing(geometry, node, found),
        RebindAt::Replacing {
            node,
            found,
            relink,
        } => replaced(node, found, relink),
        RebindAt::Unlocking { end, .. } => RebindAt::Closing { end },
        RebindAt::Closing { end } => return closed(geometry, end),
        RebindAt::Giving { .. } => return (*at, Next::Done((Reply::Absent, None))),
    };
    (next, Next::Go)
}

/// After an operation on the new node. Where no node is free the rebind ends.
#[inline(always)]
fn filled(new: NewNode, old: u64) -> (RebindAt, Next<(Reply, Option<u32>)>)
    ensures { result ≡ filled (new_node_after new old).0 (new_node_after new old).1 }
{
    let (new, next) = new.after(old);
    match next {
        Next::Go => (RebindAt::Filling { new }, Next::Go),
        Next::Done(Some(node)) => (RebindAt::Opening { node }, Next::Go),
        Next::Done(None) => (RebindAt::Filling { new }, Next::Done((Reply::NoNode, None))),
    }
}

/// After an operation on the way. Where the port was found its owners are looked at, from the
/// first on.
#[inline(always)]
fn sought<M: Mix>(port: Port, node: u32, seek: Seek, old: u64) -> RebindAt
    ensures { result ≡ sought node (seek_after M.mix_of port seek old).0 (seek_after M.mix_of port seek old).1 }
{
    let (seek, next) = seek.after::<M>(port, old);
    match next {
        Next::Go => RebindAt::Seeking { node, seek },
        Next::Done(Some(found)) => RebindAt::Searching {
            node,
            found,
            search: ListSearch::new(found.node),
        },
        Next::Done(None) => absent(node),
    }
}

/// After an operation along the list. A node with the old owner is replaced. Behind the last one the
/// port isn't bound to that owner.
#[inline(always)]
fn searched(
    geometry: Geometry,
    owner: u32,
    node: u32,
    found: FoundPort,
    search: ListSearch,
    old: u64,
) -> RebindAt
    requires { IsSearchIn geometry search }
    ensures { result ≡ searched node found (search_after geometry owner search old).0 (search_after geometry owner search old).1 }
{
    let (search, next) = search.after(geometry, owner, old);
    match next {
        Next::Go => RebindAt::Searching {
            node,
            found,
            search,
        },
        Next::Done(None) => unlocking(found, RebindEnd::Absent { node }),
        Next::Done(Some(place)) => RebindAt::LinkBehind {
            node,
            found,
            old: place.node,
            before: place.before,
        },
    }
}

/// A later node of the list is replaced in the list. The first one is in the chain, and is replaced
/// there.
#[inline(always)]
pub fn swap_or_chain(node: u32, found: FoundPort, old: u32, before: Option<u32>) -> RebindAt
    ensures { result ≡ swap_or_chain node found old before }
{
    match before {
        Some(before) => RebindAt::Swapping {
            node,
            found,
            old,
            before,
        },
        None => RebindAt::ChainLink { node, found },
    }
}

/// The unlocking of the bucket, with this end.
#[inline(always)]
pub fn unlocking(found: FoundPort, end: RebindEnd) -> RebindAt
    ensures { result ≡ unlocking found end }
{
    RebindAt::Unlocking {
        table: found.table,
        unlock: found.unlock(),
        end,
    }
}

/// The putting of the new node in the old one's place.
#[inline(always)]
pub fn replacing(geometry: Geometry, node: u32, found: FoundPort) -> RebindAt
    requires { IsNodeOrNone geometry found.before }
    ensures { result ≡ replacing geometry node found }
{
    RebindAt::Replacing {
        node,
        found,
        relink: found.relink(geometry, link_of(node)),
    }
}

/// After a store of the replacement. Behind the last one the read section is closed.
#[inline(always)]
fn replaced(node: u32, found: FoundPort, relink: Relink) -> RebindAt
    ensures { result ≡ replaced node found (relink_after relink).0 (relink_after relink).1 }
{
    let (relink, next) = relink.after();
    match next {
        Next::Go => RebindAt::Replacing {
            node,
            found,
            relink,
        },
        Next::Done(()) => {
            let end = RebindEnd::Rebound {
                removed: found.node,
            };
            RebindAt::Closing { end }
        }
    }
}

/// The closing of the read section where the port isn't bound to the old owner.
#[inline(always)]
pub fn absent(node: u32) -> RebindAt
    ensures { result ≡ absent node }
{
    RebindAt::Closing {
        end: RebindEnd::Absent { node },
    }
}

/// Behind the closing. A rebind that was made ends, and else the node is given back.
#[inline(always)]
fn closed(geometry: Geometry, end: RebindEnd) -> (RebindAt, Next<(Reply, Option<u32>)>)
    requires { IsRebindEndIn geometry end }
    ensures { result ≡ closed geometry end }
{
    match end {
        RebindEnd::Rebound { removed } => {
            let at = RebindAt::Closing { end };
            (at, Next::Done((Reply::Rebound, Some(removed))))
        }
        RebindEnd::Absent { node } => (giving(geometry, node), Next::Go),
    }
}

/// The giving back of the node, behind which the port isn't bound to the old owner.
#[inline(always)]
pub fn giving(geometry: Geometry, node: u32) -> RebindAt
    requires { node < geometry.nodes }
    ensures { result ≡ giving geometry node }
{
    RebindAt::Giving {
        give: GiveNode::new(geometry, node),
    }
}
