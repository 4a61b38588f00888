//! Taking a free node, and storing its key, its owner and the end of its list in it.

ghost use Rattle.std.specs.Prelude.{◌≡◌, ◌<◌};
ghost use Rattle.rht_words.specs.Operations.{op_place};
ghost use Rattle.rht_words.specs.Places.{map_words, words_in};
ghost use Rattle.rht_arena.specs.TakeNode.{take_node_after, IsNodeIn};
ghost use Rattle.rht_arena.specs.NewNode.{new_node_from, new_node_new, new_node_plan, new_node_after, new_node_after_at, node_taken, IsNewNodeAtIn};

use crate::take_node::TakeNode;
use rht_words::{Geometry, Next, Op};
use std::marker::Model;

/// Where a new node stands. Each state but the one that holds a piece has one operation, and
/// nobody else sees the node yet.
#[derive(Clone, Copy)]
pub enum NewNodeAt {
    /// Takes a free node.
    Taking { take: TakeNode },
    /// Stores the key word in the node.
    Key { node: u32 },
    /// Stores the owner in the node.
    Owner { node: u32 },
    /// Stores in the node that no other node of its port is behind it.
    ListLink { node: u32 },
}

/// Takes a free node and stores its key, its owner and the end of its list in it. The answer is
/// none where no node was to be had.
#[derive(Clone, Copy)]
pub struct NewNode {
    geometry: Geometry,
    key: u64,
    owner: u32,
    at: NewNodeAt,
}

impl Model for NewNode {
    ghost use Rattle.rht_arena.specs.NewNode.{NewNodeModel, IsNewNodeAtIn};

    ghost Value = { NewNodeModel };

    ghost view = { λ m. record { geometry = m.geometry; key = m.key; owner = m.owner; at = m.at } };

    ghost inverse = { λ m. record { geometry = m.geometry; key = m.key; owner = m.owner; at = m.at } };

    ghost invariant = { λ m. IsNewNodeAtIn m.geometry m.at };
}

impl NewNode {
    /// Before a node is taken.
    #[inline(always)]
    pub fn new(geometry: Geometry, key: u64, owner: u32) -> NewNode
        ensures { result ≡ new_node_new geometry key owner }
    {
        NewNode::from(geometry, key, owner, 0)
    }

    /// Before a node is taken, with a search from word `start` of the map on.
    #[inline(always)]
    pub fn from(geometry: Geometry, key: u64, owner: u32, start: u32) -> NewNode
        requires { start < map_words geometry.nodes }
        ensures { result ≡ new_node_from geometry key owner start }
    {
        NewNode {
            geometry,
            key,
            owner,
            at: NewNodeAt::Taking {
                take: TakeNode::from(geometry, start),
            },
        }
    }

    /// The machine in another state.
    #[inline(always)]
    pub fn with(&self, at: NewNodeAt) -> NewNode
        requires { IsNewNodeAtIn self.now.geometry at }
        ensures { result ≡ record self.now { at = at } }
    {
        NewNode {
            geometry: self.geometry,
            key: self.key,
            owner: self.owner,
            at,
        }
    }

    /// The next operation.
    #[inline(always)]
    pub fn plan(&self) -> Op
        ensures plan { result ≡ new_node_plan self.now }
        ensures place { op_place result < words_in self.now.geometry }
    {
        let geometry = self.geometry;
        match self.at {
            NewNodeAt::Taking { take } => take.plan(),
            NewNodeAt::Key { node } => Op::store(geometry.key(node), self.key),
            NewNodeAt::Owner { node } => Op::store(geometry.owner(node), u64::from(self.owner)),
            NewNodeAt::ListLink { node } => Op::store(geometry.list_link(node), 0),
        }
    }

    /// Takes in the word's old value.
    #[inline(always)]
    pub fn take(&mut self, old: u64) -> Next<Option<u32>>
        ensures taken { (self.new, result) ≡ new_node_after self.old old }
        ensures node { IsNodeIn self.old.geometry result }
    {
        let (machine, next) = self.after(old);
        *self = machine;
        next
    }

    /// As `take`, but by value: for a machine that has this one in a state.
    #[inline(always)]
    pub fn after(self, old: u64) -> (NewNode, Next<Option<u32>>)
        ensures after { result ≡ new_node_after self old }
        ensures at { IsNewNodeAtIn self.geometry result.0.at }
        ensures node { IsNodeIn self.geometry result.1 }
    {
        let (at, next) = after_at(self.geometry, &self.at, old);
        (self.with(at), next)
    }
}

/// Where the new node stands after a state that found this word, and what it says.
#[inline(always)]
#[tactic(auto, using(crate::proofs::NewNodesStay::new_node_stays_at))]
fn after_at(geometry: Geometry, at: &NewNodeAt, old: u64) -> (NewNodeAt, Next<Option<u32>>)
    requires { IsNewNodeAtIn geometry at.now }
    ensures after { result ≡ new_node_after_at at.now old }
    ensures at { IsNewNodeAtIn geometry result.0 }
    ensures node { IsNodeIn geometry result.1 }
{
    match *at {
        NewNodeAt::Taking { take } => node_taken(take, old),
        NewNodeAt::Key { node } => (NewNodeAt::Owner { node }, Next::Go),
        NewNodeAt::Owner { node } => (NewNodeAt::ListLink { node }, Next::Go),
        NewNodeAt::ListLink { node } => (*at, Next::Done(Some(node))),
    }
}

/// After an operation of the taking. Where no node is free there is no new one.
#[inline(always)]
fn node_taken(take: TakeNode, old: u64) -> (NewNodeAt, Next<Option<u32>>)
    ensures { result ≡ node_taken (take_node_after take old).0 (take_node_after take old).1 }
{
    let (take, next) = take.after(old);
    match next {
        Next::Go => (NewNodeAt::Taking { take }, Next::Go),
        Next::Done(Some(node)) => (NewNodeAt::Key { node }, Next::Go),
        Next::Done(None) => (NewNodeAt::Taking { take }, Next::Done(None)),
    }
}
