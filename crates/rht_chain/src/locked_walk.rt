//! Walking a bucket's chain under its lock, to the first node with a key.

ghost use Rattle.std.specs.Prelude.{◌≡◌, ◌<◌};
ghost use Rattle.rht_words.specs.Operations.{op_place};
ghost use Rattle.rht_words.specs.Links.{node_of};
ghost use Rattle.rht_words.specs.Places.{words_in};
ghost use Rattle.rht_chain.specs.declared.locked_walk.LockedWalkAt.TheVariants.{Key};
ghost use Rattle.rht_chain.specs.LockedWalk.{locked_walk_new, locked_walk_plan, locked_walk_after, counted, compared, followed, IsStartIn, IsNextIn};

use rht_words::{Geometry, Next, Op, Start, head_of, link_of, node_of};
use std::marker::Model;

/// Where a walk under the lock stands. Each state has one operation, and nobody else changes this
/// chain meanwhile.
#[derive(Clone, Copy, Debug, PartialEq, Eq)]
pub enum LockedWalkAt {
    /// Loads the key of a node.
    Key { node: u32 },
    /// Loads the link behind a node with another key.
    ChainLink { node: u32 },
}

/// What a walk has seen.
#[derive(Clone, Copy, Debug, PartialEq, Eq)]
pub struct Seen {
    /// The first node with the key.
    pub found: Option<u32>,
    /// The node before the one that was found; where none was, the chain's last node.
    pub before: Option<u32>,
    /// How many keys were loaded, that of the found node too.
    pub length: u32,
    /// The last link: to the found node, or the marker at which the chain ended.
    pub end: u64,
}

/// Walks a locked bucket's chain. The kernel's counterpart is `rhashtable_lookup_one`.
#[derive(Clone, Copy, Debug, PartialEq, Eq)]
pub struct LockedWalk {
    geometry: Geometry,
    key: u64,
    before: Option<u32>,
    length: u32,
    at: LockedWalkAt,
}

impl Model for LockedWalk {
    ghost use Rattle.rht_chain.specs.LockedWalk.{LockedWalkModel, IsWalkAtIn};

    ghost Value = { LockedWalkModel };

    ghost view = { λ m. record { geometry = m.geometry; key = m.key; before = m.before; length = m.length; at = m.at } };

    ghost inverse = { λ m. record { geometry = m.geometry; key = m.key; before = m.before; length = m.length; at = m.at } };

    ghost invariant = { λ m. IsWalkAtIn m.geometry m.before m.at };
}

impl LockedWalk {
    /// Before the first node of the bucket whose word, at this place, was this one when it was
    /// locked. An empty chain is seen without an operation.
    #[inline(always)]
    pub fn new(geometry: Geometry, place: usize, word: u64, key: u64) -> Start<LockedWalk, Seen>
        ensures start { result ≡ locked_walk_new geometry place word key }
        ensures seen { IsStartIn geometry result }
    {
        let first = head_of(place, word);
        match node_of(geometry.nodes, first) {
            Some(node) => Start::Running(LockedWalk {
                geometry,
                key,
                before: None,
                length: 0,
                at: LockedWalkAt::Key { node },
            }),
            None => Start::Done(Seen {
                found: None,
                before: None,
                length: 0,
                end: first,
            }),
        }
    }

    /// The walk at another node of the same chain, before it loads that node's key.
    #[inline(always)]
    pub fn at_key(&self, node: u32) -> LockedWalk
        requires { node < self.now.geometry.nodes }
        ensures { result ≡ record self.now { at = Key node } }
    {
        LockedWalk {
            at: LockedWalkAt::Key { node },
            ..*self
        }
    }

    /// The next operation.
    #[inline(always)]
    pub fn plan(&self) -> Op
        ensures plan { result ≡ locked_walk_plan self.now }
        ensures place { op_place result < words_in self.now.geometry }
    {
        match self.at {
            LockedWalkAt::Key { node } => Op::load(self.geometry.key(node)),
            LockedWalkAt::ChainLink { node } => Op::load(self.geometry.chain_link(node)),
        }
    }

    /// Takes in the word's old value. A link that leads to no node ends the chain.
    #[inline(always)]
    pub fn take(&mut self, old: u64) -> Next<Seen>
        ensures taken { (self.new, result) ≡ locked_walk_after self.old old }
        ensures seen { IsNextIn self.old.geometry result }
    {
        let (machine, next) = self.after(old);
        *self = machine;
        next
    }

    /// As `take`, but by value: for a machine that has this one in a state.
    #[inline(always)]
    pub fn after(self, old: u64) -> (LockedWalk, Next<Seen>)
        ensures after { result ≡ locked_walk_after self old }
        ensures geometry { result.0.geometry ≡ self.geometry }
        ensures seen { IsNextIn self.geometry result.1 }
    {
        match self.at {
            LockedWalkAt::Key { node } => self.compared(node, old),
            LockedWalkAt::ChainLink { node } => self.followed(node, old),
        }
    }

    /// After the key of a node was loaded.
    #[inline(always)]
    fn compared(self, node: u32, key: u64) -> (LockedWalk, Next<Seen>)
        requires { node < self.geometry.nodes }
        ensures after { result ≡ compared (counted self) node key }
        ensures seen { IsNextIn self.geometry result.1 }
    {
        let mut walk = self;
        walk.length = walk.length.saturating_add(1);
        if key != walk.key {
            walk.at = LockedWalkAt::ChainLink { node };
            return (walk, Next::Go);
        }
        let seen = Seen {
            found: Some(node),
            before: walk.before,
            length: walk.length,
            end: link_of(node),
        };
        (walk, Next::Done(seen))
    }

    /// After the link behind a node was loaded.
    #[inline(always)]
    fn followed(self, node: u32, link: u64) -> (LockedWalk, Next<Seen>)
        requires { node < self.geometry.nodes }
        ensures after { result ≡ followed self node link (node_of self.geometry.nodes link) }
        ensures seen { IsNextIn self.geometry result.1 }
    {
        let mut walk = self;
        walk.before = Some(node);
        if let Some(next) = node_of(walk.geometry.nodes, link) {
            walk.at = LockedWalkAt::Key { node: next };
            return (walk, Next::Go);
        }
        let seen = Seen {
            found: None,
            before: walk.before,
            length: walk.length,
            end: link,
        };
        (walk, Next::Done(seen))
    }
}
