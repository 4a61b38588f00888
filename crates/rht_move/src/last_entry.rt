//! Walking a locked bucket's chain to its last node.

ghost use Rattle.std.specs.Prelude.{◌≡◌, ◌<◌};
ghost use Rattle.rht_words.specs.Operations.{op_place};
ghost use Rattle.rht_words.specs.Places.{words_in};
ghost use Rattle.rht_words.specs.Links.{node_of};
ghost use Rattle.rht_move.specs.LastEntry.{last_entry_new, last_entry_plan, last_entry_after, followed, IsEntryEndIn};

use rht_words::{Geometry, Next, Op, node_of};
use std::marker::Model;

/// The last node of a chain.
#[derive(Clone, Copy, Debug, PartialEq, Eq)]
pub struct Entry {
    /// The node.
    pub node: u32,
    /// The node before it; none where it is the bucket's first.
    pub before: Option<u32>,
}

/// Finds the last node of a chain that has one, by one operation a node. The bucket is locked, and
/// nobody else changes its chain meanwhile. The kernel's counterpart is a part of
/// `rhashtable_rehash_one`.
#[derive(Clone, Copy, Debug, PartialEq, Eq)]
pub struct LastEntry {
    geometry: Geometry,
    node: u32,
    before: Option<u32>,
}

impl Model for LastEntry {
    ghost use Rattle.std.specs.Prelude.{◌<◌};
    ghost use Rattle.rht_chain.specs.LockedWalk.{IsNodeOrNone};
    ghost use Rattle.rht_move.specs.LastEntry.{LastEntryModel};

    ghost Value = { LastEntryModel };

    ghost view = { λ m. record { geometry = m.geometry; node = m.node; before = m.before } };

    ghost inverse = { λ m. record { geometry = m.geometry; node = m.node; before = m.before } };

    ghost invariant = { λ m. (m.node < m.geometry.nodes) × IsNodeOrNone m.geometry m.before };
}

impl LastEntry {
    /// Before the link behind the chain's first node is loaded.
    #[inline(always)]
    pub fn new(geometry: Geometry, first: u32) -> LastEntry
        requires { first < geometry.nodes }
        ensures { result ≡ last_entry_new geometry first }
    {
        LastEntry {
            geometry,
            node: first,
            before: None,
        }
    }

    /// The next operation.
    #[inline(always)]
    pub fn plan(&self) -> Op
        ensures plan { result ≡ last_entry_plan self.now }
        ensures place { op_place result < words_in self.now.geometry }
    {
        Op::load(self.geometry.chain_link(self.node))
    }

    /// Takes in the word's old value.
    #[inline(always)]
    pub fn take(&mut self, old: u64) -> Next<Entry>
        ensures taken { (self.new, result) ≡ last_entry_after self.old old }
        ensures found { IsEntryEndIn self.old.geometry result }
    {
        let (machine, next) = self.after(old);
        *self = machine;
        next
    }

    /// As `take`, but by value: for a machine that has this one in a state. A link that leads to no
    /// node ends the chain.
    #[inline(always)]
    pub fn after(self, old: u64) -> (LastEntry, Next<Entry>)
        ensures after { result ≡ last_entry_after self old }
        ensures geometry { result.0.geometry ≡ self.geometry }
        ensures found { IsEntryEndIn self.geometry result.1 }
    {
        let LastEntry {
            geometry,
            node,
            before,
        } = self;
        match node_of(geometry.nodes, old) {
            Some(next) => {
                let behind = LastEntry {
                    geometry,
                    node: next,
                    before: Some(node),
                };
                (behind, Next::Go)
            }
            None => (self, Next::Done(Entry { node, before })),
        }
    }
}
