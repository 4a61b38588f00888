//! Taking a free node: a search goes through the words of the node map from a given one on, wraps after
//! the last, and loads each at most once. It clears the lowest bit that it has found set.

ghost use Rattle.std.specs.Prelude.{◌≡◌, ◌<◌, IfSome};
ghost use Rattle.rht_words.specs.Operations.{op_place};
ghost use Rattle.rht_words.specs.Places.{words_in, map_words};
ghost use Rattle.rht_arena.specs.TakeNode.{take_node_from, take_node_new, take_node_plan, take_node_after, claim_among, word_behind, IsNodeIn};

use rht_words::{Geometry, Next, Op, bit_of, bits_above, lowest_free};
use std::marker::Model;

/// Where the taking of a node stands. Each state has one operation.
#[derive(Clone, Copy)]
pub enum TakeNodeAt {
    /// Loads a word of the node map. Others take nodes and give them back meanwhile.
    MapWord { index: u32 },
    /// Clears the bit of a node that was seen free. It takes effect here where the bit is still set.
    Claim { index: u32, bit: u32 },
}

/// Takes a free node. The answer is none where each node was seen taken.
#[derive(Clone, Copy)]
pub struct TakeNode {
    geometry: Geometry,
    start: u32,
    at: TakeNodeAt,
}

impl Model for TakeNode {
    ghost use Rattle.rht_arena.specs.TakeNode.{TakeNodeModel, IsTakeAtIn};

    ghost Value = { TakeNodeModel };

    ghost view = { λ m. record { geometry = m.geometry; start = m.start; at = m.at } };

    ghost inverse = { λ m. record { geometry = m.geometry; start = m.start; at = m.at } };

    ghost invariant = { λ m. IsTakeAtIn m.geometry m.at };
}

impl TakeNode {
    /// Before the first word of the map.
    #[inline(always)]
    pub fn new(geometry: Geometry) -> TakeNode
        ensures { result ≡ take_node_new geometry }
    {
        TakeNode::from(geometry, 0)
    }

    /// A search that begins with word `start` of the map.
    #[inline(always)]
    pub fn from(geometry: Geometry, start: u32) -> TakeNode
        requires { start < map_words geometry.nodes }
        ensures { result ≡ take_node_from geometry start }
    {
        TakeNode {
            geometry,
            start,
            at: TakeNodeAt::MapWord { index: start },
        }
    }

    /// The next operation.
    #[inline(always)]
    pub fn plan(&self) -> Op
        ensures plan { result ≡ take_node_plan self.now }
        ensures place { op_place result < words_in self.now.geometry }
    {
        match self.at {
            TakeNodeAt::MapWord { index } => Op::load(self.geometry.node_map(index)),
            TakeNodeAt::Claim { index, bit } => {
                Op::and(self.geometry.node_map(index), !bit_of(bit))
            }
        }
    }

    /// Takes in the word's old value.
    #[inline(always)]
    pub fn take(&mut self, old: u64) -> Next<Option<u32>>
        ensures taken { (self.new, result) ≡ take_node_after self.old old }
        ensures node { IsNodeIn self.old.geometry result }
    {
        let (machine, next) = self.after(old);
        *self = machine;
        next
    }

    /// As `take`, but by value: for a machine that has this one in a state.
    #[inline(always)]
    pub fn after(self, old: u64) -> (TakeNode, Next<Option<u32>>)
        ensures after { result ≡ take_node_after self old }
        ensures geometry { result.0.geometry ≡ self.geometry }
        ensures node { IsNodeIn self.geometry result.1 }
    {
        match self.at {
            TakeNodeAt::MapWord { index } => self.claim_among(index, old),
            TakeNodeAt::Claim { index, bit } if (old >> bit) % 2 == 1 => {
                (self, Next::Done(Some(64 * index + bit)))
            }
            TakeNodeAt::Claim { index, bit } => self.claim_among(index, old & bits_above(bit)),
        }
    }

    /// Goes to the lowest node whose bit is set in this word, or else to the next word.
    #[inline(always)]
    fn claim_among(self, index: u32, word: u64) -> (TakeNode, Next<Option<u32>>)
        requires { index < map_words self.geometry.nodes }
        ensures after { result ≡ claim_among self index word }
        ensures node { IsNodeIn self.geometry result.1 }
    {
        let mut machine = self;
        if let Some(bit) = lowest_free(machine.geometry.nodes, index, word) {
            machine.at = TakeNodeAt::Claim { index, bit };
        } else {
            let next = word_behind(machine.geometry, index);
            if next == machine.start {
                return (machine, Next::Done(None));
            }
            machine.at = TakeNodeAt::MapWord { index: next };
        }
        (machine, Next::Go)
    }
}

/// The word of the map after this one; after the last one the first.
#[inline(always)]
fn word_behind(geometry: Geometry, index: u32) -> u32
    requires { index < map_words geometry.nodes }
    ensures behind { result ≡ word_behind geometry index }
    ensures within { result < map_words geometry.nodes }
{
    if index + 1 < geometry.node_map_words() {
        index + 1
    } else {
        0
    }
}
