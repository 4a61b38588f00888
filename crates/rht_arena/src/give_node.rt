//! Giving a node back, which is one operation.

ghost use Rattle.std.specs.Prelude.{◌≡◌, ◌<◌};
ghost use Rattle.rht_words.specs.declared.machine.Next.TheVariants.{Done};
ghost use Rattle.rht_words.specs.Operations.{op_place};
ghost use Rattle.rht_words.specs.Places.{words_in};
ghost use Rattle.rht_arena.specs.GiveNode.{give_node_plan};

use rht_words::{Geometry, Next, Op, bit_of};
use std::marker::Model;

/// Gives a node back. Whoever gives it holds it, and no link leads to it.
#[derive(Clone, Copy)]
pub struct GiveNode {
    geometry: Geometry,
    node: u32,
}

impl Model for GiveNode {
    ghost use Rattle.std.specs.Prelude.{◌<◌};
    ghost use Rattle.rht_arena.specs.GiveNode.{GiveNodeModel};

    ghost Value = { GiveNodeModel };

    ghost view = { λ m. record { geometry = m.geometry; node = m.node } };

    ghost inverse = { λ m. record { geometry = m.geometry; node = m.node } };

    ghost invariant = { λ m. m.node < m.geometry.nodes };
}

impl GiveNode {
    /// Before its operation.
    #[inline(always)]
    pub fn new(geometry: Geometry, node: u32) -> GiveNode
        requires { node < geometry.nodes }
        ensures { result ≡ record { geometry = geometry; node = node } }
    {
        GiveNode { geometry, node }
    }

    /// Sets the node's bit.
    #[inline(always)]
    pub fn plan(&self) -> Op
        ensures plan { result ≡ give_node_plan self.now }
        ensures place { op_place result < words_in self.now.geometry }
    {
        Op::or(
            self.geometry.node_map(self.node / 64),
            bit_of(self.node % 64),
        )
    }

    /// The node is given back, whatever its word was.
    #[inline(always)]
    pub fn take(&mut self, _old: u64) -> Next<()>
        ensures machine { self.new ≡ self.old }
        ensures next { result ≡ Done tt }
    {
        Next::Done(())
    }
}
