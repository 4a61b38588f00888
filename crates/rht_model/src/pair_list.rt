//! Bindings as a plain list of pairs. It is slow, and is there to be compared with.

ghost use Rattle.std.specs.Prelude.{◌≡◌, ◌==◌, ◌&&◌, [], ◌∷◌, IfOk, OnOk, position};
ghost use Rattle.rht_model.specs.Multimap.{unbound};
ghost use Rattle.rht_model.specs.Pairs.{bindings_in, ChangesOwners};
ghost use Rattle.rht_model.specs.Answers.{bindings_after, owners_bound, owners_released, owners_rebound};

use crate::history::Call;
use rht_words::{Kind, Port};
use std::alloc::{AllocError, Global};
use std::marker::Model;

/// Pairs of a port and an owner. The pairs of one port stand in the order of its owners, the first
/// owner first; between pairs of different ports the order says nothing. Contracts see the pairs;
/// `bindings_in` says what they stand for.
#[derive(Drop)]
pub struct PairList {
    pairs: Vec<(Port, u32)>,
}

impl Model for PairList {
    ghost use Rattle.std.specs.Prelude.{List, ℕ};

    ghost Value = { List (ℕ × ℕ) };

    ghost view = { λ l. l.pairs.items };
}

impl PairList {
    /// Nothing is bound. It takes no memory.
    pub fn new(alloc: Global) -> PairList
        ensures { bindings_in result ≡ unbound }
    {
        PairList {
            pairs: Vec::new(alloc),
        }
    }

    /// The owners of the port, the first one first.
    pub fn owners(&self, alloc: Global, port: Port) -> Result<Vec<u32>, AllocError>
        ensures { IfOk result (λ owners. owners.items ≡ bindings_in self.now port) }
    {
        self.pairs
            .iter()
            .filter(|pair| pair.0 == port)
            .map(|pair| pair.1)
            .collect(alloc)
    }

    /// Goes on to the bindings after the call.
    pub fn follow(&mut self, alloc: Global, kind: Kind, call: Call) -> Result<(), AllocError>
        ensures { OnOk result (bindings_in self.new ≡ bindings_after kind (bindings_in self.old) call) }
    {
        match call {
            Call::Bind { port, owner, .. } => self.bind(alloc, kind, port, owner),
            Call::Release { port, owner } => {
                self.release(port, owner);
                Ok(())
            }
            Call::Rebind { port, owner, new } => {
                self.rebind(port, owner, new);
                Ok(())
            }
            _ => Ok(()),
        }
    }

    fn bind(&mut self, alloc: Global, kind: Kind, port: Port, owner: u32) -> Result<(), AllocError>
        ensures { OnOk result (ChangesOwners self.old self.new port (owners_bound kind owner)) }
    {
        if kind == Kind::Listed || self.owners(alloc, port)?.is_empty() {
            self.put_first(port, owner)?;
        }
        Ok(())
    }

    fn release(&mut self, port: Port, owner: u32)
        ensures { ChangesOwners self.old self.new port (owners_released owner) }
    {
        if let Some(place) = first_place(&self.pairs, port, owner) {
            self.pairs.remove(place);
        }
    }

    fn rebind(&mut self, port: Port, owner: u32, new: u32)
        ensures { ChangesOwners self.old self.new port (owners_rebound owner new) }
    {
        if let Some(place) = first_place(&self.pairs, port, owner) {
            self.pairs[place] = (port, new);
        }
    }

    /// Binds the port to one owner more, who is its first one then.
    fn put_first(&mut self, port: Port, owner: u32) -> Result<(), AllocError>
        ensures { OnOk result (ChangesOwners self.old self.new port (λ owners. owner ∷ owners)) }
    {
        self.pairs.insert(0, (port, owner))?;
        Ok(())
    }
}

/// The place of the first pair of the port and the owner.
fn first_place(pairs: &[(Port, u32)], port: Port, owner: u32) -> Option<usize>
    ensures { result ≡ position (λ pair. pair.0 == port && pair.1 == owner) pairs.now }
{
    pairs.iter().position(|pair| *pair == (port, owner))
}
