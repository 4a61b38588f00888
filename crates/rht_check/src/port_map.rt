//! Bindings as an ordered map, which serves the calls that are about bindings.

ghost use Rattle.std.specs.Prelude.{◌≡◌, ◌↔◌, ◌∷◌, IsTrue, IfOk, OnOk, slice_get};
ghost use Rattle.rht_model.specs.Multimap.{unbound, Agree};
ghost use Rattle.rht_model.specs.Listing.{Lists};
ghost use Rattle.rht_model.specs.Answers.{bind_reply, find_reply, release_reply, rebind_reply, owners_bound, owners_released, owners_rebound};
ghost use Rattle.rht_check.specs.Updates.{owners_at, count_of_owners, IsUpdated, ChangesTo};

use crate::owner_list::OwnerList;
use rht_model::{Bindings, Reply};
use rht_words::{Kind, Port};
use std::alloc::{AllocError, Global};
use std::collections::BTreeMap;
use std::marker::Model;

/// The bound ports in rising order, each with its owners. Contracts see the pairs;
/// `owners_at` says what they stand for.
#[derive(Debug, Drop)]
pub struct PortMap {
    owners: BTreeMap<Port, OwnerList>,
}

impl Model for PortMap {
    ghost use Rattle.std.specs.Prelude.{◌≢◌, ℕ, List, [], IfSome};
    ghost use Rattle.std.specs.Ordering.{nat_cmp};
    ghost use Rattle.std.specs.BTreeMap.{get};
    ghost use Rattle.rht_model.specs.Multimap.{Port};

    ghost Value = { List (Port × List ℕ) };

    ghost view = { λ p. p.owners.entries };

    ghost invariant = { λ p. (port : ℕ) → IfSome (get nat_cmp p.owners port) (λ list. list ≢ []) };
}

impl PortMap {
    /// Nothing is bound. It takes no memory.
    pub fn new(alloc: Global) -> PortMap
        ensures { Agree (owners_at result) unbound }
    {
        PortMap {
            owners: BTreeMap::new(alloc),
        }
    }

    /// The first owner of the port.
    fn first(&self, port: Port) -> Option<u32>
        ensures { result ≡ slice_get (owners_at self.now port) 0 }
    {
        self.owners.get(&port)?.first()
    }

    /// Whether these are the owners of the port.
    pub fn are_owners(&self, port: Port, owners: &[u32]) -> bool
        ensures { IsTrue result ↔ (owners_at self.now port ≡ owners.now) }
    {
        match self.owners.get(&port) {
            Some(list) => list.are(owners),
            None => owners.is_empty(),
        }
    }

    /// Looks the port up.
    pub fn find(&self, port: Port) -> Reply
        ensures { result ≡ find_reply (owners_at self.now port) }
    {
        match self.first(port) {
            Some(owner) => Reply::Found { owner },
            None => Reply::Missing,
        }
    }

    /// Binds the port to the owner, where a table of this kind does.
    pub fn bind(
        &mut self,
        alloc: Global,
        kind: Kind,
        port: Port,
        owner: u32,
    ) -> Result<Reply, AllocError>
        ensures reply { IfOk result (λ reply. reply ≡ bind_reply kind (owners_at self.old port)) }
        ensures after { OnOk result (ChangesTo self.old self.new port (owners_bound kind owner (owners_at self.old port))) }
    {
        match self.first(port) {
            Some(first) if kind == Kind::Single => Ok(Reply::Exists { owner: first }),
            _ => {
                self.put_first(alloc, port, owner)?;
                Ok(Reply::Bound { kick: false })
            }
        }
    }

    /// Binds the port to one owner more, who is its first one then.
    fn put_first(&mut self, alloc: Global, port: Port, owner: u32) -> Result<(), AllocError>
        ensures { OnOk result (IsUpdated self.old self.new port (Some (owner ∷ owners_at self.old port))) }
    {
        match self.owners.get_mut(&port) {
            Some(list) => list.put_first(owner)?,
            None => {
                self.owners.insert(port, OwnerList::of(alloc, owner)?)?;
            }
        }
        Ok(())
    }

    /// Takes the port's first binding to this owner out.
    pub fn release(&mut self, port: Port, owner: u32) -> Reply
        ensures reply { result ≡ release_reply owner (owners_at self.old port) }
        ensures after { ChangesTo self.old self.new port (owners_released owner (owners_at self.old port)) }
    {
        let Some(list) = self.owners.get_mut(&port) else {
            return Reply::Absent;
        };
        if list.is_only(owner) {
            self.owners.remove(&port);
            return Reply::Released { kick: false };
        }
        if list.take_out(owner) {
            Reply::Released { kick: false }
        } else {
            Reply::Absent
        }
    }

    /// Puts a new owner in the place of the port's first one that is this one.
    pub fn rebind(&mut self, port: Port, owner: u32, new: u32) -> Reply
        ensures reply { result ≡ rebind_reply owner (owners_at self.old port) }
        ensures after { ChangesTo self.old self.new port (owners_rebound owner new (owners_at self.old port)) }
    {
        let Some(list) = self.owners.get_mut(&port) else {
            return Reply::Absent;
        };
        if list.exchange(owner, new) {
            Reply::Rebound
        } else {
            Reply::Absent
        }
    }

    /// The bound ports with their owners, as a list.
    pub fn listing(&self, alloc: Global) -> Result<Bindings, AllocError>
        ensures { IfOk result (λ bindings. Lists bindings.pairs (owners_at self.now)) }
    {
        let mut bindings = Bindings::with_room(alloc, self.count()?)?;
        for (port, list) in &self.owners {
            list.add_to(*port, &mut bindings);
        }
        Ok(bindings)
    }

    /// How many owners all ports have together. More than a listing has room for are want of
    /// memory.
    fn count(&self) -> Result<u32, AllocError>
        ensures { IfOk result (λ count. count ≡ count_of_owners self.now) }
    {
        let mut count: u32 = 0;
        for (_port, list) in &self.owners {
            let Ok(len) = u32::try_from(list.len()) else {
                return Err(AllocError);
            };
            count = count.checked_add(len).ok_or(AllocError)?;
        }
        Ok(count)
    }
}
