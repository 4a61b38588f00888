//! The owners of a port, which are many only in a table of lists. One more in front moves none of
//! the others.

ghost use Rattle.std.specs.Prelude.{◌≡◌, ◌≢◌, ◌==◌, ◌≤◌, ◌↔◌, ◌+◌, [], ◌∷◌, length, fold, take, drop, IsTrue, IfOk, OnOk, OnErr, position, slice_get};
ghost use Rattle.std.specs.List.{list_any};
ghost use Rattle.rht_model.specs.Listing.{added};
ghost use Rattle.rht_model.specs.Answers.{owners_released, owners_rebound};

use rht_model::Bindings;
use rht_words::Port;
use std::alloc::{AllocError, Global};
use std::collections::VecDeque;
use std::marker::Model;

/// The owners of a port, the first one first. Contracts see the list.
#[derive(Debug, Drop)]
pub struct OwnerList {
    owners: VecDeque<u32>,
}

impl Model for OwnerList {
    ghost use Rattle.std.specs.Prelude.{List, ℕ};

    ghost Value = { List ℕ };

    ghost view = { λ l. l.owners.items };
}

impl OwnerList {
    /// This owner alone.
    pub fn of(alloc: Global, owner: u32) -> Result<OwnerList, AllocError>
        ensures { IfOk result (λ list. list ≡ owner ∷ []) }
    {
        let mut owners = VecDeque::new(alloc);
        owners.push_front(owner)?;
        Ok(OwnerList { owners })
    }

    /// One owner more, who is the first one then.
    pub fn put_first(&mut self, owner: u32) -> Result<(), AllocError>
        ensures ok { OnOk result (self.new ≡ owner ∷ self.old) }
        ensures err { OnErr result (self.new ≡ self.old) }
    {
        self.owners.push_front(owner)?;
        Ok(())
    }

    /// Takes the first owner out that is this one, and tells whether there was one.
    pub fn take_out(&mut self, owner: u32) -> bool
        ensures found { result ≡ list_any (λ o. o == owner) self.old }
        ensures owners { self.new ≡ owners_released owner self.old }
        ensures bound { self.old ≢ [] → self.old ≢ owner ∷ [] → self.new ≢ [] }
    {
        match self.place(owner) {
            Some(place) => {
                self.owners.remove(place);
                true
            }
            None => false,
        }
    }

    /// Where the first owner stands that is this one.
    fn place(&self, owner: u32) -> Option<usize>
        ensures { result ≡ position (λ o. o == owner) self.now }
    {
        self.owners.iter().position(|o| *o == owner)
    }

    /// Whether this owner is the only one.
    pub fn is_only(&self, owner: u32) -> bool
        ensures { IsTrue result ↔ (self.now ≡ owner ∷ []) }
    {
        self.owners.len() == 1 && self.first() == Some(owner)
    }

    /// The first owner.
    pub fn first(&self) -> Option<u32>
        ensures { result ≡ slice_get self.now 0 }
    {
        self.owners.front().copied()
    }

    /// Whether these are the owners.
    pub fn are(&self, owners: &[u32]) -> bool
        ensures { IsTrue result ↔ (self.now ≡ owners.now) }
    {
        let (front, back) = self.owners.as_slices();
        front.len() <= owners.len() && is_split(owners, front, back)
    }

    /// Puts a new owner in the place of the first one that is this one, and tells whether there was
    /// one.
    pub fn exchange(&mut self, owner: u32, new: u32) -> bool
        ensures found { result ≡ list_any (λ o. o == owner) self.old }
        ensures owners { self.new ≡ owners_rebound owner new self.old }
        ensures bound { self.old ≢ [] → self.new ≢ [] }
    {
        match self.place(owner) {
            Some(place) => {
                self.owners[place] = new;
                true
            }
            None => false,
        }
    }

    /// The number of owners.
    pub fn len(&self) -> usize
        ensures { result ≡ length self.now }
    {
        self.owners.len()
    }

    /// Adds the owners to a listing, as those of this port.
    pub fn add_to(&self, port: Port, bindings: &mut Bindings)
        requires { length self.now ≤ bindings.old.room }
        ensures pairs { bindings.new.pairs ≡ fold (λ pairs owner. added pairs port owner) bindings.old.pairs self.now }
        ensures room { bindings.new.room + length self.now ≡ bindings.old.room }
    {
        for i in 0..self.owners.len() {
            bindings.add(port, self.owners[i]);
        }
    }
}

/// Whether the list parts into these two, of which the first isn't longer than it.
fn is_split(list: &[u32], front: &[u32], back: &[u32]) -> bool
    requires { length front.now ≤ length list.now }
    ensures { IsTrue result ↔ (
        (take (length front.now) list.now ≡ front.now) × (drop (length front.now) list.now ≡ back.now)) }
{
    let (first, rest) = list.split_at(front.len());
    first == front && rest == back
}
