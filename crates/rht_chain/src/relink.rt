//! Giving the place before a node another link, and letting go of the lock.

ghost use Rattle.std.specs.Prelude.{◌≡◌};
ghost use Rattle.rht_chain.specs.LockedWalk.{IsNodeOrNone};
ghost use Rattle.rht_chain.specs.Relink.{relink_new, relink_plan, relink_after, IsRelinkPlace};

use rht_words::{Geometry, Next, Op, plain_of};
use std::marker::Model;

/// Where a change of one link stands. Each state has one operation.
#[derive(Clone, Copy)]
pub enum RelinkAt {
    /// Stores the link into the node before. Look-ups see it from here on.
    ChainLink { before: u32 },
    /// Stores the bucket's word, which unlocks it. Where no node is before, look-ups see the link
    /// from here on.
    Word { word: u64 },
}

/// Gives the place before a node another link, in a locked bucket, and unlocks it. The kernel's
/// counterparts are `rcu_assign_pointer` with `rht_unlock`, and `rht_assign_unlock`.
#[derive(Clone, Copy)]
pub struct Relink {
    geometry: Geometry,
    place: usize,
    word: u64,
    link: u64,
    at: RelinkAt,
}

impl Model for Relink {
    ghost use Rattle.rht_chain.specs.Relink.{RelinkModel, IsRelinkAtIn};

    ghost Value = { RelinkModel };

    ghost view = { λ m. record { geometry = m.geometry; place = m.place; word = m.word; link = m.link; at = m.at } };

    ghost inverse = { λ m. record { geometry = m.geometry; place = m.place; word = m.word; link = m.link; at = m.at } };

    ghost invariant = { λ m. IsRelinkAtIn m.geometry m.at };
}

impl Relink {
    /// Before the first store, in the bucket whose word, at this place, was this one when it was
    /// locked. With no node before, the link becomes the bucket's first.
    #[inline(always)]
    pub fn new(
        geometry: Geometry,
        place: usize,
        word: u64,
        before: Option<u32>,
        link: u64,
    ) -> Relink
        requires { IsNodeOrNone geometry before }
        ensures { result ≡ relink_new geometry place word before link }
    {
        Relink {
            geometry,
            place,
            word,
            link,
            at: match before {
                Some(before) => RelinkAt::ChainLink { before },
                None => RelinkAt::Word {
                    word: plain_of(place, link),
                },
            },
        }
    }

    /// The next operation.
    #[inline(always)]
    pub fn plan(&self) -> Op
        ensures plan { result ≡ relink_plan self.now }
        ensures place { IsRelinkPlace self.now.geometry self.now.place result }
    {
        match self.at {
            RelinkAt::ChainLink { before } => {
                Op::store(self.geometry.chain_link(before), self.link)
            }
            RelinkAt::Word { word } => Op::store(self.place, word),
        }
    }

    /// Whatever the word was before.
    #[inline(always)]
    pub fn take(&mut self, _old: u64) -> Next<()>
        ensures { (self.new, result) ≡ relink_after self.old }
    {
        let (machine, next) = self.after();
        *self = machine;
        next
    }

    /// As `take`, but by value: for a machine that has this one in a state.
    #[inline(always)]
    pub fn after(self) -> (Relink, Next<()>)
        ensures after { result ≡ relink_after self }
        ensures same { (result.0.geometry ≡ self.geometry) × (result.0.place ≡ self.place) }
    {
        match self.at {
            RelinkAt::ChainLink { .. } => {
                let mut relink = self;
                relink.at = RelinkAt::Word { word: self.word };
                (relink, Next::Go)
            }
            RelinkAt::Word { .. } => (self, Next::Done(())),
        }
    }
}
