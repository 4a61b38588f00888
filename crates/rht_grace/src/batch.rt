//! The nodes that a caller took out and hasn't given back yet, with the section words for which some
//! of them wait. All memory is taken when the batch is made.

ghost use Rattle.std.specs.Prelude.{◌≡◌, ◌<◌, ◌≤◌, ◌↔◌, ◌++◌, [], length, slice_index, IfOk, IfSome, IsTrue};
ghost use Rattle.rht_words.specs.Members.{NotIn};
ghost use Rattle.rht_grace.specs.Batch.{IsBatch, batch_new, with_fresh, turned, with_word, cleared, first_odd};

use rht_model::Room;
use rht_words::Geometry;
use std::alloc::{AllocError, Global};
use std::marker::Model;
use std::mem;

/// A caller's nodes that no link leads to any more. The fresh ones wait for nothing yet; the waiting
/// ones wait until each section that was open when they began to wait has been left. The kernel
/// hands such objects to `kfree_rcu`, one by one.
#[derive(Debug, Drop)]
pub struct Batch {
    geometry: Geometry,
    fresh: Room<u32>,
    waiting: Room<u32>,
    /// For each caller its section word as it was found when the nodes began to wait, or 0 where it
    /// was found changed since.
    kept: Vec<u64>,
}

impl Model for Batch {
    ghost use Rattle.std.specs.Prelude.{◌≡◌};
    ghost use Rattle.rht_grace.specs.Batch.{BatchModel, IsBatch};

    ghost Value = { BatchModel };

    ghost view = { λ b. record { geometry = b.geometry; fresh = b.fresh.items; waiting = b.waiting.items; kept = b.kept.items } };

    ghost invariant = { λ b. record {
      fresh_room : b.fresh.limit ≡ b.geometry.nodes;
      waiting_room : b.waiting.limit ≡ b.geometry.nodes;
      sound : IsBatch (record { geometry = b.geometry; fresh = b.fresh.items; waiting = b.waiting.items; kept = b.kept.items });
    } };
}

impl Batch {
    /// A batch without nodes, with room for all nodes in both lists. All memory that it uses is
    /// taken here; want of it is the one refusal.
    pub fn new(alloc: Global, geometry: Geometry) -> Result<Batch, AllocError>
        ensures { IfOk result (λ batch. batch ≡ batch_new geometry) }
    {
        let fresh = Room::with_limit(alloc, geometry.nodes)?;
        let waiting = Room::with_limit(alloc, geometry.nodes)?;
        let kept = vec![in alloc; 0; geometry.callers as usize]?;
        Ok(Batch {
            geometry,
            fresh,
            waiting,
            kept,
        })
    }

    /// Adds a node that its caller took out, and that is in no batch, behind the fresh ones. It takes
    /// no memory.
    pub fn put(&mut self, node: u32)
        requires within { node < self.old.geometry.nodes }
        requires apart { NotIn node (self.old.fresh ++ self.old.waiting) }
        ensures { self.new ≡ with_fresh self.old node }
    {
        self.fresh.push(node);
    }

    /// Whether the node is in neither list, so that it may be put in where it is the table's.
    pub fn lacks(&self, node: u32) -> bool
        ensures { IsTrue result ↔ NotIn node (self.now.fresh ++ self.now.waiting) }
    {
        none_of(node, self.fresh.as_slice()) && none_of(node, self.waiting.as_slice())
    }

    /// The numbers by which the batch was made.
    #[inline(always)]
    pub fn geometry(&self) -> Geometry
        ensures geometry { result ≡ self.now.geometry }
        ensures sound { IsBatch self.now }
    {
        self.geometry
    }

    /// The nodes that wait for nothing yet.
    #[inline(always)]
    pub fn fresh(&self) -> &[u32]
        ensures { result.now ≡ self.now.fresh }
    {
        self.fresh.as_slice()
    }

    /// The nodes that wait for sections to be left.
    #[inline(always)]
    pub fn waiting(&self) -> &[u32]
        ensures { result.now ≡ self.now.waiting }
    {
        self.waiting.as_slice()
    }

    /// The section words that are kept, one for each caller.
    #[inline(always)]
    pub fn kept(&self) -> &[u64]
        ensures { result.now ≡ self.now.kept }
    {
        self.kept.as_slice()
    }

    /// How many nodes wait.
    #[inline(always)]
    pub(crate) fn waiting_len(&self) -> u32
        ensures len { result ≡ length self.now.waiting }
        ensures few { result ≤ self.now.geometry.nodes }
    {
        self.waiting.as_slice().len() as u32
    }

    /// The waiting node at this place.
    #[inline(always)]
    pub(crate) fn waiting_node(&self, index: u32) -> u32
        requires { index < length self.now.waiting }
        ensures node { result ≡ slice_index self.now.waiting index }
        ensures within { result < self.now.geometry.nodes }
    {
        self.waiting.as_slice()[index as usize]
    }

    /// The section word that is kept of a caller.
    #[inline(always)]
    pub(crate) fn word(&self, caller: u32) -> u64
        requires { caller < self.now.geometry.callers }
        ensures { result ≡ slice_index self.now.kept caller }
    {
        self.kept[caller as usize]
    }

    /// The first caller from this one on of whom an odd word is kept.
    pub(crate) fn first_odd(&self, caller: u32) -> Option<u32>
        requires { caller ≤ self.now.geometry.callers }
        ensures first { result ≡ first_odd self.now.kept caller }
        ensures within { IfSome result (λ c. c < self.now.geometry.callers) }
    {
        first_odd(self.kept.as_slice(), caller)
    }

    /// Lets the fresh nodes wait, where none waits.
    pub(crate) fn turn(&mut self)
        requires { self.old.waiting ≡ [] }
        ensures { self.new ≡ turned self.old }
    {
        mem::swap(&mut self.fresh, &mut self.waiting);
    }

    /// Keeps a caller's section word.
    pub(crate) fn keep(&mut self, caller: u32, word: u64)
        requires { caller < self.old.geometry.callers }
        ensures { self.new ≡ with_word self.old caller word }
    {
        self.kept[caller as usize] = word;
    }

    /// Lets no node wait any more.
    pub(crate) fn clear(&mut self)
        ensures { self.new ≡ cleared self.old }
    {
        self.waiting.clear();
    }
}

/// The first caller from this one on whose word is odd.
fn first_odd(kept: &[u64], caller: u32) -> Option<u32>
    requires few { length kept.now ≤ 16 }
    requires from { caller ≤ length kept.now }
    ensures first { result ≡ first_odd kept.now caller }
    ensures within { IfSome result (λ c. c < length kept.now) }
{
    for other in caller..kept.len() as u32 {
        if kept[other as usize] % 2 == 1 {
            return Some(other);
        }
    }
    None
}

/// Whether the node is none of these.
fn none_of(node: u32, nodes: &[u32]) -> bool
    ensures { IsTrue result ↔ NotIn node nodes.now }
{
    !nodes.contains(&node)
}
