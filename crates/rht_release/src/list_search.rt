//! The search for an owner in a port's list, state by state.

ghost use Rattle.std.specs.Prelude.{◌≡◌, ◌<◌};
ghost use Rattle.rht_words.specs.Operations.{op_place};
ghost use Rattle.rht_words.specs.Places.{words_in};
ghost use Rattle.rht_release.specs.ListSearch.{search_new, search_plan, search_after, owner_compared, list_followed, IsSearchIn};

use rht_words::{Geometry, Next, Op, node_of, owner_of};

/// A node of a port's list.
#[derive(Clone, Copy, Debug, PartialEq, Eq)]
pub struct ListPlace {
    /// The node.
    pub node: u32,
    /// The node before it in the list. None where it is the list's first.
    pub before: Option<u32>,
}

/// Where the search for the first node with an owner stands. The port's bucket is locked, so nobody
/// else changes the list. It is the loop of the kernel's `__rhashtable_remove_fast_one`.
#[derive(Clone, Copy)]
pub enum ListSearch {
    /// Loads the owner of a node, behind this one.
    Owner { node: u32, before: Option<u32> },
    /// Loads the link behind a node with another owner.
    ListLink { node: u32 },
}

impl ListSearch {
    /// At the first node of the list.
    #[inline(always)]
    pub fn new(first: u32) -> ListSearch
        ensures { result ≡ search_new first }
    {
        ListSearch::Owner {
            node: first,
            before: None,
        }
    }

    /// The next operation.
    #[inline(always)]
    pub fn plan(&self, geometry: Geometry) -> Op
        requires { IsSearchIn geometry self.now }
        ensures plan { result ≡ search_plan geometry self.now }
        ensures place { op_place result < words_in geometry }
    {
        match *self {
            ListSearch::Owner { node, .. } => Op::load(geometry.owner(node)),
            ListSearch::ListLink { node } => Op::load(geometry.list_link(node)),
        }
    }

    /// Where the search stands after a state that found this value. Its end is the first node with the
    /// owner, or that no node has it.
    #[inline(always)]
    pub fn after(
        self,
        geometry: Geometry,
        owner: u32,
        old: u64,
    ) -> (ListSearch, Next<Option<ListPlace>>)
        requires { IsSearchIn geometry self }
        ensures { result ≡ search_after geometry owner self old }
    {
        match self {
            ListSearch::Owner { node, before } => {
                owner_compared(node, before, owner_of(old) == owner)
            }
            ListSearch::ListLink { node } => list_followed(node, node_of(geometry.nodes, old)),
        }
    }
}

/// A node with the owner is the one. Behind another one the list goes on.
#[inline(always)]
pub fn owner_compared(
    node: u32,
    before: Option<u32>,
    equal: bool,
) -> (ListSearch, Next<Option<ListPlace>>)
    ensures { result ≡ owner_compared node before equal }
{
    if equal {
        let at = ListSearch::Owner { node, before };
        (at, Next::Done(Some(ListPlace { node, before })))
    } else {
        (ListSearch::ListLink { node }, Next::Go)
    }
}

/// The next node of the list is looked at. Behind the last one, no node has the owner.
#[inline(always)]
pub fn list_followed(node: u32, next: Option<u32>) -> (ListSearch, Next<Option<ListPlace>>)
    ensures { result ≡ list_followed node next }
{
    match next {
        Some(next) => {
            let at = ListSearch::Owner {
                node: next,
                before: Some(node),
            };
            (at, Next::Go)
        }
        None => (ListSearch::ListLink { node }, Next::Done(None)),
    }
}
