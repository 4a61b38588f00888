//! Where the nodes and the pages begin. A table works that out once, when it is opened.
//!
//! The places of nodes are physical ones, at which an operation is performed as they are. That of a bucket's
//! word isn't, since markers and locks have it. So the start of the pages is kept as so many words behind
//! the first 24: being added to 24 it leaves the compiler in no doubt that a place isn't among these.

ghost use Rattle.std.specs.Prelude.{◌≡◌};
ghost use Rattle.rht_run.specs.Layout.{AreStarts};

use rht_words::{Geometry, Shape};

/// The numbers of nodes and pages, and what is worked out from them.
#[derive(Clone, Copy)]
pub struct Starts {
    pub geometry: Geometry,
    /// The physical place at which the nodes begin.
    pub nodes: u32,
    /// So many words lie between the first 24 and the pages.
    pub pages: u32,
    /// The number of the last word of all pages.
    pub last: u32,
    ghost are: { AreStarts geometry nodes pages last },
}

impl Starts {
    ghost use Rattle.rht_words.specs.Places.{ChainLink, KeyWord, OwnerWord, ListLink, Node, place_of};
    ghost use Rattle.rht_nest.specs.Place.{flat_place};
    ghost use Rattle.rht_run.specs.Layout.{physical};

    /// The starts in a table with these numbers.
    #[tactic(auto, unfolding(rht_words::specs::Places::pages_at, rht_words::specs::Places::nodes_at, rht_words::specs::Places::page_map_at))]
    pub(crate) fn new(geometry: Geometry) -> Starts
        ensures { result.geometry ≡ geometry }
    {
        let pages = 256
            + geometry.node_map_words()
            + geometry.page_map_words()
            + 4 * geometry.nodes;
        let nodes = 448 + geometry.node_map_words() + geometry.page_map_words();
        let last = 64 * geometry.pages - 1;
        Starts {
            geometry,
            nodes,
            pages,
            last,
        }
    }

    /// The link behind a node in its bucket's chain.
    #[inline(always)]
    #[tactic(auto, unfolding(crate::specs::Layout::physical, rht_words::specs::Places::nodes_at, rht_words::specs::Places::page_map_at))]
    pub(crate) fn chain_link(self, node: u32) -> usize
        ensures { result ≡ physical (place_of self.geometry (Node node ChainLink)) }
    {
        self.nodes as usize + 4 * node as usize
    }

    /// The key word of a node.
    #[inline(always)]
    #[tactic(auto, unfolding(crate::specs::Layout::physical, rht_words::specs::Places::nodes_at, rht_words::specs::Places::page_map_at))]
    pub(crate) fn key(self, node: u32) -> usize
        ensures { result ≡ physical (place_of self.geometry (Node node KeyWord)) }
    {
        self.chain_link(node) + 1
    }

    /// The owner of a node.
    #[inline(always)]
    #[tactic(auto, unfolding(crate::specs::Layout::physical, rht_words::specs::Places::nodes_at, rht_words::specs::Places::page_map_at))]
    pub(crate) fn owner(self, node: u32) -> usize
        ensures { result ≡ physical (place_of self.geometry (Node node OwnerWord)) }
    {
        self.chain_link(node) + 2
    }

    /// The link behind a node in its port's list.
    #[inline(always)]
    #[tactic(auto, unfolding(crate::specs::Layout::physical, rht_words::specs::Places::nodes_at, rht_words::specs::Places::page_map_at))]
    pub(crate) fn list_link(self, node: u32) -> usize
        ensures { result ≡ physical (place_of self.geometry (Node node ListLink)) }
    {
        self.chain_link(node) + 3
    }

    /// The place of a bucket's word in a flat table of this shape, as `flat_place` has it.
    #[inline(always)]
    pub(crate) fn bucket(self, shape: u64, bucket: u32) -> usize
        ensures { result ≡ flat_place self.geometry shape bucket }
    {
        let index = 64 * u64::from(Shape::from(shape).page) + u64::from(bucket);
        24 + self.pages as usize + index.min(u64::from(self.last)) as usize
    }
}
