//! How many nodes, pages and callers a table has, and where their words stand.

ghost use Rattle.std.specs.Prelude.{◌≡◌, ◌+◌, ◌*◌, ◌^◌, ◌<◌, ◌≤◌, ◌↔◌, IsSome, IfSome};
ghost use Rattle.rht_words.specs.Limits.{IsGeometry};

use crate::limits::{CALLERS, NODES, PAGES};

/// The place at which the node map begins, behind the single words, the section words and the
/// slots.
pub(crate) const NODE_MAP_START: usize = 280;

/// The numbers by which the words are laid out, within their limits.
#[derive(Clone, Copy, Debug, PartialEq, Eq)]
pub struct Geometry {
    /// The objects that can be bound at one time, from 1 to 65,536.
    pub nodes: u32,
    /// The pages of 64 words that buckets are kept in, from 4 to 4,096.
    pub pages: u32,
    /// The callers that can use the table at one time, from 1 to 16.
    pub callers: u32,
    pub ghost within: { IsGeometry nodes pages callers },
}

impl Geometry {
    ghost use Rattle.rht_words.specs.Places.{ChainLink, KeyWord, OwnerWord, ListLink, NodeMap, PageMap, Node, PageWord, map_words, page_map_at, nodes_at, pages_at, words_in, place_of};

    /// None where a number is outside its limits.
    pub fn new(nodes: u32, pages: u32, callers: u32) -> Option<Geometry>
        ensures within { IsSome result ↔ IsGeometry nodes pages callers }
        ensures nodes { IfSome result (λ g. g.nodes ≡ nodes) }
        ensures pages { IfSome result (λ g. g.pages ≡ pages) }
        ensures callers { IfSome result (λ g. g.callers ≡ callers) }
    {
        if NODES.allow(nodes) && PAGES.allow(pages) && CALLERS.allow(callers) {
            Some(Geometry {
                nodes,
                pages,
                callers,
            })
        } else {
            None
        }
    }

    /// How many words the node map takes.
    #[inline(always)]
    pub fn node_map_words(self) -> u32
        ensures { result ≡ map_words self.nodes }
    {
        (self.nodes + 63) / 64
    }

    /// How many words the page map takes.
    #[inline(always)]
    pub fn page_map_words(self) -> u32
        ensures { result ≡ map_words self.pages }
    {
        (self.pages + 63) / 64
    }

    /// The place at which the page map begins.
    #[inline(always)]
    #[tactic(auto, unfolding(crate::specs::Places::page_map_at))]
    fn page_map_start(self) -> usize
        ensures place { result ≡ page_map_at self }
        ensures low { result ≤ 1304 }
    {
        NODE_MAP_START + self.node_map_words() as usize
    }

    /// The place at which the nodes begin.
    #[inline(always)]
    #[tactic(auto, unfolding(crate::specs::Places::nodes_at))]
    fn nodes_start(self) -> usize
        ensures place { result ≡ nodes_at self }
        ensures low { result ≤ 1368 }
    {
        self.page_map_start() + self.page_map_words() as usize
    }

    /// The place at which the pages begin.
    #[inline(always)]
    #[tactic(auto, unfolding(crate::specs::Places::pages_at))]
    fn pages_start(self) -> usize
        ensures place { result ≡ pages_at self }
        ensures low { result ≤ 263512 }
    {
        self.nodes_start() + 4 * self.nodes as usize
    }

    /// How many words there are: at most 525,656.
    #[inline(always)]
    pub fn words(self) -> usize
        ensures count { result ≡ words_in self }
        ensures few { result ≤ 525656 }
    {
        self.pages_start() + 64 * self.pages as usize
    }

    /// A word of the node map. A node's bit is set where it is free.
    #[inline(always)]
    pub fn node_map(self, index: u32) -> usize
        ensures place { result ≡ place_of self (NodeMap index) }
        ensures within { index < map_words self.nodes → result < words_in self }
    {
        NODE_MAP_START + index as usize
    }

    /// A word of the page map. A page's bit is set where it is free.
    #[inline(always)]
    pub fn page_map(self, index: u32) -> usize
        ensures place { result ≡ place_of self (PageMap index) }
        ensures within { index < map_words self.pages → result < words_in self }
    {
        self.page_map_start() + index as usize
    }

    /// The place at which a node's words begin.
    #[inline(always)]
    fn node_start(self, node: u32) -> usize
        ensures place { result ≡ place_of self (Node node ChainLink) }
        ensures low { result < 2 ^ 36 }
    {
        self.nodes_start() + 4 * node as usize
    }

    /// The link to the node behind this one in its bucket's chain.
    #[inline(always)]
    pub fn chain_link(self, node: u32) -> usize
        ensures place { result ≡ place_of self (Node node ChainLink) }
        ensures within { node < self.nodes → result < words_in self }
    {
        self.node_start(node)
    }

    /// The key word of a node, which stands for its port.
    #[inline(always)]
    pub fn key(self, node: u32) -> usize
        ensures place { result ≡ place_of self (Node node KeyWord) }
        ensures within { node < self.nodes → result < words_in self }
    {
        self.node_start(node) + 1
    }

    /// The owner to which a node binds its port.
    #[inline(always)]
    pub fn owner(self, node: u32) -> usize
        ensures place { result ≡ place_of self (Node node OwnerWord) }
        ensures within { node < self.nodes → result < words_in self }
    {
        self.node_start(node) + 2
    }

    /// The link to the next node of the same port in a table of lists; 0 at the list's end.
    #[inline(always)]
    pub fn list_link(self, node: u32) -> usize
        ensures place { result ≡ place_of self (Node node ListLink) }
        ensures within { node < self.nodes → result < words_in self }
    {
        self.node_start(node) + 3
    }

    /// The word that stands `index` words behind the first of a page. A flat table's buckets are
    /// the words from its first page on, also past that page's end.
    #[inline(always)]
    pub fn page_word(self, page: u32, index: u32) -> usize
        ensures place { result ≡ place_of self (PageWord (64 * page + index)) }
        ensures within { 64 * page + index < 64 * self.pages → result < words_in self }
    {
        self.pages_start() + 64 * page as usize + index as usize
    }
}
