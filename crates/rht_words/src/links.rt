//! What the links in words say: links to nodes, the markers that end chains, the word of a
//! bucket, and the words that lead to a table or a page. Reading is total: a word that no run of
//! the table gives is read as something harmless, mostly as leading nowhere.

ghost use Rattle.std.specs.Prelude.{◌≡◌, ◌<◌, ◌%◌, ◌↔◌, IsTrue, IfSome};
ghost use Rattle.rht_words.specs.Links.{link_of, marker_of, node_of, unlocked, head_of, plain_of, table_of, future_of, slot_of, entry_of, page_of};

/// The link to a node, which is even and not 0. The kernel's links are addresses.
#[inline(always)]
pub fn link_of(node: u32) -> u64
    ensures { result ≡ link_of node }
{
    2 * node as u64 + 2
}

/// The marker that ends the chain of the bucket whose word has this place, which is odd. The
/// kernel's counterpart is `RHT_NULLS_MARKER`.
#[inline(always)]
pub fn marker_of(place: usize) -> u64
    ensures { result ≡ marker_of place }
{
    (place as u64).wrapping_mul(2).wrapping_add(1)
}

/// The node to which the link leads, in a table of so many nodes. None for a marker, for 0 and
/// for a link to a node past the last.
#[inline(always)]
pub fn node_of(nodes: u32, link: u64) -> Option<u32>
    ensures node { result ≡ node_of nodes link }
    ensures within { IfSome result (λ node. node < nodes) }
{
    // a rotation by one bit, less one: 0 and the odd links give numbers past every node's
    let number = (link % 2 * (1 << 63) + link / 2).wrapping_sub(1);
    if number < nodes as u64 {
        Some(number as u32)
    } else {
        None
    }
}

/// Whether the bucket word is locked.
#[inline(always)]
pub fn is_locked(word: u64) -> bool
    ensures { IsTrue result ↔ (word % 2 ≡ 1) }
{
    word % 2 == 1
}

/// The bucket word without its lock.
#[inline(always)]
pub fn unlocked(word: u64) -> u64
    ensures { result ≡ unlocked word }
{
    word - word % 2
}

/// The first link of the chain of a bucket with this word at this place. An empty bucket's is its
/// marker. The kernel's counterpart is `__rht_ptr`.
#[inline(always)]
pub fn head_of(place: usize, word: u64) -> u64
    ensures { result ≡ head_of place word }
{
    let first = unlocked(word);
    if first == 0 { marker_of(place) } else { first }
}

/// The unlocked word of the bucket at this place whose chain has this first link. The kernel's
/// counterpart is in `rht_assign_unlock`.
#[inline(always)]
pub fn plain_of(place: usize, head: u64) -> u64
    ensures { result ≡ plain_of place head }
{
    if head == marker_of(place) { 0 } else { head }
}

/// The slot that the word of the current table names. A word past the eighth slot is read as the
/// eighth.
#[inline(always)]
pub fn table_of(word: u64) -> u32
    ensures table { result ≡ table_of word }
    ensures slot { result < 8 }
{
    word.min(7) as u32
}

/// The future word that leads to the table in a slot.
#[inline(always)]
pub fn future_of(slot: u32) -> u64
    ensures { result ≡ future_of slot }
{
    slot as u64 + 1
}

/// The slot to which a future word leads. None for 0, and for a slot past the eighth.
#[inline(always)]
pub fn slot_of(future: u64) -> Option<u32>
    ensures table { result ≡ slot_of future }
    ensures slot { IfSome result (λ slot. slot < 8) }
{
    let slot = future.wrapping_sub(1);
    if slot < 8 { Some(slot as u32) } else { None }
}

/// The entry of a nested table that leads to a page.
#[inline(always)]
pub fn entry_of(page: u32) -> u64
    ensures { result ≡ entry_of page }
{
    page as u64 + 1
}

/// The page to which an entry leads, in a table of so many pages. None for 0, which is a missing
/// page, and for a page past the last.
#[inline(always)]
pub fn page_of(pages: u32, entry: u64) -> Option<u32>
    ensures { result ≡ page_of pages entry }
{
    let page = entry.wrapping_sub(1);
    if page < pages as u64 {
        Some(page as u32)
    } else {
        None
    }
}
