//! What is to be seen of a chain, worked out from the list of its nodes. No machine runs this: it is
//! there to be read, and for tests.

ghost use Rattle.std.specs.Prelude.{◌≡◌, ◌^◌, ◌<◌, None, length, slice_index, position};
ghost use Rattle.std.specs.List.{last_or};
ghost use Rattle.rht_chain.specs.Laws.{has_key, seen_in};

use crate::locked_walk::Seen;
use rht_words::link_of;

/// What a walk to this key is to see of a chain of these nodes that ends with this link. A node's
/// key is the one of its number.
pub fn seen_in(keys: &[u64], nodes: &[u32], key: u64, stop: u64) -> Seen
    requires { length nodes.now < 2 ^ 32 }
    ensures { result ≡ seen_in (λ node. slice_index keys.now node) key nodes.now stop }
{
    match first_with(keys, nodes, key) {
        Some(first) => Seen {
            found: Some(nodes[first]),
            before: last_of(&nodes[..first]),
            length: first as u32 + 1,
            end: link_of(nodes[first]),
        },
        None => Seen {
            found: None,
            before: last_of(nodes),
            length: nodes.len() as u32,
            end: stop,
        },
    }
}

/// At which of the nodes the first one with this key stands.
fn first_with(keys: &[u64], nodes: &[u32], key: u64) -> Option<usize>
    ensures { result ≡ position (has_key (λ node. slice_index keys.now node) key) nodes.now }
{
    nodes.iter().position(|&node| key_of(keys, node) == key)
}

/// The key of this number; 0 past the last one.
fn key_of(keys: &[u64], node: u32) -> u64
    ensures { result ≡ slice_index keys.now node }
{
    keys.get(node as usize).copied().unwrap_or(0)
}

/// The last node, where there is one.
fn last_of(nodes: &[u32]) -> Option<u32>
    ensures { result ≡ last_or None nodes.now }
{
    nodes.last().copied()
}
