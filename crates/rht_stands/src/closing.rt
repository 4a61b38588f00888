//! What the words of a table say at its closing: all buckets of all tables are read once, as if
//! nobody else were about. All memory is taken beforehand, so that nothing is refused behind that.

ghost use Rattle.std.specs.Prelude.{◌≡◌, ◌+◌, ◌^◌, ◌<◌, ◌≤◌, [], ◌∷◌, ◌++◌, map, length, vec_len, vec_capacity, replicate, Bool, false, Some, IfSome, IfOk};
ghost use Rattle.rht_words.specs.Places.{words_in, IsBucketPlace};
ghost use Rattle.rht_model.specs.Listing.{Lists};
ghost use Rattle.rht_stands.specs.StandsFor.{bucket_nodes, table_nodes, stands_for};
ghost use Rattle.rht_stands.specs.Closing.{current_size, nodes_met, with_port, owned, all_added};
ghost use Rattle.rht_stands.specs.Closing.{marked, marked_below, IsListable, IsRoomFor, AreFirsts};
ghost use Rattle.rht_stands.specs.Closing.{IsClosedOf};

use crate::bound::{SLOTS, bucket_in};
use rht_model::{Bindings, Closed};
use rht_words::{
    Geometry, Port, Shape, head_of, node_of, owner_of, places, port_of, slot_of, table_of,
};
use std::alloc::{AllocError, Global};

/// The size of the current table, in buckets.
pub fn current_size(geometry: Geometry, words: &[u64]) -> u32
    requires { length words.now ≡ words_in geometry }
    ensures { result ≡ current_size geometry words.now }
{
    let table = table_of(words[places::current_table()]);
    Shape::from(words[places::shape(table)]).size()
}

/// The room that a closing needs. All its memory is taken at once, in `new`.
#[derive(Drop)]
pub struct ClosingRoom {
    /// Which nodes were met.
    met: Vec<bool>,
    /// The first node of each port, behind the port.
    firsts: Vec<(Port, u32)>,
    bindings: Bindings,
}

impl ClosingRoom {
    /// Room for the closing of a table with so many nodes. The one refusal is want of memory.
    pub fn new(alloc: Global, geometry: Geometry) -> Result<ClosingRoom, AllocError>
        ensures { IfOk result (IsRoomFor geometry) }
    {
        let nodes = geometry.nodes as usize;
        Ok(ClosingRoom {
            met: vec![in alloc; false; nodes]?,
            firsts: Vec::with_capacity(alloc, nodes)?,
            bindings: Bindings::with_room(alloc, geometry.nodes)?,
        })
    }

    /// What is bound, in rising order of ports, the size of the current table, and how many ports
    /// are bound. It takes no memory and refuses nothing.
    pub fn closed(self, geometry: Geometry, words: &[u64]) -> Closed
        requires room { IsRoomFor geometry self }
        requires words { length words.now ≡ words_in geometry }
        requires listable { IsListable geometry words.now }
        ensures { IsClosedOf geometry words.now result }
    {
        let bindings = listing(self, geometry, words);
        let keys = bindings.len() as u32;
        Closed {
            bindings,
            size: current_size(geometry, words),
            keys,
        }
    }
}

/// The bindings that the words stand for, in rising order of ports.
fn listing(room: ClosingRoom, geometry: Geometry, words: &[u64]) -> Bindings
    requires room { IsRoomFor geometry room }
    requires words { length words.now ≡ words_in geometry }
    requires listable { IsListable geometry words.now }
    ensures listed { Lists result.pairs (stands_for geometry words.now) }
    ensures few { length result.pairs < 2 ^ 32 }
{
    let ClosingRoom {
        met,
        firsts,
        mut bindings,
    } = room;
    let firsts = first_nodes(met, firsts, geometry, words);
    for first in &firsts {
        add_owners(&mut bindings, geometry, words, *first);
    }
    bindings
}

/// The first node of each port that is bound, behind its port, in rising order of ports.
fn first_nodes(
    mut met: Vec<bool>,
    mut firsts: Vec<(Port, u32)>,
    geometry: Geometry,
    words: &[u64],
) -> Vec<(Port, u32)>
    requires met { met.items ≡ replicate geometry.nodes false }
    requires firsts { (firsts.items ≡ []) × (geometry.nodes ≤ vec_capacity firsts) }
    requires words { length words.now ≡ words_in geometry }
    requires listable { IsListable geometry words.now }
    ensures { AreFirsts geometry words.now result.items }
{
    mark_all(met.as_mut_slice(), geometry, words);
    put_marked(&mut firsts, met.as_slice(), geometry, words);
    firsts.sort_unstable_by_key(|first| first.0);
    firsts
}

/// Marks the nodes met in the tables in force.
fn mark_all(met: &mut [bool], geometry: Geometry, words: &[u64])
    requires words { length words.now ≡ words_in geometry }
    requires met { length met.old ≡ geometry.nodes }
    ensures { met.new ≡ marked met.old (nodes_met geometry words.now) }
{
    let mut next = Some(table_of(words[places::current_table()]));
    for _ in 0..SLOTS {
        let Some(table) = next else {
            return;
        };
        mark_table(met, geometry, words, table);
        next = slot_of(words[places::future(table)]);
    }
}

/// Marks the nodes in the table of a slot.
fn mark_table(met: &mut [bool], geometry: Geometry, words: &[u64], table: u32)
    requires words { length words.now ≡ words_in geometry }
    requires met { length met.old ≡ geometry.nodes }
    requires table { table < 8 }
    ensures { met.new ≡ marked met.old (table_nodes geometry words.now table) }
{
    let shape = words[places::shape(table)];
    for bucket in 0..Shape::from(shape).size() {
        mark_bucket(
            met,
            geometry,
            words,
            bucket_in(geometry, words, shape, bucket),
        );
    }
}

/// Marks the nodes of the bucket at a place, where it has one.
fn mark_bucket(met: &mut [bool], geometry: Geometry, words: &[u64], bucket: Option<usize>)
    requires words { length words.now ≡ words_in geometry }
    requires met { length met.old ≡ geometry.nodes }
    requires bucket { IfSome bucket (IsBucketPlace geometry) }
    ensures { met.new ≡ marked met.old (bucket_nodes geometry words.now bucket) }
{
    if let Some(place) = bucket {
        mark_chain(met, geometry, words, place);
    }
}

/// Marks the nodes in the chain of the bucket at a place.
fn mark_chain(met: &mut [bool], geometry: Geometry, words: &[u64], place: usize)
    requires words { length words.now ≡ words_in geometry }
    requires met { length met.old ≡ geometry.nodes }
    requires place { place < words_in geometry }
    ensures { met.new ≡ marked met.old (bucket_nodes geometry words.now (Some place)) }
{
    let mut next = node_of(geometry.nodes, head_of(place, words[place]));
    for _ in 0..geometry.nodes {
        let Some(node) = next else {
            return;
        };
        met[node as usize] = true;
        next = node_of(geometry.nodes, words[geometry.chain_link(node)]);
    }
}

/// Puts down the nodes that are marked, each behind its port.
fn put_marked(firsts: &mut Vec<(Port, u32)>, met: &[bool], geometry: Geometry, words: &[u64])
    requires firsts { (firsts.old.items ≡ []) × (geometry.nodes ≤ vec_capacity firsts.old) }
    requires met { length met.now ≡ geometry.nodes }
    requires words { length words.now ≡ words_in geometry }
    ensures { firsts.new.items ≡ map (with_port geometry words.now) (marked_below met.now geometry.nodes) }
{
    for node in 0..geometry.nodes {
        if met[node as usize] {
            push_within(firsts, (port_of(words[geometry.key(node)]), node));
        }
    }
}

/// Appends within the capacity, so that no memory is taken.
fn push_within(firsts: &mut Vec<(Port, u32)>, first: (Port, u32))
    requires { vec_len firsts.old < vec_capacity firsts.old }
    ensures items { firsts.new.items ≡ firsts.old.items ++ first ∷ [] }
    ensures len { vec_len firsts.new ≡ vec_len firsts.old + 1 }
    ensures capacity { vec_capacity firsts.old ≤ vec_capacity firsts.new }
{
    firsts.push(first).unwrap();
}

/// Adds the owners of a port with this first node to the bindings.
fn add_owners(bindings: &mut Bindings, geometry: Geometry, words: &[u64], first: (Port, u32))
    requires words { length words.now ≡ words_in geometry }
    requires node { first.1 < geometry.nodes }
    requires room { length (owned geometry words.now first) ≤ bindings.old.room }
    ensures pairs { bindings.new.pairs ≡ all_added bindings.old.pairs (owned geometry words.now first) }
    ensures room { bindings.new.room + length (owned geometry words.now first) ≡ bindings.old.room }
{
    let mut next = Some(first.1);
    for _ in 0..geometry.nodes {
        let Some(node) = next else {
            return;
        };
        bindings.add(first.0, owner_of(words[geometry.owner(node)]));
        next = node_of(geometry.nodes, words[geometry.list_link(node)]);
    }
}
