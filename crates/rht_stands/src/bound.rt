//! What the words of a table stand for, worked out the slow way: all buckets of all tables are
//! read, as if nobody else were about. It is for tests; no machine looks at the words so.

ghost use Rattle.std.specs.Prelude.{◌≡◌, ◌<◌, length, Some, IfSome, IfOk};
ghost use Rattle.std.specs.Option.{option_map};
ghost use Rattle.std.specs.List.{find};
ghost use Rattle.rht_words.specs.Links.{page_of};
ghost use Rattle.rht_words.specs.Places.{words_in, IsBucketPlace};
ghost use Rattle.rht_nest.specs.Place.{entered, read_place, IsPlaceIn, IsEnteredIn};
ghost use Rattle.rht_stands.specs.StandsFor.{page_word, bucket_in, bucket_nodes, table_nodes, has_key, first_node, stands_for};

use rht_nest::{Place, flat_place, is_nested};
use rht_words::{
    Geometry, Port, Shape, Start, head_of, node_of, owner_of, page_of, places, slot_of, table_of,
    word_of,
};
use std::alloc::{AllocError, Global};

/// At most so many tables are in force, one in each slot.
pub(crate) const SLOTS: u32 = 8;

/// The owners of a port, the first owner first. The one refusal is want of memory.
pub fn owners_of(
    alloc: Global,
    geometry: Geometry,
    words: &[u64],
    port: Port,
) -> Result<Vec<u32>, AllocError>
    requires { length words.now ≡ words_in geometry }
    ensures { IfOk result (λ owners. owners.items ≡ stands_for geometry words.now port) }
{
    let mut owners = Vec::new(alloc);
    let mut next = first_node(geometry, words, port);
    for _ in 0..geometry.nodes {
        let Some(node) = next else {
            return Ok(owners);
        };
        owners.push(owner_of(words[geometry.owner(node)]))?;
        next = node_of(geometry.nodes, words[geometry.list_link(node)]);
    }
    Ok(owners)
}

/// The first node of a port in the tables in force.
fn first_node(geometry: Geometry, words: &[u64], port: Port) -> Option<u32>
    requires { length words.now ≡ words_in geometry }
    ensures first { result ≡ first_node geometry words.now port }
    ensures within { IfSome result (λ node. node < geometry.nodes) }
{
    let mut next = Some(table_of(words[places::current_table()]));
    for _ in 0..SLOTS {
        let Some(table) = next else {
            return None;
        };
        let found = first_in_table(geometry, words, table, word_of(port));
        if found.is_some() {
            return found;
        }
        next = slot_of(words[places::future(table)]);
    }
    None
}

/// The first node with this key in the table of a slot.
fn first_in_table(geometry: Geometry, words: &[u64], table: u32, key: u64) -> Option<u32>
    requires words { length words.now ≡ words_in geometry }
    requires table { table < 8 }
    ensures first { result ≡ find (has_key geometry words.now key) (table_nodes geometry words.now table) }
    ensures within { IfSome result (λ node. node < geometry.nodes) }
{
    let shape = words[places::shape(table)];
    for bucket in 0..Shape::from(shape).size() {
        let found = first_at(
            geometry,
            words,
            bucket_in(geometry, words, shape, bucket),
            key,
        );
        if found.is_some() {
            return found;
        }
    }
    None
}

/// The place of a bucket's word in a table of this shape. None where a page is missing on the way, so
/// that the bucket is empty and has no word.
pub(crate) fn bucket_in(geometry: Geometry, words: &[u64], shape: u64, bucket: u32) -> Option<usize>
    requires { length words.now ≡ words_in geometry }
    ensures place { result ≡ bucket_in geometry words.now shape bucket }
    ensures within { IfSome result (IsBucketPlace geometry) }
{
    if is_nested(shape) {
        place_behind(geometry, words, Place::nested(geometry, shape, bucket))
    } else {
        Some(flat_place(geometry, shape, bucket))
    }
}

/// The place of the bucket's word behind an entry of the top page. At most one more entry is on the way.
fn place_behind(geometry: Geometry, words: &[u64], top: Place) -> Option<usize>
    requires words { length words.now ≡ words_in geometry }
    requires top { IsPlaceIn geometry top }
    ensures place { result ≡ read_place (page_word geometry words.now) top }
    ensures within { IfSome result (IsBucketPlace geometry) }
{
    match way_behind(geometry, words, top)? {
        Start::Running(last) => match way_behind(geometry, words, last)? {
            Start::Running(_) => None,
            Start::Done(place) => Some(place),
        },
        Start::Done(place) => Some(place),
    }
}

/// The way on behind an entry, where this leads to a page.
fn way_behind(geometry: Geometry, words: &[u64], place: Place) -> Option<Start<Place, usize>>
    requires words { length words.now ≡ words_in geometry }
    requires place { IsPlaceIn geometry place }
    ensures way { result ≡ option_map (entered place) (page_of geometry.pages (page_word geometry words.now place.entry)) }
    ensures within { IfSome result (IsEnteredIn geometry) }
{
    let page = page_of(geometry.pages, words[place.entry()])?;
    Some(place.entered(page))
}

/// The first node with this key in the bucket at a place, where it has one; else there is none.
fn first_at(geometry: Geometry, words: &[u64], place: Option<usize>, key: u64) -> Option<u32>
    requires words { length words.now ≡ words_in geometry }
    requires place { IfSome place (IsBucketPlace geometry) }
    ensures first { result ≡ find (has_key geometry words.now key) (bucket_nodes geometry words.now place) }
    ensures within { IfSome result (λ node. node < geometry.nodes) }
{
    match place {
        Some(place) => first_in_bucket(geometry, words, place, key),
        None => None,
    }
}

/// The first node with this key in the chain of the bucket at a place.
fn first_in_bucket(geometry: Geometry, words: &[u64], place: usize, key: u64) -> Option<u32>
    requires words { length words.now ≡ words_in geometry }
    requires place { place < words_in geometry }
    ensures first { result ≡ find (has_key geometry words.now key) (bucket_nodes geometry words.now (Some place)) }
    ensures within { IfSome result (λ node. node < geometry.nodes) }
{
    let mut next = node_of(geometry.nodes, head_of(place, words[place]));
    for _ in 0..geometry.nodes {
        let Some(node) = next else {
            return None;
        };
        if words[geometry.key(node)] == key {
            return Some(node);
        }
        next = node_of(geometry.nodes, words[geometry.chain_link(node)]);
    }
    None
}
