//! The words of a table that has just been opened.

ghost use Rattle.std.specs.Prelude.{◌≡◌, ◌<◌, ◌≤◌};
ghost use Rattle.rht_words.specs.Opening.{opening_word, first_pages, first_shape};
ghost use Rattle.rht_words.specs.Places.{PageMap, words_in, address_at};

use crate::env::Env;
use crate::geometry::NODE_MAP_START;
use crate::limits::PAGE_WORDS;
use crate::maps::map_bits;
use crate::places;
use crate::shape::Shape;

/// The serial of the table that is made next, after the first one, which has 0.
const NEXT_SERIAL: u64 = 1;

/// The state of a slot in which a table stands.
const TAKEN: u64 = 1;

/// The word at this place when the table is opened. All nodes are free, and so are all pages but
/// those of the first table, which stands in slot 0 and is empty. No caller has enrolled. The
/// kernel's counterpart is `rhashtable_init`.
pub fn opening_word(env: Env, place: usize) -> u64
    requires { place < words_in env.geometry }
    ensures { result ≡ opening_word env (address_at env.geometry place) }
{
    let node_map = env.geometry.node_map(0);
    let page_map = env.geometry.page_map(0);
    let nodes = env.geometry.chain_link(0);
    if place < node_map {
        first_word(env, place)
    } else if place < page_map {
        map_bits(env.geometry.nodes, (place - node_map) as u32)
    } else if place < nodes {
        page_bits(env, (place - page_map) as u32)
    } else {
        0
    }
}

/// A word before the maps: one of the single words, the section words and the slots.
fn first_word(env: Env, place: usize) -> u64
    requires { place < NODE_MAP_START }
    ensures { result ≡ opening_word env (address_at env.geometry place) }
{
    if place == places::next_serial() {
        NEXT_SERIAL
    } else if place == places::shape(0) {
        first_shape(env).into()
    } else if place == places::seed(0) {
        env.config.seed.into()
    } else if place == places::state(0) {
        TAKEN
    } else {
        0
    }
}

/// The shape of the first table, which is flat and begins at the first page.
fn first_shape(env: Env) -> Shape
    ensures { result ≡ first_shape env }
{
    Shape {
        exponent: env.config.starting_size().trailing_zeros(),
        nest: 0,
        page: 0,
    }
}

/// A word of the page map, without the bits of the first table's pages.
fn page_bits(env: Env, index: u32) -> u64
    ensures { result ≡ opening_word env (PageMap index) }
{
    map_bits(env.geometry.pages, index) - map_bits(first_pages(env), index)
}

/// How many pages the first table takes.
fn first_pages(env: Env) -> u32
    ensures { result ≡ first_pages env }
{
    (env.config.starting_size() / PAGE_WORDS).max(1)
}
