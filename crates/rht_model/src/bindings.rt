//! The bindings of a table as a list, made at its closing. It takes all its memory at once, in
//! `with_room`.

ghost use Rattle.std.specs.Prelude.{◌≡◌, ◌+◌, ◌<◌, ◌≤◌, ◌↔◌, [], ◌∷◌, ◌++◌, length, drop, IsTrue, IfOk, slice_get, vec_len, vec_capacity};
ghost use Rattle.rht_model.specs.Listing.{added, ports_of, owners_of};
ghost use Rattle.rht_model.specs.Heads.{begun, first_start, last_port, IsInOrder};

use crate::room::push_within;
use rht_words::Port;
use std::alloc::{AllocError, Global};
use std::marker::Model;
use std::ops::Range;

/// The head of a pair: its port, and the place at which its owners begin.
#[derive(Clone, Copy, Debug)]
struct Head {
    port: Port,
    start: usize,
}

/// Pairs of a port and its owners, in the order in which they were added. Contracts see the list
/// of the pairs and for how many owners room is left.
#[derive(Debug, Drop)]
pub struct Bindings {
    heads: Vec<Head>,
    owners: Vec<u32>,
    room: u32,
}

impl Model for Bindings {
    ghost use Rattle.std.specs.Prelude.{◌+◌, ◌≤◌, length, vec_len, vec_capacity};
    ghost use Rattle.rht_model.specs.Listing.{Listing};

    ghost Value = { Listing };

    ghost use Rattle.rht_model.specs.Heads.{pairs_of, IsInOrder};

    ghost view = { λ b. record { pairs = pairs_of b.heads.items b.owners.items; room = b.room } };

    ghost invariant = { λ b. record {
      in_order : IsInOrder b.heads.items (length b.owners.items);
      heads_fit : vec_len b.heads + b.room ≤ vec_capacity b.heads;
      owners_fit : vec_len b.owners + b.room ≤ vec_capacity b.owners;
    } };
}

impl Bindings {
    /// No pairs, with room for so many owners. All memory that `add` uses is taken here; want of
    /// it is the one refusal.
    pub fn with_room(alloc: Global, owners: u32) -> Result<Bindings, AllocError>
        ensures pairs { IfOk result (λ b. b.pairs ≡ []) }
        ensures room { IfOk result (λ b. b.room ≡ owners) }
    {
        Ok(Bindings {
            heads: Vec::with_capacity(alloc, owners as usize)?,
            owners: Vec::with_capacity(alloc, owners as usize)?,
            room: owners,
        })
    }

    /// One owner more: of the last pair where that has this port, and otherwise of a new pair.
    /// It takes no memory and can't be refused.
    pub fn add(&mut self, port: Port, owner: u32)
        requires { 0 < self.old.room }
        ensures pairs { self.new.pairs ≡ added self.old.pairs port owner }
        ensures room { self.new.room + 1 ≡ self.old.room }
    {
        begin(&mut self.heads, port, self.owners.len());
        push_within(&mut self.owners, owner);
        self.room -= 1;
    }

    /// The number of pairs.
    pub fn len(&self) -> usize
        ensures { result ≡ length self.now.pairs }
    {
        self.heads.len()
    }

    /// Whether there are no pairs.
    pub fn is_empty(&self) -> bool
        ensures { IsTrue result ↔ (self.now.pairs ≡ []) }
    {
        self.heads.is_empty()
    }

    /// The port of the pair at this place, counted from 0.
    pub fn port(&self, i: usize) -> Port
        requires { i < length self.now.pairs }
        ensures { slice_get (ports_of self.now.pairs) i ≡ Some result }
    {
        self.heads[i].port
    }

    /// The owners of the pair at this place, counted from 0, in the order in which they were added.
    pub fn owners(&self, i: usize) -> &[u32]
        requires { i < length self.now.pairs }
        ensures { slice_get (owners_of self.now.pairs) i ≡ Some result.now }
    {
        let range = range_at(&self.heads, i, self.owners.len());
        &self.owners[range.start..range.end]
    }
}

/// Begins a pair at this place, unless the last one has the port.
fn begin(heads: &mut Vec<Head>, port: Port, start: usize)
    requires { vec_len heads.old < vec_capacity heads.old }
    ensures heads { heads.new.items ≡ begun heads.old.items port start }
    ensures len { vec_len heads.new ≤ vec_len heads.old + 1 }
    ensures capacity { vec_capacity heads.old ≤ vec_capacity heads.new }
{
    if last_port(heads) != Some(port) {
        push_within(heads, Head { port, start });
    }
}

/// The port of the last pair, if there is one.
fn last_port(heads: &[Head]) -> Option<Port>
    ensures { result ≡ last_port heads.now }
{
    heads.last().map(|head| head.port)
}

/// Where the owners of the pair at this place begin, and where those of the next pair do.
fn range_at(heads: &[Head], i: usize, end: usize) -> Range<usize>
    requires in_order { IsInOrder heads.now end }
    requires within { i < length heads.now }
    ensures start { result.start ≡ first_start (drop i heads.now) end }
    ensures end { result.end ≡ first_start (drop (i + 1) heads.now) end }
    ensures in_order { result.start ≤ result.end }
    ensures within { result.end ≤ end }
{
    start_at(heads, i, end)..start_at(heads, i + 1, end)
}

/// Where the owners of the pair at this place begin, or `end` past the last pair.
fn start_at(heads: &[Head], i: usize, end: usize) -> usize
    ensures { result ≡ first_start (drop i heads.now) end }
{
    heads.get(i).map_or(end, |head| head.start)
}

/// What a table held when it was closed.
#[derive(Debug, Drop)]
pub struct Closed {
    /// The bindings, in rising order of ports.
    pub bindings: Bindings,
    /// The size of the current table, in buckets.
    pub size: u32,
    /// The number of bound ports.
    pub keys: u32,
}
