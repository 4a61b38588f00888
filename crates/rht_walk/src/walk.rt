//! The walk, state by state.

ghost use Rattle.std.specs.Prelude.{◌≡◌, ◌<◌};
ghost use Rattle.rht_words.specs.Operations.{op_place};
ghost use Rattle.rht_words.specs.Places.{words_in};
ghost use Rattle.rht_nest.specs.Place.{place_after, IsPlaceIn};
ghost use Rattle.rht_walk.specs.Walk.{walk_new, walk_plan, walk_after, goes, room_after, says, reply_of, begun, visiting, reached, led_on, chain_ended, bucket_ended, next_bucket, table_ended, unless_behind, IsVisitIn, IsWalkAtIn};

use rht_grace::{Enter, Leave};
use rht_model::{Cursor, Reply, Room};
use rht_nest::{Bucket, Place, flat_place, is_nested};
use rht_words::{
    Env, Geometry, Next, Op, Port, Shape, head_of, marker_of, node_of, owner_of, places, port_of,
    slot_of, table_of,
};
use std::marker::Model;

/// A bucket of the table that is walked.
#[derive(Clone, Copy, Debug, PartialEq, Eq)]
pub struct Visit {
    /// The slot of its table.
    pub table: u32,
    /// Which of the tables made so far it is.
    pub serial: u64,
    /// The table's shape, packed.
    pub shape: u64,
    /// The number of the bucket, below the table's size.
    pub bucket: u32,
}

/// The chain of a bucket, and where along it a walk is.
#[derive(Clone, Copy, Debug, PartialEq, Eq)]
pub struct Chain {
    /// The bucket.
    pub visit: Visit,
    /// The place of its word.
    pub place: usize,
    /// How many nodes were visited before.
    pub visited: u32,
}

/// How a walk ends.
#[derive(Clone, Copy, Debug, PartialEq, Eq)]
pub enum WalkEnd {
    /// The pairs stand in the room. Where there is a cursor the walk goes on there, and else the table
    /// has ended.
    Walked { next: Option<Cursor> },
    /// It has to begin anew, and has shown nothing.
    Again { table: u32 },
}

/// Where a walk stands. Each state has one operation.
#[derive(Clone, Copy)]
pub enum WalkAt {
    /// Opens the read section, by one more in its caller's section word.
    Opening,
    /// Loads which table is the current one.
    CurrentTable,
    /// Loads the table's serial, which never changes while the table is in use.
    Serial { table: u32 },
    /// Loads the table's shape, which never changes either, and sees whether the cursor fits.
    Shape { table: u32, serial: u64 },
    /// Loads an entry on the way to a bucket of a nested table. Where it leads to no page the bucket is
    /// empty.
    Entry { visit: Visit, way: Place },
    /// Loads the bucket's word, locked or not. The lock isn't waited for.
    Heading { visit: Visit, place: usize },
    /// Loads the key of a node, which may have left the chain since the link to it was loaded.
    Key { chain: Chain, node: u32 },
    /// Loads the owner of the node, whose key says this port. The pair is kept.
    Owner { chain: Chain, node: u32, port: Port },
    /// Loads the link behind the node.
    Link { chain: Chain, node: u32 },
    /// Loads the table's future behind a strange end of a chain: a node was moved to another table, or
    /// is on its way there.
    StrangeEnd { visit: Visit },
    /// Loads the table's future behind its last bucket. Where there was none no port was moved so far.
    TableEnd { table: u32 },
    /// Closes the read section, by one more in the section word.
    Closing { end: WalkEnd },
}

/// Shows the ports of a table with their first owners, bucket by bucket, from a cursor on or from the
/// first bucket of the current table. It stops behind a bucket once so many pairs are shown. The answer
/// is `Walked` or `Again`, and the pairs are in the caller's room. The kernel's counterparts are
/// `rhashtable_walk_start`, `rhashtable_walk_next` and `rhashtable_walk_stop`.
#[derive(Drop)]
pub struct Walk {
    env: Env,
    caller: u32,
    from: Option<Cursor>,
    limit: u32,
    room: Room<(Port, u32)>,
    at: WalkAt,
}

impl Model for Walk {
    ghost use Rattle.std.specs.Prelude.{◌<◌};
    ghost use Rattle.rht_walk.specs.Walk.{WalkModel, IsWalkAtIn};

    ghost Value = { WalkModel };

    ghost view = { λ m. record { env = m.env; caller = m.caller; from = m.from; limit = m.limit; room = m.room; at = m.at } };

    ghost invariant = { λ m. (m.caller < 16) × IsWalkAtIn m.env.geometry m.at };
}

impl Walk {
    /// Before the first operation. What was in the room goes. Any cursor will do, and any limit.
    #[inline(always)]
    pub fn new(
        env: Env,
        caller: u32,
        from: Option<Cursor>,
        limit: u32,
        room: Room<(Port, u32)>,
    ) -> Walk
        requires { caller < 16 }
        ensures { result ≡ walk_new env caller from limit room }
    {
        let mut room = room;
        room.clear();
        Walk {
            env,
            caller,
            from,
            limit,
            room,
            at: WalkAt::Opening,
        }
    }

    /// The walk in another state.
    #[inline(always)]
    pub fn with(self, at: WalkAt) -> Walk
        requires { IsWalkAtIn self.env.geometry at }
        ensures { result ≡ record self { at = at } }
    {
        Walk {
            env: self.env,
            caller: self.caller,
            from: self.from,
            limit: self.limit,
            room: self.room,
            at,
        }
    }

    /// The caller's room, with the pairs that were kept.
    #[inline(always)]
    pub fn into_parts(self) -> Room<(Port, u32)>
        ensures { result ≡ self.room }
    {
        self.room
    }

    /// The next operation.
    #[inline(always)]
    pub fn plan(&self) -> Op
        ensures plan { result ≡ walk_plan self.now }
        ensures place { op_place result < words_in self.now.env.geometry }
    {
        let geometry = self.env.geometry;
        match self.at {
            WalkAt::Opening => Enter::new(self.caller).plan(),
            WalkAt::CurrentTable => Op::load(places::current_table()),
            WalkAt::Serial { table } => Op::load(places::serial(table)),
            WalkAt::Shape { table, .. } => Op::load(places::shape(table)),
            WalkAt::Entry { way, .. } => way.plan(),
            WalkAt::Heading { place, .. } => Op::load(place),
            WalkAt::Key { node, .. } => Op::load(geometry.key(node)),
            WalkAt::Owner { node, .. } => Op::load(geometry.owner(node)),
            WalkAt::Link { node, .. } => Op::load(geometry.chain_link(node)),
            WalkAt::StrangeEnd { visit } => Op::load(places::future(visit.table)),
            WalkAt::TableEnd { table } => Op::load(places::future(table)),
            WalkAt::Closing { .. } => Leave::new(self.caller).plan(),
        }
    }

    /// Takes in the word's old value. A pair that finds the room full isn't kept.
    #[inline(always)]
    #[tactic(auto, using(crate::proofs::WalkStays::walk_stays))]
    pub fn take(&mut self, old: u64) -> Next<Reply>
        ensures { (self.new, result) ≡ walk_after self.old old }
    {
        let shown = self.room.len();
        let at = after(
            self.env.geometry,
            self.from,
            self.limit,
            shown,
            &self.at,
            old,
        );
        keep_pair(&mut self.room, &self.at, old);
        let said = said(&self.room, &self.at);
        self.at = at;
        said
    }
}

/// Where the walk stands after a state that found this value, with so many pairs shown before.
#[inline(always)]
fn after(
    geometry: Geometry,
    from: Option<Cursor>,
    limit: u32,
    shown: u32,
    at: &WalkAt,
    old: u64,
) -> WalkAt
    requires { IsWalkAtIn geometry at.now }
    ensures { result ≡ goes geometry from limit shown at.now old }
{
    match *at {
        WalkAt::Opening => WalkAt::CurrentTable,
        WalkAt::CurrentTable => WalkAt::Serial {
            table: table_of(old),
        },
        WalkAt::Serial { table } => WalkAt::Shape { table, serial: old },
        WalkAt::Shape { table, serial } => begun(geometry, from, table, serial, old),
        WalkAt::Entry { visit, way } => entered(geometry, limit, shown, visit, way, old),
        WalkAt::Heading { visit, place } => {
            let chain = Chain {
                visit,
                place,
                visited: 0,
            };
            led_on(geometry, limit, shown, chain, head_of(place, old))
        }
        WalkAt::Key { chain, node } => WalkAt::Owner {
            chain,
            node,
            port: port_of(old),
        },
        WalkAt::Owner { chain, node, .. } => WalkAt::Link { chain, node },
        WalkAt::Link { chain, .. } => {
            let chain = Chain {
                visited: chain.visited + 1,
                ..chain
            };
            led_on(geometry, limit, shown, chain, old)
        }
        WalkAt::StrangeEnd { visit } => {
            unless_behind(slot_of(old), bucket_ended(geometry, limit, shown, visit))
        }
        WalkAt::TableEnd { table: _ } => unless_behind(
            slot_of(old),
            WalkAt::Closing {
                end: WalkEnd::Walked { next: None },
            },
        ),
        WalkAt::Closing { end } => WalkAt::Closing { end },
    }
}

/// Keeps a pair whose owner was loaded, where there is room. A walk that has to begin anew shows none.
#[inline(always)]
pub fn keep_pair(room: &mut Room<(Port, u32)>, at: &WalkAt, old: u64)
    ensures { room.new ≡ room_after at.now room.old old }
{
    match *at {
        WalkAt::Owner { port, .. } => room.keep((port, owner_of(old))),
        WalkAt::Closing {
            end: WalkEnd::Again { table: _ },
        } => room.clear(),
        WalkAt::Opening
        | WalkAt::CurrentTable
        | WalkAt::Serial { .. }
        | WalkAt::Shape { .. }
        | WalkAt::Entry { .. }
        | WalkAt::Heading { .. }
        | WalkAt::Key { .. }
        | WalkAt::Link { .. }
        | WalkAt::StrangeEnd { .. }
        | WalkAt::TableEnd { .. }
        | WalkAt::Closing {
            end: WalkEnd::Walked { .. },
        } => {}
    }
}

/// What it says after a state: its answer, once its read section is closed.
#[inline(always)]
fn said(room: &Room<(Port, u32)>, at: &WalkAt) -> Next<Reply>
    ensures { result ≡ says room.now at.now }
{
    match *at {
        WalkAt::Closing { end } => Next::Done(replied(room, end)),
        _ => Next::Go,
    }
}

/// The answer: how many pairs there are, and where the walk goes on.
#[inline(always)]
fn replied(room: &Room<(Port, u32)>, end: WalkEnd) -> Reply
    ensures { result ≡ reply_of room.now end }
{
    match end {
        WalkEnd::Walked { next } => Reply::Walked {
            len: room.len(),
            next,
        },
        WalkEnd::Again { table } => Reply::Again { table },
    }
}

/// Once the table's shape is known: at the cursor's bucket, or at the first one. A cursor of another
/// table, or one whose bucket the table doesn't have, makes the walk begin anew.
#[inline(always)]
pub fn begun(
    geometry: Geometry,
    from: Option<Cursor>,
    table: u32,
    serial: u64,
    shape: u64,
) -> WalkAt
    ensures { result ≡ begun geometry from table serial shape }
{
    let Some(cursor) = from else {
        return visiting(
            geometry,
            Visit {
                table,
                serial,
                shape,
                bucket: 0,
            },
        );
    };
    if cursor.serial == serial && cursor.bucket < Shape::from(shape).size() {
        visiting(
            geometry,
            Visit {
                table,
                serial,
                shape,
                bucket: cursor.bucket,
            },
        )
    } else {
        WalkAt::Closing {
            end: WalkEnd::Again { table },
        }
    }
}

/// At a bucket: at its word, or in a nested table at the first entry on the way there.
#[inline(always)]
pub fn visiting(geometry: Geometry, visit: Visit) -> WalkAt
    ensures { result ≡ visiting geometry visit }
{
    if is_nested(visit.shape) {
        WalkAt::Entry {
            visit,
            way: Place::nested(geometry, visit.shape, visit.bucket),
        }
    } else {
        WalkAt::Heading {
            visit,
            place: flat_place(geometry, visit.shape, visit.bucket),
        }
    }
}

/// After an entry, which was this.
#[inline(always)]
fn entered(geometry: Geometry, limit: u32, shown: u32, visit: Visit, way: Place, old: u64) -> WalkAt
    requires visit { IsVisitIn visit }
    requires way { IsPlaceIn geometry way }
    ensures { result ≡ reached geometry limit shown visit (place_after way old).0 (place_after way old).1 }
{
    let (way, next) = way.after(old);
    reached(geometry, limit, shown, visit, way, next)
}

/// On the way to a bucket of a nested table: the next entry, or the bucket's word. Where a page is
/// missing the bucket is empty.
#[inline(always)]
pub fn reached(
    geometry: Geometry,
    limit: u32,
    shown: u32,
    visit: Visit,
    way: Place,
    next: Next<Bucket>,
) -> WalkAt
    requires { IsVisitIn visit }
    ensures { result ≡ reached geometry limit shown visit way next }
{
    match next {
        Next::Go => WalkAt::Entry { visit, way },
        Next::Done(Bucket::At(place)) => WalkAt::Heading { visit, place },
        Next::Done(Bucket::Absent(_)) => bucket_ended(geometry, limit, shown, visit),
    }
}

/// Behind a link: at the node to which it leads, or at the chain's end. As many nodes are visited as
/// there are, and no more.
#[inline(always)]
pub fn led_on(geometry: Geometry, limit: u32, shown: u32, chain: Chain, link: u64) -> WalkAt
    requires { IsVisitIn chain.visit }
    ensures { result ≡ led_on geometry limit shown chain link }
{
    match node_of(geometry.nodes, link) {
        Some(node) if chain.visited < geometry.nodes => WalkAt::Key { chain, node },
        _ => chain_ended(geometry, limit, shown, chain, link),
    }
}

/// A chain ends at the marker of its own bucket. Where it ends otherwise, an entry may have been moved
/// to another table.
#[inline(always)]
fn chain_ended(geometry: Geometry, limit: u32, shown: u32, chain: Chain, link: u64) -> WalkAt
    requires { IsVisitIn chain.visit }
    ensures { result ≡ chain_ended geometry limit shown chain link }
{
    if link == marker_of(chain.place) {
        bucket_ended(geometry, limit, shown, chain.visit)
    } else {
        WalkAt::StrangeEnd { visit: chain.visit }
    }
}

/// Behind a bucket: at the next one, unless enough pairs are shown. Behind the last one the table has
/// ended.
#[inline(always)]
pub fn bucket_ended(geometry: Geometry, limit: u32, shown: u32, visit: Visit) -> WalkAt
    requires { IsVisitIn visit }
    ensures { result ≡ bucket_ended geometry limit shown visit }
{
    let bucket = visit.bucket + 1;
    if bucket < Shape::from(visit.shape).size() {
        next_bucket(geometry, limit, shown, Visit { bucket, ..visit })
    } else {
        table_ended(visit)
    }
}

/// At a bucket that isn't the first one of a call, with so many pairs shown.
#[inline(always)]
fn next_bucket(geometry: Geometry, limit: u32, shown: u32, visit: Visit) -> WalkAt
    ensures { result ≡ next_bucket geometry limit shown visit }
{
    let Visit { serial, bucket, .. } = visit;
    if limit <= shown {
        let next = Some(Cursor { serial, bucket });
        WalkAt::Closing {
            end: WalkEnd::Walked { next },
        }
    } else {
        visiting(geometry, visit)
    }
}

/// Behind the last bucket.
#[inline(always)]
pub fn table_ended(visit: Visit) -> WalkAt
    ensures { result ≡ table_ended visit }
{
    WalkAt::TableEnd { table: visit.table }
}

/// Where a table is behind the one that is walked, entries may have been moved there, and the walk has
/// to begin anew. Where there is none it goes on so.
#[inline(always)]
pub fn unless_behind(future: Option<u32>, next: WalkAt) -> WalkAt
    ensures { result ≡ unless_behind future next }
{
    match future {
        Some(table) => WalkAt::Closing {
            end: WalkEnd::Again { table },
        },
        None => next,
    }
}
