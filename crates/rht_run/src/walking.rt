//! The walk over the table, in straight code. Its first operation is made by the caller as that of any
//! call. From there on its state and its room of pairs are held beside the pass.
//!
//! Each round of the loop makes an operation, and no walk makes more than `walk_bound` of `rht_walk`. So
//! nothing stands behind it.

ghost use Rattle.std.specs.Prelude.{◌≡◌, ◌<◌, true};
ghost use Rattle.rht_callers.specs.declared.local.Doing.TheVariants.{Walking};
ghost use Rattle.rht_core.specs.Locals.{is_idle};
ghost use Rattle.rht_model.specs.declared.history.Call.TheVariants.{Walk as WalkCall};
ghost use Rattle.rht_walk.specs.Walk.{plan_at, walk_after};
ghost use Rattle.rht_walk.specs.WalkLaws.{walk_bound};
ghost use Rattle.rht_walk.specs.declared.walk.WalkAt.TheVariants as states;
ghost use Rattle.rht_run.specs.Layout.{physical_place};
ghost use Rattle.rht_run.specs.Passes.{IsPassOf, HasCalled};
ghost use Rattle.rht_run.specs.Rides.{IsRiding, HasEnded, steps_in};
ghost use Rattle.rht_run.specs.Walking.{WalkStepped, WalksTo, IsRound, walk_now, with_pairs};

use crate::layout::{physical, section};
use crate::pass::Pass;
use crate::ride::Ride;
use crate::seats::SeatView;
use crate::starts::Starts;
use crate::table::Table;
use atomic_table::Seat;
use rht_core::Doing;
use rht_grace::Leave;
use rht_model::{Call, Cursor, Reply, Room};
use rht_nest::Place;
use rht_policy::Mix;
use rht_walk::{
    Chain, Visit, WalkAt, WalkEnd, begun, bucket_ended, led_on, reached, unless_behind,
};
use rht_words::{Env, Geometry, Op, Port, head_of, owner_of, places, port_of, slot_of, table_of};
use std::marker::Brand;

/// What stays as it is while a caller walks: the table's numbers, the caller's number, and the call.
#[derive(Clone, Copy)]
pub struct Walker {
    pub env: Env,
    pub number: u32,
    pub from: Option<Cursor>,
    pub limit: u32,
}

impl<M: Mix> Table<M> {
    /// Walks from a cursor on, or from the first bucket.
    pub(crate) fn walked(&self, pass: &mut Pass<M>, from: Option<Cursor>, limit: u32) -> Reply
        requires pass { IsPassOf M.mix_of self.now pass.old }
        requires idle { is_idle pass.old.local ≡ true }
        ensures { HasCalled M.mix_of self.now (WalkCall from limit) result pass.old pass.new }
    {
        if self.start(pass, Call::Walk { from, limit }).is_some() {
            unreachable!();
        }
        let doing = std::mem::replace(&mut pass.local.doing, Doing::Idle);
        let Doing::Walking(walk) = doing else {
            unreachable!()
        };
        let mut room = walk.into_parts();
        let walker = Walker {
            env: self.env,
            number: pass.number,
            from,
            limit,
        };
        let reply = self.drive_walk::<Brand>(&mut pass.seat, walker, &mut room);
        pass.local.pairs = room;
        reply
    }

    /// Walks from the second operation on to the reply.
    fn drive_walk<K: Ride>(
        &self,
        seat: &mut Seat<(), SeatView<M>>,
        walker: Walker,
        room: &mut Room<(Port, u32)>,
    ) -> Reply
        requires env { walker.env ≡ self.now.env }
        requires call { K.riding.call ≡ WalkCall walker.from walker.limit }
        requires begun { 0 < steps_in seat.old }
        requires riding { IsRiding M.mix_of self.now K.riding (Walking (walk_now walker room.old states.CurrentTable)) seat.old }
        ensures { HasEnded M.mix_of self.now (with_pairs K.riding room.new) result seat.new }
    {
        let first = self.walk_table::<K>(seat, walker, room);
        let end = self.walk_buckets::<K>(seat, walker, room, first);
        self.walk_ended::<K>(seat, walker, room, end)
    }

    /// Loads which table is the current one, its serial and its shape.
    #[inline(always)]
    fn walk_table<K: Ride>(
        &self,
        seat: &mut Seat<(), SeatView<M>>,
        walker: Walker,
        room: &Room<(Port, u32)>,
    ) -> WalkAt
        requires { IsRiding M.mix_of self.now K.riding (Walking (walk_now walker room.now states.CurrentTable)) seat.old }
        ensures { WalksTo M.mix_of self.now K.riding walker room.now result seat.old seat.new }
    {
        let at = WalkAt::CurrentTable;
        let op = Op::load(places::current_table());
        let current = self.walking::<K>(seat, walker, room, at, op);
        let table = table_of(current);
        let at = WalkAt::Serial { table };
        let serial = self.walking::<K>(seat, walker, room, at, Op::load(places::serial(table)));
        let at = WalkAt::Shape { table, serial };
        let shape = self.walking::<K>(seat, walker, room, at, Op::load(places::shape(table)));
        begun(walker.env.geometry, walker.from, table, serial, shape)
    }

    /// Goes over nodes and buckets to the walk's end.
    #[inline(always)]
    fn walk_buckets<K: Ride>(
        &self,
        seat: &mut Seat<(), SeatView<M>>,
        walker: Walker,
        room: &mut Room<(Port, u32)>,
        at: WalkAt,
    ) -> WalkEnd
        requires env { walker.env ≡ self.now.env }
        requires call { K.riding.call ≡ WalkCall walker.from walker.limit }
        requires round { IsRound at }
        requires begun { 0 < steps_in seat.old }
        requires riding { IsRiding M.mix_of self.now K.riding (Walking (walk_now walker room.old at)) seat.old }
        ensures { IsRiding M.mix_of self.now K.riding (Walking (walk_now walker room.new (states.Closing result))) seat.new }
    {
        let starts = self.starts();
        let most = most_operations(walker.env.geometry);
        let mut at = at;
        for rounds in 0..most {
            at = match at {
                WalkAt::Key { chain, node } => {
                    self.walk_node::<K>(seat, walker, starts, room, chain, node)
                }
                WalkAt::Heading { visit, place } => {
                    self.walk_heading::<K>(seat, walker, room, visit, place)
                }
                WalkAt::Entry { visit, way } => {
                    self.walk_entry::<K>(seat, walker, room, visit, way)
                }
                WalkAt::StrangeEnd { visit } => {
                    self.walk_strange_end::<K>(seat, walker, room, visit)
                }
                WalkAt::TableEnd { table } => {
                    self.walk_table_end::<K>(seat, walker, room, table)
                }
                WalkAt::Closing { end } => return end,
                WalkAt::Opening
                | WalkAt::CurrentTable
                | WalkAt::Serial { .. }
                | WalkAt::Shape { .. }
                | WalkAt::Owner { .. }
                | WalkAt::Link { .. } => unreachable!(),
            };
        }
        unreachable!()
    }

    /// Loads the key, the owner and the link of a node, and keeps the pair.
    #[inline(always)]
    fn walk_node<K: Ride>(
        &self,
        seat: &mut Seat<(), SeatView<M>>,
        walker: Walker,
        starts: Starts,
        room: &mut Room<(Port, u32)>,
        chain: Chain,
        node: u32,
    ) -> WalkAt
        requires env { walker.env ≡ self.now.env }
        requires starts { starts.geometry ≡ self.now.env.geometry }
        requires riding { IsRiding M.mix_of self.now K.riding (Walking (walk_now walker room.old (states.Key chain node))) seat.old }
        ensures { WalksTo M.mix_of self.now K.riding walker room.new result seat.old seat.new }
    {
        let geometry = walker.env.geometry;
        let at = WalkAt::Key { chain, node };
        let op = Op::load(geometry.key(node));
        let key = self.walking_at::<K>(seat, walker, room, at, op, starts.key(node));
        let port = port_of(key);
        let at = WalkAt::Owner { chain, node, port };
        let op = Op::load(geometry.owner(node));
        let owner = self.walking_at::<K>(seat, walker, room, at, op, starts.owner(node));
        room.keep((port, owner_of(owner)));
        let at = WalkAt::Link { chain, node };
        let op = Op::load(geometry.chain_link(node));
        let link = self.walking_at::<K>(seat, walker, room, at, op, starts.chain_link(node));
        let chain = Chain {
            visited: chain.visited + 1,
            ..chain
        };
        led_on(geometry, walker.limit, room.len(), chain, link)
    }

    /// Loads the word of a bucket.
    #[inline(always)]
    fn walk_heading<K: Ride>(
        &self,
        seat: &mut Seat<(), SeatView<M>>,
        walker: Walker,
        room: &Room<(Port, u32)>,
        visit: Visit,
        place: usize,
    ) -> WalkAt
        requires { IsRiding M.mix_of self.now K.riding (Walking (walk_now walker room.now (states.Heading visit place))) seat.old }
        ensures { WalksTo M.mix_of self.now K.riding walker room.now result seat.old seat.new }
    {
        let at = WalkAt::Heading { visit, place };
        let word = self.walking::<K>(seat, walker, room, at, Op::load(place));
        let chain = Chain {
            visit,
            place,
            visited: 0,
        };
        let link = head_of(place, word);
        led_on(walker.env.geometry, walker.limit, room.len(), chain, link)
    }

    /// Loads an entry on the way to a bucket of a nested table.
    #[cold]
    #[inline(never)]
    fn walk_entry<K: Ride>(
        &self,
        seat: &mut Seat<(), SeatView<M>>,
        walker: Walker,
        room: &Room<(Port, u32)>,
        visit: Visit,
        way: Place,
    ) -> WalkAt
        requires { IsRiding M.mix_of self.now K.riding (Walking (walk_now walker room.now (states.Entry visit way))) seat.old }
        ensures { WalksTo M.mix_of self.now K.riding walker room.now result seat.old seat.new }
    {
        let at = WalkAt::Entry { visit, way };
        let word = self.walking::<K>(seat, walker, room, at, way.plan());
        let (way, next) = way.after(word);
        reached(
            walker.env.geometry,
            walker.limit,
            room.len(),
            visit,
            way,
            next,
        )
    }

    /// Loads the table's future behind a strange end of a chain.
    #[cold]
    #[inline(never)]
    fn walk_strange_end<K: Ride>(
        &self,
        seat: &mut Seat<(), SeatView<M>>,
        walker: Walker,
        room: &Room<(Port, u32)>,
        visit: Visit,
    ) -> WalkAt
        requires { IsRiding M.mix_of self.now K.riding (Walking (walk_now walker room.now (states.StrangeEnd visit))) seat.old }
        ensures { WalksTo M.mix_of self.now K.riding walker room.now result seat.old seat.new }
    {
        let at = WalkAt::StrangeEnd { visit };
        let op = Op::load(places::future(visit.table));
        let word = self.walking::<K>(seat, walker, room, at, op);
        let next = bucket_ended(walker.env.geometry, walker.limit, room.len(), visit);
        unless_behind(slot_of(word), next)
    }

    /// Loads the table's future behind its last bucket.
    #[inline(always)]
    fn walk_table_end<K: Ride>(
        &self,
        seat: &mut Seat<(), SeatView<M>>,
        walker: Walker,
        room: &Room<(Port, u32)>,
        table: u32,
    ) -> WalkAt
        requires { IsRiding M.mix_of self.now K.riding (Walking (walk_now walker room.now (states.TableEnd table))) seat.old }
        ensures { WalksTo M.mix_of self.now K.riding walker room.now result seat.old seat.new }
    {
        let at = WalkAt::TableEnd { table };
        let word = self.walking::<K>(seat, walker, room, at, Op::load(places::future(table)));
        let end = WalkEnd::Walked { next: None };
        unless_behind(slot_of(word), WalkAt::Closing { end })
    }

    /// Closes the read section, with which the walk ends. One that has to begin anew shows no pairs.
    #[inline(always)]
    fn walk_ended<K: Ride>(
        &self,
        seat: &mut Seat<(), SeatView<M>>,
        walker: Walker,
        room: &mut Room<(Port, u32)>,
        end: WalkEnd,
    ) -> Reply
        requires { IsRiding M.mix_of self.now K.riding (Walking (walk_now walker room.old (states.Closing end))) seat.old }
        ensures { HasEnded M.mix_of self.now (with_pairs K.riding room.new) result seat.new }
    {
        let at = WalkAt::Closing { end };
        let op = Leave::new(walker.number).plan();
        self.walking_at::<K>(seat, walker, room, at, op, section(walker.number));
        match end {
            WalkEnd::Walked { next } => Reply::Walked {
                len: room.len(),
                next,
            },
            WalkEnd::Again { table } => {
                room.clear();
                Reply::Again { table }
            }
        }
    }

    /// The operation of the walk in this state.
    #[inline(always)]
    fn walking<K: Ride>(
        &self,
        seat: &mut Seat<(), SeatView<M>>,
        walker: Walker,
        room: &Room<(Port, u32)>,
        at: WalkAt,
        op: Op,
    ) -> u64
        requires riding { IsRiding M.mix_of self.now K.riding (Walking (walk_now walker room.now at)) seat.old }
        requires op { op ≡ plan_at walker.env.geometry walker.number at }
        ensures { WalkStepped M.mix_of self.now K.riding (walk_after (walk_now walker room.now at) result) seat.old seat.new }
    {
        let place = physical(op.place());
        self.walking_at::<K>(seat, walker, room, at, op, place)
    }

    /// The same, where its physical place is known.
    #[inline(always)]
    fn walking_at<K: Ride>(
        &self,
        seat: &mut Seat<(), SeatView<M>>,
        walker: Walker,
        room: &Room<(Port, u32)>,
        at: WalkAt,
        op: Op,
        place: usize,
    ) -> u64
        requires riding { IsRiding M.mix_of self.now K.riding (Walking (walk_now walker room.now at)) seat.old }
        requires op { op ≡ plan_at walker.env.geometry walker.number at }
        requires place { place ≡ physical_place op }
        ensures { WalkStepped M.mix_of self.now K.riding (walk_after (walk_now walker room.now at) result) seat.old seat.new }
    {
        self.perform::<Brand>(seat, op, place)
    }
}

/// How many operations a walk makes at most. The word of a shape can say up to 2^18 buckets, though no
/// table is made with more than 2^17. Each bucket takes two entries on the way there, its word, three words
/// for each node, and a look for a table behind.
fn most_operations(geometry: Geometry) -> u64
    ensures { result ≡ walk_bound geometry 262144 }
{
    6 + 262_144 * (4 + 3 * u64::from(geometry.nodes))
}
