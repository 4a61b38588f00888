//! The rebind of a port, in straight code.

ghost use Rattle.std.specs.Prelude.{◌≡◌};
ghost use Rattle.rht_model.specs.declared.history.Call.TheVariants.{Rebind as RebindCall};
ghost use Rattle.rht_release.specs.Rebind.{plan_at, absent, replacing};
ghost use Rattle.rht_run.specs.Layout.{physical_place};
ghost use Rattle.rht_run.specs.Rides.{IsBefore, IsRiding, HasEndedWith, Stepped, driven};
ghost use Rattle.rht_run.specs.Seeks.{rebind_at, nested_seek};
ghost use Rattle.rht_release.specs.declared.rebind.RebindAt.TheVariants.{Seeking, LinkBehind, ChainLink, Closing};
ghost use Rattle.rht_release.specs.declared.rebind.RebindEnd.TheVariants.{Rebound};

use crate::layout::section;
use crate::pieces::Whole;
use crate::ride::{Ride, never};
use crate::searches::RebindSearching;
use crate::seats::SeatView;
use crate::seeking::{Sought, nested_seek};
use crate::seeks::{RebindFilling, RebindSeeking};
use crate::starts::Starts;
use crate::table::Table;
use atomic_table::Seat;
use rht_model::Reply;
use rht_policy::Mix;
use rht_release::rebind::{absent, giving, unlocking};
use rht_release::{FoundPort, ListPlace, Rebind, RebindAt, RebindEnd, SeekAt};
use rht_words::{Env, Port, link_of, table_of};
use std::sync::Wait;

impl<M: Mix> Table<M> {
    /// Puts the new owner in the old one's place, from the first operation to the reply. It answers the
    /// reply, and the node that was taken out.
    #[inline(always)]
    pub(crate) fn drive_rebind<R: Wait, K: Ride>(
        &self,
        rt: &R,
        seat: &mut Seat<(), SeatView<M>>,
        number: u32,
        port: Port,
        owner: u32,
        new: u32,
    ) -> (Reply, Option<u32>)
        requires before { IsBefore M.mix_of self.now K.riding seat.old }
        requires number { K.riding.number ≡ number }
        requires call { K.riding.call ≡ RebindCall port owner new }
        ensures { HasEndedWith M.mix_of self.now K.riding result.0 result.1 seat.new }
    {
        let env = self.env;
        let frame = RebindFilling {
            env,
            caller: number,
            port,
            owner,
            new,
        };
        let geometry = env.geometry;
        let starts = self.starts();
        let begun = self.begin_with_node::<K, RebindFilling>(seat, &frame, starts, port, new);
        let Ok(taken) = begun else {
            never(rt);
            unreachable!()
        };
        let Some(node) = taken else {
            return (Reply::NoNode, None);
        };
        let at = RebindAt::Opening { node };
        let section = section(number);
        self.rebinding_at::<K>(seat, env, number, port, owner, new, at, section);
        let frame = RebindSeeking {
            env,
            caller: number,
            owner,
            new,
            node,
        };
        let at = SeekAt::CurrentTable;
        let table = table_of(self.seeking::<K, RebindSeeking>(seat, &frame, geometry, port, at));
        let rounds = u64::MAX;
        let sought = self.seek::<K, RebindSeeking>(seat, &frame, starts, port, table, rounds);
        let found = match sought {
            Sought::Found { found } => found,
            Sought::Nowhere => {
                return self.give_up_rebind::<K>(seat, env, number, port, owner, new, node);
            }
            Sought::Nested {
                table,
                shape,
                bucket,
            } => {
                return self.rebind_nested::<R, K>(
                    rt, seat, number, port, owner, new, node, table, shape, bucket,
                );
            }
            Sought::Left { .. } => {
                never(rt);
                unreachable!()
            }
        };
        let frame = RebindSearching {
            caller: number,
            port,
            new,
            node,
            found,
        };
        let first = found.node;
        let Ok(place) = self.search::<K, RebindSearching>(seat, &frame, starts, owner, first) else {
            never(rt);
            unreachable!()
        };
        let Some(ListPlace { node: old, before }) = place else {
            let at = unlocking(found, RebindEnd::Absent { node });
            self.rebinding::<K>(seat, env, number, port, owner, new, at);
            return self.give_up_rebind::<K>(seat, env, number, port, owner, new, node);
        };
        self.put_in::<K>(
            seat, env, starts, number, port, owner, new, node, found, old, before,
        )
    }

    /// Puts the new node in the place of this one of the port's list, where the node before it is this one.
    #[inline(always)]
    fn put_in<K: Ride>(
        &self,
        seat: &mut Seat<(), SeatView<M>>,
        env: Env,
        starts: Starts,
        number: u32,
        port: Port,
        owner: u32,
        new: u32,
        node: u32,
        found: FoundPort,
        old: u32,
        before: Option<u32>,
    ) -> (Reply, Option<u32>)
        requires starts { starts.geometry ≡ env.geometry }
        requires riding { IsRiding M.mix_of self.now K.riding (rebind_at env number port owner new (LinkBehind node found old before)) seat.old }
        ensures { HasEndedWith M.mix_of self.now K.riding result.0 result.1 seat.new }
    {
        let at = RebindAt::LinkBehind {
            node,
            found,
            old,
            before,
        };
        let place = starts.list_link(old);
        let link = self.rebinding_at::<K>(seat, env, number, port, owner, new, at, place);
        let at = RebindAt::OwnListLink {
            node,
            found,
            old,
            before,
            link,
        };
        let place = starts.list_link(node);
        self.rebinding_at::<K>(seat, env, number, port, owner, new, at, place);
        let Some(before) = before else {
            return self.replace_first::<K>(
                seat, env, starts, number, port, owner, new, node, found,
            );
        };
        let at = RebindAt::Swapping {
            node,
            found,
            old,
            before,
        };
        let place = starts.list_link(before);
        self.rebinding_at::<K>(seat, env, number, port, owner, new, at, place);
        let at = unlocking(found, RebindEnd::Rebound { removed: old });
        self.rebinding::<K>(seat, env, number, port, owner, new, at);
        self.close_rebound::<K>(seat, env, number, port, owner, new, old)
    }

    /// Puts the new node in the place of the first one of the port's list, which is in the chain.
    #[inline(always)]
    fn replace_first<K: Ride>(
        &self,
        seat: &mut Seat<(), SeatView<M>>,
        env: Env,
        starts: Starts,
        number: u32,
        port: Port,
        owner: u32,
        new: u32,
        node: u32,
        found: FoundPort,
    ) -> (Reply, Option<u32>)
        requires starts { starts.geometry ≡ env.geometry }
        requires riding { IsRiding M.mix_of self.now K.riding (rebind_at env number port owner new (ChainLink node found)) seat.old }
        ensures { HasEndedWith M.mix_of self.now K.riding result.0 result.1 seat.new }
    {
        let at = RebindAt::ChainLink { node, found };
        let place = starts.chain_link(found.node);
        let link = self.rebinding_at::<K>(seat, env, number, port, owner, new, at, place);
        let at = RebindAt::Link { node, found, link };
        let place = starts.chain_link(node);
        self.rebinding_at::<K>(seat, env, number, port, owner, new, at, place);
        self.replacing::<K>(seat, env, number, port, owner, new, node, found);
        self.close_rebound::<K>(seat, env, number, port, owner, new, found.node)
    }

    /// Closes the read section, with which the rebind ends: this node was taken out.
    #[inline(always)]
    fn close_rebound<K: Ride>(
        &self,
        seat: &mut Seat<(), SeatView<M>>,
        env: Env,
        number: u32,
        port: Port,
        owner: u32,
        new: u32,
        removed: u32,
    ) -> (Reply, Option<u32>)
        requires { IsRiding M.mix_of self.now K.riding (rebind_at env number port owner new (Closing (Rebound removed))) seat.old }
        ensures { HasEndedWith M.mix_of self.now K.riding result.0 result.1 seat.new }
    {
        let end = RebindEnd::Rebound { removed };
        let at = RebindAt::Closing { end };
        self.rebinding_at::<K>(seat, env, number, port, owner, new, at, section(number));
        (Reply::Rebound, Some(removed))
    }

    /// Closes the read section and gives the new node back: the port isn't bound to the old owner.
    #[inline(always)]
    fn give_up_rebind<K: Ride>(
        &self,
        seat: &mut Seat<(), SeatView<M>>,
        env: Env,
        number: u32,
        port: Port,
        owner: u32,
        new: u32,
        node: u32,
    ) -> (Reply, Option<u32>)
        requires { IsRiding M.mix_of self.now K.riding (rebind_at env number port owner new (absent node)) seat.old }
        ensures { HasEndedWith M.mix_of self.now K.riding result.0 result.1 seat.new }
    {
        let at = absent(node);
        self.rebinding_at::<K>(seat, env, number, port, owner, new, at, section(number));
        let at = giving(env.geometry, node);
        self.rebinding::<K>(seat, env, number, port, owner, new, at);
        (Reply::Absent, None)
    }

    /// Puts the new node in the old one's place, and unlocks the bucket.
    #[inline(always)]
    fn replacing<K: Ride>(
        &self,
        seat: &mut Seat<(), SeatView<M>>,
        env: Env,
        number: u32,
        port: Port,
        owner: u32,
        new: u32,
        node: u32,
        found: FoundPort,
    )
        requires { IsRiding M.mix_of self.now K.riding (rebind_at env number port owner new (replacing env.geometry node found)) seat.old }
        ensures { IsRiding M.mix_of self.now K.riding (rebind_at env number port owner new (Closing (Rebound found.node))) seat.new }
    {
        let relink = found.relink(env.geometry, link_of(node));
        let at = RebindAt::Replacing {
            node,
            found,
            relink,
        };
        self.rebinding::<K>(seat, env, number, port, owner, new, at);
        let Some(_) = found.before else {
            return;
        };
        let (relink, _) = relink.after();
        let at = RebindAt::Replacing {
            node,
            found,
            relink,
        };
        self.rebinding::<K>(seat, env, number, port, owner, new, at);
    }

    /// Puts the new owner in the old one's place from a nested table on.
    #[cold]
    #[inline(never)]
    fn rebind_nested<R: Wait, K: Ride>(
        &self,
        rt: &R,
        seat: &mut Seat<(), SeatView<M>>,
        number: u32,
        port: Port,
        owner: u32,
        new: u32,
        node: u32,
        table: u32,
        shape: u64,
        bucket: u32,
    ) -> (Reply, Option<u32>)
        requires { IsRiding M.mix_of self.now K.riding (rebind_at self.now.env number port owner new (Seeking node (nested_seek self.now.env.geometry table shape bucket))) seat.old }
        ensures { HasEndedWith M.mix_of self.now K.riding result.0 result.1 seat.new }
    {
        let seek = nested_seek(self.env.geometry, table, shape, bucket);
        let at = RebindAt::Seeking { node, seek };
        let rebind = Rebind::<M>::new(self.env, number, port, owner, new).with(at);
        self.run_whole::<R, K, (Reply, Option<u32>), Rebind<M>, Whole>(rt, seat, &Whole, rebind)
    }

    /// The operation of the rebind in this state.
    #[inline(always)]
    fn rebinding<K: Ride>(
        &self,
        seat: &mut Seat<(), SeatView<M>>,
        env: Env,
        number: u32,
        port: Port,
        owner: u32,
        new: u32,
        at: RebindAt,
    ) -> u64
        requires { IsRiding M.mix_of self.now K.riding (rebind_at env number port owner new at) seat.old }
        ensures { Stepped M.mix_of self.now K.riding (driven M.mix_of (rebind_at env number port owner new at) result) seat.new }
    {
        let rebind = Rebind::<M>::new(env, number, port, owner, new).with(at);
        self.operate::<K, (Reply, Option<u32>), Rebind<M>, Whole>(seat, &Whole, &rebind)
    }

    /// The same, where its physical place is known.
    #[inline(always)]
    fn rebinding_at<K: Ride>(
        &self,
        seat: &mut Seat<(), SeatView<M>>,
        env: Env,
        number: u32,
        port: Port,
        owner: u32,
        new: u32,
        at: RebindAt,
        place: usize,
    ) -> u64
        requires riding { IsRiding M.mix_of self.now K.riding (rebind_at env number port owner new at) seat.old }
        requires place { place ≡ physical_place (plan_at env number at) }
        ensures { Stepped M.mix_of self.now K.riding (driven M.mix_of (rebind_at env number port owner new at) result) seat.new }
    {
        let rebind = Rebind::<M>::new(env, number, port, owner, new).with(at);
        self.operate_at::<K, (Reply, Option<u32>), Rebind<M>, Whole>(seat, &Whole, &rebind, place)
    }
}
