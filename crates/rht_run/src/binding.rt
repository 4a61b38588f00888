//! The bind of a port, in straight code. What is seldom isn't: where the node doesn't go into the last
//! table, or the table is a nested one, the bind is left, and goes on as a machine.

ghost use Rattle.std.specs.Prelude.{◌≡◌, ◌<◌};
ghost use Rattle.rht_model.specs.declared.history.Call.TheVariants.{Bind as BindCall};
ghost use Rattle.rht_words.specs.Ports.{word_of};
ghost use Rattle.rht_arena.specs.NewNode.{new_node_new};
ghost use Rattle.rht_nest.specs.Locate.{locate_new};
ghost use Rattle.rht_bind.specs.Bind.{plan_at, first_attempt, replacing, IsBindAtIn};
ghost use Rattle.rht_bind.specs.Endings.{answering};
ghost use Rattle.rht_bind.specs.declared.bind.BindAt.TheVariants.{Filling, Locating, ListLink, Closing};
ghost use Rattle.rht_bind.specs.declared.bind.ending.Ending.TheVariants.{Bound};
ghost use Rattle.rht_run.specs.Pieces.{nested_locate};
ghost use Rattle.rht_run.specs.Layout.{physical_place};
ghost use Rattle.rht_run.specs.Rides.{IsBefore, IsRiding, HasEnded, Stepped, driven};
ghost use Rattle.rht_run.specs.PieceFrames.{bind_at, bind_came, full_at};

use crate::layout::section;
use crate::locating::{Way, nested_locate};
use crate::pieces::{BindFilling, BindLocating, BindProbing, Whole};
use crate::ride::Ride;
use crate::seats::SeatView;
use crate::table::Table;
use atomic_table::Seat;
use rht_arena::{NewNode, NewNodeAt};
use rht_bind::{
    Attempt, Bind, BindAt, Claimed, Ending, FoundList, Full, Growing, answering, giving, kicks,
    publishing, unlocking, unlocking_full,
};
use rht_chain::{Locked, Relink, Then};
use rht_core::{Doing, Local};
use rht_model::Reply;
use rht_nest::Locate;
use rht_policy::{Mix, above_100, above_max};
use rht_words::{Env, Kind, Port, Shape, link_of, owner_of, slot_of, table_of, word_of};

/// A chain of so many nodes takes no further one. It is the number of `rht_bind`: by another one the
/// clause of the bind below isn't proved.
const FULL_CHAIN: u32 = 16;

impl<M: Mix> Table<M> {
    /// Binds the port, from the first operation on. It answers the reply, or the state in which it left the
    /// bind: at a bucket's lock that it didn't get in `rounds` rounds, before the entries of a nested table, or
    /// after it has unlocked a bucket into which its node doesn't go.
    #[inline(never)]
    pub(crate) fn drive_bind<K: Ride>(
        &self,
        seat: &mut Seat<(), SeatView<M>>,
        number: u32,
        port: Port,
        owner: u32,
        once: bool,
        rounds: u64,
    ) -> Result<Reply, BindAt>
        requires before { IsBefore M.mix_of self.now K.riding seat.old }
        requires number { K.riding.number ≡ number }
        requires call { K.riding.call ≡ BindCall port owner once }
        ensures { Stepped M.mix_of self.now K.riding (bind_came self.now.env number port owner once result) seat.new }
    {
        let env = self.env;
        let frame = BindFilling {
            env,
            caller: number,
            port,
            owner,
            once,
        };
        let starts = self.starts();
        let begun = self.begin_with_node::<K, BindFilling>(seat, &frame, starts, port, owner);
        let taken = match begun {
            Ok(taken) => taken,
            Err(at) => return self.bind_filling::<K>(seat, number, port, owner, once, at),
        };
        let Some(node) = taken else {
            return Ok(Reply::NoNode);
        };
        let attempt = Attempt {
            node,
            attached: false,
        };
        let at = BindAt::Opening { attempt };
        self.binding_at::<K>(seat, env, number, port, owner, once, at, section(number));
        let at = BindAt::CurrentTable { attempt };
        let mut table = table_of(self.binding::<K>(seat, env, number, port, owner, once, at));
        for _ in 0..u64::MAX {
            let frame = BindLocating {
                env,
                caller: number,
                owner,
                once,
                attempt,
            };
            let way = self.find_way::<K, BindLocating>(seat, &frame, starts, port, table);
            let (shape, place) = match way {
                Way::Flat { shape, place } => (shape, place),
                Way::Nested { shape, bucket } => {
                    return self.bind_nested::<K>(
                        seat, number, port, owner, once, node, table, shape, bucket,
                    );
                }
            };
            let frame = BindProbing {
                env,
                caller: number,
                port,
                owner,
                once,
                attempt,
                table,
                shape,
            };
            let key = word_of(port);
            let came = self.probe::<K, BindProbing>(seat, &frame, starts, place, key, rounds);
            let probed = match came {
                Ok(probed) => probed,
                Err(probe) => {
                    return Err(BindAt::Probing {
                        attempt,
                        table,
                        shape,
                        probe,
                    });
                }
            };
            let bucket = probed.bucket;
            let claimed = Claimed {
                attempt,
                table,
                shape,
                bucket,
            };
            if let Some(first) = probed.seen.found {
                if env.config.kind == Kind::Listed {
                    let before = probed.seen.before;
                    let list = FoundList {
                        claimed,
                        first,
                        before,
                    };
                    return Ok(self.bind_in_front::<K>(seat, env, number, port, owner, once, list));
                }
                let found = first;
                let at = BindAt::FoundOwner { claimed, found };
                let place = starts.owner(found);
                let other = owner_of(self.binding_at::<K>(
                    seat, env, number, port, owner, once, at, place,
                ));
                let reply = Reply::Exists { owner: other };
                let at = unlocking(claimed, Then::Answer(reply));
                self.binding::<K>(seat, env, number, port, owner, once, at);
                let node = claimed.attempt.node;
                return Ok(self.give_up_bind::<K>(
                    seat, env, number, port, owner, once, node, reply,
                ));
            }
            let length = probed.seen.length;
            let at = BindAt::Future { claimed, length };
            let future = slot_of(self.binding::<K>(seat, env, number, port, owner, once, at));
            if let Some(next) = future {
                let at = unlocking(claimed, Then::Table(next));
                self.binding::<K>(seat, env, number, port, owner, once, at);
                table = next;
                continue;
            }
            let Locked { place, word } = bucket;
            if length >= FULL_CHAIN {
                return self.grow::<K>(
                    seat,
                    number,
                    port,
                    owner,
                    once,
                    node,
                    table,
                    shape,
                    place,
                    word,
                    Full::Chain,
                );
            }
            let at = BindAt::Count { claimed };
            let count = self.binding::<K>(seat, env, number, port, owner, once, at);
            let ports = count.min(65_536);
            if above_max(ports, env.config.max) {
                let reply = Reply::TooBig { count };
                let at = unlocking(claimed, Then::Answer(reply));
                self.binding::<K>(seat, env, number, port, owner, once, at);
                return Ok(self.give_up_bind::<K>(
                    seat, env, number, port, owner, once, node, reply,
                ));
            }
            if above_100(ports, Shape::from(shape).size(), env.config.max) {
                return self.grow::<K>(
                    seat,
                    number,
                    port,
                    owner,
                    once,
                    node,
                    table,
                    shape,
                    place,
                    word,
                    Full::Table,
                );
            }
            let at = BindAt::Link { claimed };
            let place = starts.chain_link(node);
            self.binding_at::<K>(seat, env, number, port, owner, once, at, place);
            let at = BindAt::Raise { claimed };
            let count = self.binding::<K>(seat, env, number, port, owner, once, at);
            let kick = kicks(env, claimed, count);
            let at = publishing(env, claimed, kick);
            self.binding::<K>(seat, env, number, port, owner, once, at);
            return Ok(self.close_bound::<K>(seat, env, number, port, owner, once, kick));
        }
        self.bind_left::<K>(seat, number, port, owner, once, node, table)
    }

    /// Puts the node in front of the port's list.
    #[inline(always)]
    fn bind_in_front<K: Ride>(
        &self,
        seat: &mut Seat<(), SeatView<M>>,
        env: Env,
        number: u32,
        port: Port,
        owner: u32,
        once: bool,
        list: FoundList,
    ) -> Reply
        requires { IsRiding M.mix_of self.now K.riding (bind_at env number port owner once (ListLink list)) seat.old }
        ensures { HasEnded M.mix_of self.now K.riding result seat.new }
    {
        let at = BindAt::ListLink { list };
        self.binding::<K>(seat, env, number, port, owner, once, at);
        let at = BindAt::ChainLink { list };
        let link = self.binding::<K>(seat, env, number, port, owner, once, at);
        let at = BindAt::LinkBehind { list, link };
        self.binding::<K>(seat, env, number, port, owner, once, at);
        self.replacing_first::<K>(seat, env, number, port, owner, once, list);
        let kick = list.claimed.attempt.attached;
        self.close_bound::<K>(seat, env, number, port, owner, once, kick)
    }

    /// Puts the node in the place of the list's first one in the chain, and unlocks the bucket.
    #[inline(always)]
    fn replacing_first<K: Ride>(
        &self,
        seat: &mut Seat<(), SeatView<M>>,
        env: Env,
        number: u32,
        port: Port,
        owner: u32,
        once: bool,
        list: FoundList,
    )
        requires { IsRiding M.mix_of self.now K.riding (bind_at env number port owner once (replacing env list)) seat.old }
        ensures { IsRiding M.mix_of self.now K.riding (bind_at env number port owner once (Closing (Bound list.claimed.attempt.attached))) seat.new }
    {
        let Locked { place, word } = list.claimed.bucket;
        let link = link_of(list.claimed.attempt.node);
        let relink = Relink::new(env.geometry, place, word, list.before, link);
        let at = BindAt::Replacing { list, relink };
        self.binding::<K>(seat, env, number, port, owner, once, at);
        let Some(_) = list.before else {
            return;
        };
        let (relink, _) = relink.after();
        let at = BindAt::Replacing { list, relink };
        self.binding::<K>(seat, env, number, port, owner, once, at);
    }

    /// Closes the read section, with which the bind ends: the port is bound.
    #[inline(always)]
    fn close_bound<K: Ride>(
        &self,
        seat: &mut Seat<(), SeatView<M>>,
        env: Env,
        number: u32,
        port: Port,
        owner: u32,
        once: bool,
        kick: bool,
    ) -> Reply
        requires { IsRiding M.mix_of self.now K.riding (bind_at env number port owner once (Closing (Bound kick))) seat.old }
        ensures { HasEnded M.mix_of self.now K.riding result seat.new }
    {
        let ending = Ending::Bound { kick };
        let at = BindAt::Closing { ending };
        self.binding_at::<K>(seat, env, number, port, owner, once, at, section(number));
        Reply::Bound { kick }
    }

    /// Closes the read section and gives the node back, and the bind has this answer.
    #[inline(always)]
    fn give_up_bind<K: Ride>(
        &self,
        seat: &mut Seat<(), SeatView<M>>,
        env: Env,
        number: u32,
        port: Port,
        owner: u32,
        once: bool,
        node: u32,
        reply: Reply,
    ) -> Reply
        requires { IsRiding M.mix_of self.now K.riding (bind_at env number port owner once (answering node reply)) seat.old }
        ensures { HasEnded M.mix_of self.now K.riding result seat.new }
    {
        let at = answering(node, reply);
        self.binding_at::<K>(seat, env, number, port, owner, once, at, section(number));
        let at = giving(env, node, reply);
        self.binding::<K>(seat, env, number, port, owner, once, at);
        reply
    }

    /// Leaves a bind before the entries of a nested table. It answers the whole `Result`, as the three functions
    /// below do: at the entry of `drive_bind` the compiler clears room for each answer that is wrapped there.
    #[cold]
    #[inline(never)]
    fn bind_nested<K: Ride>(
        &self,
        seat: &mut Seat<(), SeatView<M>>,
        number: u32,
        port: Port,
        owner: u32,
        once: bool,
        node: u32,
        table: u32,
        shape: u64,
        bucket: u32,
    ) -> Result<Reply, BindAt>
        requires { IsRiding M.mix_of self.now K.riding (bind_at self.now.env number port owner once (Locating (first_attempt node) (nested_locate self.now.env.geometry table shape bucket))) seat.old }
        ensures { Stepped M.mix_of self.now K.riding (bind_came self.now.env number port owner once result) seat.new }
    {
        let locate = nested_locate(self.env.geometry, table, shape, bucket);
        let attempt = Attempt {
            node,
            attached: false,
        };
        Err(BindAt::Locating { attempt, locate })
    }

    /// Leaves a bind that hasn't taken its node, or hasn't filled it.
    #[cold]
    #[inline(never)]
    fn bind_filling<K: Ride>(
        &self,
        seat: &mut Seat<(), SeatView<M>>,
        number: u32,
        port: Port,
        owner: u32,
        once: bool,
        at: NewNodeAt,
    ) -> Result<Reply, BindAt>
        requires { IsRiding M.mix_of self.now K.riding (bind_at self.now.env number port owner once (Filling (record (new_node_new self.now.env.geometry (word_of port) owner) { at = at }))) seat.old }
        ensures { Stepped M.mix_of self.now K.riding (bind_came self.now.env number port owner once result) seat.new }
    {
        let new = NewNode::new(self.env.geometry, word_of(port), owner).with(at);
        Err(BindAt::Filling { new })
    }

    /// Leaves a bind after 2^64 - 1 tables, which no run has.
    #[cold]
    #[inline(never)]
    fn bind_left<K: Ride>(
        &self,
        seat: &mut Seat<(), SeatView<M>>,
        number: u32,
        port: Port,
        owner: u32,
        once: bool,
        node: u32,
        table: u32,
    ) -> Result<Reply, BindAt>
        requires { IsRiding M.mix_of self.now K.riding (bind_at self.now.env number port owner once (Locating (first_attempt node) (locate_new self.now.env.geometry table))) seat.old }
        ensures { Stepped M.mix_of self.now K.riding (bind_came self.now.env number port owner once result) seat.new }
    {
        let locate = Locate::new(self.env.geometry, table);
        let attempt = Attempt {
            node,
            attached: false,
        };
        Err(BindAt::Locating { attempt, locate })
    }

    /// Unlocks a bucket into which the node doesn't go, and leaves the bind there.
    #[cold]
    #[inline(never)]
    fn grow<K: Ride>(
        &self,
        seat: &mut Seat<(), SeatView<M>>,
        number: u32,
        port: Port,
        owner: u32,
        once: bool,
        node: u32,
        table: u32,
        shape: u64,
        place: usize,
        word: u64,
        why: Full,
    ) -> Result<Reply, BindAt>
        requires { IsRiding M.mix_of self.now K.riding (bind_at self.now.env number port owner once (full_at node table shape place word why)) seat.old }
        ensures { Stepped M.mix_of self.now K.riding (bind_came self.now.env number port owner once result) seat.new }
    {
        let attempt = Attempt {
            node,
            attached: false,
        };
        let bucket = Locked { place, word };
        let claimed = Claimed {
            attempt,
            table,
            shape,
            bucket,
        };
        let at = unlocking_full(claimed, why);
        self.binding::<K>(seat, self.env, number, port, owner, once, at);
        let growing = Growing {
            attempt,
            table,
            shape,
            why,
        };
        Err(BindAt::Root { growing })
    }

    /// The operation of the bind in this state.
    #[inline(always)]
    fn binding<K: Ride>(
        &self,
        seat: &mut Seat<(), SeatView<M>>,
        env: Env,
        number: u32,
        port: Port,
        owner: u32,
        once: bool,
        at: BindAt,
    ) -> u64
        requires { IsRiding M.mix_of self.now K.riding (bind_at env number port owner once at) seat.old }
        ensures { Stepped M.mix_of self.now K.riding (driven M.mix_of (bind_at env number port owner once at) result) seat.new }
    {
        let bind = Bind::<M>::new(env, number, port, owner, once).with(at);
        self.operate::<K, Reply, Bind<M>, Whole>(seat, &Whole, &bind)
    }

    /// The same, where its physical place is known.
    #[inline(always)]
    fn binding_at<K: Ride>(
        &self,
        seat: &mut Seat<(), SeatView<M>>,
        env: Env,
        number: u32,
        port: Port,
        owner: u32,
        once: bool,
        at: BindAt,
        place: usize,
    ) -> u64
        requires riding { IsRiding M.mix_of self.now K.riding (bind_at env number port owner once at) seat.old }
        requires place { place ≡ physical_place (plan_at env number at) }
        ensures { Stepped M.mix_of self.now K.riding (driven M.mix_of (bind_at env number port owner once at) result) seat.new }
    {
        let bind = Bind::<M>::new(env, number, port, owner, once).with(at);
        self.operate_at::<K, Reply, Bind<M>, Whole>(seat, &Whole, &bind, place)
    }
}

/// Leaves a caller in the middle of a bind, which stands here. It takes no memory.
#[cold]
#[inline(never)]
pub(crate) fn leave_bind<M: Mix>(
    local: &mut Local<M>,
    env: Env,
    caller: u32,
    port: Port,
    owner: u32,
    once: bool,
    at: BindAt,
)
    requires caller { caller < 16 }
    requires at { IsBindAtIn env at }
    ensures { local.new ≡ record local.old { doing = bind_at env caller port owner once at } }
{
    let bind = Bind::new(env, caller, port, owner, once).with(at);
    local.doing = Doing::Binding(bind);
}
