//! The insertion, state by state.

ghost use Rattle.std.specs.Prelude.{◌≡◌, ◌<◌};
ghost use Rattle.rht_words.specs.Operations.{op_place};
ghost use Rattle.rht_words.specs.Places.{words_in};
ghost use Rattle.rht_arena.specs.NewNode.{new_node_after};
ghost use Rattle.rht_chain.specs.Locked.{IsThenIn};
ghost use Rattle.rht_chain.specs.Probe.{probe_after};
ghost use Rattle.rht_bind.specs.Bind.{bind_from, bind_new, bind_plan, bind_after, after_at, filled, probed, unlocking, unlocked, IsBindAtIn};

mod bucket;
mod ending;
mod growth;
mod insertion;

pub use bucket::{at_bucket, behind_page, locating, probing};
use bucket::{grown, located};
pub use ending::{Ending, answering, closed, giving};
pub use growth::{
    Full, Growing, Refusal, behind_attempt, checked_attach, ended_attempt, making,
    refused_or_found, unlocking_full, want_or_busy,
};
use growth::{made, unmade};
pub use insertion::{
    bound_already, checked_count, found_or_future, future_or_count, kicks, publishing, replacing,
};
use insertion::{published, replaced};
use rht_arena::{GiveNode, NewNode};
use rht_chain::{Locked, Probe, Relink, Then, Unlock};
use rht_grace::{Enter, Leave};
use rht_model::Reply;
use rht_nest::{Grow, Locate, Make, Place, Unmake};
use rht_policy::Mix;
use rht_words::{
    Env, Kind, Next, Op, Port, Shape, future_of, head_of, link_of, owner_of, places, slot_of,
    table_of, word_of,
};
use std::marker::{Model, PhantomData};

/// What a bind keeps while it looks for a place for its node, from one attempt to the next.
#[derive(Clone, Copy, Debug, PartialEq, Eq)]
pub struct Attempt {
    /// The node that it has taken.
    pub node: u32,
    /// Whether it has attached a table.
    pub attached: bool,
}

/// What a bind that has locked a bucket holds.
#[derive(Clone, Copy, Debug, PartialEq, Eq)]
pub struct Claimed {
    /// Its node, and whether it has attached a table.
    pub attempt: Attempt,
    /// The slot of the table.
    pub table: u32,
    /// The table's shape.
    pub shape: u64,
    /// The bucket that it has locked.
    pub bucket: Locked,
}

/// The list of a port that a bind has found in a table of lists. Its node is to go in front of it.
#[derive(Clone, Copy, Debug, PartialEq, Eq)]
pub struct FoundList {
    /// What it holds in the port's bucket.
    pub claimed: Claimed,
    /// The first node of the list.
    pub first: u32,
    /// The node before that one in the chain; none where it is the bucket's first.
    pub before: Option<u32>,
}

/// Where a bind stands. Each state but those that hold a piece has one operation.
#[derive(Clone, Copy)]
pub enum BindAt {
    /// Takes a free node and stores the port and the owner in it.
    Filling {
        new: NewNode,
    },
    /// Opens the read section of an attempt, by one more in its caller's section word.
    Opening {
        attempt: Attempt,
    },
    /// Loads which table is the current one.
    CurrentTable {
        attempt: Attempt,
    },
    /// Finds the port's bucket in a table.
    Locating {
        attempt: Attempt,
        locate: Locate,
    },
    /// Enters a page where the port's bucket is missing and no table was behind before.
    Entering {
        attempt: Attempt,
        table: u32,
        shape: u64,
        place: Place,
        grow: Grow,
    },
    /// Locks the bucket and walks its chain.
    Probing {
        attempt: Attempt,
        table: u32,
        shape: u64,
        probe: Probe,
    },
    /// Loads the owner of the node that was found, in a table of one owner for each port. The port
    /// is bound to it at this moment.
    FoundOwner {
        claimed: Claimed,
        found: u32,
    },
    /// Stores in the node, as its list link, that to the first node of the list that was found. This
    /// and the three states behind it are those of tables of lists. Nobody else sees the node yet.
    ListLink {
        list: FoundList,
    },
    /// Loads the link behind the list's first node in the chain.
    ChainLink {
        list: FoundList,
    },
    /// Stores that link in the node.
    LinkBehind {
        list: FoundList,
        link: u64,
    },
    /// Puts the node in the place of the list's first one in the chain, and unlocks the bucket. Its
    /// owner is the port's first one from the first store on.
    Replacing {
        list: FoundList,
        relink: Relink,
    },
    /// Loads the future of a table in which the port wasn't found, in a chain of this length. Where
    /// there is none, no table binds the port, and none will while this bucket is locked.
    Future {
        claimed: Claimed,
        length: u32,
    },
    /// Loads how many ports are bound.
    Count {
        claimed: Claimed,
    },
    /// Stores the bucket's first link in the node, which nobody else sees yet.
    Link {
        claimed: Claimed,
    },
    /// Raises how many ports are bound.
    Raise {
        claimed: Claimed,
    },
    /// Makes the node the bucket's first, and unlocks the bucket. The port is bound from here on.
    Publish {
        node: u32,
        table: u32,
        relink: Relink,
        kick: bool,
    },
    /// Unlocks the bucket without a change.
    Unlocking {
        attempt: Attempt,
        table: u32,
        unlock: Unlock,
        then: Then<Reply>,
    },
    /// Unlocks a bucket of the last table without a change, since the node doesn't go into it. The
    /// states behind this one hold no lock, so other callers may attach a table, move entries and
    /// make another table the current one meanwhile.
    UnlockingFull {
        growing: Growing,
        unlock: Unlock,
    },
    /// Loads which table is the current one by now.
    Root {
        growing: Growing,
    },
    /// Loads how many ports are bound by now, which tells the size of the table that is wanted.
    GrowthCount {
        growing: Growing,
        root: u32,
    },
    /// Makes a table of this size. Nobody else knows it yet.
    Making {
        growing: Growing,
        size: u32,
        make: Make,
    },
    /// Loads the future of the last table again. Where there is none yet, the bind is refused.
    FutureAgain {
        growing: Growing,
        refusal: Refusal,
    },
    /// Exchanges the link to the table that was made for 0 in the future of the last table. The table
    /// is attached at this moment, unless another caller has attached one before.
    Attaching {
        growing: Growing,
        slot: u32,
        shape: u64,
    },
    /// Gives the table back that wasn't attached. Then the bind has this answer, or begins anew where
    /// there is none.
    Unmaking {
        attempt: Attempt,
        unmake: Unmake,
        answer: Option<Reply>,
    },
    /// Closes the read section, by one more in the section word.
    Closing {
        ending: Ending,
    },
    /// Gives the node back.
    Giving {
        give: GiveNode,
        reply: Reply,
    },
}

/// A bind of one port to one owner. Where the last table is full it attaches a further one, and then
/// begins anew with the same node. Each attempt has a read section of its own. The answers are `Bound`,
/// `Exists`, `NoNode` and `TooBig`; `Busy` and `NoTable` where no table is attached; and, of a bind
/// that tries but once, `Again`. `NoTable` comes also where the port's bucket is missing and no page
/// was free for it. The kernel's counterparts are `rhashtable_lookup_insert_key` and, in a table of
/// lists, `rhltable_insert_key`, with `rhashtable_insert_slow` behind them.
#[derive(Drop)]
pub struct Bind<M: Mix> {
    env: Env,
    caller: u32,
    port: Port,
    owner: u32,
    once: bool,
    at: BindAt,
    mix: PhantomData<M>,
}

impl<M: Mix> Model for Bind<M> {
    ghost use Rattle.std.specs.Prelude.{◌<◌};
    ghost use Rattle.rht_bind.specs.Bind.{BindModel, IsBindAtIn};

    ghost Value = { BindModel };

    ghost view = { λ m. record { env = m.env; caller = m.caller; port = m.port; owner = m.owner; once = m.once; at = m.at } };

    ghost invariant = { λ m. (m.caller < 16) × IsBindAtIn m.env m.at };
}

impl<M: Mix> Bind<M> {
    /// Before the first operation. With `once` the bind answers `Again` where it would begin anew.
    #[inline(always)]
    pub fn new(env: Env, caller: u32, port: Port, owner: u32, once: bool) -> Bind<M>
        requires { caller < 16 }
        ensures { result ≡ bind_new env caller port owner once }
    {
        Bind::from(env, caller, port, owner, once, 0)
    }

    /// The same with a search for a free node from word `start` of the node map on, where the table's ways let it.
    #[inline(always)]
    pub fn from(env: Env, caller: u32, port: Port, owner: u32, once: bool, start: u32) -> Bind<M>
        requires { caller < 16 }
        ensures { result ≡ bind_from env caller port owner once start }
    {
        Bind {
            env,
            caller,
            port,
            owner,
            once,
            at: BindAt::Filling {
                new: NewNode::from(env.geometry, word_of(port), owner, env.start_in(start)),
            },
            mix: PhantomData,
        }
    }

    /// The bind in another state.
    #[inline(always)]
    pub fn with(&self, at: BindAt) -> Bind<M>
        requires { IsBindAtIn self.now.env at }
        ensures { result ≡ record self.now { at = at } }
    {
        Bind { at, ..*self }
    }

    /// The next operation.
    #[inline(always)]
    pub fn plan(&self) -> Op
        ensures plan { result ≡ bind_plan self.now }
        ensures place { op_place result < words_in self.now.env.geometry }
    {
        let geometry = self.env.geometry;
        match self.at {
            BindAt::Filling { new } => new.plan(),
            BindAt::Opening { .. } => Enter::new(self.caller).plan(),
            BindAt::CurrentTable { .. } => Op::load(places::current_table()),
            BindAt::Locating { locate, .. } => locate.plan(),
            BindAt::Entering { grow, .. } => grow.plan(),
            BindAt::Probing { probe, .. } => probe.plan(),
            BindAt::FoundOwner { found, .. } => Op::load(geometry.owner(found)),
            BindAt::ListLink { list } => {
                Op::store(
                    geometry.list_link(list.claimed.attempt.node),
                    link_of(list.first),
                )
            }
            BindAt::ChainLink { list } => Op::load(geometry.chain_link(list.first)),
            BindAt::LinkBehind { list, link } => {
                Op::store(geometry.chain_link(list.claimed.attempt.node), link)
            }
            BindAt::Replacing { relink, .. } => relink.plan(),
            BindAt::Future { claimed, .. } => Op::load(places::future(claimed.table)),
            BindAt::Count { .. } => Op::load(places::port_count()),
            BindAt::Link { claimed } => {
                let Locked { place, word } = claimed.bucket;
                Op::store(
                    geometry.chain_link(claimed.attempt.node),
                    head_of(place, word),
                )
            }
            BindAt::Raise { .. } => Op::add(places::port_count(), 1),
            BindAt::Publish { relink, .. } => relink.plan(),
            BindAt::Unlocking { unlock, .. } => unlock.plan(),
            BindAt::UnlockingFull { unlock, .. } => unlock.plan(),
            BindAt::Root { .. } => Op::load(places::current_table()),
            BindAt::GrowthCount { .. } => Op::load(places::port_count()),
            BindAt::Making { make, .. } => make.plan(),
            BindAt::FutureAgain { growing, .. } => Op::load(places::future(growing.table)),
            BindAt::Attaching { growing, slot, .. } => {
                Op::exchange(places::future(growing.table), 0, future_of(slot))
            }
            BindAt::Unmaking { unmake, .. } => unmake.plan(),
            BindAt::Closing { .. } => Leave::new(self.caller).plan(),
            BindAt::Giving { give, .. } => give.plan(),
        }
    }

    /// Takes in the word's old value.
    #[inline(always)]
    #[tactic(auto, using(crate::proofs::BindStays::bind_stays))]
    pub fn take(&mut self, old: u64) -> Next<Reply>
        ensures { (self.new, result) ≡ bind_after M.mix_of self.old old }
    {
        let (state, next) = after::<M>(self.env, self.port, self.once, &self.at, old);
        self.at = state;
        next
    }
}

/// Where the bind stands after a state that found this value, and what it says.
#[inline(always)]
fn after<M: Mix>(env: Env, port: Port, once: bool, at: &BindAt, old: u64) -> (BindAt, Next<Reply>)
    requires { IsBindAtIn env at.now }
    ensures { result ≡ after_at M.mix_of env port once at.now old }
{
    let next = match *at {
        BindAt::Filling { new } => return filled(new, old),
        BindAt::Opening { attempt } => BindAt::CurrentTable { attempt },
        BindAt::CurrentTable { attempt } => locating(env, attempt, table_of(old)),
        BindAt::Locating { attempt, locate } => located::<M>(env, port, attempt, locate, old),
        BindAt::Entering {
            attempt,
            table,
            shape,
            place,
            grow,
        } => grown(env, port, attempt, table, shape, place, grow, old),
        BindAt::Probing {
            attempt,
            table,
            shape,
            probe,
        } => probed(env.config.kind, attempt, table, shape, probe, old),
        BindAt::FoundOwner { claimed, .. } => {
            let owner = owner_of(old);
            unlocking(claimed, Then::Answer(Reply::Exists { owner }))
        }
        BindAt::ListLink { list } => BindAt::ChainLink { list },
        BindAt::ChainLink { list } => BindAt::LinkBehind { list, link: old },
        BindAt::LinkBehind { list, .. } => replacing(env, list),
        BindAt::Replacing { list, relink } => replaced(list, relink),
        BindAt::Future { claimed, length } => future_or_count(claimed, length, slot_of(old)),
        BindAt::Count { claimed } => checked_count(env, claimed, old),
        BindAt::Link { claimed } => BindAt::Raise { claimed },
        BindAt::Raise { claimed } => publishing(env, claimed, kicks(env, claimed, old)),
        BindAt::Publish {
            node,
            table,
            relink,
            kick,
        } => published(node, table, kick, relink),
        BindAt::Unlocking { attempt, then, .. } => unlocked(env, attempt, then),
        BindAt::UnlockingFull { growing, .. } => BindAt::Root { growing },
        BindAt::Root { growing } => BindAt::GrowthCount {
            growing,
            root: table_of(old),
        },
        BindAt::GrowthCount { growing, root } => want_or_busy(env, growing, root, old),
        BindAt::Making {
            growing,
            size,
            make,
        } => made(growing, size, make, old),
        BindAt::FutureAgain { growing, refusal } => {
            refused_or_found(once, growing, refusal, slot_of(old))
        }
        BindAt::Attaching {
            growing,
            slot,
            shape,
        } => checked_attach(env, once, growing, slot, shape, old),
        BindAt::Unmaking {
            attempt,
            unmake,
            answer,
        } => unmade(attempt, unmake, answer, old),
        BindAt::Closing { ending } => return closed(env, ending),
        BindAt::Giving { reply, .. } => return (*at, Next::Done(reply)),
    };
    (next, Next::Go)
}

/// After an operation on the new node. Where no node is free the bind ends.
#[inline(always)]
fn filled(new: NewNode, old: u64) -> (BindAt, Next<Reply>)
    ensures { result ≡ filled (new_node_after new old).0 (new_node_after new old).1 }
{
    let (new, next) = new.after(old);
    match next {
        Next::Go => (BindAt::Filling { new }, Next::Go),
        Next::Done(Some(node)) => {
            let attempt = Attempt {
                node,
                attached: false,
            };
            (BindAt::Opening { attempt }, Next::Go)
        }
        Next::Done(None) => (BindAt::Filling { new }, Next::Done(Reply::NoNode)),
    }
}

/// After an operation in the bucket: where it has ended, what was seen is looked at.
#[inline(always)]
fn probed(kind: Kind, attempt: Attempt, table: u32, shape: u64, probe: Probe, old: u64) -> BindAt
    ensures { result ≡ probed kind attempt table shape (probe_after probe old).0 (probe_after probe old).1 }
{
    let (probe, next) = probe.after(old);
    match next {
        Next::Go => BindAt::Probing {
            attempt,
            table,
            shape,
            probe,
        },
        Next::Done(end) => {
            let claimed = Claimed {
                attempt,
                table,
                shape,
                bucket: end.bucket,
            };
            found_or_future(kind, claimed, end.seen)
        }
    }
}

/// The unlocking of the bucket, and what comes after it.
#[inline(always)]
pub fn unlocking(claimed: Claimed, then: Then<Reply>) -> BindAt
    ensures { result ≡ unlocking claimed then }
{
    BindAt::Unlocking {
        attempt: claimed.attempt,
        table: claimed.table,
        unlock: Unlock::new(claimed.bucket.place, claimed.bucket.word),
        then,
    }
}

/// After the bucket was unlocked without a change: the bind goes on in the future table, or has its
/// answer.
#[inline(always)]
pub fn unlocked(env: Env, attempt: Attempt, then: Then<Reply>) -> BindAt
    requires { IsThenIn then }
    ensures { result ≡ unlocked env attempt then }
{
    match then {
        Then::Table(table) => locating(env, attempt, table),
        Then::Answer(reply) => answering(attempt.node, reply),
    }
}
