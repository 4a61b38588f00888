//! The look-up, state by state.

ghost use Rattle.std.specs.Prelude.{◌≡◌, ◌<◌, ◌≤◌, IfSome};
ghost use Rattle.rht_words.specs.Operations.{op_place};
ghost use Rattle.rht_words.specs.Places.{words_in};
ghost use Rattle.rht_nest.specs.Place.{IsBucketIn};
ghost use Rattle.rht_nest.specs.Reach.{reach_after, IsReachIn};
ghost use Rattle.rht_find.specs.Find.{find_new, find_plan, find_after, goes, says, locating, reached, headed, walked_anew, chain_ended, led_on, compared, next_table, IsHeadIn, IsFindAtIn};

use rht_grace::{Enter, Leave};
use rht_model::Reply;
use rht_nest::{Bucket, Reach};
use rht_policy::Mix;
use rht_words::{
    Env, Geometry, Next, Op, Port, head_of, marker_of, node_of, owner_of, places, slot_of,
    table_of, word_of,
};
use std::marker::{Model, PhantomData};

/// A bucket's word, from which a walk begins.
#[derive(Clone, Copy, Debug, PartialEq, Eq)]
pub struct Head {
    /// The slot of its table.
    pub table: u32,
    /// The place of the word.
    pub place: usize,
    /// How often the walk may begin anew.
    pub left: u32,
}

/// Where a look-up stands. Each state but the one that holds a piece has one operation.
#[derive(Clone, Copy)]
pub enum FindAt {
    /// Opens the read section, by one more in its caller's section word.
    Opening,
    /// Loads which table is the current one.
    CurrentTable,
    /// Finds the port's bucket in a table. In a nested one it may be missing.
    Locating { reach: Reach },
    /// Loads the bucket's word, locked or not. The lock isn't waited for.
    Heading { head: Head },
    /// Loads the key of a node, after this many others. It may have left the chain since the link to
    /// it was loaded.
    Key { head: Head, node: u32, visited: u32 },
    /// Loads the link behind a node with another key, which was visited with this many.
    Link { head: Head, node: u32, visited: u32 },
    /// Loads the future of a table in which the port wasn't found.
    Future { table: u32 },
    /// Loads the owner of the node that was found.
    Owner { node: u32 },
    /// Closes the read section, by one more in the section word.
    Closing { reply: Reply },
}

/// A look-up of one port. The answer is `Found` or `Missing`. The kernel's counterpart is
/// `rhashtable_lookup_fast`.
#[derive(Drop)]
pub struct Find<M: Mix> {
    env: Env,
    caller: u32,
    port: Port,
    at: FindAt,
    mix: PhantomData<M>,
}

impl<M: Mix> Model for Find<M> {
    ghost use Rattle.std.specs.Prelude.{◌<◌};
    ghost use Rattle.rht_find.specs.Find.{FindModel, IsFindAtIn};

    ghost Value = { FindModel };

    ghost view = { λ m. record { env = m.env; caller = m.caller; port = m.port; at = m.at } };

    ghost invariant = { λ m. (m.caller < 16) × IsFindAtIn m.env m.at };
}

impl<M: Mix> Find<M> {
    /// Before the first operation.
    #[inline(always)]
    pub fn new(env: Env, caller: u32, port: Port) -> Find<M>
        requires { caller < 16 }
        ensures { result ≡ find_new env caller port }
    {
        Find {
            env,
            caller,
            port,
            at: FindAt::Opening,
            mix: PhantomData,
        }
    }

    /// The look-up in another state.
    #[inline(always)]
    pub fn with(&self, at: FindAt) -> Find<M>
        requires { IsFindAtIn self.now.env at }
        ensures { result ≡ record self.now { at = at } }
    {
        Find { at, ..*self }
    }

    /// The operation of its state.
    #[inline(always)]
    pub fn plan(&self) -> Op
        ensures plan { result ≡ find_plan self.now }
        ensures place { op_place result < words_in self.now.env.geometry }
    {
        let geometry = self.env.geometry;
        match self.at {
            FindAt::Opening => Enter::new(self.caller).plan(),
            FindAt::Closing { .. } => Leave::new(self.caller).plan(),
            FindAt::CurrentTable => Op::load(places::current_table()),
            FindAt::Locating { reach } => reach.plan(),
            FindAt::Heading { head } => Op::load(head.place),
            FindAt::Key { node, .. } => Op::load(geometry.key(node)),
            FindAt::Link { node, .. } => Op::load(geometry.chain_link(node)),
            FindAt::Future { table } => Op::load(places::future(table)),
            FindAt::Owner { node } => Op::load(geometry.owner(node)),
        }
    }

    /// Takes in the word's old value.
    #[inline(always)]
    #[tactic(auto, using(crate::proofs::FindStays::find_stays))]
    pub fn take(&mut self, old: u64) -> Next<Reply>
        ensures { (self.new, result) ≡ find_after M.mix_of self.old old }
    {
        let said = said(&self.at);
        self.at = after::<M>(self.env, self.port, &self.at, old);
        said
    }
}

/// Where the look-up stands after a state that found this value.
#[inline(always)]
fn after<M: Mix>(env: Env, port: Port, at: &FindAt, old: u64) -> FindAt
    requires { IsFindAtIn env at.now }
    ensures { result ≡ goes M.mix_of env port at.now old }
{
    match *at {
        FindAt::Opening => FindAt::CurrentTable,
        FindAt::CurrentTable => locating(env, table_of(old)),
        FindAt::Locating { reach } => reached::<M>(env, port, reach, old),
        FindAt::Heading { head } => led_on(env.geometry, head, 0, head_of(head.place, old)),
        FindAt::Key {
            head,
            node,
            visited,
        } => compared(env.geometry, port, head, node, visited, old),
        FindAt::Link { head, visited, .. } => led_on(env.geometry, head, visited, old),
        FindAt::Future { table: _ } => next_table(env, slot_of(old)),
        FindAt::Owner { node: _ } => FindAt::Closing {
            reply: Reply::Found {
                owner: owner_of(old),
            },
        },
        FindAt::Closing { reply } => FindAt::Closing { reply },
    }
}

/// What it says after a state: its answer, once its read section is closed.
#[inline(always)]
fn said(at: &FindAt) -> Next<Reply>
    ensures { result ≡ says at.now }
{
    match *at {
        FindAt::Closing { reply } => Next::Done(reply),
        _ => Next::Go,
    }
}

/// The port's bucket in the table of this slot is looked for.
#[inline(always)]
pub fn locating(env: Env, table: u32) -> FindAt
    requires { table < 8 }
    ensures { result ≡ locating env table }
{
    FindAt::Locating {
        reach: Reach::new(env.geometry, table),
    }
}

/// After an operation that looks for the bucket.
#[inline(always)]
fn reached<M: Mix>(env: Env, port: Port, reach: Reach, old: u64) -> FindAt
    requires { IsReachIn env.geometry reach }
    ensures { result ≡ reached env (reach_after M.mix_of port reach old).0 (reach_after M.mix_of port reach old).1 }
{
    let (reach, next) = reach.after::<M>(port, old);
    match next {
        Next::Go => FindAt::Locating { reach },
        Next::Done(bucket) => headed(env, reach, bucket),
    }
}

/// Where the bucket is there its word is loaded, and else the table's future.
#[inline(always)]
pub fn headed(env: Env, reach: Reach, bucket: Bucket) -> FindAt
    ensures { result ≡ headed env reach bucket }
{
    let table = reach.table();
    match bucket {
        Bucket::At(place) => {
            let left = env.config.rewalks;
            let head = Head { table, place, left };
            FindAt::Heading { head }
        }
        Bucket::Absent(_) => FindAt::Future { table },
    }
}

/// Behind a link: at the node to which it leads, or at the chain's end. As many nodes are visited as
/// there are, and no more.
#[inline(always)]
pub fn led_on(geometry: Geometry, head: Head, visited: u32, link: u64) -> FindAt
    ensures { result ≡ led_on geometry head visited link }
{
    match node_of(geometry.nodes, link) {
        Some(node) if visited < geometry.nodes => FindAt::Key {
            head,
            node,
            visited,
        },
        _ => chain_ended(head, link),
    }
}

/// A chain ends at the marker of its own bucket. A walk that ends elsewhere was led into another
/// bucket, or met too many nodes.
#[inline(always)]
fn chain_ended(head: Head, link: u64) -> FindAt
    ensures { result ≡ chain_ended head link }
{
    if link == marker_of(head.place) {
        FindAt::Future { table: head.table }
    } else {
        walked_anew(head)
    }
}

/// Behind a strange end the bucket is walked anew, where that may be still.
#[inline(always)]
fn walked_anew(head: Head) -> FindAt
    ensures { result ≡ walked_anew head }
{
    let Head { table, place, left } = head;
    if 0 < left {
        let head = Head {
            table,
            place,
            left: left - 1,
        };
        FindAt::Heading { head }
    } else {
        FindAt::Future { table }
    }
}

/// Where the node has the port's key its owner is loaded, and else its link.
#[inline(always)]
pub fn compared(
    geometry: Geometry,
    port: Port,
    head: Head,
    node: u32,
    visited: u32,
    key: u64,
) -> FindAt
    requires { visited < geometry.nodes }
    ensures { result ≡ compared port head node visited key }
{
    if key == word_of(port) {
        return FindAt::Owner { node };
    }
    FindAt::Link {
        head,
        node,
        visited: visited + 1,
    }
}

/// A future table is looked through next. Where there is none, the port is missing.
#[inline(always)]
pub fn next_table(env: Env, future: Option<u32>) -> FindAt
    requires { IfSome future (λ table. table < 8) }
    ensures { result ≡ next_table env future }
{
    match future {
        Some(table) => locating(env, table),
        None => FindAt::Closing {
            reply: Reply::Missing,
        },
    }
}
