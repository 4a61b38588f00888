//! What a bind does with a bucket that it has locked and walked. Its node goes in front of the port's
//! list, where the port was found in a table of lists, and else becomes the chain's first.

ghost use Rattle.std.specs.Prelude.{◌≡◌};
ghost use Rattle.rht_chain.specs.LockedWalk.{IsNodeOrNone};
ghost use Rattle.rht_chain.specs.Relink.{relink_after};
ghost use Rattle.rht_bind.specs.Bind.{found_or_future, bound_already, replacing, replaced, future_or_count, checked_count, kicks, publishing, published};

use super::{BindAt, Claimed, Ending, FoundList, Full, unlocking, unlocking_full};
use rht_chain::{Locked, Relink, Seen, Then};
use rht_model::Reply;
use rht_policy::{above_75, above_100, above_max};
use rht_words::{Env, Kind, Next, Shape, link_of};

/// A chain of so many nodes takes no further one.
const FULL_CHAIN: u32 = 16;

/// Where the port was found it is bound already, and else the table's future is loaded.
#[inline(always)]
pub fn found_or_future(kind: Kind, claimed: Claimed, seen: Seen) -> BindAt
    ensures { result ≡ found_or_future kind claimed seen.found seen.before seen.length }
{
    let Seen { before, length, .. } = seen;
    match seen.found {
        Some(first) => bound_already(kind, claimed, first, before),
        None => BindAt::Future { claimed, length },
    }
}

/// Of a port that is bound already the owner is loaded, where it can have but one; in a table of
/// lists the node goes in front of its list.
#[inline(always)]
pub fn bound_already(kind: Kind, claimed: Claimed, first: u32, before: Option<u32>) -> BindAt
    ensures { result ≡ bound_already kind claimed first before }
{
    match kind {
        Kind::Single => BindAt::FoundOwner {
            claimed,
            found: first,
        },
        Kind::Listed => BindAt::ListLink {
            list: FoundList {
                claimed,
                first,
                before,
            },
        },
    }
}

/// The putting of the node in the place of the list's first one.
#[inline(always)]
pub fn replacing(env: Env, list: FoundList) -> BindAt
    requires { IsNodeOrNone env.geometry list.before }
    ensures { result ≡ replacing env list }
{
    let Locked { place, word } = list.claimed.bucket;
    let link = link_of(list.claimed.attempt.node);
    BindAt::Replacing {
        list,
        relink: Relink::new(env.geometry, place, word, list.before, link),
    }
}

/// After a store of the replacement. With the last one the owner is bound; the bind has raised no
/// count, so only a table that it has attached is due to be moved into.
#[inline(always)]
pub(super) fn replaced(list: FoundList, relink: Relink) -> BindAt
    ensures { result ≡ replaced list (relink_after relink).0 (relink_after relink).1 }
{
    let (relink, next) = relink.after();
    match next {
        Next::Go => BindAt::Replacing { list, relink },
        Next::Done(()) => {
            let kick = list.claimed.attempt.attached;
            let ending = Ending::Bound { kick };
            BindAt::Closing { ending }
        }
    }
}

/// A future table is looked through next. Where there is none, a chain of 16 nodes takes no further
/// one, and before another does, the ports are counted.
#[inline(always)]
pub fn future_or_count(claimed: Claimed, length: u32, future: Option<u32>) -> BindAt
    ensures { result ≡ future_or_count claimed length future }
{
    match future {
        Some(table) => unlocking(claimed, Then::Table(table)),
        None if length >= FULL_CHAIN => unlocking_full(claimed, Full::Chain),
        None => BindAt::Count { claimed },
    }
}

/// After the count of ports was loaded: a table that may hold no more refuses the bind, and one with
/// fewer buckets than ports takes no further node where it may grow. The count is cut to the most
/// ports that there can be, which no run passes; the refusal names it as it was loaded.
#[inline(always)]
pub fn checked_count(env: Env, claimed: Claimed, count: u64) -> BindAt
    ensures { result ≡ checked_count env claimed count }
{
    let ports = count.min(65_536);
    if above_max(ports, env.config.max) {
        unlocking(claimed, Then::Answer(Reply::TooBig { count }))
    } else if above_100(ports, Shape::from(claimed.shape).size(), env.config.max) {
        unlocking_full(claimed, Full::Table)
    } else {
        BindAt::Link { claimed }
    }
}

/// Whether a table is due to grow, or to be moved into a further one, once the count, which was this,
/// has been raised. The count is cut so that with one more it is at most the most ports that there can
/// be.
#[inline(always)]
pub fn kicks(env: Env, claimed: Claimed, count: u64) -> bool
    ensures { result ≡ kicks env claimed count }
{
    let ports = count.min(65_535) + 1;
    claimed.attempt.attached || above_75(ports, Shape::from(claimed.shape).size(), env.config.max)
}

/// The linking of the node, which becomes the bucket's first.
#[inline(always)]
pub fn publishing(env: Env, claimed: Claimed, kick: bool) -> BindAt
    ensures { result ≡ publishing env claimed kick }
{
    let Locked { place, word } = claimed.bucket;
    let node = claimed.attempt.node;
    BindAt::Publish {
        node,
        table: claimed.table,
        relink: Relink::new(env.geometry, place, word, None, link_of(node)),
        kick,
    }
}

/// After a store of the linking. With the last one the port is bound.
#[inline(always)]
pub(super) fn published(node: u32, table: u32, kick: bool, relink: Relink) -> BindAt
    ensures { result ≡ published node table kick (relink_after relink).0 (relink_after relink).1 }
{
    let (relink, next) = relink.after();
    match next {
        Next::Go => BindAt::Publish {
            node,
            table,
            relink,
            kick,
        },
        Next::Done(()) => {
            let ending = Ending::Bound { kick };
            BindAt::Closing { ending }
        }
    }
}
