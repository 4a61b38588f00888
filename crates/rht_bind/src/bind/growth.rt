//! What a bind does that finds its table full: it makes a further one and attaches it.

ghost use Rattle.std.specs.Prelude.{◌≡◌, ◌<◌};
ghost use Rattle.rht_words.specs.Planned.{IsWord};
ghost use Rattle.rht_nest.specs.Make.{make_after};
ghost use Rattle.rht_nest.specs.Unmake.{unmake_after};
ghost use Rattle.rht_bind.specs.Growing.{unlocking_full, making, want_or_busy, made, reply_of, ended_attempt, behind_attempt, refused_or_found, checked_attach, unmade};

use super::{Attempt, BindAt, Claimed, Ending, answering};
use rht_chain::Unlock;
use rht_model::Reply;
use rht_nest::{Make, Unmake};
use rht_policy::above_75;
use rht_words::{Env, Next, Shape, table_of};

/// Why no further node goes into a table.
#[derive(Clone, Copy, Debug, PartialEq, Eq)]
pub enum Full {
    /// The chain of the port's bucket has 16 nodes or more.
    Chain,
    /// There are more ports than buckets, and the table may grow.
    Table,
}

/// What a bind keeps that wants a further table.
#[derive(Clone, Copy, Debug, PartialEq, Eq)]
pub struct Growing {
    /// Its node, and whether it has attached a table already.
    pub attempt: Attempt,
    /// The slot of the last table that it has walked.
    pub table: u32,
    /// That table's shape.
    pub shape: u64,
    /// Why its node doesn't go into that table.
    pub why: Full,
}

/// Why a bind is refused that wants a further table, unless another caller has attached one.
#[derive(Clone, Copy, Debug, PartialEq, Eq)]
pub enum Refusal {
    /// The last table that it has walked isn't the current one, which is in slot `root`.
    Busy { root: u32 },
    /// No slot was free for a table of this size, or no pages, neither for a flat one nor for a nested
    /// one where that might be made.
    NoTable { size: u32 },
}

impl Refusal {
    /// The refusal of a bind that has walked the table in this slot last.
    #[inline(always)]
    pub fn reply(self, last: u32) -> Reply
        ensures { result ≡ reply_of self last }
    {
        match self {
            Refusal::Busy { root } => Reply::Busy { root, last },
            Refusal::NoTable { size } => Reply::NoTable { size },
        }
    }
}

/// The unlocking of a bucket into which the node doesn't go.
#[inline(always)]
pub fn unlocking_full(claimed: Claimed, why: Full) -> BindAt
    ensures { result ≡ unlocking_full claimed why }
{
    let Claimed {
        attempt,
        table,
        shape,
        bucket,
    } = claimed;
    BindAt::UnlockingFull {
        growing: Growing {
            attempt,
            table,
            shape,
            why,
        },
        unlock: Unlock::new(bucket.place, bucket.word),
    }
}

/// The making of a table of this size.
#[inline(always)]
pub fn making(env: Env, growing: Growing, size: u32) -> BindAt
    ensures { result ≡ making env growing size }
{
    BindAt::Making {
        growing,
        size,
        make: Make::new(env.geometry, size, env.config.seed, true),
    }
}

/// After the count of ports was loaded. Above three quarters a table of twice the size is wanted.
/// Else another seed is to do, for which the last table that was walked has to be the current one,
/// the table in slot `root`. The count is cut to the most ports that there can be, which no run
/// passes.
#[inline(always)]
pub fn want_or_busy(env: Env, growing: Growing, root: u32, count: u64) -> BindAt
    ensures { result ≡ want_or_busy env growing root count }
{
    let size = Shape::from(growing.shape).size();
    if above_75(count.min(65_536), size, env.config.max) {
        making(env, growing, 2 * size)
    } else if root != growing.table {
        let refusal = Refusal::Busy { root };
        BindAt::FutureAgain { growing, refusal }
    } else {
        making(env, growing, size)
    }
}

/// After an operation of the making of a table: one that was made is attached.
#[inline(always)]
pub(super) fn made(growing: Growing, size: u32, make: Make, old: u64) -> BindAt
    ensures { result ≡ made growing size (make_after make old).0 (make_after make old).1 }
{
    let (make, next) = make.after(old);
    match next {
        Next::Go => BindAt::Making {
            growing,
            size,
            make,
        },
        Next::Done(Some((slot, shape))) => BindAt::Attaching {
            growing,
            slot,
            shape,
        },
        Next::Done(None) => BindAt::FutureAgain {
            growing,
            refusal: Refusal::NoTable { size },
        },
    }
}

/// With a future table in this slot a bind that tries but once has its answer. Another begins anew,
/// and has none.
#[inline(always)]
pub fn ended_attempt(once: bool, table: u32) -> Option<Reply>
    ensures { result ≡ ended_attempt once table }
{
    if once {
        Some(Reply::Again { table })
    } else {
        None
    }
}

/// Behind an attempt the section is closed. Then the node is given back where there is an answer, and
/// else the bind begins anew with it.
#[inline(always)]
pub fn behind_attempt(attempt: Attempt, answer: Option<Reply>) -> BindAt
    ensures { result ≡ behind_attempt attempt answer }
{
    match answer {
        Some(reply) => answering(attempt.node, reply),
        None => {
            let ending = Ending::Anew { attempt };
            BindAt::Closing { ending }
        }
    }
}

/// After the future of the last table was loaded again: the refusal stands where there is none yet.
#[inline(always)]
pub fn refused_or_found(
    once: bool,
    growing: Growing,
    refusal: Refusal,
    future: Option<u32>,
) -> BindAt
    ensures { result ≡ refused_or_found once growing refusal future }
{
    match future {
        Some(table) => behind_attempt(growing.attempt, ended_attempt(once, table)),
        None => answering(growing.attempt.node, refusal.reply(growing.table)),
    }
}

/// After the exchange that attaches the table of this slot and shape, which found this word. Where
/// another caller has attached one before, that one counts and this is given back.
#[inline(always)]
pub fn checked_attach(
    env: Env,
    once: bool,
    growing: Growing,
    slot: u32,
    shape: u64,
    found: u64,
) -> BindAt
    requires { slot < 8 }
    ensures { result ≡ checked_attach env once growing slot shape found }
{
    if found == 0 {
        let attempt = Attempt {
            attached: true,
            ..growing.attempt
        };
        behind_attempt(attempt, ended_attempt(once, slot))
    } else {
        BindAt::Unmaking {
            attempt: growing.attempt,
            unmake: Unmake::new(env.geometry, slot, shape),
            answer: ended_attempt(once, table_of(found - 1)),
        }
    }
}

/// After an operation of the giving back of the table.
#[inline(always)]
pub(super) fn unmade(attempt: Attempt, unmake: Unmake, answer: Option<Reply>, old: u64) -> BindAt
    ensures { result ≡ unmade attempt answer (unmake_after unmake old).0 (unmake_after unmake old).1 }
{
    let (unmake, next) = unmake.after(old);
    match next {
        Next::Go => BindAt::Unmaking {
            attempt,
            unmake,
            answer,
        },
        Next::Done(()) => behind_attempt(attempt, answer),
    }
}
