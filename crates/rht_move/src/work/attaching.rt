//! The functions between the states in which a worker looks for the last table and attaches one
//! behind it.

ghost use Rattle.std.specs.Prelude.{◌≡◌, ◌<◌};
ghost use Rattle.rht_nest.specs.Make.{make_after};
ghost use Rattle.rht_nest.specs.Unmake.{unmake_after};
ghost use Rattle.rht_move.specs.LastTable.{last_table_after};
ghost use Rattle.rht_move.specs.Choice.{choice_of};
ghost use Rattle.rht_move.specs.Work.{seeking, last_seen, counted, begun, made, not_made, attached, unmade, future_or_idle, is_later};

use crate::last_table::{Last, LastTable};
use crate::work::choice::{Choice, choice_of};
use crate::work::ending::letting_go;
use crate::work::{Due, Outcome, Wanted, WorkAt};
use rht_nest::{Make, Unmake, is_nested};
use rht_words::{Env, Geometry, Next};

/// The search for the last table, from the current one on.
#[inline(always)]
pub fn seeking(geometry: Geometry, root: u32) -> WorkAt
    requires { root < 8 }
    ensures { result ≡ seeking geometry root }
{
    WorkAt::LastTable {
        root,
        seek: LastTable::new(geometry, root),
    }
}

/// After an operation of that search: once the table is known the ports are counted.
#[inline(always)]
pub fn last_seen(root: u32, seek: LastTable, old: u64) -> WorkAt
    ensures { result ≡ last_seen root (last_table_after seek old).0 (last_table_after seek old).1 }
{
    let (seek, next) = seek.after(old);
    match next {
        Next::Go => WorkAt::LastTable { root, seek },
        Next::Done(last) => WorkAt::Count { root, last },
    }
}

/// After the count of ports was loaded: whether a table is due is chosen.
#[inline(always)]
pub fn counted(env: Env, root: u32, last: Last, count: u64) -> WorkAt
    ensures { result ≡ counted env root last count }
{
    let choice = choice_of(env, count, last.shape, root == last.table);
    begun(env, root, last, choice)
}

/// A table that is due is made, and else the current table is looked at.
#[inline(always)]
pub fn begun(env: Env, root: u32, last: Last, choice: Choice) -> WorkAt
    ensures { result ≡ begun env root last choice }
{
    match choice {
        Choice::Attach { size } => WorkAt::Making {
            wanted: Wanted { root, last, size },
            make: Make::new(env.geometry, size, env.config.seed, false),
        },
        Choice::Later => WorkAt::RootFuture {
            root,
            due: Due::Later,
        },
        Choice::Nothing => WorkAt::RootFuture {
            root,
            due: Due::Nothing,
        },
    }
}

/// After an operation of the making: once the table is made it is attached.
#[inline(always)]
pub fn made(wanted: Wanted, make: Make, old: u64) -> WorkAt
    ensures { result ≡ made wanted (make_after make old).0 (make_after make old).1 }
{
    let (make, next) = make.after(old);
    match next {
        Next::Go => WorkAt::Making { wanted, make },
        Next::Done(Some((slot, shape))) => WorkAt::Attaching {
            root: wanted.root,
            last: wanted.last.table,
            slot,
            shape,
        },
        Next::Done(None) => not_made(wanted),
    }
}

/// Where the table can't be had the call is refused, if the last table is the current one or a
/// nested one. Else the current table's entries can be moved all the same.
#[inline(always)]
pub fn not_made(wanted: Wanted) -> WorkAt
    ensures { result ≡ not_made wanted }
{
    let Wanted { root, last, size } = wanted;
    if root == last.table || is_nested(last.shape) {
        letting_go(Outcome::NoTable { size })
    } else {
        WorkAt::RootFuture {
            root,
            due: Due::Later,
        }
    }
}

/// After the exchange of the last table's future, which was this before: 0 where the new table was
/// attached. Another one than 0 stays, and the new table is given back.
#[inline(always)]
pub fn attached(geometry: Geometry, root: u32, slot: u32, shape: u64, future: u64) -> WorkAt
    requires { slot < 8 }
    ensures { result ≡ attached geometry root slot shape future }
{
    if future == 0 {
        WorkAt::RootFuture {
            root,
            due: Due::Attached,
        }
    } else {
        WorkAt::Unmaking {
            root,
            unmake: Unmake::new(geometry, slot, shape),
        }
    }
}

/// After an operation of the giving back: behind the last one the current table is looked at.
#[inline(always)]
pub fn unmade(root: u32, unmake: Unmake, old: u64) -> WorkAt
    ensures { result ≡ unmade root (unmake_after unmake old).0 (unmake_after unmake old).1 }
{
    let (unmake, next) = unmake.after(old);
    match next {
        Next::Go => WorkAt::Unmaking { root, unmake },
        Next::Done(()) => WorkAt::RootFuture {
            root,
            due: Due::Later,
        },
    }
}

/// A current table with a future is emptied. Where it has none, nothing is to be done.
#[inline(always)]
pub fn future_or_idle(root: u32, due: Due, future: Option<u32>) -> WorkAt
    ensures { result ≡ future_or_idle root due future }
{
    match future {
        Some(future) => WorkAt::RootShape {
            root,
            future,
            again: is_later(due),
        },
        None => letting_go(Outcome::Idle),
    }
}

/// Whether a table is due that isn't attached in this call, so that a further call has something to
/// do.
#[inline(always)]
pub fn is_later(due: Due) -> bool
    ensures { result ≡ is_later due }
{
    match due {
        Due::Nothing | Due::Attached => false,
        Due::Later => true,
    }
}
