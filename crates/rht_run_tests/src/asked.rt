//! Calls as the rows of the tests have them, and the function that makes any of them. A port is its key word,
//! which is its number where it is of net 0.

ghost use Rattle.std.specs.Prelude.{◌≡◌, true};
ghost use Rattle.rht_core.specs.Locals.{is_idle};
ghost use Rattle.rht_run.specs.Passes.{IsPassOf};

use crate::asserts::{assert_pairs, assert_same};
use rht_model::{Call, Cursor, Reply};
use rht_policy::Mix;
use rht_run::{Pass, Table};
use rht_words::port_of;
use std::process::Abort;
use std::sync::Wait;

/// A call of a table.
#[derive(Clone, Copy)]
pub enum Asked {
    Bind { port: u64, owner: u32 },
    BindOnce { port: u64, owner: u32 },
    Find { port: u64 },
    All { port: u64 },
    Release { port: u64, owner: u32 },
    Rebind { port: u64, owner: u32, new: u32 },
    Walk { from: Option<Cursor>, limit: u32 },
    Work,
    Tidy,
    Count,
    /// A bind as a command, with the work that its reply asks for where `auto` is set.
    Command { port: u64, owner: u32, auto: bool },
}

/// Makes the call. Of all that its clauses say, only what the next call needs is known afterwards.
pub fn ask<M: Mix, R: Wait>(rt: &R, table: &Table<M>, pass: &mut Pass<M>, asked: Asked) -> Reply
    requires pass { IsPassOf M.mix_of table.now pass.old }
    requires idle { is_idle pass.old.local ≡ true }
    ensures { IsPassOf M.mix_of table.now pass.new × (is_idle pass.new.local ≡ true) }
{
    match asked {
        Asked::Bind { port, owner } => table.bind(rt, pass, port_of(port), owner),
        Asked::BindOnce { port, owner } => table.bind_once(rt, pass, port_of(port), owner),
        Asked::Find { port } => table.find(pass, port_of(port)),
        Asked::All { port } => table.all(rt, pass, port_of(port)),
        Asked::Release { port, owner } => table.release(rt, pass, port_of(port), owner),
        Asked::Rebind { port, owner, new } => table.rebind(rt, pass, port_of(port), owner, new),
        Asked::Walk { from, limit } => table.walk(pass, from, limit),
        Asked::Work => table.work(rt, pass),
        Asked::Tidy => table.tidy(pass),
        Asked::Count => table.count(pass),
        Asked::Command { port, owner, auto } => {
            let call = Call::Bind {
                port: port_of(port),
                owner,
                once: false,
            };
            table.serve(rt, pass, call, auto)
        }
    }
}

/// A call, the reply that is wanted, and the owners and the pairs that its pass is to have then.
#[derive(Clone, Copy)]
pub struct Row<'a> {
    asked: Asked,
    reply: Reply,
    owners: &'a [u32],
    pairs: &'a [(u64, u32)],
}

/// The call has this reply, and leaves its pass without owners and pairs.
pub fn replies(asked: Asked, reply: Reply) -> Row<'static> {
    Row {
        asked,
        reply,
        owners: &[],
        pairs: &[],
    }
}

/// A listing tells these owners.
pub fn lists<'a>(port: u64, len: u32, owners: &'a [u32]) -> Row<'a> {
    Row {
        asked: Asked::All { port },
        reply: Reply::Listed { len },
        owners,
        pairs: &[],
    }
}

/// A walk shows these pairs.
pub fn shows<'a>(asked: Asked, reply: Reply, pairs: &'a [(u64, u32)]) -> Row<'a> {
    Row {
        asked,
        reply,
        owners: &[],
        pairs,
    }
}

/// Asserts that the calls, made one after another, do as the rows say.
pub fn assert_rows<M: Mix, R: Abort + Wait>(
    rt: &R,
    table: &Table<M>,
    pass: &mut Pass<M>,
    rows: &[Row<'_>],
)
    requires pass { IsPassOf M.mix_of table.now pass.old }
    requires idle { is_idle pass.old.local ≡ true }
    ensures pass { IsPassOf M.mix_of table.now pass.new }
    ensures idle { is_idle pass.new.local ≡ true }
{
    for i in 0..rows.len() {
        let row = rows[i];
        let found = ask(rt, table, pass, row.asked);
        assert_same(rt, (i, found), (i, row.reply));
        assert_same(rt, (i, pass.owners()), (i, row.owners));
        assert_pairs(rt, pass.pairs(), row.pairs);
    }
}
