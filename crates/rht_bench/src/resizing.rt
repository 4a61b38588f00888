//! What the thread does that resizes a table while others look up. It binds ports of its own until a reply
//! asks for work, works, releases them until a reply asks for work, and works again.

ghost use Rattle.std.specs.Prelude.{◌≤◌};
ghost use Rattle.rht_bench.specs.Ready.{IsReady};

use crate::gate::Gate;
use crate::loops::{OWNER, Ports};
use rht_model::Reply;
use rht_policy::Mix;
use rht_run::{Pass, Table};
use std::sync::Wait;

/// So many turns are made, also where the others have done their calls before.
const LEAST_TURNS: u32 = 4;

/// After so many turns the others are waited for no longer.
const MOST_TURNS: u32 = 1 << 31;

/// After so many works in a row the thread goes on, also where there is more to do.
const MOST_WORKS: u32 = 64;

/// Resizes the table turn by turn, until so many other threads have left the gate. It answers how many
/// works have made another table the current one.
pub fn resize<M: Mix, R: Wait>(
    rt: &R,
    table: &Table<M>,
    pass: &mut Pass<M>,
    ports: Ports,
    gate: &Gate,
    others: u32,
) -> u64
    requires { IsReady M.mix_of table.now pass.old }
{
    let mut bound = 0u32;
    let mut moved = 0u64;
    for turn in 0..MOST_TURNS {
        if turn >= LEAST_TURNS && gate.is_left_by(others) {
            return moved;
        }
        bound = bind_on(rt, table, pass, ports, bound);
        moved += work_on(rt, table, pass);
        bound = release_on(rt, table, pass, ports, bound);
        moved += work_on(rt, table, pass);
        table.tidy(pass);
    }
    moved
}

/// Of the ports so many are bound. Binds more of them, until a reply asks for work or none is left, and
/// answers how many are bound then.
fn bind_on<M: Mix, R: Wait>(
    rt: &R,
    table: &Table<M>,
    pass: &mut Pass<M>,
    ports: Ports,
    bound: u32,
) -> u32
    requires ready { IsReady M.mix_of table.now pass.old }
    requires bound { bound ≤ ports.count }
    ensures ready { IsReady M.mix_of table.now pass.new }
    ensures bound { result ≤ ports.count }
{
    for index in bound..ports.count {
        let reply = table.bind(rt, pass, ports.with(ports.at(index)), OWNER);
        if reply != (Reply::Bound { kick: false }) {
            return index + 1;
        }
    }
    ports.count
}

/// Of the ports so many are bound. Releases the last ones, until a reply asks for work or none is bound, and
/// answers how many are bound then.
fn release_on<M: Mix, R: Wait>(
    rt: &R,
    table: &Table<M>,
    pass: &mut Pass<M>,
    ports: Ports,
    bound: u32,
) -> u32
    requires ready { IsReady M.mix_of table.now pass.old }
    requires bound { bound ≤ ports.count }
    ensures ready { IsReady M.mix_of table.now pass.new }
    ensures bound { result ≤ ports.count }
{
    for index in (0..bound).rev() {
        let reply = table.release(rt, pass, ports.with(ports.at(index)), OWNER);
        if reply != (Reply::Released { kick: false }) {
            return index;
        }
    }
    0
}

/// Works until there is no more to do, and answers how many works have made another table the current one.
fn work_on<M: Mix, R: Wait>(rt: &R, table: &Table<M>, pass: &mut Pass<M>) -> u64
    requires { IsReady M.mix_of table.now pass.old }
    ensures ready { IsReady M.mix_of table.now pass.new }
    ensures few { result ≤ 64 }
{
    let mut moved = 0u64;
    for _work in 0..MOST_WORKS {
        let reply = table.work(rt, pass);
        moved += u64::from(is_moved(reply));
        if reply != (Reply::Moved { again: true }) {
            return moved;
        }
    }
    moved
}

/// Whether the work has made another table the current one, or has stopped before a nested one.
fn is_moved(reply: Reply) -> bool {
    matches!(reply, Reply::Moved { .. })
}
