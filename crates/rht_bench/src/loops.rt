//! What is timed: the loops of one thread. Each goes once through the thread's ports, and answers
//! how many calls had the reply that they must have.

ghost use Rattle.std.specs.Prelude.{◌≡◌, ◌+◌, ◌*◌, ◌^◌, ◌<◌, ◌≤◌};
ghost use Rattle.rht_bench.specs.Ready.{IsReady};

use crate::clock::Span;
use crate::rows::{Asked, Workload};
use rht_model::Reply;
use rht_policy::Mix;
use rht_run::{Pass, Table};
use rht_words::Port;
use std::rt::Clock;
use std::sync::Wait;
use std::time::Instant;

/// The owner to which each port is bound.
pub const OWNER: u32 = 7;

/// This bit makes the number of another port of a port's number, in the same bucket where the hash is the
/// number itself.
const OTHER: u32 = 1 << 20;

/// A thread has no more ports than these, which is as many as a table can have nodes.
pub const MOST: u32 = 65_536;

/// The ports of a thread, all of one net. No other thread releases one of them, or binds or releases their
/// others.
#[derive(Clone, Copy)]
pub struct Ports {
    /// Their net.
    pub net: u16,
    /// The number of the first one.
    pub first: u32,
    /// How many there are, side by side.
    pub count: u32,
    pub ghost few: { count ≤ 65536 },
}

impl Ports {
    /// The number of the port that stands so far behind the first one.
    #[inline(always)]
    pub fn at(self, index: u32) -> u32
        ensures { self.first + index < 2 ^ 32 → result ≡ self.first + index }
    {
        self.first.wrapping_add(index)
    }

    /// The port of their net with this number.
    #[inline(always)]
    pub fn with(self, number: u32) -> Port {
        Port {
            net: self.net,
            number,
        }
    }

    /// So many of them, of which the first one stands so far behind the first of all.
    fn part(self, index: u32, count: u32) -> Ports
        requires { count ≤ self.count }
        ensures { result.count ≡ count }
    {
        Ports {
            net: self.net,
            first: self.at(index),
            count,
        }
    }
}

/// Goes so many times through the ports. `longest` becomes the longest look-up in nanoseconds, where the
/// look-ups are timed and one of them was longer.
pub fn rounds<M: Mix, R: Wait + Clock>(
    rt: &R,
    table: &Table<M>,
    pass: &mut Pass<M>,
    workload: Workload,
    ports: Ports,
    times: u32,
    longest: &mut u64,
) -> u64
    requires { IsReady M.mix_of table.now pass.old }
{
    let mut right = 0u64;
    for _round in 0..times {
        right += round(rt, table, pass, workload, ports, longest);
    }
    right
}

/// Goes once through the ports.
fn round<M: Mix, R: Wait + Clock>(
    rt: &R,
    table: &Table<M>,
    pass: &mut Pass<M>,
    workload: Workload,
    ports: Ports,
    longest: &mut u64,
) -> u64
    requires { IsReady M.mix_of table.now pass.old }
    ensures ready { IsReady M.mix_of table.now pass.new }
    ensures few { result ≤ 2 * ports.count + 1 }
{
    match workload {
        Workload::Hits
        | Workload::Apart
        | Workload::Common
        | Workload::Resting
        | Workload::Resizing => lookups(table, pass, ports, Asked::Own),
        Workload::Misses => lookups(table, pass, ports, Asked::Others),
        Workload::Mixed => mixed(rt, table, pass, ports),
        Workload::Churn => churn(rt, table, pass, ports),
        Workload::Binds => binds(rt, table, pass, ports),
        Workload::Growth => growth(rt, table, pass, ports),
        Workload::Walks => walked(table, pass),
        Workload::Between => between(rt, table, pass, ports),
        Workload::TimedResting | Workload::TimedResizing => {
            timed(rt, table, pass, ports, longest)
        }
    }
}

/// Looks up the ports, or their others. This is the one place of a loop that calls `find`, which is
/// inlined where there is one alone.
fn lookups<M: Mix>(table: &Table<M>, pass: &mut Pass<M>, ports: Ports, asked: Asked) -> u64
    requires { IsReady M.mix_of table.now pass.old }
    ensures ready { IsReady M.mix_of table.now pass.new }
    ensures few { result ≤ ports.count }
{
    let other = match asked {
        Asked::Own => 0,
        Asked::Others => OTHER,
    };
    let mut right = 0u64;
    for index in 0..ports.count {
        let reply = table.find(pass, ports.with(ports.at(index) | other));
        right += u64::from(is_answer(asked, reply));
    }
    right
}

/// Looks up the ports, and reads the clock before each look-up and behind it.
fn timed<M: Mix, R: Clock>(
    rt: &R,
    table: &Table<M>,
    pass: &mut Pass<M>,
    ports: Ports,
    longest: &mut u64,
) -> u64
    requires { IsReady M.mix_of table.now pass.old }
    ensures ready { IsReady M.mix_of table.now pass.new }
    ensures few { result ≤ ports.count }
{
    let mut right = 0u64;
    for index in 0..ports.count {
        let one = ports.part(index, 1);
        let began = Instant::now(rt).ok();
        right += lookups(table, pass, one, Asked::Own);
        *longest = (*longest).max(nanos_since(rt, began));
    }
    right
}

/// How many nanoseconds went by since then. 0 where the clock can't be read; of such a row nothing is told.
fn nanos_since<R: Clock>(rt: &R, began: Option<Instant>) -> u64 {
    match Span::since(rt, began) {
        Some(span) => span.nanos(),
        None => 0,
    }
}

/// Of twenty calls, binds another port and releases it in two, and looks up bound ports in the rest;
/// and looks up the ports that are left.
fn mixed<M: Mix, R: Wait>(rt: &R, table: &Table<M>, pass: &mut Pass<M>, ports: Ports) -> u64
    requires { IsReady M.mix_of table.now pass.old }
    ensures ready { IsReady M.mix_of table.now pass.new }
    ensures few { result ≤ ports.count }
{
    let mut right = 0u64;
    for block in 0..ports.count / 20 {
        right += twenty(rt, table, pass, ports, block);
    }
    let left = ports.count % 20;
    let rest = ports.part(ports.count - left, left);
    right + lookups(table, pass, rest, Asked::Own)
}

/// The twenty calls of a block.
fn twenty<M: Mix, R: Wait>(
    rt: &R,
    table: &Table<M>,
    pass: &mut Pass<M>,
    ports: Ports,
    block: u32,
) -> u64
    requires ready { IsReady M.mix_of table.now pass.old }
    requires block { block * 20 + 20 ≤ ports.count }
    ensures ready { IsReady M.mix_of table.now pass.new }
    ensures few { result ≤ 20 }
{
    let other = ports.with(ports.first | OTHER);
    let bound = table.bind(rt, pass, other, OWNER);
    let released = table.release(rt, pass, other, OWNER);
    let found = lookups(table, pass, ports.part(block * 20 + 2, 18), Asked::Own);
    u64::from(is_done(bound)) + u64::from(is_done(released)) + found
}

/// Binds a port and releases it again.
fn churn<M: Mix, R: Wait>(rt: &R, table: &Table<M>, pass: &mut Pass<M>, ports: Ports) -> u64
    requires { IsReady M.mix_of table.now pass.old }
    ensures ready { IsReady M.mix_of table.now pass.new }
    ensures few { result ≤ 2 * ports.count }
{
    let mut right = 0u64;
    for index in 0..ports.count {
        let other = ports.with(ports.at(index) | OTHER);
        let bound = table.bind(rt, pass, other, OWNER);
        let released = table.release(rt, pass, other, OWNER);
        right += u64::from(is_done(bound)) + u64::from(is_done(released));
    }
    right
}

/// Binds ports that aren't bound.
pub fn binds<M: Mix, R: Wait>(rt: &R, table: &Table<M>, pass: &mut Pass<M>, ports: Ports) -> u64
    requires { IsReady M.mix_of table.now pass.old }
    ensures ready { IsReady M.mix_of table.now pass.new }
    ensures few { result ≤ ports.count }
{
    let mut right = 0u64;
    for index in 0..ports.count {
        let reply = table.bind(rt, pass, ports.with(ports.at(index)), OWNER);
        right += u64::from(is_bound(reply));
    }
    right
}

/// Binds ports in a table that has to grow. Of the calls only the binds that are done are counted:
/// how many others it takes depends on the other threads.
fn growth<M: Mix, R: Wait>(rt: &R, table: &Table<M>, pass: &mut Pass<M>, ports: Ports) -> u64
    requires { IsReady M.mix_of table.now pass.old }
    ensures ready { IsReady M.mix_of table.now pass.new }
    ensures few { result ≡ ports.count }
{
    for index in 0..ports.count {
        bind_and_grow(rt, table, pass, ports.with(ports.at(index)));
    }
    u64::from(ports.count)
}

/// Walks the whole table.
fn walked<M: Mix>(table: &Table<M>, pass: &mut Pass<M>) -> u64
    requires { IsReady M.mix_of table.now pass.old }
    ensures ready { IsReady M.mix_of table.now pass.new }
    ensures few { result ≤ 1 }
{
    let reply = table.walk(pass, None, MOST);
    u64::from(is_done(reply))
}

/// Walks the whole table. Then it binds other ports and releases them, one for each twenty of its own.
fn between<M: Mix, R: Wait>(rt: &R, table: &Table<M>, pass: &mut Pass<M>, ports: Ports) -> u64
    requires { IsReady M.mix_of table.now pass.old }
    ensures ready { IsReady M.mix_of table.now pass.new }
    ensures few { result ≤ 2 * ports.count + 1 }
{
    let shown = walked(table, pass);
    shown + churn(rt, table, pass, ports.part(0, ports.count / 20))
}

/// Binds a port, where it is refused again and again, and works on the table where the reply asks for
/// that.
fn bind_and_grow<M: Mix, R: Wait>(rt: &R, table: &Table<M>, pass: &mut Pass<M>, port: Port)
    requires { IsReady M.mix_of table.now pass.old }
    ensures { IsReady M.mix_of table.now pass.new }
{
    for _ in rt.forever() {
        let reply = table.bind(rt, pass, port, OWNER);
        if is_bound(reply) {
            grow_if_told(rt, table, pass, reply);
            return;
        }
        grow(rt, table, pass);
    }
    unreachable!()
}

/// Works on the table where the reply of a bind says that there is something to do.
fn grow_if_told<M: Mix, R: Wait>(rt: &R, table: &Table<M>, pass: &mut Pass<M>, reply: Reply)
    requires { IsReady M.mix_of table.now pass.old }
    ensures { IsReady M.mix_of table.now pass.new }
{
    if let Reply::Bound { kick: true } = reply {
        grow(rt, table, pass);
        return;
    }
}

/// Works on the table until there is no more to do, or another thread is at it. No such call binds.
fn grow<M: Mix, R: Wait>(rt: &R, table: &Table<M>, pass: &mut Pass<M>)
    requires { IsReady M.mix_of table.now pass.old }
    ensures { IsReady M.mix_of table.now pass.new }
{
    for _ in rt.forever() {
        if table.work(rt, pass) != (Reply::Moved { again: true }) {
            return;
        }
    }
    unreachable!()
}

/// Whether a look-up of these ports has the reply that it must have.
#[inline(always)]
fn is_answer(asked: Asked, reply: Reply) -> bool {
    match asked {
        Asked::Own => is_found(reply),
        Asked::Others => is_missing(reply),
    }
}

/// Whether the port was found bound to its owner.
#[inline(always)]
fn is_found(reply: Reply) -> bool {
    match reply {
        Reply::Found { owner } => owner == OWNER,
        _ => false,
    }
}

/// Whether the port wasn't bound.
#[inline(always)]
fn is_missing(reply: Reply) -> bool {
    matches!(reply, Reply::Missing)
}

/// Whether the port was bound by this call.
#[inline(always)]
fn is_bound(reply: Reply) -> bool {
    matches!(reply, Reply::Bound { .. })
}

/// Whether the call has found, bound or released what it was asked to, or has walked to the table's end.
#[inline(always)]
fn is_done(reply: Reply) -> bool {
    match reply {
        Reply::Found { owner } => owner == OWNER,
        Reply::Bound { .. } | Reply::Released { .. } | Reply::Walked { next: None, .. } => true,
        _ => false,
    }
}
