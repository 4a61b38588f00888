//! Threads that meet in a table. One resizes it while another one binds; two make a nested table and enter its pages; and
//! two make their calls operation by operation, in one bucket. Each has ports of its own, so its replies are the same in every order.

ghost use Rattle.std.specs.Prelude.{◌≡◌, true};
ghost use Rattle.rht_core.specs.Locals.{is_idle};
ghost use Rattle.rht_core.specs.Runs.{IsAdmittedCall};
ghost use Rattle.rht_run.specs.Passes.{IsPassOf};

use crate::asked::{Asked, Row, assert_rows, replies, shows};
use crate::asserts::{SMALL, assert_same};
use crate::library::pair;
use rht_model::{Call, Reply};
use rht_policy::{Low, Mix};
use rht_run::{Pass, Table};
use rht_words::{Config, Port, word_of};
use std::alloc::Global;
use std::hint::spin_loop;
use std::process::Abort;
use std::sync::Wait;
use std::sync::atomic::{AtomicBool, AtomicU32, Ordering};
use std::test::Fail;
use std::thread::{Threads, join};

/// How often a thread looks whether the other one has come, at most.
const PATIENCE: u32 = 100_000;

/// How often it works while the other one binds, at most.
const MOST_WORKS: u32 = 10_000_000;

const BOUND: Reply = Reply::Bound { kick: false };

/// Two threads wait here for one another before they begin. One that binds sets the flag when it has bound.
#[derive(Drop)]
struct Meeting {
    arrived: AtomicU32,
    has_bound: AtomicBool,
}

impl Meeting {
    fn new() -> Meeting {
        Meeting {
            arrived: AtomicU32::new(0),
            has_bound: AtomicBool::new(false),
        }
    }

    /// Waits for the other thread, and not for ever.
    fn wait(&self) {
        self.arrived.fetch_add(1, Ordering::SeqCst);
        for _ in 0..PATIENCE {
            if self.arrived.load(Ordering::SeqCst) > 1 {
                return;
            }
            spin_loop();
        }
    }
}

/// How a thread makes its calls: each as a command, or each by one operation after another.
#[derive(Clone, Copy)]
enum Way {
    Commands,
    Operations,
}

/// What a thread does.
#[derive(Clone, Copy)]
enum Task {
    /// Binds the ports below this number.
    Binds {
        ports: u32,
    },
    /// Works until the other thread has bound, and nothing is left to do.
    Works,
    /// Turns, the first with this port, and each further one with a port that is greater by `apart`.
    Turns {
        first: u32,
        apart: u32,
        times: u32,
        way: Way,
    },
}

/// The numbers of a call are in the ranges of their types, which its clause alone says.
fn in_range(call: Call)
    ensures { IsAdmittedCall call }
{
    let _ = match call {
        Call::Bind { port, .. }
        | Call::Find { port }
        | Call::All { port }
        | Call::Release { port, .. }
        | Call::Rebind { port, .. } => word_of(port),
        Call::Walk { .. } | Call::Work | Call::Tidy | Call::Count => 0,
    };
}

/// Makes a call by one operation after another.
fn stepped<M: Mix, R: Wait>(rt: &R, table: &Table<M>, pass: &mut Pass<M>, call: Call) -> Reply
    requires pass { IsPassOf M.mix_of table.now pass.old }
    requires idle { is_idle pass.old.local ≡ true }
    ensures pass { IsPassOf M.mix_of table.now pass.new }
    ensures idle { is_idle pass.new.local ≡ true }
{
    let same = call;
    in_range(same);
    if let Some(reply) = table.start(pass, call) {
        return reply;
    }
    for _ in rt.forever() {
        if let Some(reply) = table.step(pass) {
            return reply;
        }
    }
    unreachable!()
}

/// Makes a call in this way.
fn made<M: Mix, R: Wait>(
    rt: &R,
    table: &Table<M>,
    pass: &mut Pass<M>,
    call: Call,
    way: Way,
) -> Reply
    requires pass { IsPassOf M.mix_of table.now pass.old }
    requires idle { is_idle pass.old.local ≡ true }
    ensures pass { IsPassOf M.mix_of table.now pass.new }
    ensures idle { is_idle pass.new.local ≡ true }
{
    match way {
        Way::Commands => table.serve(rt, pass, call, false),
        Way::Operations => stepped(rt, table, pass, call),
    }
}

/// The reply, as if no bind had asked for work.
fn without_kick(reply: Reply) -> Reply {
    match reply {
        Reply::Bound { .. } => BOUND,
        reply => reply,
    }
}

/// The calls are made one after another, and have these replies.
fn make_all<M: Mix, R: Abort + Wait>(
    rt: &R,
    table: &Table<M>,
    pass: &mut Pass<M>,
    calls: &[(Call, Reply)],
    way: Way,
)
    requires pass { IsPassOf M.mix_of table.now pass.old }
    requires idle { is_idle pass.old.local ≡ true }
    ensures pass { IsPassOf M.mix_of table.now pass.new }
    ensures idle { is_idle pass.new.local ≡ true }
{
    for i in 0..calls.len() {
        let (call, want) = calls[i];
        let found = made(rt, table, pass, call, way);
        assert_same(rt, (i, without_kick(found)), (i, want));
    }
}

/// A port is bound, handed on and taken out, and looked up after each of these.
fn turn<M: Mix, R: Abort + Wait>(rt: &R, table: &Table<M>, pass: &mut Pass<M>, port: Port, way: Way)
    requires pass { IsPassOf M.mix_of table.now pass.old }
    requires idle { is_idle pass.old.local ≡ true }
    ensures pass { IsPassOf M.mix_of table.now pass.new }
    ensures idle { is_idle pass.new.local ≡ true }
{
    let bind = Call::Bind {
        port,
        owner: 1,
        once: false,
    };
    let rebind = Call::Rebind {
        port,
        owner: 1,
        new: 2,
    };
    let release = Call::Release { port, owner: 2 };
    let calls = [
        (bind, BOUND),
        (Call::Find { port }, Reply::Found { owner: 1 }),
        (rebind, Reply::Rebound),
        (Call::Find { port }, Reply::Found { owner: 2 }),
        (release, Reply::Released { kick: false }),
        (Call::Find { port }, Reply::Missing),
    ];
    make_all(rt, table, pass, &calls, way);
}

/// Does what the thread is to do.
fn done<M: Mix, R: Abort + Wait>(
    rt: &R,
    table: &Table<M>,
    meeting: &Meeting,
    mut pass: Pass<M>,
    task: Task,
) -> Pass<M>
    requires pass { IsPassOf M.mix_of table.now pass }
    requires idle { is_idle pass.local ≡ true }
    ensures pass { IsPassOf M.mix_of table.now result }
    ensures idle { is_idle result.local ≡ true }
{
    meeting.wait();
    match task {
        Task::Binds { ports } => {
            bind_all(rt, table, &mut pass, ports);
            meeting.has_bound.store(true, Ordering::SeqCst);
        }
        Task::Works => work_off(rt, table, meeting, &mut pass),
        Task::Turns {
            first,
            apart,
            times,
            way,
        } => turns(rt, table, &mut pass, (first, apart, times), way),
    }
    pass
}

/// Binds the ports below this number to owner 1.
fn bind_all<M: Mix, R: Abort + Wait>(rt: &R, table: &Table<M>, pass: &mut Pass<M>, ports: u32)
    requires pass { IsPassOf M.mix_of table.now pass.old }
    requires idle { is_idle pass.old.local ≡ true }
    ensures pass { IsPassOf M.mix_of table.now pass.new }
    ensures idle { is_idle pass.new.local ≡ true }
{
    for number in 0..ports {
        let found = table.bind(rt, pass, Port::plain(number), 1);
        assert_same(rt, (number, without_kick(found)), (number, BOUND));
    }
}

/// Works until the other thread has bound, and nothing is left to do.
fn work_off<M: Mix, R: Wait>(rt: &R, table: &Table<M>, meeting: &Meeting, pass: &mut Pass<M>)
    requires pass { IsPassOf M.mix_of table.now pass.old }
    requires idle { is_idle pass.old.local ≡ true }
    ensures pass { IsPassOf M.mix_of table.now pass.new }
    ensures idle { is_idle pass.new.local ≡ true }
{
    for _ in 0..MOST_WORKS {
        let has_bound = meeting.has_bound.load(Ordering::SeqCst);
        let reply = table.work(rt, pass);
        if has_bound && reply == Reply::Idle {
            return;
        }
    }
}

/// Makes turns: the first port, how far the ports are apart, and the number of turns.
fn turns<M: Mix, R: Abort + Wait>(
    rt: &R,
    table: &Table<M>,
    pass: &mut Pass<M>,
    from: (u32, u32, u32),
    way: Way,
)
    requires pass { IsPassOf M.mix_of table.now pass.old }
    requires idle { is_idle pass.old.local ≡ true }
    ensures pass { IsPassOf M.mix_of table.now pass.new }
    ensures idle { is_idle pass.new.local ≡ true }
{
    let (first, apart, times) = from;
    for i in 0..times {
        let number = first.wrapping_add(apart.wrapping_mul(i));
        turn(rt, table, pass, Port::plain(number), way);
    }
}

/// Two threads do so at the same time, each with a pass of its own.
fn both<M: Mix + Send + Sync, R: Threads + Wait + Abort + Sync>(
    rt: &R,
    table: &Table<M>,
    first: Pass<M>,
    second: Pass<M>,
    one: Task,
    other: Task,
) -> (Pass<M>, Pass<M>)
    requires first { IsPassOf M.mix_of table.now first × (is_idle first.local ≡ true) }
    requires second { IsPassOf M.mix_of table.now second × (is_idle second.local ≡ true) }
    ensures first { IsPassOf M.mix_of table.now result.0 × (is_idle result.0.local ≡ true) }
{
    let meeting = Meeting::new();
    let met = &meeting;
    join(
        rt,
        move || done(rt, table, met, first, one),
        move || done(rt, table, met, second, other),
    )
}

/// Two threads do these tasks in a new table, in which the first one has bound the ports below `ports` before. Then the
/// calls of the first one's pass have the replies of the rows.
fn assert_met<R: Threads + Wait + Abort + Sync>(
    rt: &R,
    alloc: Global,
    config: Config,
    ports: u32,
    tasks: (Task, Task),
    rows: &[Row<'_>],
) -> Result<(), Fail> {
    assert!(rt; config.is_settled());
    let (table, passes) = Table::<Low>::open(alloc, config)?;
    let (first, second) = pair(&table, passes).ok_or("two passes")?;
    let mut first = first;
    bind_all(rt, &table, &mut first, ports);
    let (mut first, _) = both(rt, &table, first, second, tasks.0, tasks.1);
    assert_rows(rt, &table, &mut first, rows);
    Ok(())
}

/// One thread binds 60 ports in a table of 4 buckets. The other one resizes it meanwhile, up to 128 buckets.
#[test]
fn a_table_grows_while_ports_are_bound(rt: HostRuntime) -> Result<(), Fail> {
    let config = Config {
        nodes: 64,
        pages: 16,
        callers: 2,
        hint: 3,
        ..SMALL
    };
    // A port's bucket is its number.
    let mut pairs = Vec::new(rt.alloc());
    for port in 0..60u64 {
        pairs.push((port, 1u32))?;
    }
    let walk = Asked::Walk {
        from: None,
        limit: 64,
    };
    let walked = Reply::Walked {
        len: 60,
        next: None,
    };
    let rows = [
        replies(Asked::Work, Reply::Idle),
        replies(Asked::Count, Reply::Counted { count: 60 }),
        shows(walk, walked, pairs.as_slice()),
    ];
    let tasks = (Task::Binds { ports: 60 }, Task::Works);
    for _ in 0..100 {
        assert_met(&rt, rt.alloc(), config, 0, tasks, &rows)?;
    }
    Ok(())
}

/// The first table has 128 buckets in two of 7 pages, and 129 ports. There is no row of four pages for a second one, so who
/// binds next makes it nested. Its top page and those of two entries are taken then: the ports of the two threads are
/// even, and the last two bits of a bucket's number pick the entry.
#[test]
fn a_nested_table_is_made_and_entered_by_two(rt: HostRuntime) -> Result<(), Fail> {
    let config = Config {
        nodes: 256,
        pages: 7,
        callers: 2,
        hint: 96,
        ..SMALL
    };
    let from = |first| Task::Turns {
        first,
        apart: 6,
        times: 20,
        way: Way::Commands,
    };
    let rows = [
        replies(Asked::Work, Reply::NoTable { size: 256 }),
        replies(Asked::Count, Reply::Counted { count: 129 }),
        replies(Asked::Find { port: 128 }, Reply::Found { owner: 1 }),
        replies(Asked::Find { port: 1000 }, Reply::Missing),
    ];
    for _ in 0..100 {
        assert_met(
            &rt,
            rt.alloc(),
            config,
            129,
            (from(1000), from(1002)),
            &rows,
        )?;
    }
    Ok(())
}

/// Ports 5 and 69 have bucket 5 of 64, so a thread may find the bucket locked by the other one, and looks again. A turn takes
/// two nodes out, and none comes back before the tidying.
#[test]
fn two_threads_go_operation_by_operation(rt: HostRuntime) -> Result<(), Fail> {
    let config = Config {
        nodes: 1024,
        callers: 2,
        ..SMALL
    };
    let from = |first| Task::Turns {
        first,
        apart: 0,
        times: 200,
        way: Way::Operations,
    };
    let rows = [
        replies(Asked::Tidy, Reply::Clear { returned: 400 }),
        replies(Asked::Count, Reply::Counted { count: 0 }),
        replies(Asked::Find { port: 5 }, Reply::Missing),
    ];
    for _ in 0..20 {
        assert_met(&rt, rt.alloc(), config, 0, (from(5), from(69)), &rows)?;
    }
    Ok(())
}
