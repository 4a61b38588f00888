//! How a row is measured: a table is opened, each thread has ports of its own, and reads the clock when
//! all threads have come to a gate, and when it has done its calls. Beside them one thread more may resize
//! the table.

ghost use Rattle.std.specs.Prelude.{All, IfOk, IfSome};
ghost use Rattle.rht_bench.specs.Ready.{IsReady};
ghost use Rattle.rht_bench.specs.Jobs.{IsReadyJob};

use crate::clock::Span;
use crate::gate::Gate;
use crate::loops::{MOST, Ports, binds, rounds};
use crate::resizing::resize;
use crate::rows::{Row, Workload};
use rht_policy::Mix;
use rht_run::{Pass, Table};
use std::alloc::{AllocError, Global};
use std::rt::Clock;
use std::sync::Wait;
use std::thread::Threads;
use std::time::Instant;
use std::{io, thread};

/// What was measured of a row.
#[derive(Clone, Copy)]
pub struct Measured {
    /// How many calls had the reply that they must have.
    pub calls: u64,
    /// From the first beginning of a thread to the last end of one, in all tables.
    pub nanos: u64,
    /// How many works of a thread beside those made another table the current one.
    pub moved: u64,
    /// The longest look-up in nanoseconds. 0 where none was timed.
    pub longest: u64,
}

impl Measured {
    /// What was measured in one table, and in another one.
    fn with(self, other: Measured) -> Measured {
        Measured {
            calls: self.calls.saturating_add(other.calls),
            nanos: self.nanos.saturating_add(other.nanos),
            moved: self.moved.saturating_add(other.moved),
            longest: self.longest.max(other.longest),
        }
    }

    /// Hundredths of a nanosecond a call.
    pub fn hundredths_a_call(self) -> u64 {
        self.nanos.saturating_mul(100) / self.calls.max(1)
    }
}

/// What one thread has to do.
#[derive(Drop)]
pub struct Job<M: Mix> {
    /// Its pass.
    pub pass: Pass<M>,
    /// Its ports.
    pub ports: Ports,
}

/// What one thread has done.
#[derive(Drop)]
pub struct Worked<M: Mix> {
    /// Its pass.
    pub pass: Pass<M>,
    /// How many calls had the reply that they must have.
    pub right: u64,
    /// The longest look-up in nanoseconds. 0 where none was timed.
    pub longest: u64,
    /// From when to when. `None` where the clock can't be read.
    pub span: Option<Span>,
}

/// Measures a row, one table after another.
pub fn measure<M: Mix + Send + Sync, R: Threads + Wait + Sync + Clock>(
    rt: &R,
    alloc: Global,
    row: Row,
) -> io::Result<Measured> {
    let mut all = Measured {
        calls: 0,
        nanos: 0,
        moved: 0,
        longest: 0,
    };
    for _table in 0..row.tables {
        all = all.with(measure_once::<M, R>(rt, alloc, row)?);
    }
    Ok(all)
}

/// Measures a row in one table.
fn measure_once<M: Mix + Send + Sync, R: Threads + Wait + Sync + Clock>(
    rt: &R,
    alloc: Global,
    row: Row,
) -> io::Result<Measured> {
    if !row.config.is_settled() {
        return Err(io::Error::from(io::ErrorKind::InvalidInput));
    }
    let (table, mut passes) = Table::<M>::open(alloc, row.config)?;
    let beside = resizer(&table, &mut passes, row);
    let jobs = share_out(rt, alloc, &table, passes, row)?;
    let gate = Gate::new(row.config.callers);
    let (worked, moved) = work_all(rt, &table, &gate, jobs, beside, row)?;
    if row.workload.is_resized() && moved == 0 {
        return Err(io::Error::from(io::ErrorKind::InvalidData));
    }
    match span_of(&worked) {
        Some(span) => Ok(Measured {
            calls: right_of(&worked),
            nanos: span.nanos(),
            moved,
            longest: longest_of(&worked),
        }),
        None => Err(io::Error::from(io::ErrorKind::Unsupported)),
    }
}

/// What the thread has to do that resizes the table, where the row has one. It has the last pass, and twice
/// as many ports as are bound: so many that the table grows, wherever its size was.
fn resizer<M: Mix>(table: &Table<M>, passes: &mut Vec<Pass<M>>, row: Row) -> Option<Job<M>>
    requires { All (IsReady M.mix_of table.now) passes.old.items }
    ensures passes { All (IsReady M.mix_of table.now) passes.new.items }
    ensures job { IfSome result (IsReadyJob M.mix_of table.now) }
{
    if !row.workload.is_resized() {
        return None;
    }
    let pass = passes.pop()?;
    let ports = Ports {
        net: row.net,
        first: row.ports,
        count: row.ports.saturating_mul(2).min(MOST),
    };
    Some(Job { pass, ports })
}

/// Gives each pass its share of the ports, or all of them, and binds them where they are to be bound. What
/// another pass has bound already stays so.
fn share_out<M: Mix, R: Wait>(
    rt: &R,
    alloc: Global,
    table: &Table<M>,
    mut passes: Vec<Pass<M>>,
    row: Row,
) -> Result<Vec<Job<M>>, AllocError>
    requires { All (IsReady M.mix_of table.now) passes.items }
    ensures { IfOk result (λ jobs. All (IsReadyJob M.mix_of table.now) jobs.items) }
{
    let common = row.workload.has_common_ports();
    let shares = if common { 1 } else { row.threads.max(1) };
    let count = (row.ports / shares).min(MOST);
    let step = if common { 0 } else { count };
    let mut first = 0u32;
    let mut jobs = Vec::new(alloc);
    while let Some(pass) = passes.pop() {
        let ports = Ports {
            net: row.net,
            first,
            count,
        };
        jobs.push(prepared(rt, table, pass, ports, row.workload))?;
        first = first.wrapping_add(step);
    }
    Ok(jobs)
}

/// What a thread with this pass has to do, its ports bound where they are to be.
fn prepared<M: Mix, R: Wait>(
    rt: &R,
    table: &Table<M>,
    mut pass: Pass<M>,
    ports: Ports,
    workload: Workload,
) -> Job<M>
    requires { IsReady M.mix_of table.now pass }
    ensures { IsReadyJob M.mix_of table.now result }
{
    if workload.begins_bound() {
        binds(rt, table, &mut pass, ports);
    }
    Job { pass, ports }
}

/// Does the jobs, and beside them that of the thread which resizes, where there is one. It answers with what
/// the jobs have come to how many works have made another table the current one.
fn work_all<M: Mix + Send + Sync, R: Threads + Wait + Sync + Clock>(
    rt: &R,
    table: &Table<M>,
    gate: &Gate,
    jobs: Vec<Job<M>>,
    beside: Option<Job<M>>,
    row: Row,
) -> Result<(Vec<Worked<M>>, u64), AllocError>
    requires jobs { All (IsReadyJob M.mix_of table.now) jobs.items }
    requires beside { IfSome beside (IsReadyJob M.mix_of table.now) }
{
    let Some(resizer) = beside else {
        return Ok((work_jobs(rt, table, gate, jobs, row)?, 0));
    };
    let (moved, worked) = thread::join(
        rt,
        move || -> u64
            requires { IsReadyJob M.mix_of table.now resizer }
        { resize_beside(rt, table, gate, resizer, row.threads) },
        move || -> Result<Vec<Worked<M>>, AllocError>
            requires { All (IsReadyJob M.mix_of table.now) jobs.items }
        { work_jobs(rt, table, gate, jobs, row) },
    );
    Ok((worked?, moved))
}

/// Resizes the table, once all threads have come, until so many others have done their calls. It answers how
/// many works have made another table the current one.
fn resize_beside<M: Mix, R: Wait>(
    rt: &R,
    table: &Table<M>,
    gate: &Gate,
    job: Job<M>,
    others: u32,
) -> u64
    requires { IsReadyJob M.mix_of table.now job }
{
    let Job { mut pass, ports } = job;
    gate.pass();
    resize(rt, table, &mut pass, ports, gate, others)
}

/// Does the jobs, each in a thread of its own.
fn work_jobs<M: Mix + Send + Sync, R: Threads + Wait + Sync + Clock>(
    rt: &R,
    table: &Table<M>,
    gate: &Gate,
    jobs: Vec<Job<M>>,
    row: Row,
) -> Result<Vec<Worked<M>>, AllocError>
    requires { All (IsReadyJob M.mix_of table.now) jobs.items }
{
    thread::map_vec(
        rt,
        jobs,
        &|job| -> Worked<M>
            requires { IsReadyJob M.mix_of table.now job }
        { work(rt, table, gate, job, row) },
    )
}

/// Does a job, once all threads have come.
fn work<M: Mix, R: Wait + Clock>(
    rt: &R,
    table: &Table<M>,
    gate: &Gate,
    job: Job<M>,
    row: Row,
) -> Worked<M>
    requires { IsReadyJob M.mix_of table.now job }
{
    let Job { mut pass, ports } = job;
    let mut longest = 0u64;
    gate.pass();
    let began = Instant::now(rt).ok();
    let right = rounds(
        rt,
        table,
        &mut pass,
        row.workload,
        ports,
        row.rounds,
        &mut longest,
    );
    let span = Span::since(rt, began);
    gate.leave();
    Worked {
        pass,
        right,
        longest,
        span,
    }
}

/// From the first beginning to the last end. `None` where the clock couldn't be read.
fn span_of<M: Mix>(worked: &Vec<Worked<M>>) -> Option<Span> {
    let mut all: Option<Span> = None;
    for one in worked.iter() {
        let span = one.span?;
        all = match all {
            Some(before) => Some(before.with(span)),
            None => Some(span),
        };
    }
    all
}

/// How many calls of all threads had the reply that they must have.
fn right_of<M: Mix>(worked: &Vec<Worked<M>>) -> u64 {
    let mut right = 0u64;
    for one in worked.iter() {
        right = right.saturating_add(one.right);
    }
    right
}

/// The longest look-up of all threads in nanoseconds. 0 where none was timed.
fn longest_of<M: Mix>(worked: &Vec<Worked<M>>) -> u64 {
    let mut longest = 0u64;
    for one in worked.iter() {
        longest = longest.max(one.longest);
    }
    longest
}
