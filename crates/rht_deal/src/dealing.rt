//! Dealing a script: its numbers are put into a queue, all workers take them from there, and what they have
//! done is put in order.
//!
//! Stands on `numbers`, whose rule says that no number is lost or taken twice, on `worker`, and on
//! `ordering`.

ghost use Rattle.std.specs.Prelude.{◌≡◌, ◌+◌, ◌<◌, ◌≤◌, IfOk, vec_len, length};
ghost use Rattle.std.specs.List.{AllByRecursion};
ghost use Rattle.crossbeam_queue.specs.Passes.{view, IsPassOf};
ghost use Rattle.rht_policy.specs.Mix.{mix_named};
ghost use Rattle.rht_run.specs.Passes.{AreNew};
ghost use Rattle.rht_script.specs.Dealt.{IsDealtScript};
ghost use Rattle.rht_deal.specs.Dealing.{IsDealtBy};
ghost use Rattle.rht_deal.specs.Numbers.{hand, all_parts};
ghost use Rattle.rht_deal.specs.Workers.{CanDeal, IsReady, HasWorked, AreWorking, HaveDoneAll, AreReady, HaveWorked, IsDealer, HasGathered, passes_of, kept_of};
ghost use Rattle.rht_deal.specs.Ordering.{kept_items};

use crate::dealt::Dealt;
use crate::numbers::{NumberPass, Numbers, filled, join, share};
use crate::ordering::in_order;
use crate::worker::{Deal, Worker};
use rht_io::Gate;
use rht_policy::Mix;
use rht_run::{Pass, Table};
use rht_script::{Done, Script};
use std::alloc::{AllocError, Global};
use std::collections::VecDeque;
use std::sync::Wait;
use std::thread;
use std::thread::Threads;

/// Opens a table, and has its workers do the commands of a dealt script: each has a pass and, where threads
/// can be started, a thread, and does whichever command is next until none is left. What is left behind the
/// threads is done by worker 1. The one refusal is want of memory, and then the table is given up. Room for
/// the answers is made before a worker starts; the owners that come with one take more once its call has
/// ended. The gate hears of each command before it, with its worker and its number, and after it unless memory
/// was refused for what it was answered.
pub fn run_dealt<M: Mix + Send, R: Threads + Wait + Sync, G: Gate + Sync>(
    rt: &R,
    alloc: Global,
    script: &Script,
    gate: &G,
) -> Result<Dealt, AllocError>
    requires dealt { IsDealtScript script.now }
    requires mix { M.mix_of ≡ mix_named script.now.config }
    ensures { IfOk result (IsDealtBy M script.now) }
{
    let (table, passes) = Table::<M>::open(alloc, script.config)?;
    let workers = dealt_out(rt, alloc, &table, passes, script, gate)?;
    let (passes, kept) = parted(alloc, workers)?;
    let done = in_order(alloc, kept, script.commands.len())?;
    match Table::close(alloc, table, passes) {
        Ok(closed) => Ok(Dealt { done, closed }),
        Err(_) => Err(AllocError),
    }
}

/// All workers, once each command was done. The dealer pushes the numbers, and takes in what the workers'
/// tokens have taken.
fn dealt_out<M: Mix + Send, R: Threads + Wait + Sync, G: Gate + Sync>(
    rt: &R,
    alloc: Global,
    table: &Table<M>,
    passes: Vec<Pass<M>>,
    script: &Script,
    gate: &G,
) -> Result<Vec<Worker<M>>, AllocError>
    requires can { CanDeal table.now script.now }
    requires passes { AreNew M.mix_of table.now 0 passes.items }
    requires count { vec_len passes ≡ script.now.config.callers }
    ensures workers { IfOk result (λ workers. AreWorking M.mix_of table.now script.now 1 workers.items) }
    ensures count { IfOk result (λ workers. vec_len workers ≡ vec_len passes) }
    ensures once { IfOk result (λ workers. HaveDoneAll (length script.now.commands.items) workers.items) }
{
    let (queue, mut dealer) = filled(rt, alloc, script.commands.len())?;
    let deal = Deal {
        table,
        queue: &queue,
        script,
        gate,
    };
    let jobs = ready(alloc, &deal, passes, &mut dealer)?;
    let left = all_work(rt, alloc, &deal, jobs)?;
    let mut workers = gathered(alloc, &queue, &mut dealer, left)?;
    workers[0].work(rt, alloc, &deal, &mut dealer)?;
    Ok(workers)
}

/// A worker for each pass, with room for all answers and a token of the queue.
fn ready<M: Mix, G: Gate>(
    alloc: Global,
    deal: &Deal<'_, M, G>,
    passes: Vec<Pass<M>>,
    dealer: &mut NumberPass,
) -> Result<Vec<(Worker<M>, NumberPass)>, AllocError>
    requires can { CanDeal deal.now.table.now deal.now.script.now }
    requires passes { AreNew M.mix_of deal.now.table.now 0 passes.items }
    requires count { vec_len passes ≤ 16 }
    requires dealer { IsDealer deal.now.queue.now dealer.old (length deal.now.script.now.commands.items) }
    ensures jobs { IfOk result (λ jobs. AreReady M.mix_of deal.now.table.now deal.now.queue.now deal.now.script.now 1 jobs.items) }
    ensures count { IfOk result (λ jobs. vec_len jobs ≡ vec_len passes) }
    ensures queue { IsPassOf deal.now.queue.now dealer.new }
    ensures dealer { IfOk result (λ jobs. (view dealer.new ≡ hand (view dealer.new).parts (length deal.now.script.now.commands.items) (view dealer.old).taken)
        × ((view dealer.new).parts + vec_len jobs ≡ all_parts)) }
{
    let mut jobs = Vec::with_capacity(alloc, passes.len())?;
    for pass in passes {
        let worker = Worker::new(alloc, jobs.len(), pass, deal.script.commands.len())?;
        let numbers = share(deal.queue, dealer);
        jobs.push((worker, numbers))?;
    }
    Ok(jobs)
}

/// All workers do commands, each in a thread of its own where one can be started.
fn all_work<M: Mix + Send, R: Threads + Wait + Sync, G: Gate + Sync>(
    rt: &R,
    alloc: Global,
    deal: &Deal<'_, M, G>,
    jobs: Vec<(Worker<M>, NumberPass)>,
) -> Result<Vec<Result<(Worker<M>, NumberPass), AllocError>>, AllocError>
    requires can { CanDeal deal.now.table.now deal.now.script.now }
    requires jobs { AreReady M.mix_of deal.now.table.now deal.now.queue.now deal.now.script.now 1 jobs.items }
    ensures len { IfOk result (λ left. vec_len left ≡ vec_len jobs) }
    ensures worked { IfOk result (λ left. HaveWorked M.mix_of deal.now.table.now deal.now.queue.now deal.now.script.now 1 left.items) }
{
    thread::map_vec(
        rt,
        jobs,
        &|job| -> Result<(Worker<M>, NumberPass), AllocError>
            requires { CanDeal deal.now.table.now deal.now.script.now
                × IsReady M.mix_of deal.now.table.now deal.now.queue.now deal.now.script.now job.0.number job.0 job.1 }
            ensures { IfOk result (λ worked. HasWorked M.mix_of deal.entry.now.table.now deal.entry.now.queue.now deal.entry.now.script.now
                job.0.number worked.0 worked.1) }
        { work_of(rt, alloc, deal, job.0, job.1) },
    )
}

/// The worker does commands until none is left.
fn work_of<M: Mix, R: Wait, G: Gate>(
    rt: &R,
    alloc: Global,
    deal: &Deal<'_, M, G>,
    mut worker: Worker<M>,
    mut numbers: NumberPass,
) -> Result<(Worker<M>, NumberPass), AllocError>
    requires can { CanDeal deal.now.table.now deal.now.script.now }
    requires ready { IsReady M.mix_of deal.now.table.now deal.now.queue.now deal.now.script.now worker.number worker numbers }
    ensures { IfOk result (λ worked. HasWorked M.mix_of deal.now.table.now deal.now.queue.now deal.now.script.now worker.number
        worked.0 worked.1) }
{
    worker.work(rt, alloc, deal, &mut numbers)?;
    Ok((worker, numbers))
}

/// The workers, unless one of them has ended for want of memory. What their tokens of the queue have taken,
/// the dealer's has taken then.
fn gathered<M: Mix>(
    alloc: Global,
    queue: &Numbers,
    dealer: &mut NumberPass,
    left: Vec<Result<(Worker<M>, NumberPass), AllocError>>,
) -> Result<Vec<Worker<M>>, AllocError>
    requires left { AllByRecursion (λ worked. IfOk worked (λ job. IsPassOf queue.now job.1)) left.items }
    requires dealer { IsPassOf queue.now dealer.old }
    requires part { 0 < (view dealer.old).parts }
    ensures dealer { IsPassOf queue.now dealer.new }
    ensures gathered { IfOk result (λ workers. HasGathered left.items workers.items (view dealer.old) (view dealer.new)) }
{
    let mut workers = Vec::with_capacity(alloc, left.len())?;
    for worked in left {
        let (worker, numbers) = worked?;
        join(queue, dealer, numbers);
        workers.push(worker)?;
    }
    Ok(workers)
}

/// The passes of the workers, and what each has done, in their order.
fn parted<M: Mix>(
    alloc: Global,
    workers: Vec<Worker<M>>,
) -> Result<(Vec<Pass<M>>, Vec<VecDeque<Done>>), AllocError>
    ensures passes { IfOk result (λ parts. parts.0.items ≡ passes_of workers.items) }
    ensures kept { IfOk result (λ parts. kept_items parts.1 ≡ kept_of workers.items) }
{
    let mut passes = Vec::with_capacity(alloc, workers.len())?;
    let mut kept = Vec::with_capacity(alloc, workers.len())?;
    for worker in workers {
        let Worker {
            number: _,
            pass,
            done,
        } = worker;
        passes.push(pass)?;
        kept.push(done)?;
    }
    Ok((passes, kept))
}
