//! A worker for each caller of the table. It does its own commands in their order, each to its end, while the
//! others do theirs, and keeps a book of its own.
//!
//! Stands on `worker`, and on `rht_workers`, which runs all workers on one table.

ghost use Rattle.std.specs.Prelude.{◌≡◌, ◌+◌, ◌≤◌, IfOk, length};
ghost use Rattle.rht_policy.specs.Mix.{mix_named};
ghost use Rattle.rht_run.specs.Passes.{IsNew};
ghost use Rattle.rht_script.specs.Grammar.{most_lines};
ghost use Rattle.rht_lease.specs.Answers.{commands_of, is_lease, own_leases};
ghost use Rattle.rht_lease.specs.Leasing.{IsLeasedBy};
ghost use Rattle.rht_lease.specs.Scripts.{IsSoundLeases};
ghost use Rattle.rht_lease.specs.ServedLeases.{CanLease, HasLeased};

use crate::lease::{LeaseCall, LeaseScript};
use crate::outcome::LeaseOutcome;
use crate::replies::LeaseReplies;
use crate::worker::Worker;
use rht_io::Gate;
use rht_policy::Mix;
use rht_run::{Pass, Table};
use rht_workers::{Job, run_all};
use std::alloc::{AllocError, Global};
use std::sync::Wait;
use std::thread::Threads;

/// What the workers of a lease script have to do.
#[derive(Drop)]
struct Leasing<'a, G> {
    /// The commands.
    script: &'a LeaseScript,
    /// What hears of each command before it, and after it once its answer is kept.
    gate: &'a G,
}

/// Opens a table, does the commands of a lease script on it, and closes it: each worker has a pass and, where
/// threads can be started, a thread, and a book with room for as many leases as it has lease commands. The
/// gate hears of each command before it, and after it once its answer is kept, with its worker and its place
/// among that worker's, counted from 1. The one refusal is want of memory, and then the table is given up. No
/// call takes memory; an answer does, once its calls have ended.
pub fn run_leases<M: Mix + Send, R: Threads + Wait + Sync, G: Gate + Sync>(
    rt: &R,
    alloc: Global,
    script: &LeaseScript,
    gate: &G,
) -> Result<LeaseOutcome, AllocError>
    requires sound { IsSoundLeases script.now }
    requires mix { M.mix_of ≡ mix_named script.now.config }
    ensures { IfOk result (IsLeasedBy M script.now) }
{
    let left = run_all::<M, _, _>(rt, alloc, script.config, &Leasing { script, gate })?;
    match Table::close(alloc, left.table, left.passes) {
        Ok(closed) => Ok(LeaseOutcome {
            replies: left.own,
            closed,
        }),
        Err(_) => Err(AllocError),
    }
}

impl<G: Gate> Job for Leasing<'_, G> {
    type Left = LeaseReplies;

    ghost can_work = { λ job M table. CanLease table job.script.now };

    ghost has_worked = { λ job M mix table number pass answers. HasLeased mix table job.script.now.auto
        (commands_of (number + 1) job.script.now.commands.items) number pass answers };

    /// The commands of the worker whose pass this is, in their order.
    fn work<M: Mix, R: Wait>(
        &self,
        rt: &R,
        alloc: Global,
        table: &Table<M>,
        number: usize,
        pass: Pass<M>,
    ) -> Result<(Pass<M>, LeaseReplies), AllocError>
        requires can { CanLease table.now self.now.script.now }
        requires new { IsNew M.mix_of table.now number pass }
        ensures { IfOk result (λ worked. HasLeased M.mix_of table.now self.now.script.now.auto
            (commands_of (number + 1) self.now.script.now.commands.items) number worked.0 worked.1) }
    {
        let script = self.script;
        let name = number as u32 + 1;
        let mut worker = Worker::new(alloc, pass, own_leases(&script.commands, name))?;
        let mut index = 0;
        for command in script.commands.iter() {
            if command.0 == name {
                index += 1;
                self.gate.before(name, index);
                worker.serve(rt, table, command.1, script.auto)?;
                self.gate.after(name, index);
            }
        }
        let Worker {
            pass,
            book: _,
            replies,
        } = worker;
        Ok((pass, replies))
    }
}

/// How many leases the worker asks for.
fn own_leases(commands: &[(u32, LeaseCall)], worker: u32) -> u32
    requires { length commands.now ≤ most_lines }
    ensures { result ≡ own_leases worker commands.now }
{
    commands
        .iter()
        .filter(|command| command.0 == worker && is_lease(command.1))
        .count() as u32
}

/// Whether the command asks for a lease.
fn is_lease(ask: LeaseCall) -> bool
    ensures { result ≡ is_lease ask }
{
    matches!(ask, LeaseCall::Lease(_))
}
