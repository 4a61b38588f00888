//! A worker for each caller of the table. It does its own commands in their order, each to its end,
//! while the others do theirs.

ghost use Rattle.std.specs.Prelude.{◌≡◌, ◌+◌, IfOk};
ghost use Rattle.rht_policy.specs.Mix.{mix_named};
ghost use Rattle.rht_run.specs.Passes.{IsNew};
ghost use Rattle.rht_script.specs.Sound.{IsSoundScript};
ghost use Rattle.rht_registry.specs.Outcomes.{CanServe, HasServedWorker, IsOutcome};

use rht_io::Gate;
use rht_model::{Call, Replies};
use rht_policy::Mix;
use rht_run::{Pass, Table};
use rht_script::Script;
use rht_workers::{Job, run_all};
use std::alloc::{AllocError, Global};
use std::sync::Wait;
use std::thread::Threads;

/// What the workers of a script leave.
#[derive(Drop)]
pub struct Outcome<M: Mix> {
    /// The replies to each worker's commands, worker by worker.
    pub replies: Vec<Replies>,
    /// The table, which is still open.
    pub table: Table<M>,
    /// All its passes, in order of their numbers.
    pub passes: Vec<Pass<M>>,
}

/// What the workers of a script have to do.
#[derive(Drop)]
struct Serving<'a, G> {
    /// The commands.
    script: &'a Script,
    /// What hears of each command before it, and after it once its reply is kept.
    gate: &'a G,
}

/// Opens a table and does the commands of a script on it: each worker has a pass and, where threads can
/// be started, a thread. The gate hears of each command before it, and after it once its reply is kept.
/// The one refusal is want of memory, and then the table and its passes are given up. No call takes
/// memory; a reply does, once its call has ended.
pub fn run_workers<M: Mix + Send, R: Threads + Wait + Sync, G: Gate + Sync>(
    rt: &R,
    alloc: Global,
    script: &Script,
    gate: &G,
) -> Result<Outcome<M>, AllocError>
    requires sound { IsSoundScript script.now }
    requires mix { M.mix_of ≡ mix_named script.now.config }
    ensures { IfOk result (IsOutcome M script.now) }
{
    let left = run_all::<M, _, _>(rt, alloc, script.config, &Serving { script, gate })?;
    Ok(Outcome {
        replies: left.own,
        table: left.table,
        passes: left.passes,
    })
}

impl<G: Gate> Job for Serving<'_, G> {
    type Left = Replies;

    ghost can_work = { λ job M table. CanServe table job.script.now };

    ghost has_worked = { λ job M mix table number pass replies. HasServedWorker mix table job.script.now.auto
        job.script.now.commands.items number pass replies };

    /// The commands of the worker whose pass this is, in their order.
    fn work<M: Mix, R: Wait>(
        &self,
        rt: &R,
        alloc: Global,
        table: &Table<M>,
        number: usize,
        mut pass: Pass<M>,
    ) -> Result<(Pass<M>, Replies), AllocError>
        requires can { CanServe table.now self.now.script.now }
        requires new { IsNew M.mix_of table.now number pass }
        ensures { IfOk result (λ worked. HasServedWorker M.mix_of table.now self.now.script.now.auto
            self.now.script.now.commands.items number worked.0 worked.1) }
    {
        let script = self.script;
        let worker = number as u32 + 1;
        let mut replies = Replies::new(alloc);
        let mut index = 0;
        for command in script.commands.iter() {
            if command.0 == worker {
                index += 1;
                self.gate.before(worker, index);
                let reply = table.serve(rt, &mut pass, command.1, script.auto);
                replies.push(reply, pass.owners(), pass.pairs())?;
                self.gate.after(worker, index);
            }
        }
        Ok((pass, replies))
    }
}
