//! A worker for each caller of the table. It does its own commands in their order, each to its end, while the
//! others do theirs, and has a resumed walk of its own.
//!
//! Stands on `worker`, and on `rht_workers`, which runs all workers on one table.

ghost use Rattle.std.specs.Prelude.{◌≡◌, ◌+◌, IfOk};
ghost use Rattle.rht_policy.specs.Mix.{mix_named};
ghost use Rattle.rht_run.specs.Passes.{IsNew};
ghost use Rattle.rht_resume.specs.Answers.{commands_of};
ghost use Rattle.rht_resume.specs.Resuming.{IsResumedBy};
ghost use Rattle.rht_resume.specs.Scripts.{IsSoundResume};
ghost use Rattle.rht_resume.specs.ServedPieces.{CanResume, HasDoneAll};

use crate::outcome::ResumeOutcome;
use crate::replies::ResumeReplies;
use crate::resume::ResumeScript;
use crate::worker::Worker;
use rht_io::Gate;
use rht_policy::Mix;
use rht_run::{Pass, Table};
use rht_workers::{Job, run_all};
use std::alloc::{AllocError, Global};
use std::sync::Wait;
use std::thread::Threads;

/// What the workers of a resume script have to do.
#[derive(Drop)]
struct Resuming<'a, G> {
    /// The commands.
    script: &'a ResumeScript,
    /// What hears of each command before it, and after it once its answer is kept.
    gate: &'a G,
}

/// Opens a table, does the commands of a resume script on it, and closes it: each worker has a pass and, where
/// threads can be started, a thread, and a resumed walk. A walk that has ended begins anew at the next piece. The
/// gate hears of each command before it, and after it once its answer is kept, with its worker and its place
/// among that worker's, counted from 1. The one refusal is want of memory, and then the table is given up. No
/// call takes memory; an answer does, once its calls have ended.
pub fn run_resumed<M: Mix + Send, R: Threads + Wait + Sync, G: Gate + Sync>(
    rt: &R,
    alloc: Global,
    script: &ResumeScript,
    gate: &G,
) -> Result<ResumeOutcome, AllocError>
    requires sound { IsSoundResume script.now }
    requires mix { M.mix_of ≡ mix_named script.now.config }
    ensures { IfOk result (IsResumedBy M script.now) }
{
    let left = run_all::<M, _, _>(rt, alloc, script.config, &Resuming { script, gate })?;
    match Table::close(alloc, left.table, left.passes) {
        Ok(closed) => Ok(ResumeOutcome {
            replies: left.own,
            closed,
        }),
        Err(_) => Err(AllocError),
    }
}

impl<G: Gate> Job for Resuming<'_, G> {
    type Left = ResumeReplies;

    ghost can_work = { λ job M table. CanResume table job.script.now };

    ghost has_worked = { λ job M mix table number pass answers. HasDoneAll mix table job.script.now.auto
        (commands_of (number + 1) job.script.now.commands.items) number pass answers };

    /// The commands of the worker whose pass this is, in their order.
    fn work<M: Mix, R: Wait>(
        &self,
        rt: &R,
        alloc: Global,
        table: &Table<M>,
        number: usize,
        pass: Pass<M>,
    ) -> Result<(Pass<M>, ResumeReplies), AllocError>
        requires can { CanResume table.now self.now.script.now }
        requires new { IsNew M.mix_of table.now number pass }
        ensures { IfOk result (λ worked. HasDoneAll M.mix_of table.now self.now.script.now.auto
            (commands_of (number + 1) self.now.script.now.commands.items) number worked.0 worked.1) }
    {
        let script = self.script;
        let name = number as u32 + 1;
        let mut worker = Worker::new(alloc, pass, script.config.nodes)?;
        let mut index = 0;
        for command in script.commands.iter() {
            if command.0 == name {
                index += 1;
                self.gate.before(name, index);
                worker.serve(rt, table, command.1, script.auto)?;
                self.gate.after(name, index);
            }
        }
        let Worker {
            pass,
            resumed: _,
            replies,
        } = worker;
        Ok((pass, replies))
    }
}
