//! One worker: its pass, its resumed walk, and what its commands were answered.
//!
//! Stands on `resumed`. Each call does one command to its end.

ghost use Rattle.std.specs.Prelude.{◌≡◌, ◌<◌, ◌≤◌, Bool, true, OnOk, IfOk, []};
ghost use Rattle.rht_core.specs.Locals.{is_idle};
ghost use Rattle.rht_run.specs.declared.table.Table.{Table as TableOf};
ghost use Rattle.rht_run.specs.Passes.{IsPassOf};
ghost use Rattle.rht_resume.specs.declared.resume.ResumeCall.TheVariants.{Plain, Next};
ghost use Rattle.rht_resume.specs.Pieces.{unbegun};
ghost use Rattle.rht_resume.specs.Scripts.{is_sound_ask};
ghost use Rattle.rht_resume.specs.ServedPieces.{HasDone};

use crate::replies::ResumeReplies;
use crate::resume::ResumeCall;
use crate::resumed::Resumed;
use rht_model::Call;
use rht_policy::Mix;
use rht_run::{Pass, Table};
use std::alloc::{AllocError, Global};
use std::sync::Wait;

/// A worker in the midst of its commands.
#[derive(Drop)]
pub(crate) struct Worker<M: Mix> {
    /// Its token for the table.
    pub pass: Pass<M>,
    /// Its resumed walk.
    pub resumed: Resumed,
    /// The answers to the commands that it has done.
    pub replies: ResumeReplies,
}

impl<M: Mix> Worker<M> {
    /// The worker of a pass, which has done nothing, with a walk at its start over a table of so many nodes. The
    /// one refusal is want of memory.
    pub fn new(alloc: Global, pass: Pass<M>, nodes: u32) -> Result<Worker<M>, AllocError>
        ensures pass { IfOk result (λ worker. worker.pass ≡ pass) }
        ensures resumed { IfOk result (λ worker. worker.resumed ≡ unbegun nodes) }
        ensures replies { IfOk result (λ worker. worker.replies ≡ []) }
    {
        Ok(Worker {
            pass,
            resumed: Resumed::new(alloc, nodes)?,
            replies: ResumeReplies::new(alloc),
        })
    }

    /// Does a command. The one refusal is want of memory for its answer.
    pub fn serve<R: Wait>(
        &mut self,
        rt: &R,
        table: &Table<M>,
        ask: ResumeCall,
        auto: bool,
    ) -> Result<(), AllocError>
        requires pass { IsPassOf M.mix_of table.now self.old.pass }
        requires idle { is_idle self.old.pass.local ≡ true }
        requires nodes { self.old.resumed.nodes ≡ table.now.env.config.nodes }
        requires sound { is_sound_ask table.now.env.config ask ≡ true }
        ensures { OnOk result (HasDone M.mix_of table.now auto ask self.old self.new) }
    {
        match ask {
            ResumeCall::Plain(call) => self.call(rt, table, call, auto),
            ResumeCall::Next { limit } => self.next(table, limit),
        }
    }

    /// Makes a call of the table.
    fn call<R: Wait>(
        &mut self,
        rt: &R,
        table: &Table<M>,
        call: Call,
        auto: bool,
    ) -> Result<(), AllocError>
        requires pass { IsPassOf M.mix_of table.now self.old.pass }
        requires idle { is_idle self.old.pass.local ≡ true }
        ensures { OnOk result (HasDone M.mix_of table.now auto (Plain call) self.old self.new) }
    {
        let reply = table.serve(rt, &mut self.pass, call, auto);
        self.replies
            .push(reply, self.pass.owners(), self.pass.pairs())
    }

    /// Makes the next piece of its walk, which begins anew where it has ended.
    fn next(&mut self, table: &Table<M>, limit: u32) -> Result<(), AllocError>
        requires pass { IsPassOf M.mix_of table.now self.old.pass }
        requires idle { is_idle self.old.pass.local ≡ true }
        requires nodes { self.old.resumed.nodes ≡ table.now.env.config.nodes }
        requires some { 0 < limit }
        requires within { limit ≤ table.now.env.config.nodes }
        ensures { (auto : Bool) → OnOk result (HasDone M.mix_of table.now auto (Next limit) self.old self.new) }
    {
        self.resumed.reopen();
        let piece = self.resumed.next(table, &mut self.pass, limit);
        self.replies.push_piece(piece, self.resumed.pairs())
    }
}
