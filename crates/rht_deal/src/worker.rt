//! One worker: it takes the next number from the queue, does that command to its end, keeps what it was
//! answered, and goes on so until no number is left.

ghost use Rattle.std.specs.Prelude.{◌≡◌, ◌+◌, ◌<◌, ◌≤◌, IfOk, OnOk, [], ◌∷◌, ◌++◌, length};
ghost use Rattle.std.specs.List.{AllByRecursion};
ghost use Rattle.crossbeam_queue.specs.Passes.{view, IsPassOf};
ghost use Rattle.rht_deal.specs.DoneCommands.{numbers_of};
ghost use Rattle.rht_deal.specs.Numbers.{HasAll};
ghost use Rattle.rht_deal.specs.Workers.{CanDeal, IsWorking, AreAmong, HasTaken};

use crate::numbers::{NumberPass, Numbers, next};
use rht_io::Gate;
use rht_model::{Owners, Reply};
use rht_policy::Mix;
use rht_run::{Pass, Table};
use rht_script::{Done, Script};
use std::alloc::{AllocError, Global};
use std::collections::VecDeque;
use std::sync::Wait;

/// What all workers share.
#[derive(Drop)]
pub struct Deal<'a, M: Mix, G: Gate> {
    /// The table on which the commands are done.
    pub table: &'a Table<M>,
    /// The numbers of the commands that nobody has taken yet.
    pub queue: &'a Numbers,
    /// The commands.
    pub script: &'a Script,
    /// What hears of each command before it, and after it once its answer is kept.
    pub gate: &'a G,
}

/// A worker, and what it has done.
#[derive(Drop)]
pub struct Worker<M: Mix> {
    /// Its number, counted from 1.
    pub number: u32,
    /// Its token for the table.
    pub pass: Pass<M>,
    /// What it has done, in the order in which it did it.
    pub done: VecDeque<Done>,
}

impl<M: Mix> Worker<M> {
    /// The worker of a pass, which has this number, counted from 0. It has done nothing, and has room
    /// for so many answers; the owners that come with one take more. The one refusal is want of memory.
    pub fn new(
        alloc: Global,
        number: usize,
        pass: Pass<M>,
        room: usize,
    ) -> Result<Worker<M>, AllocError>
        requires { number < 16 }
        ensures number { IfOk result (λ worker. worker.number ≡ number + 1) }
        ensures pass { IfOk result (λ worker. worker.pass ≡ pass) }
        ensures done { IfOk result (λ worker. worker.done.items ≡ []) }
    {
        Ok(Worker {
            number: number as u32 + 1,
            pass,
            done: VecDeque::with_capacity(alloc, room)?,
        })
    }

    /// Does commands as long as numbers are left. The one refusal is want of memory.
    pub fn work<R: Wait, G: Gate>(
        &mut self,
        rt: &R,
        alloc: Global,
        deal: &Deal<'_, M, G>,
        numbers: &mut NumberPass,
    ) -> Result<(), AllocError>
        requires can { CanDeal deal.now.table.now deal.now.script.now }
        requires working { IsWorking M.mix_of deal.now.table.now deal.now.script.now self.old }
        requires among { AreAmong (numbers_of self.old.done.items) (view numbers.old).taken }
        requires queue { IsPassOf deal.now.queue.now numbers.old }
        requires part { 0 < (view numbers.old).parts }
        requires pushed { (view numbers.old).pushed ≡ length deal.now.script.now.commands.items }
        ensures queue { IsPassOf deal.now.queue.now numbers.new }
        ensures working { OnOk result (IsWorking M.mix_of deal.now.table.now deal.now.script.now self.new) }
        ensures taken { OnOk result (HasTaken self.old self.new (view numbers.old) (view numbers.new)) }
        ensures all { OnOk result (HasAll (view numbers.new)) }
    {
        for _ in rt.forever() {
            match next(rt, deal.queue, numbers) {
                Some(number) => self.serve(rt, alloc, deal, number)?,
                None => return Ok(()),
            }
        }
        unreachable!()
    }

    /// Does the command of this number, with the gate round it.
    fn serve<R: Wait, G: Gate>(
        &mut self,
        rt: &R,
        alloc: Global,
        deal: &Deal<'_, M, G>,
        number: u32,
    ) -> Result<(), AllocError>
        requires can { CanDeal deal.now.table.now deal.now.script.now }
        requires working { IsWorking M.mix_of deal.now.table.now deal.now.script.now self.old }
        requires first { 1 ≤ number }
        requires last { number ≤ length deal.now.script.now.commands.items }
        requires rises { AllByRecursion (λ that. that < number) (numbers_of self.old.done.items) }
        ensures working { OnOk result (IsWorking M.mix_of deal.now.table.now deal.now.script.now self.new) }
        ensures done { OnOk result (numbers_of self.new.done.items ≡ numbers_of self.old.done.items ++ number ∷ []) }
        ensures same { self.new.number ≡ self.old.number }
    {
        let command = deal.script.commands[number as usize - 1];
        deal.gate.before(self.number, number);
        let reply = deal
            .table
            .serve(rt, &mut self.pass, command.1, deal.script.auto);
        let owners = owned(alloc, self.pass.owners())?;
        self.keep(number, reply, owners)?;
        deal.gate.after(self.number, number);
        Ok(())
    }

    /// Keeps what the command of this number was answered.
    fn keep(&mut self, number: u32, reply: Reply, owners: Owners) -> Result<(), AllocError>
        ensures done { OnOk result (self.new.done.items
            ≡ self.old.done.items ++ record { worker = self.old.number; number = number; reply = reply; owners = owners } ∷ []) }
        ensures pass { self.new.pass ≡ self.old.pass }
        ensures same { self.new.number ≡ self.old.number }
    {
        self.done.push_back(Done {
            worker: self.number,
            number,
            reply,
            owners,
        })?;
        Ok(())
    }
}

/// These owners, as a list of one's own.
fn owned(alloc: Global, owners: &[u32]) -> Result<Owners, AllocError>
    ensures { IfOk result (λ own. own ≡ owners.now) }
{
    let mut own = Owners::new(alloc);
    for owner in owners {
        own.push(*owner)?;
    }
    Ok(own)
}
