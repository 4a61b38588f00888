//! One worker: its pass, its book, and what its commands were answered.
//!
//! Stands on `book`. Each call does one command to its end.

ghost use Rattle.std.specs.Prelude.{◌≡◌, Bool, true, OnOk, IfOk, []};
ghost use Rattle.rht_core.specs.Locals.{is_idle};
ghost use Rattle.rht_run.specs.declared.table.Table.{Table as TableOf};
ghost use Rattle.rht_run.specs.Passes.{IsPassOf};
ghost use Rattle.rht_lease.specs.declared.lease.Lease.{Lease as LeaseOf};
ghost use Rattle.rht_lease.specs.declared.lease.LeaseCall.TheVariants.{Plain, Lease as Leasing, Renew, Cancel, Sweep};
ghost use Rattle.rht_lease.specs.Answers.{renew_reply};
ghost use Rattle.rht_lease.specs.Books.{IsFull, empty_book};
ghost use Rattle.rht_lease.specs.Scripts.{is_plain_call, is_sound_ask};
ghost use Rattle.rht_lease.specs.ServedLeases.{HasDone};

use crate::book::Leases;
use crate::lease::{Lease, LeaseCall, LeaseReply};
use crate::replies::LeaseReplies;
use rht_model::Call;
use rht_policy::Mix;
use rht_run::{Pass, Table};
use rht_words::Port;
use std::alloc::{AllocError, Global};
use std::sync::Wait;

/// A worker in the midst of its commands.
#[derive(Drop)]
pub(crate) struct Worker<M: Mix> {
    /// Its token for the table.
    pub pass: Pass<M>,
    /// Its leases.
    pub book: Leases,
    /// The answers to the commands that it has done.
    pub replies: LeaseReplies,
}

impl<M: Mix> Worker<M> {
    /// The worker of a pass, which has done nothing, with a book of so many leases at most. The one refusal
    /// is want of memory.
    pub fn new(alloc: Global, pass: Pass<M>, capacity: u32) -> Result<Worker<M>, AllocError>
        ensures pass { IfOk result (λ worker. worker.pass ≡ pass) }
        ensures book { IfOk result (λ worker. worker.book ≡ empty_book capacity) }
        ensures replies { IfOk result (λ worker. worker.replies ≡ []) }
    {
        Ok(Worker {
            pass,
            book: Leases::new(alloc, capacity)?,
            replies: LeaseReplies::new(alloc),
        })
    }

    /// Does a command. The one refusal is want of memory for its answer.
    pub fn serve<R: Wait>(
        &mut self,
        rt: &R,
        table: &Table<M>,
        ask: LeaseCall,
        auto: bool,
    ) -> Result<(), AllocError>
        requires pass { IsPassOf M.mix_of table.now self.old.pass }
        requires idle { is_idle self.old.pass.local ≡ true }
        requires sound { is_sound_ask ask ≡ true }
        requires room { (lease : LeaseOf) → ask ≡ Leasing lease → ¬ IsFull self.old.book }
        ensures { OnOk result (HasDone M.mix_of table.now auto ask self.old self.new) }
    {
        match ask {
            LeaseCall::Plain(call) => self.call(rt, table, call, auto),
            LeaseCall::Lease(lease) => self.lease(rt, table, lease, auto),
            LeaseCall::Renew(lease) => self.renew(lease),
            LeaseCall::Cancel { port, owner } => self.cancel(rt, table, port, owner, auto),
            LeaseCall::Sweep { now } => self.sweep(rt, table, now, auto),
        }
    }

    /// Makes a call of the table.
    fn call<R: Wait>(
        &mut self,
        rt: &R,
        table: &Table<M>,
        call: Call,
        auto: bool,
    ) -> Result<(), AllocError>
        requires pass { IsPassOf M.mix_of table.now self.old.pass }
        requires idle { is_idle self.old.pass.local ≡ true }
        requires plain { is_plain_call call ≡ true }
        ensures { OnOk result (HasDone M.mix_of table.now auto (Plain call) self.old self.new) }
    {
        let reply = table.serve(rt, &mut self.pass, call, auto);
        self.replies.push(reply, self.pass.owners())
    }

    /// Grants a lease.
    fn lease<R: Wait>(
        &mut self,
        rt: &R,
        table: &Table<M>,
        lease: Lease,
        auto: bool,
    ) -> Result<(), AllocError>
        requires pass { IsPassOf M.mix_of table.now self.old.pass }
        requires idle { is_idle self.old.pass.local ≡ true }
        requires room { ¬ IsFull self.old.book }
        ensures { OnOk result (HasDone M.mix_of table.now auto (Leasing lease) self.old self.new) }
    {
        let Lease { port, owner, last } = lease;
        let reply = self
            .book
            .lease(rt, table, &mut self.pass, port, owner, last, auto);
        self.replies.push(reply, self.pass.owners())
    }

    /// Renews a lease.
    fn renew(&mut self, lease: Lease) -> Result<(), AllocError>
        ensures { (t : TableOf M) (auto : Bool) → IsPassOf M.mix_of t self.old.pass → is_idle self.old.pass.local ≡ true
            → OnOk result (HasDone M.mix_of t auto (Renew lease) self.old self.new) }
    {
        let found = self.book.renew(lease.port, lease.owner, lease.last);
        self.replies.push_bare(renew_reply(found))
    }

    /// Cancels a lease.
    fn cancel<R: Wait>(
        &mut self,
        rt: &R,
        table: &Table<M>,
        port: Port,
        owner: u32,
        auto: bool,
    ) -> Result<(), AllocError>
        requires pass { IsPassOf M.mix_of table.now self.old.pass }
        requires idle { is_idle self.old.pass.local ≡ true }
        ensures { OnOk result (HasDone M.mix_of table.now auto (Cancel port owner) self.old self.new) }
    {
        match self
            .book
            .cancel(rt, table, &mut self.pass, port, owner, auto)
        {
            Some(reply) => self.replies.push(reply, self.pass.owners()),
            None => self.replies.push_bare(LeaseReply::NoLease),
        }
    }

    /// Sweeps the book.
    fn sweep<R: Wait>(
        &mut self,
        rt: &R,
        table: &Table<M>,
        now: u64,
        auto: bool,
    ) -> Result<(), AllocError>
        requires pass { IsPassOf M.mix_of table.now self.old.pass }
        requires idle { is_idle self.old.pass.local ≡ true }
        ensures { OnOk result (HasDone M.mix_of table.now auto (Sweep now) self.old self.new) }
    {
        let swept = self.book.sweep(rt, table, &mut self.pass, now, auto);
        self.replies.push_bare(LeaseReply::Swept(swept))
    }
}

/// The reply to a renew, by whether the book has its lease.
fn renew_reply(found: bool) -> LeaseReply
    ensures { result ≡ renew_reply found }
{
    if found {
        LeaseReply::Renewed
    } else {
        LeaseReply::NoLease
    }
}
