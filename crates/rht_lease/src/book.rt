//! The book of leases that a worker keeps beside its pass.
//!
//! Stands on `rht_run`, by whose `Table::serve` it binds and releases. Read `specs/Books.antt` first.

ghost use Rattle.std.specs.Prelude.{◌≡◌, ◌+◌, ◌<◌, ◌≤◌, ◌^◌, ◌↔◌, [], ◌∷◌, ◌++◌, Some, true, false, length, take, IfOk, IfSome, IsTrue, IsNone, MatchOption, position, vec_len, vec_capacity};
ghost use Rattle.rht_model.specs.declared.history.Call.TheVariants.{Bind, Release};
ghost use Rattle.rht_core.specs.Locals.{is_idle};
ghost use Rattle.rht_core.specs.Replies.{IsReplyTo};
ghost use Rattle.rht_run.specs.Passes.{IsPassOf};
ghost use Rattle.rht_run.specs.Caused.{IsCaused};
ghost use Rattle.rht_run.specs.Served.{HasServed};
ghost use Rattle.rht_lease.specs.Answers.{is_released, is_absent, counting};
ghost use Rattle.rht_lease.specs.Books.{empty_book, with_leases, IsFull, lease_of, is_lease_of, has_lease, is_ended, renewed, cancelled, lasting, leased, sweep_calls};
ghost use Rattle.rht_lease.specs.ServedLeases.{HasSwept};

use crate::lease::{Lease, Swept};
use rht_model::{Call, Reply};
use rht_policy::Mix;
use rht_run::{Pass, Table};
use rht_words::Port;
use std::alloc::{AllocError, Global};
use std::marker::Model;
use std::sync::Wait;

/// The leases of one worker, in the order in which they were granted, of which there are never more than its
/// capacity. Contracts see the list and the capacity. No call but `new` takes memory.
#[derive(Debug, Drop)]
pub struct Leases {
    leases: Vec<Lease>,
    capacity: u32,
}

impl Model for Leases {
    ghost use Rattle.std.specs.Prelude.{◌^◌, ◌<◌, ◌≤◌, vec_len, vec_capacity};
    ghost use Rattle.rht_lease.specs.Books.{LeaseBook};

    ghost Value = { LeaseBook };

    ghost view = { λ b. record { leases = b.leases.items; capacity = b.capacity } };

    ghost invariant = { λ b. record {
      within : vec_len b.leases ≤ b.capacity;
      room : b.capacity ≤ vec_capacity b.leases;
      counted : b.capacity < 2 ^ 32;
    } };
}

impl Leases {
    /// An empty book of so many leases at most. All memory that it uses is taken here; want of it is the one
    /// refusal.
    pub fn new(alloc: Global, capacity: u32) -> Result<Leases, AllocError>
        ensures { IfOk result (λ book. book ≡ empty_book capacity) }
    {
        Ok(Leases {
            leases: Vec::with_capacity(alloc, capacity as usize)?,
            capacity,
        })
    }

    /// Whether there are as many leases as there may be.
    pub fn is_full(&self) -> bool
        ensures { IsTrue result ↔ IsFull self.now }
    {
        self.leases.len() == self.capacity as usize
    }

    /// How many leases there are.
    pub fn len(&self) -> u32
        ensures len { result ≡ length self.now.leases }
        ensures within { result ≤ self.now.capacity }
    {
        self.leases.len() as u32
    }

    /// Whether there are no leases.
    pub fn is_empty(&self) -> bool
        ensures { IsTrue result ↔ (self.now.leases ≡ []) }
    {
        self.leases.is_empty()
    }

    /// Binds the port to the owner, as `Table::serve` does. Where that is answered `Bound` the lease is kept,
    /// behind the others; on every other reply the book is as before. The replies are those of a served
    /// bind, which may wait.
    pub fn lease<M: Mix, R: Wait>(
        &mut self,
        rt: &R,
        table: &Table<M>,
        pass: &mut Pass<M>,
        port: Port,
        owner: u32,
        last: u64,
        auto: bool,
    ) -> Reply
        requires room { ¬ IsFull self.old }
        requires pass { IsPassOf M.mix_of table.now pass.old }
        requires idle { is_idle pass.old.local ≡ true }
        ensures book { self.new ≡ with_leases self.old (leased self.old.leases (lease_of port owner last) result) }
        ensures served { HasServed M.mix_of table.now auto (Bind port owner false) result pass.old pass.new }
        ensures reply { IsReplyTo (Bind port owner false) result }
        ensures cause { IsCaused M.mix_of table.now (Bind port owner false) result pass.old pass.new }
    {
        let call = Call::Bind {
            port,
            owner,
            once: false,
        };
        let reply = table.serve(rt, pass, call, auto);
        if let Reply::Bound { .. } = reply {
            self.keep(Lease { port, owner, last });
        }
        reply
    }

    /// The lease is the last one.
    fn keep(&mut self, lease: Lease)
        requires { ¬ IsFull self.old }
        ensures { self.new ≡ with_leases self.old (self.old.leases ++ lease ∷ []) }
    {
        self.leases.push(lease).unwrap();
    }

    /// Gives the first lease of the port and the owner this last tick, be it earlier or later than before.
    /// False where there is no such lease; the book is then as before.
    pub fn renew(&mut self, port: Port, owner: u32, last: u64) -> bool
        ensures found { result ≡ has_lease port owner self.old.leases }
        ensures book { self.new ≡ with_leases self.old (renewed port owner last self.old.leases) }
    {
        match first_of(&self.leases, port, owner) {
            Some(place) => {
                self.leases[place] = Lease { port, owner, last };
                true
            }
            None => false,
        }
    }

    /// Releases the port by the owner where there is a lease of both, as `Table::serve` does, and takes the
    /// first such lease out of the book, whichever reply comes. `None` where there is no such lease; then
    /// nothing was called, and the book is as before. A release may wait.
    pub fn cancel<M: Mix, R: Wait>(
        &mut self,
        rt: &R,
        table: &Table<M>,
        pass: &mut Pass<M>,
        port: Port,
        owner: u32,
        auto: bool,
    ) -> Option<Reply>
        requires pass { IsPassOf M.mix_of table.now pass.old }
        requires idle { is_idle pass.old.local ≡ true }
        ensures none { IsNone result ↔ (has_lease port owner self.old.leases ≡ false) }
        ensures book { self.new ≡ with_leases self.old (cancelled port owner self.old.leases) }
        ensures served { MatchOption result (pass.new ≡ pass.old)
            (λ reply. HasServed M.mix_of table.now auto (Release port owner) reply pass.old pass.new) }
        ensures reply { IfSome result (IsReplyTo (Release port owner)) }
        ensures cause { IfSome result
            (λ reply. IsCaused M.mix_of table.now (Release port owner) reply pass.old pass.new) }
    {
        match first_of(&self.leases, port, owner) {
            Some(place) => {
                let reply = table.serve(rt, pass, Call::Release { port, owner }, auto);
                self.leases.remove(place);
                Some(reply)
            }
            None => None,
        }
    }

    /// Releases a port by its owner for each lease that has ended at this moment, which is later than its last
    /// tick, in the order of the book, as `Table::serve` does. Whoever made the binding that is there then
    /// isn't asked. These leases leave the book, and the others stay in their order. The time is in proportion
    /// to the leases, with a release for each that has ended; a release may wait.
    pub fn sweep<M: Mix, R: Wait>(
        &mut self,
        rt: &R,
        table: &Table<M>,
        pass: &mut Pass<M>,
        now: u64,
        auto: bool,
    ) -> Swept
        requires pass { IsPassOf M.mix_of table.now pass.old }
        requires idle { is_idle pass.old.local ≡ true }
        ensures book { self.new ≡ with_leases self.old (lasting now self.old.leases) }
        ensures served { HasSwept M.mix_of table.now auto (sweep_calls now self.old.leases) result pass.old pass.new }
    {
        let swept = release_ended(rt, table, pass, &self.leases, now, auto);
        keep_lasting(&mut self.leases, now);
        swept
    }
}

/// The place of the first lease of the port and the owner.
fn first_of(leases: &[Lease], port: Port, owner: u32) -> Option<usize>
    ensures { result ≡ position (is_lease_of port owner) leases.now }
{
    leases
        .iter()
        .position(|lease| lease.port == port && lease.owner == owner)
}

/// Takes out the leases that have ended at this moment. The others stay in their order.
fn keep_lasting(leases: &mut Vec<Lease>, now: u64)
    ensures items { leases.new.items ≡ lasting now leases.old.items }
    ensures len { vec_len leases.new ≤ vec_len leases.old }
    ensures capacity { vec_capacity leases.old ≤ vec_capacity leases.new }
{
    leases.retain(|lease| !is_ended(*lease, now));
}

/// Whether the lease has ended at this moment.
fn is_ended(lease: Lease, now: u64) -> bool
    ensures { result ≡ is_ended now lease }
{
    lease.last < now
}

/// Releases a port by its owner for each of these leases that has ended at this moment, in their order.
fn release_ended<M: Mix, R: Wait>(
    rt: &R,
    table: &Table<M>,
    pass: &mut Pass<M>,
    leases: &[Lease],
    now: u64,
    auto: bool,
) -> Swept
    requires few { length leases.now < 2 ^ 32 }
    requires pass { IsPassOf M.mix_of table.now pass.old }
    requires idle { is_idle pass.old.local ≡ true }
    ensures { HasSwept M.mix_of table.now auto (sweep_calls now leases.now) result pass.old pass.new }
{
    let mut swept = Swept {
        released: 0,
        absent: 0,
    };
    for lease in leases {
        if is_ended(*lease, now) {
            let call = Call::Release {
                port: lease.port,
                owner: lease.owner,
            };
            swept = counting(swept, table.serve(rt, pass, call, auto));
        }
    }
    swept
}

/// The same with one release more, which was answered so.
fn counting(swept: Swept, reply: Reply) -> Swept
    requires { swept.released + swept.absent + 1 < 2 ^ 32 }
    ensures { result ≡ counting swept reply }
{
    match reply {
        Reply::Released { .. } => Swept {
            released: swept.released + 1,
            absent: swept.absent,
        },
        Reply::Absent => Swept {
            released: swept.released,
            absent: swept.absent + 1,
        },
        _ => swept,
    }
}
