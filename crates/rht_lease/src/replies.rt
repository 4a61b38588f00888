//! The answers to a worker's commands. They are kept until they are printed.
//!
//! Stands on the replies of `rht_model`, which keep those to calls.

ghost use Rattle.std.specs.Prelude.{List, ◌≡◌, ◌<◌, [], ◌∷◌, ◌++◌, length, IsTrue, ◌↔◌, IfSome, IfOk, IfErr, OnOk, OnErr, slice_get};
ghost use Rattle.rht_model.specs.Endings.{Ending};
ghost use Rattle.rht_lease.specs.KeptAnswers.{answer_of, IsKept};

use crate::lease::{LeaseReply, Swept};
use rht_model::{Replies, Reply};
use std::alloc::{AllocError, Global};
use std::marker::Model;

/// An answer as it is kept. A reply to a call is kept apart.
#[derive(Clone, Copy, Debug)]
enum Kept {
    /// The one at this place among the replies to calls.
    Plain { place: u32 },
    Renewed,
    NoLease,
    Swept(Swept),
}

/// The answers to commands in their order, each with the owners that came beside it. Contracts see the list
/// of both. An answer takes 12 bytes, and one that is a reply to a call 8 more.
#[derive(Debug, Drop)]
pub struct LeaseReplies {
    kept: Vec<Kept>,
    plain: Replies,
}

impl Model for LeaseReplies {
    ghost use Rattle.std.specs.Prelude.{List, ℕ, map};
    ghost use Rattle.std.specs.List.{AllByRecursion};
    ghost use Rattle.rht_lease.specs.declared.lease.LeaseReply.{LeaseReply as ReplyOf};
    ghost use Rattle.rht_lease.specs.KeptAnswers.{answer_of, IsKept};

    ghost Value = { List (ReplyOf × List ℕ) };

    ghost view = { λ r. map (answer_of r.plain) r.kept.items };

    ghost invariant = { λ r. AllByRecursion (IsKept r.plain) r.kept.items };
}

impl LeaseReplies {
    /// No answers. It takes no memory.
    pub fn new(alloc: Global) -> LeaseReplies
        ensures { result ≡ [] }
    {
        LeaseReplies {
            kept: Vec::new(alloc),
            plain: Replies::new(alloc),
        }
    }

    /// Appends the reply to a call, with the owners that came beside it. The one refusal is want of memory,
    /// and more replies than a place can name are want of memory too; the answers are then as before.
    pub fn push(&mut self, reply: Reply, owners: &[u32]) -> Result<(), AllocError>
        ensures ok { OnOk result (self.new ≡ self.old ++ (LeaseReply.Plain reply, owners.now) ∷ []) }
        ensures err { OnErr result (self.new ≡ self.old) }
    {
        let Ok(place) = u32::try_from(self.plain.len()) else {
            return Err(AllocError);
        };
        self.plain.push(reply, owners, &[])?;
        self.kept.push(Kept::Plain { place })?;
        Ok(())
    }

    /// Appends an answer beside which no owners came. The one refusal is want of memory, as of `push`.
    pub fn push_bare(&mut self, reply: LeaseReply) -> Result<(), AllocError>
        ensures ok { OnOk result (self.new ≡ self.old ++ (reply, []) ∷ []) }
        ensures err { OnErr result (self.new ≡ self.old) }
    {
        match without_call(reply) {
            Ok(kept) => {
                self.kept.push(kept)?;
                Ok(())
            }
            Err(reply) => self.push(reply, &[]),
        }
    }

    /// The number of answers.
    pub fn len(&self) -> usize
        ensures { result ≡ length self.now }
    {
        self.kept.len()
    }

    /// Whether there are no answers.
    pub fn is_empty(&self) -> bool
        ensures { IsTrue result ↔ (self.now ≡ []) }
    {
        self.kept.is_empty()
    }

    /// The answer at this place, counted from 0.
    pub fn reply(&self, i: usize) -> LeaseReply
        requires { i < length self.now }
        ensures { IfSome (slice_get self.now i) (λ answer. result ≡ answer.0) }
    {
        match self.kept[i] {
            Kept::Plain { place } => LeaseReply::Plain(self.plain.reply(place as usize)),
            Kept::Renewed => LeaseReply::Renewed,
            Kept::NoLease => LeaseReply::NoLease,
            Kept::Swept(swept) => LeaseReply::Swept(swept),
        }
    }

    /// The owners that came beside the answer at this place, counted from 0.
    pub fn owners(&self, i: usize) -> &[u32]
        requires { i < length self.now }
        ensures { IfSome (slice_get self.now i) (λ answer. result.now ≡ answer.1) }
    {
        match self.kept[i] {
            Kept::Plain { place } => self.plain.owners(place as usize),
            _ => &[],
        }
    }
}

/// How an answer is kept that is no reply to a call, and else that reply.
fn without_call(reply: LeaseReply) -> Result<Kept, Reply>
    ensures kept { IfOk result (λ kept. (plain : List Ending) → IsKept plain kept) }
    ensures answer { IfOk result (λ kept. (plain : List Ending) → answer_of plain kept ≡ (reply, [])) }
    ensures call { IfErr result (λ own. reply ≡ LeaseReply.Plain own) }
{
    match reply {
        LeaseReply::Plain(reply) => Err(reply),
        LeaseReply::Renewed => Ok(Kept::Renewed),
        LeaseReply::NoLease => Ok(Kept::NoLease),
        LeaseReply::Swept(swept) => Ok(Kept::Swept(swept)),
    }
}
