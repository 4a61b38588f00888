//! The answers to a worker's commands. They are kept until they are printed.
//!
//! Stands on the replies of `rht_model`, which keep those to calls.

ghost use Rattle.std.specs.Prelude.{List, ◌≡◌, ◌<◌, [], ◌∷◌, ◌++◌, length, IsTrue, ◌↔◌, IfSome, OnOk, OnErr, slice_get};
ghost use Rattle.rht_model.specs.Endings.{replied};
ghost use Rattle.rht_resume.specs.Answers.{plain_answer, next_answer};

use crate::resume::{Piece, ResumeReply};
use rht_model::{Replies, Reply};
use rht_words::Port;
use std::alloc::{AllocError, Global};
use std::marker::Model;

/// An answer as it is kept: where it stands among those of its kind.
#[derive(Clone, Copy, Debug)]
enum Kept {
    /// The one at this place among the replies to calls.
    Plain { place: u32 },
    /// The one at this place among the pieces.
    Next { place: u32 },
}

/// A piece with its pairs.
#[derive(Debug, Drop)]
struct Shown {
    piece: Piece,
    pairs: Vec<(Port, u32)>,
}

/// The answers to commands in their order, each with the owners and the pairs that came beside it. Contracts see
/// the list of them.
#[derive(Debug, Drop)]
pub struct ResumeReplies {
    kept: Vec<Kept>,
    plain: Replies,
    pieces: Vec<Shown>,
}

impl Model for ResumeReplies {
    ghost use Rattle.std.specs.Prelude.{List, map};
    ghost use Rattle.std.specs.List.{AllByRecursion};
    ghost use Rattle.rht_resume.specs.Answers.{Answer};
    ghost use Rattle.rht_resume.specs.KeptAnswers.{answer_kept, IsKept};

    ghost Value = { List Answer };

    ghost view = { λ r. map (answer_kept r.plain r.pieces.items) r.kept.items };

    ghost invariant = { λ r. AllByRecursion (IsKept r.plain r.pieces.items) r.kept.items };
}

impl ResumeReplies {
    /// No answers. It takes no memory.
    pub fn new(alloc: Global) -> ResumeReplies
        ensures { result ≡ [] }
    {
        ResumeReplies {
            kept: Vec::new(alloc),
            plain: Replies::new(alloc),
            pieces: Vec::new(alloc),
        }
    }

    /// Appends the reply to a call, with the lists that came beside it. The one refusal is want of memory, and
    /// more replies than a place can name are want of memory too; the answers are then as before.
    pub fn push(
        &mut self,
        reply: Reply,
        owners: &[u32],
        pairs: &[(Port, u32)],
    ) -> Result<(), AllocError>
        ensures ok { OnOk result (self.new ≡ self.old ++ plain_answer (replied reply owners.now pairs.now) ∷ []) }
        ensures err { OnErr result (self.new ≡ self.old) }
    {
        let Ok(place) = u32::try_from(self.plain.len()) else {
            return Err(AllocError);
        };
        self.plain.push(reply, owners, pairs)?;
        self.kept.push(Kept::Plain { place })?;
        Ok(())
    }

    /// Appends a piece with its pairs. The one refusal is want of memory, as of `push`.
    pub fn push_piece(&mut self, piece: Piece, pairs: &[(Port, u32)]) -> Result<(), AllocError>
        ensures ok { OnOk result (self.new ≡ self.old ++ next_answer piece pairs.now ∷ []) }
        ensures err { OnErr result (self.new ≡ self.old) }
    {
        let Ok(place) = u32::try_from(self.pieces.len()) else {
            return Err(AllocError);
        };
        let alloc = *self.pieces.allocator();
        let pairs = pairs.to_vec(alloc)?;
        self.pieces.push(Shown { piece, pairs })?;
        self.kept.push(Kept::Next { place })?;
        Ok(())
    }

    /// The number of answers.
    pub fn len(&self) -> usize
        ensures { result ≡ length self.now }
    {
        self.kept.len()
    }

    /// Whether there are no answers.
    pub fn is_empty(&self) -> bool
        ensures { IsTrue result ↔ (self.now ≡ []) }
    {
        self.kept.is_empty()
    }

    /// The answer at this place, counted from 0.
    pub fn reply(&self, i: usize) -> ResumeReply
        requires { i < length self.now }
        ensures { IfSome (slice_get self.now i) (λ answer. result ≡ answer.reply) }
    {
        match self.kept[i] {
            Kept::Plain { place } => ResumeReply::Plain(self.plain.reply(place as usize)),
            Kept::Next { place } => ResumeReply::Next(self.pieces[place as usize].piece),
        }
    }

    /// The owners that came beside the answer at this place, counted from 0.
    pub fn owners(&self, i: usize) -> &[u32]
        requires { i < length self.now }
        ensures { IfSome (slice_get self.now i) (λ answer. result.now ≡ answer.owners) }
    {
        match self.kept[i] {
            Kept::Plain { place } => self.plain.owners(place as usize),
            Kept::Next { .. } => &[],
        }
    }

    /// The pairs that came beside the answer at this place, counted from 0.
    pub fn pairs(&self, i: usize) -> &[(Port, u32)]
        requires { i < length self.now }
        ensures { IfSome (slice_get self.now i) (λ answer. result.now ≡ answer.pairs) }
    {
        match self.kept[i] {
            Kept::Plain { place } => self.plain.pairs(place as usize),
            Kept::Next { place } => &self.pieces[place as usize].pairs,
        }
    }
}
