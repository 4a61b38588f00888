//! The replies to a worker's commands. They are kept until they are printed.

ghost use Rattle.std.specs.Prelude.{List, ◌≡◌, ◌<◌, [], ◌∷◌, ◌++◌, length, IsTrue, ◌↔◌, IfSome, IfOk, OnOk, OnErr, slice_get};
ghost use Rattle.rht_model.specs.Endings.{replied};
ghost use Rattle.rht_model.specs.KeptReplies.{ending_of, IsKept};

use crate::history::Reply;
use rht_words::Port;
use std::alloc::{AllocError, Global};
use std::marker::Model;

/// A reply with the lists that came beside it.
#[derive(Debug, Drop)]
struct Whole {
    reply: Reply,
    owners: Vec<u32>,
    pairs: Vec<(Port, u32)>,
}

/// A reply as it is kept. Those that scripts have most, without lists, take the least room.
#[derive(Clone, Copy, Debug)]
enum Kept {
    Bound { kick: bool },
    Exists { owner: u32 },
    Found { owner: u32 },
    Missing,
    Released { kick: bool },
    Absent,
    /// The one at this place among those that are kept apart.
    Apart { place: u32 },
}

/// Replies, each with the lists that came beside it, in the order of the commands. Contracts see
/// the list of the endings.
#[derive(Debug, Drop)]
pub struct Replies {
    kept: Vec<Kept>,
    apart: Vec<Whole>,
}

impl Model for Replies {
    ghost use Rattle.std.specs.Prelude.{List, map};
    ghost use Rattle.std.specs.List.{AllByRecursion};
    ghost use Rattle.rht_model.specs.Endings.{Ending};
    ghost use Rattle.rht_model.specs.KeptReplies.{ending_of, IsKept};

    ghost Value = { List Ending };

    ghost view = { λ r. map (ending_of r.apart.items) r.kept.items };

    ghost invariant = { λ r. AllByRecursion (IsKept r.apart.items) r.kept.items };
}

impl Replies {
    /// No replies. It takes no memory.
    pub fn new(alloc: Global) -> Replies
        ensures { result ≡ [] }
    {
        Replies {
            kept: Vec::new(alloc),
            apart: Vec::new(alloc),
        }
    }

    /// Appends a reply with the lists that came beside it. The one refusal is want of memory; the
    /// replies are then as before.
    #[inline]
    pub fn push(
        &mut self,
        reply: Reply,
        owners: &[u32],
        pairs: &[(Port, u32)],
    ) -> Result<(), AllocError>
        ensures ok { OnOk result (self.new ≡ self.old ++ replied reply owners.now pairs.now ∷ []) }
        ensures err { OnErr result (self.new ≡ self.old) }
    {
        match without_lists(reply) {
            Some(kept) if owners.is_empty() && pairs.is_empty() => {
                self.kept.push(kept)?;
                Ok(())
            }
            _ => self.push_apart(reply, owners, pairs),
        }
    }

    /// Appends a reply that is kept apart, with its lists. More of them than a place can name are
    /// want of memory too.
    #[inline(never)]
    fn push_apart(
        &mut self,
        reply: Reply,
        owners: &[u32],
        pairs: &[(Port, u32)],
    ) -> Result<(), AllocError>
        ensures ok { OnOk result (self.new ≡ self.old ++ replied reply owners.now pairs.now ∷ []) }
        ensures err { OnErr result (self.new ≡ self.old) }
    {
        let Ok(place) = u32::try_from(self.apart.len()) else {
            return Err(AllocError);
        };
        let alloc = *self.apart.allocator();
        self.apart.push(Whole {
            reply,
            owners: owners.to_vec(alloc)?,
            pairs: pairs.to_vec(alloc)?,
        })?;
        self.kept.push(Kept::Apart { place })?;
        Ok(())
    }

    /// The number of replies.
    #[inline]
    pub fn len(&self) -> usize
        ensures { result ≡ length self.now }
    {
        self.kept.len()
    }

    /// Whether there are no replies.
    pub fn is_empty(&self) -> bool
        ensures { IsTrue result ↔ (self.now ≡ []) }
    {
        self.kept.is_empty()
    }

    /// The reply at this place, counted from 0.
    #[inline]
    pub fn reply(&self, i: usize) -> Reply
        requires { i < length self.now }
        ensures { IfSome (slice_get self.now i) (λ ending. result ≡ ending.answer.reply) }
    {
        match self.kept[i] {
            Kept::Bound { kick } => Reply::Bound { kick },
            Kept::Exists { owner } => Reply::Exists { owner },
            Kept::Found { owner } => Reply::Found { owner },
            Kept::Missing => Reply::Missing,
            Kept::Released { kick } => Reply::Released { kick },
            Kept::Absent => Reply::Absent,
            Kept::Apart { place } => self.apart[place as usize].reply,
        }
    }

    /// The owners that came beside the reply at this place, counted from 0.
    #[inline]
    pub fn owners(&self, i: usize) -> &[u32]
        requires { i < length self.now }
        ensures { IfSome (slice_get self.now i) (λ ending. result.now ≡ ending.answer.owners) }
    {
        match self.kept[i] {
            Kept::Apart { place } => &self.apart[place as usize].owners,
            _ => &[],
        }
    }

    /// The pairs that came beside the reply at this place, counted from 0.
    #[inline]
    pub fn pairs(&self, i: usize) -> &[(Port, u32)]
        requires { i < length self.now }
        ensures { IfSome (slice_get self.now i) (λ ending. result.now ≡ ending.pairs) }
    {
        match self.kept[i] {
            Kept::Apart { place } => &self.apart[place as usize].pairs,
            _ => &[],
        }
    }
}

/// How the reply is kept where no list came with it, if it isn't kept apart.
#[inline]
fn without_lists(reply: Reply) -> Option<Kept>
    ensures kept { IfSome result (λ kept. (apart : List Whole) → IsKept apart kept) }
    ensures ending { IfSome result
        (λ kept. (apart : List Whole) → ending_of apart kept ≡ replied reply [] []) }
{
    match reply {
        Reply::Bound { kick } => Some(Kept::Bound { kick }),
        Reply::Exists { owner } => Some(Kept::Exists { owner }),
        Reply::Found { owner } => Some(Kept::Found { owner }),
        Reply::Missing => Some(Kept::Missing),
        Reply::Released { kick } => Some(Kept::Released { kick }),
        Reply::Absent => Some(Kept::Absent),
        _ => None,
    }
}
