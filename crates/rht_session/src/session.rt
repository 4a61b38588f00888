//! Sessions: a caller of a table that others share, by either hash.
//!
//! Stands on `shared`. No type parameter is left here, so a session can stand behind a handle.

ghost use Rattle.std.specs.Prelude.{◌≡◌, ◌<◌, true, false, IfOk, map};
ghost use Rattle.rht_words.specs.Settled.{IsSettled};
ghost use Rattle.rht_model.specs.declared.history.Call.TheVariants.{Find, Walk, Tidy, Count};
ghost use Rattle.rht_session.specs.declared.session.Session.TheVariants as sessions;
ghost use Rattle.rht_session.specs.Sessions.{IsFit, is_free, untidied_of, owners_of, pairs_of, Ends, LooksUp, Begins, SetsOut, GoesOn, AreOpened};

use crate::marks::Mark;
use crate::shared::Shared;
use rht_model::{Call, Cursor, Reply};
use rht_policy::{Lookup3, Low};
use rht_words::{Config, Hash, Port};
use std::alloc::{AllocError, Global};

/// A table that others share, with one of its passes. Its variant is the hash that the table was opened with.
#[derive(Drop)]
pub enum Session {
    /// Ports are hashed by the final mix of `jhash`.
    Mix(Shared<Lookup3>),
    /// Ports are their own hashes.
    Low(Shared<Low>),
}

impl Session {
    /// Opens a table, and gives a session for each of its config's callers, from 1 to 16, in order of their
    /// numbers. No call on a session takes memory. The one refusal is want of memory, and then nothing stays.
    /// The kernel's counterpart is `rhashtable_init`.
    pub fn open(alloc: Global, config: Config) -> Result<Vec<Session>, AllocError>
        requires { IsSettled config }
        ensures { IfOk result (λ all. AreOpened config config.hash all.items) }
    {
        match config.hash {
            Hash::Mix => mixed(alloc, Shared::open(alloc, config)?),
            Hash::Low => low(alloc, Shared::open(alloc, config)?),
        }
    }

    /// Whether the session is in no call.
    pub fn is_free(&self) -> bool
        ensures { result ≡ is_free self.now }
    {
        match self {
            Session::Mix(shared) => shared.is_free(),
            Session::Low(shared) => shared.is_free(),
        }
    }

    /// How many nodes the session's calls took out that aren't given back, where it is in no call.
    pub fn untidied(&self) -> u32
        ensures { result ≡ untidied_of self.now }
    {
        match self {
            Session::Mix(shared) => shared.untidied(),
            Session::Low(shared) => shared.untidied(),
        }
    }

    /// Looks a port up: `Found` with its first owner, or `Missing`. It waits for nobody, and makes no more
    /// operations than `find_bound` says. The answer was so at a moment of the call, and a port that is bound
    /// throughout it is found. The kernel's counterpart is `rhashtable_lookup_fast`.
    pub fn find(&mut self, port: Port) -> Reply
        requires fit { IsFit self.old }
        requires free { is_free self.old ≡ true }
        ensures fit { IsFit self.new }
        ensures ended { Ends (Find port) result self.old self.new }
        ensures looked { LooksUp port result self.old self.new }
    {
        match self {
            Session::Mix(shared) => shared.find(port),
            Session::Low(shared) => shared.find(port),
        }
    }

    /// Walks the table bucket by bucket, from a cursor on or without one from the first bucket, until a bucket
    /// ends with `limit` pairs or more: `Walked`, and the pairs of a port and its first owner come with it; or
    /// `Again`, where the walk has to begin anew. It waits for nobody. The kernel's counterparts are
    /// `rhashtable_walk_start`, `rhashtable_walk_next` and `rhashtable_walk_stop`.
    pub fn walk(&mut self, from: Option<Cursor>, limit: u32) -> Reply
        requires fit { IsFit self.old }
        requires free { is_free self.old ≡ true }
        ensures fit { IsFit self.new }
        ensures ended { Ends (Walk from limit) result self.old self.new }
    {
        match self {
            Session::Mix(shared) => shared.walk(from, limit),
            Session::Low(shared) => shared.walk(from, limit),
        }
    }

    /// Gives back the nodes that the session's calls took out, all of them or none: `Clear`, or `Pending` where
    /// a caller is in a read section still that was open by then. It waits for nobody. The kernel's
    /// counterparts are `call_rcu` and `kfree_rcu`.
    pub fn tidy(&mut self) -> Reply
        requires fit { IsFit self.old }
        requires free { is_free self.old ≡ true }
        ensures fit { IsFit self.new }
        ensures ended { Ends Tidy result self.old self.new }
    {
        match self {
            Session::Mix(shared) => shared.tidy(),
            Session::Low(shared) => shared.tidy(),
        }
    }

    /// Counts the bound ports: `Counted`. It is one load.
    pub fn count(&mut self) -> Reply
        requires fit { IsFit self.old }
        requires free { is_free self.old ≡ true }
        ensures fit { IsFit self.new }
        ensures ended { Ends Count result self.old self.new }
    {
        match self {
            Session::Mix(shared) => shared.count(),
            Session::Low(shared) => shared.count(),
        }
    }

    /// Begins a call by its first operation. A reply ends the call; without one the session is in it, and
    /// `go_on` goes on. So any call can be made that may have to wait for another caller: the wait is up to
    /// whoever goes on. Which operations and replies a call has is said at the calls of `Table`.
    pub fn begin(&mut self, call: Call) -> Option<Reply>
        requires fit { IsFit self.old }
        requires free { is_free self.old ≡ true }
        ensures fit { IsFit self.new }
        ensures begun { Begins call result self.old self.new }
    {
        match self {
            Session::Mix(shared) => shared.begin(call),
            Session::Low(shared) => shared.begin(call),
        }
    }

    /// Begins a call and makes its operations as long as it need not wait for another caller; it tries to lock
    /// a bucket at most `rounds` times. A reply ends the call; without one the session is in it, and `go_on`
    /// goes on.
    #[inline(always)]
    pub fn set_out(&mut self, call: Call, rounds: u32) -> Option<Reply>
        requires fit { IsFit self.old }
        requires free { is_free self.old ≡ true }
        ensures fit { IsFit self.new }
        ensures set_out { SetsOut call result self.old self.new }
    {
        match self {
            Session::Mix(shared) => shared.set_out(call, rounds),
            Session::Low(shared) => shared.set_out(call, rounds),
        }
    }

    /// Goes on with the call in progress by so many operations, unless it ends before with its reply. Without
    /// one the call is in progress still, and exactly so many were made.
    pub fn go_on(&mut self, most: u32) -> Option<Reply>
        requires fit { IsFit self.old }
        requires busy { is_free self.old ≡ false }
        requires some { 0 < most }
        ensures fit { IsFit self.new }
        ensures gone_on { GoesOn most result self.old self.new }
    {
        match self {
            Session::Mix(shared) => shared.go_on(most),
            Session::Low(shared) => shared.go_on(most),
        }
    }

    /// Whether both sessions have one table (tested; `marks` says how far).
    pub(crate) fn is_beside(&self, other: &Session) -> bool {
        self.mark().is_beside(other.mark())
    }

    fn mark(&self) -> &Mark {
        match self {
            Session::Mix(shared) => &shared.mark,
            Session::Low(shared) => &shared.mark,
        }
    }

    /// Gives the table up. The last session of a table that does frees it (tested).
    pub(crate) fn give_up(self) {
        match self {
            Session::Mix(shared) => shared.give_up(),
            Session::Low(shared) => shared.give_up(),
        }
    }

    /// The owners that came with the last call, the first owner first, where that was answered `Listed`;
    /// otherwise, and in a call, none.
    pub fn owners(&self) -> &[u32]
        ensures { result.now ≡ owners_of self.now }
    {
        match self {
            Session::Mix(shared) => shared.owners(),
            Session::Low(shared) => shared.owners(),
        }
    }

    /// The pairs that came with the last call, in the order in which they were seen, where that was answered
    /// `Walked`; otherwise, and in a call, none.
    pub fn pairs(&self) -> &[(Port, u32)]
        ensures { result.now ≡ pairs_of self.now }
    {
        match self {
            Session::Mix(shared) => shared.pairs(),
            Session::Low(shared) => shared.pairs(),
        }
    }
}

/// The sessions of callers whose ports are hashed by the final mix.
fn mixed(alloc: Global, all: Vec<Shared<Lookup3>>) -> Result<Vec<Session>, AllocError>
    ensures { IfOk result (λ made. made.items ≡ map sessions.Mix all.items) }
{
    let mut sessions = Vec::with_capacity(alloc, all.len())?;
    for shared in all {
        sessions.push(Session::Mix(shared))?;
    }
    Ok(sessions)
}

/// The sessions of callers whose ports are their own hashes.
fn low(alloc: Global, all: Vec<Shared<Low>>) -> Result<Vec<Session>, AllocError>
    ensures { IfOk result (λ made. made.items ≡ map sessions.Low all.items) }
{
    let mut sessions = Vec::with_capacity(alloc, all.len())?;
    for shared in all {
        sessions.push(Session::Low(shared))?;
    }
    Ok(sessions)
}
