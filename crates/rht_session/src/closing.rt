//! How the handles of a table are closed together, and what is bound then.
//!
//! All memory is taken before the first session leaves its box, and from then on nothing is refused.

ghost use Rattle.std.specs.Prelude.{◌≡◌, ◌<◌, ◌≤◌, [], ◌∷◌, true, false, length, map, vec_capacity, IfOk, IfErr, IfSome};
ghost use Rattle.std.specs.Arc.{arc_value};
ghost use Rattle.std.specs.List.{AllByRecursion, list_all};
ghost use Rattle.rht_policy.specs.Mix.{final_mix, low_mix};
ghost use Rattle.rht_run.specs.declared.pass.Pass.{Pass as PassOf};
ghost use Rattle.rht_run.specs.Passes.{Among, IsPassOf, IsClosedWith};
ghost use Rattle.rht_run.specs.ClosingSpaces.{IsSpaceFor};
ghost use Rattle.rht_session.specs.declared.session.Session.{Session as SessionOf};
ghost use Rattle.rht_session.specs.declared.session.Session.TheVariants as kinds;
ghost use Rattle.rht_session.specs.Sessions.{IsFit, is_free};
ghost use Rattle.rht_session.specs.Held.{is_some};
ghost use Rattle.rht_session.specs.declared.closing.Rooms.TheVariants as rooms;
ghost use Rattle.rht_session.specs.Handles.{sessions_of, is_blank, IsFitHandle};
ghost use Rattle.rht_session.specs.Closings.{HaveAll, ShareOneTable, AreOfOneTable, IsClosedOver, AreClosedWith, HaveClosed, IsWhyNotClosed, IsWhyKept, AreRoomsFor};

use crate::handle::Handle;
use crate::session::Session;
use crate::shared::Shared;
use rht_model::Closed;
use rht_policy::{Lookup3, Low, Mix};
use rht_run::{ClosingSpace, Pass, Table};
use std::alloc::{AllocError, Global};
use std::sync::Arc;

/// Why handles weren't closed together. They are as they were.
#[derive(Clone, Copy, Debug, PartialEq, Eq)]
pub enum NotClosed {
    /// There is no handle, or one of them is blank.
    NotOpen,
    /// They were found to be of several tables. Where they are of one this doesn't come (tested).
    TwoTables,
    /// One of the sessions is in a call.
    InCall,
    /// Memory has run out, and none of it stays taken.
    Memory,
}

/// Sessions that weren't closed, and why.
#[derive(Drop)]
pub(crate) struct Kept {
    pub(crate) sessions: Vec<Box<Session>>,
    pub(crate) why: NotClosed,
}

/// The memory that the closing of some sessions needs.
#[derive(Drop)]
pub(crate) enum Rooms {
    Mix(Vec<Pass<Lookup3>>, ClosingSpace),
    Low(Vec<Pass<Low>>, ClosingSpace),
}

impl Handle {
    /// Closes all these handles, which are of one table and are blank then. Where no other handle of the table
    /// is open, the table is closed, and what was bound at its end is given, as by `Table::close`. Otherwise
    /// they are closed each by itself, as by `close`. All memory is taken before a session leaves its box.
    /// Refused are `NotOpen`, and behind that `TwoTables`, `InCall` and `Memory`, of which any may come first. No
    /// clause excludes `TwoTables`, since none says of two sessions that they don't share a table. The kernel's
    /// counterpart is `rhashtable_free_and_destroy`.
    pub fn close_all(alloc: Global, handles: &mut [Handle]) -> Result<Option<Closed>, NotClosed>
        requires fit { AllByRecursion IsFitHandle handles.old }
        requires one { AreOfOneTable handles.old }
        ensures fit { AllByRecursion IsFitHandle handles.new }
        ensures blank { IfOk result (λ _. list_all is_blank handles.new ≡ true) }
        ensures closed { IfOk result (HaveClosed handles.old) }
        ensures same { IfErr result (λ _. map sessions_of handles.new ≡ map sessions_of handles.old) }
        ensures why { IfErr result (IsWhyNotClosed handles.old) }
    {
        if handles.is_empty() || !are_open(handles) {
            return Err(NotClosed::NotOpen);
        }
        let Ok(room) = Vec::with_capacity(alloc, handles.len()) else {
            return Err(NotClosed::Memory);
        };
        match closed(alloc, taken_out(alloc, handles, room)) {
            Ok(closed) => Ok(closed),
            Err(Kept { sessions, why }) => {
                put_back(handles, sessions);
                Err(why)
            }
        }
    }
}

/// Whether all of these are open.
fn are_open(handles: &[Handle]) -> bool
    ensures { result ≡ list_all (λ h. is_some (sessions_of h)) handles.now }
{
    handles.iter().all(|handle| handle.is_open())
}

/// Takes the sessions out of these handles, which are blank then.
fn taken_out(alloc: Global, handles: &mut [Handle], room: Vec<Box<Session>>) -> Vec<Box<Session>>
    requires open { list_all (λ h. is_some (sessions_of h)) handles.old ≡ true }
    requires room { (room.items ≡ []) × (length handles.old ≤ vec_capacity room) }
    ensures blank { list_all is_blank handles.new ≡ true }
    ensures count { length handles.new ≡ length handles.old }
    ensures taken { HaveAll handles.old (map (λ b. b.value) result.items) }
{
    let mut sessions = room;
    for place in 0..handles.len() {
        if let Some(session) = handles[place].take(alloc) {
            sessions.push_reserved(session);
        }
    }
    sessions
}

/// Puts sessions back into handles, in their order.
fn put_back(handles: &mut [Handle], sessions: Vec<Box<Session>>)
    requires { length handles.old ≡ length sessions.items }
    ensures { HaveAll handles.new (map (λ b. b.value) sessions.items) }
{
    let mut left = sessions;
    while let Some(session) = left.pop() {
        handles[left.len()] = Handle::of(session);
    }
}

/// Closes the table of these sessions, unless another one has it too. Or memory is refused, or one of them is in
/// a call, and they stay.
fn closed(alloc: Global, sessions: Vec<Box<Session>>) -> Result<Option<Closed>, Kept>
    requires some { 0 < length sessions.items }
    requires fit { AllByRecursion IsFit (map (λ b. b.value) sessions.items) }
    requires one { ShareOneTable (map (λ b. b.value) sessions.items) }
    ensures free { IfOk result (λ _. list_all is_free (map (λ b. b.value) sessions.items) ≡ true) }
    ensures closed { IfOk result (λ closed. IfSome closed (AreClosedWith (map (λ b. b.value) sessions.items))) }
    ensures kept { IfErr result (λ kept. kept.sessions.items ≡ sessions.items) }
    ensures why { IfErr result (λ kept. IsWhyKept (map (λ b. b.value) sessions.items) kept.why) }
{
    if !are_together(&sessions) {
        return Err(Kept {
            sessions,
            why: NotClosed::TwoTables,
        });
    }
    if !are_free(&sessions) {
        return Err(Kept {
            sessions,
            why: NotClosed::InCall,
        });
    }
    match rooms_for(alloc, &sessions) {
        Ok(Rooms::Mix(passes, space)) => Ok(mixed_closed(sessions, passes, space)),
        Ok(Rooms::Low(passes, space)) => Ok(low_closed(sessions, passes, space)),
        Err(_) => Err(Kept {
            sessions,
            why: NotClosed::Memory,
        }),
    }
}

/// Whether all of these are of the table of the first one (tested).
fn are_together(sessions: &[Box<Session>]) -> bool
    ensures { result ≡ false → 1 < length sessions.now }
{
    for place in 1..sessions.len() {
        if !sessions[0].is_beside(&sessions[place]) {
            return false;
        }
    }
    true
}

/// Whether all of these are in no call.
fn are_free(sessions: &[Box<Session>]) -> bool
    ensures { result ≡ list_all (λ b. is_free b.value) sessions.now }
{
    sessions.iter().all(|session| session.is_free())
}

/// The memory that the closing of these sessions needs: a place for each pass, and the table's space.
fn rooms_for(alloc: Global, sessions: &[Box<Session>]) -> Result<Rooms, AllocError>
    requires { 0 < length sessions.now }
    ensures { IfOk result (AreRoomsFor (map (λ b. b.value) sessions.now)) }
{
    match &*sessions[0] {
        Session::Mix(shared) => Ok(Rooms::Mix(
            Vec::with_capacity(alloc, sessions.len())?,
            shared.table.closing_space(alloc)?,
        )),
        Session::Low(shared) => Ok(Rooms::Low(
            Vec::with_capacity(alloc, sessions.len())?,
            shared.table.closing_space(alloc)?,
        )),
    }
}

/// Closes the table of sessions by the final mix, unless another one has it too.
fn mixed_closed(
    sessions: Vec<Box<Session>>,
    passes: Vec<Pass<Lookup3>>,
    space: ClosingSpace,
) -> Option<Closed>
    requires fit { AllByRecursion IsFit (map (λ b. b.value) sessions.items) }
    requires one { ShareOneTable (map (λ b. b.value) sessions.items) }
    requires rooms { AreRoomsFor (map (λ b. b.value) sessions.items) (rooms.Mix passes space) }
    ensures { IfSome result (IsClosedOver final_mix kinds.Mix (map (λ b. b.value) sessions.items)) }
{
    let mut passes = passes;
    let mut table = None;
    for session in sessions {
        match Box::into_inner(session) {
            Session::Mix(
                Shared {
                    table: own,
                    pass,
                    mark,
                },
            ) => {
                drop(mark);
                table = Some(own);
                passes.push_reserved(pass);
            }
            // All are of one table, so none is of the other hash.
            Session::Low(other) => drop(other),
        }
    }
    ended(table?, passes, space)
}

/// Closes the table of sessions whose ports are their own hashes, unless another one has it too.
fn low_closed(
    sessions: Vec<Box<Session>>,
    passes: Vec<Pass<Low>>,
    space: ClosingSpace,
) -> Option<Closed>
    requires fit { AllByRecursion IsFit (map (λ b. b.value) sessions.items) }
    requires one { ShareOneTable (map (λ b. b.value) sessions.items) }
    requires rooms { AreRoomsFor (map (λ b. b.value) sessions.items) (rooms.Low passes space) }
    ensures { IfSome result (IsClosedOver low_mix kinds.Low (map (λ b. b.value) sessions.items)) }
{
    let mut passes = passes;
    let mut table = None;
    for session in sessions {
        match Box::into_inner(session) {
            Session::Low(
                Shared {
                    table: own,
                    pass,
                    mark,
                },
            ) => {
                drop(mark);
                table = Some(own);
                passes.push_reserved(pass);
            }
            // All are of one table, so none is of the other hash.
            Session::Mix(other) => drop(other),
        }
    }
    ended(table?, passes, space)
}

/// Closes a table with these passes, unless another session has it too. Of all callers that give a table up, in
/// whatever threads, the last one gets it: so says the kit of `into_inner`, and no clause does.
fn ended<M: Mix>(
    table: Arc<Table<M>, Global>,
    passes: Vec<Pass<M>>,
    space: ClosingSpace,
) -> Option<Closed>
    requires some { 0 < length passes.items }
    requires passes { (p : PassOf M) → Among p passes.items → IsPassOf M.mix_of (arc_value table) p }
    requires space { IsSpaceFor (arc_value table).env.geometry space }
    ensures { IfSome result (IsClosedWith M.mix_of (arc_value table).env passes.items) }
{
    match Arc::into_inner(table) {
        Some(table) => Some(table.close_in(passes, space)),
        None => None,
    }
}
