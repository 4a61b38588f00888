//! Whether a history is legal, told by a slow list of pairs.

ghost use Rattle.std.specs.Prelude.{◌≡◌, ◌↔◌, [], length, IsTrue, IfOk};
ghost use Rattle.std.specs.Bool.{OnTrue};
ghost use Rattle.rht_model.specs.Pairs.{bindings_in};
ghost use Rattle.rht_model.specs.Answers.{bind_reply, find_reply, release_reply, rebind_reply, MayRefuse};
ghost use Rattle.rht_model.specs.Histories.{without_kick, IsAnswered, IsRefused, IsLegalAt, left_by, IsLegal};

use crate::history::{Call, Entry, Reply};
use crate::pair_list::PairList;
use rht_words::Kind;
use std::alloc::{AllocError, Global};

/// Whether the history is legal: from nothing bound on, each reply is the answer of its call where
/// it stands, or a refusal that the call may give. The one refusal is want of memory.
pub fn is_legal(alloc: Global, kind: Kind, history: &Vec<Entry>) -> Result<bool, AllocError>
    ensures { IfOk result (λ legal. IsTrue legal ↔ IsLegal kind history.now.items) }
{
    let mut bindings = PairList::new(alloc);
    for entry in history {
        if !admit(alloc, kind, &mut bindings, entry)? {
            return Ok(false);
        }
    }
    Ok(true)
}

/// Whether the entry is legal on the bindings. If it is, they go on to what it leaves.
fn admit(
    alloc: Global,
    kind: Kind,
    bindings: &mut PairList,
    entry: &Entry,
) -> Result<bool, AllocError>
    ensures legal { IfOk result (λ legal. IsTrue legal ↔ IsLegalAt kind (bindings_in bindings.old) entry.now) }
    ensures left { IfOk result (λ legal.
        OnTrue legal (bindings_in bindings.new ≡ left_by kind (bindings_in bindings.old) entry.now)) }
{
    if is_refused(entry) {
        return Ok(true);
    }
    let answered = is_answered(alloc, kind, bindings, entry)?;
    if answered {
        bindings.follow(alloc, kind, entry.call)?;
    }
    Ok(answered)
}

/// Whether the entry is answered with a refusal that its call may give.
fn is_refused(entry: &Entry) -> bool
    ensures { IsTrue result ↔ IsRefused entry.now }
{
    may_refuse(entry.call, entry.reply) && entry.owners.as_slice().is_empty()
}

fn may_refuse(call: Call, reply: Reply) -> bool
    ensures { IsTrue result ↔ MayRefuse call reply }
{
    match call {
        Call::Bind { .. } => matches!(
            reply,
            Reply::TooBig { .. }
                | Reply::Again { .. }
                | Reply::Busy { .. }
                | Reply::NoTable { .. }
                | Reply::NoNode
        ),
        Call::Rebind { .. } => matches!(reply, Reply::NoNode),
        _ => false,
    }
}

/// Whether the entry has the answer of its call on the bindings.
fn is_answered(
    alloc: Global,
    kind: Kind,
    bindings: &PairList,
    entry: &Entry,
) -> Result<bool, AllocError>
    ensures { IfOk result (λ answered. IsTrue answered ↔ IsAnswered kind (bindings_in bindings.now) entry.now) }
{
    match entry.call {
        Call::Bind { port, .. } => Ok(is_plain(
            entry,
            bind_reply(kind, &bindings.owners(alloc, port)?),
        )),
        Call::Find { port } => Ok(is_plain(entry, find_reply(&bindings.owners(alloc, port)?))),
        Call::All { port } => Ok(is_list(entry, &bindings.owners(alloc, port)?)),
        Call::Release { port, owner } => Ok(is_plain(
            entry,
            release_reply(owner, &bindings.owners(alloc, port)?),
        )),
        Call::Rebind { port, owner, .. } => Ok(is_plain(
            entry,
            rebind_reply(owner, &bindings.owners(alloc, port)?),
        )),
        _ => Ok(false),
    }
}

/// Whether the entry has this reply, `kick` aside, and no owners.
fn is_plain(entry: &Entry, reply: Reply) -> bool
    ensures { IsTrue result ↔ ((without_kick entry.now.reply ≡ reply) × (entry.now.owners ≡ [])) }
{
    without_kick(entry.reply) == reply && entry.owners.as_slice().is_empty()
}

/// Whether the entry lists these owners.
fn is_list(entry: &Entry, owners: &[u32]) -> bool
    ensures { IsTrue result ↔ (
        (without_kick entry.now.reply ≡ Reply.Listed (length owners.now)) × (entry.now.owners ≡ owners.now)) }
{
    match entry.reply {
        Reply::Listed { len } => len as usize == owners.len() && entry.owners.as_slice() == owners,
        _ => false,
    }
}

/// The reply as histories look at it.
fn without_kick(reply: Reply) -> Reply
    ensures { result ≡ without_kick reply }
{
    match reply {
        Reply::Bound { .. } => Reply::Bound { kick: false },
        Reply::Released { .. } => Reply::Released { kick: false },
        other => other,
    }
}

fn bind_reply(kind: Kind, owners: &[u32]) -> Reply
    ensures { result ≡ bind_reply kind owners.now }
{
    match (kind, owners) {
        (Kind::Single, [first, ..]) => Reply::Exists { owner: *first },
        _ => Reply::Bound { kick: false },
    }
}

fn find_reply(owners: &[u32]) -> Reply
    ensures { result ≡ find_reply owners.now }
{
    match owners {
        [] => Reply::Missing,
        [first, ..] => Reply::Found { owner: *first },
    }
}

fn release_reply(owner: u32, owners: &[u32]) -> Reply
    ensures { result ≡ release_reply owner owners.now }
{
    if owners.contains(&owner) {
        Reply::Released { kick: false }
    } else {
        Reply::Absent
    }
}

fn rebind_reply(owner: u32, owners: &[u32]) -> Reply
    ensures { result ≡ rebind_reply owner owners.now }
{
    if owners.contains(&owner) {
        Reply::Rebound
    } else {
        Reply::Absent
    }
}
