//! The verdict on a claimed history. Each claim is looked at once, with the bindings that those
//! before it leave and the commands that its worker has left.

ghost use Rattle.std.specs.Prelude.{◌≡◌, ◌↔◌, [], IsTrue, IfOk, length};
ghost use Rattle.std.specs.Bool.{OnTrue};
ghost use Rattle.rht_model.specs.Answers.{MayRefuse};
ghost use Rattle.rht_model.specs.Histories.{without_kick, IsLegalAt, left_by};
ghost use Rattle.rht_check.specs.Claims.{entry_of, IsSoundClaim};
ghost use Rattle.rht_check.specs.Updates.{owners_at};
ghost use Rattle.rht_check.specs.Verdicts.{IsVerdict};

use crate::claim::{Claim, Verdict};
use crate::commands_left::CommandsLeft;
use crate::port_map::PortMap;
use rht_model::{Call, Owners, Reply};
use rht_words::{Kind, Port};
use std::alloc::{AllocError, Global};

/// Judges a claimed history. The first claim that isn't right decides: its worker has no command
/// left, or its reply is neither what the call answers there nor a refusal that it may have. The
/// one refusal is want of memory.
///
/// Each claim takes time that grows as the logarithm of the number of bound ports, and beyond it as
/// its port's list of owners.
pub fn check(alloc: Global, claim: &Claim) -> Result<Verdict, AllocError>
    requires { IsSoundClaim claim.now }
    ensures { IfOk result (IsVerdict claim.now) }
{
    let script = &claim.script;
    let mut left = CommandsLeft::new(alloc, script.config.callers, &script.commands)?;
    let mut bindings = PortMap::new(alloc);
    for i in 0..claim.claims.len() {
        let number = i as u32 + 1;
        let told = &claim.claims[i];
        let Some(call) = left.next(told.0) else {
            return Ok(Verdict::Extra { claim: number });
        };
        if !admit(alloc, script.config.kind, &mut bindings, call, told)? {
            return Ok(Verdict::Wrong { claim: number });
        }
    }
    match left.unfinished() {
        Some(worker) => Ok(Verdict::Unfinished { worker }),
        None => Ok(Verdict::Legal {
            bindings: bindings.listing(alloc)?,
        }),
    }
}

/// Whether the claim is legal on the bindings as the answer of the call. If it is, they go on to
/// what it leaves.
fn admit(
    alloc: Global,
    kind: Kind,
    bindings: &mut PortMap,
    call: Call,
    told: &(u32, Reply, Owners),
) -> Result<bool, AllocError>
    ensures legal { IfOk result (λ legal. IsTrue legal ↔ IsLegalAt kind (owners_at bindings.old) (entry_of told.now call)) }
    ensures left { IfOk result (λ legal.
        OnTrue legal (owners_at bindings.new ≡ left_by kind (owners_at bindings.old) (entry_of told.now call))) }
{
    if may_refuse(call, told.1) {
        return Ok(told.2.as_slice().is_empty());
    }
    match call {
        Call::Bind { port, owner, .. } => Ok(is_plain(
            told,
            bindings.bind(alloc, kind, port, owner)?,
        )),
        Call::Find { port } => Ok(is_plain(told, bindings.find(port))),
        Call::All { port } => Ok(is_list(told, port, bindings)),
        Call::Release { port, owner } => Ok(is_plain(told, bindings.release(port, owner))),
        Call::Rebind { port, owner, new } => Ok(is_plain(told, bindings.rebind(port, owner, new))),
        _ => Ok(false),
    }
}

/// Whether the call may be refused with this reply.
fn may_refuse(call: Call, reply: Reply) -> bool
    ensures { IsTrue result ↔ MayRefuse call reply }
{
    match call {
        Call::Bind { .. } => matches!(
            reply,
            Reply::TooBig { .. }
                | Reply::Again { .. }
                | Reply::Busy { .. }
                | Reply::NoTable { .. }
                | Reply::NoNode
        ),
        Call::Rebind { .. } => matches!(reply, Reply::NoNode),
        _ => false,
    }
}

/// Whether the claim has this reply, `kick` aside, and no owners.
fn is_plain(told: &(u32, Reply, Owners), reply: Reply) -> bool
    ensures { IsTrue result ↔ ((without_kick told.now.1 ≡ reply) × (told.now.2 ≡ [])) }
{
    without_kick(told.1) == reply && told.2.as_slice().is_empty()
}

/// Whether the claim lists the owners of the port.
fn is_list(told: &(u32, Reply, Owners), port: Port, bindings: &PortMap) -> bool
    ensures { IsTrue result ↔ (
        (without_kick told.now.1 ≡ Reply.Listed (length (owners_at bindings.now port))) × (told.now.2 ≡ owners_at bindings.now port)) }
{
    let owners = told.2.as_slice();
    match told.1 {
        Reply::Listed { len } => len as usize == owners.len() && bindings.are_owners(port, owners),
        _ => false,
    }
}

/// The reply as histories look at it.
fn without_kick(reply: Reply) -> Reply
    ensures { result ≡ without_kick reply }
{
    match reply {
        Reply::Bound { .. } => Reply::Bound { kick: false },
        Reply::Released { .. } => Reply::Released { kick: false },
        other => other,
    }
}
